// Type names.

/// Whether the types that a type name makes admit equality.
#[derive(Clone, Copy, PartialEq, Eq, Debug)]
pub enum Equality {
    /// Always, whatever its arguments are.
    Always,
    /// Where all its arguments do.
    ByArguments,
    Never,
}

/// A type name: its number among all type names, how many arguments it takes, and its equality attribute.
#[derive(Clone, Copy, PartialEq, Eq, Debug)]
pub struct TyName {
    pub stamp: u32,
    pub arity: u32,
    pub equality: Equality,
}

impl TyName {
    pub const INT: TyName = TyName {
        stamp: 0,
        arity: 0,
        equality: Equality::Always,
    };

    pub const WORD: TyName = TyName {
        stamp: 1,
        arity: 0,
        equality: Equality::Always,
    };

    pub const CHAR: TyName = TyName {
        stamp: 2,
        arity: 0,
        equality: Equality::Always,
    };

    pub const STRING: TyName = TyName {
        stamp: 3,
        arity: 0,
        equality: Equality::Always,
    };

    pub const REF: TyName = TyName {
        stamp: 4,
        arity: 1,
        equality: Equality::Always,
    };

    pub const EXN: TyName = TyName {
        stamp: 5,
        arity: 0,
        equality: Equality::Never,
    };
}
