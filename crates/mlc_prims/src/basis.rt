// The primitives of the initial basis.

ghost use Rattle.std.specs.Prelude.{◌≡◌};
ghost use Rattle.mlc_prims.specs.Table.{basis_number};

/// A primitive of the initial basis, or a member of the structure `Prim` that the prelude sees.
#[derive(Clone, Copy, PartialEq, Eq, Debug)]
pub enum BasisPrimitive {
    /// `+`
    Add,
    /// `-`
    Subtract,
    /// `*`
    Multiply,
    /// `div`
    Divide,
    /// `mod`
    Modulo,
    /// `~`
    Negate,
    /// `abs`
    Absolute,
    /// `<`
    Less,
    /// `<=`
    LessEqual,
    /// `>`
    Greater,
    /// `>=`
    GreaterEqual,
    /// `=`
    Equals,
    /// `:=`
    Assign,
    /// `Prim.quot`
    Quotient,
    /// `Prim.rem`
    Remainder,
    /// `Prim.andb`
    BitsAnd,
    /// `Prim.orb`
    BitsOr,
    /// `Prim.xorb`
    BitsXor,
    /// `Prim.notb`
    BitsNot,
    /// `Prim.shl`
    ShiftLeft,
    /// `Prim.shr`
    ShiftRight,
    /// `Prim.sar`
    ShiftSigned,
    /// `Prim.toInt`
    ToInt,
    /// `Prim.toIntX`
    ToIntSigned,
    /// `Prim.fromInt`
    FromInt,
    /// `Prim.ord`
    CharCode,
    /// `Prim.chr`
    CharOf,
    /// `Prim.text`
    TextOf,
    /// `Prim.size`
    SizeOf,
    /// `Prim.sub`
    CharAt,
    /// `Prim.part`
    PartOf,
    /// `Prim.cat`
    Concat,
    /// `Prim.str`
    StringOf,
    /// `Prim.print`
    Print,
}

impl BasisPrimitive {
    /// Its number, which no other primitive has.
    pub fn number(self) -> u32
        ensures { result ≡ basis_number self }
    {
        self as u32
    }
}
