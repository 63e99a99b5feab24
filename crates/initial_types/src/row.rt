// Rows of the initial basis, by what their types are.

use mlc_prims::basis::BasisPrimitive;
use ty_core::mark::Mark;

/// A closed scheme: over one parameter with this mark, the variable 0 of its body, or over none.
#[derive(Clone, Copy)]
pub struct Scheme {
    pub mark: Option<Mark>,
    pub body: usize,
}

/// What has a type in the initial basis.
#[derive(Clone, Copy)]
pub enum Row {
    /// `ref`
    Reference,
    /// `true` or `false`
    Truth,
    /// `nil`
    Nil,
    /// `::`
    Cons,
    Exception,
    /// A primitive, over its parameter.
    General(BasisPrimitive),
    /// A primitive without a parameter.
    Plain(BasisPrimitive),
}
