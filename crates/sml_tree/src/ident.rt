// Identifiers.

use mlc_names::names::Name;

/// A value identifier.
#[derive(Clone, Copy, PartialEq, Eq, Debug)]
pub enum Vid {
    Named(Name),
    /// `=`, which is reserved and yet stands for equality.
    Equals,
    /// A variable that a derived form makes: no program names it.
    Fresh(u32),
}

/// A type variable, and whether it ranges over types that admit equality.
#[derive(Clone, Copy, PartialEq, Eq, Debug)]
pub struct Tyvar {
    pub name: Name,
    pub equality: bool,
}

/// The constructors that derived forms name, whatever is in scope.
#[derive(Clone, Copy, PartialEq, Eq, Debug)]
pub enum BuiltIn {
    True,
    False,
    Nil,
    Cons,
}

/// An identifier of a value after the structures that qualify it.
#[derive(Debug, Drop)]
pub struct LongVid {
    pub qualifiers: Vec<Name>,
    pub vid: Vid,
}

/// An identifier of a type constructor or a structure after the structures that qualify it.
#[derive(Debug, Drop)]
pub struct LongId {
    pub qualifiers: Vec<Name>,
    pub id: Name,
}

/// A special constant.
#[derive(Debug, Drop)]
pub enum Constant {
    Int(i32),
    Word(u32),
    Char(u8),
    Str(Vec<u8>),
}
