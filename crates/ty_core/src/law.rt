// Laws of type functions, as contracts.

ghost use Rattle.ty_core.specs.Laws.{NamesGiveTheirTypes};

/// A type name gives its types.
pub fn names_give_their_types()
    ensures { NamesGiveTheirTypes }
{}
