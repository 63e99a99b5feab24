// Laws of the definitions, as contracts.

ghost use Rattle.ty_basis.specs.Laws.{NamesAreNumbered, OverloadedComeFirst, RowsHaveTheirTypes};

/// Each type name stands at the place of its number, and the overloaded ones come first.
pub fn names_are_numbered()
    ensures numbered { NamesAreNumbered }
    ensures overloaded { OverloadedComeFirst }
{}

/// The table of primitives has a row for all values of the types that a primitive takes, and it makes values of the type that it gives.
pub fn rows_have_their_types()
    ensures { RowsHaveTheirTypes }
{}
