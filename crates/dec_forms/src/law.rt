// Laws of declarations whose parts come into scope, as contracts.

ghost use Rattle.dec_forms.specs.Laws.{BringingsAreDeclarations, MoreAreBringing, NoneAreBringing};

/// No declarations bring nothing.
pub fn none_are_bringing()
    ensures { NoneAreBringing }
{}

/// One declaration more.
pub fn more_are_bringing()
    ensures { MoreAreBringing }
{}

/// What brings something into scope is a declaration.
pub fn bringings_are_declarations()
    ensures { BringingsAreDeclarations }
{}
