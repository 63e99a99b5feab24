// Laws of declarations of datatypes, as contracts.

ghost use Rattle.datatype_forms.specs.Declaration.{DatatypesAreBringing, DatatypesAreInContext};

/// A declaration of datatypes that is done brings its type constructors and its constructors into scope.
pub fn datatypes_are_bringing()
    ensures { DatatypesAreBringing }
{}

/// And the state has the context behind it.
pub fn datatypes_are_in_context()
    ensures { DatatypesAreInContext }
{}
