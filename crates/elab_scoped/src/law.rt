// A law of type variables, as a contract.

ghost use Rattle.elab_scoped.specs.Laws.{NoneIsNew};

/// Where bindings elaborate with the type variables that are in scope round them, their declaration scopes none of its own.
pub fn none_is_new()
    ensures { NoneIsNew }
{}
