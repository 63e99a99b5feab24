// Laws of types behind a declaration, as contracts.

ghost use Rattle.general_vals.specs.Settling.{SettledTypesAreHeld};

/// What a type of a declaration comes to is a type that was generalised, behind its end.
pub fn settled_types_are_held()
    ensures { SettledTypesAreHeld }
{}
