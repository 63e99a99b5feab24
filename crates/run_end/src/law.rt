// A law of settled types, as a contract.

ghost use Rattle.run_end.specs.Laws.{SettledTypesAreOne};

/// A settled type stands for the same in all worlds in which what the state says comes true.
pub fn settled_types_are_one()
    ensures { SettledTypesAreOne }
{}
