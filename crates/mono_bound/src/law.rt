// What is found is what the clean tree binds, as a contract.

ghost use Rattle.mono_bound.specs.Reads.{BoundIsBound};

/// What is found along the code's tree is what its clean tree binds, in that order.
pub fn bound_is_bound()
    ensures { BoundIsBound }
{}
