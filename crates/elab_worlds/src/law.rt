// Laws of worlds, as contracts.

ghost use Rattle.elab_worlds.specs.Worlds.{ComesOf};
ghost use Rattle.elab_worlds.specs.Final.{FinalsAreOrdered, FinalsCome, LaterMayEnd, RunsMayEnd, StatesEnd};

/// A later state and a generic solution tell a world in which what the state says comes true.
pub fn comes_of()
    ensures { ComesOf }
{}

/// A state that may be the last one says in just one way what its variables stand for in the end, and has a world.
pub fn states_end()
    ensures { StatesEnd }
{}

/// What variables stand for then has the labels of records in order.
pub fn finals_are_ordered()
    ensures { FinalsAreOrdered }
{}

/// In that world what it says comes true.
pub fn finals_come()
    ensures { FinalsCome }
{}

/// Where elaboration went on from a tidy state, the state after may be the last one.
pub fn later_may_end()
    ensures { LaterMayEnd }
{}

/// So it is from a new state on.
pub fn runs_may_end()
    ensures { RunsMayEnd }
{}
