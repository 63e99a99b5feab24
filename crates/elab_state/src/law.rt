// Laws of states, as contracts.

ghost use Rattle.elab_state.specs.Generalising.{ValsGeneralise};
ghost use Rattle.elab_state.specs.Laws.{SolvablesAreGeneric, StepsCompose, TablesStay, TypesStay, ValuesAreOver, ValuesStay};

/// Steps one after the other are a step.
pub fn steps_compose()
    ensures { StepsCompose }
{}

/// A type of a state is one of the next.
pub fn types_stay()
    ensures { TypesStay }
{}

/// A generic solution gives a type a value over the parameters in scope.
pub fn values_are_over()
    ensures { ValuesAreOver }
{}

/// It has the same value in each state that grows from the one.
pub fn values_stay()
    ensures { ValuesStay }
{}

/// Constructors and lists of parameters stay under their numbers.
pub fn tables_stay()
    ensures { TablesStay }
{}

/// Where a `val` declaration ends, a generic solution after is one before, inside, with the declaration's parameters in scope.
pub fn vals_generalise()
    ensures { ValsGeneralise }
{}

/// Where nothing was generalised, what can be solved within its limits has a generic solution.
pub fn solvables_are_generic()
    ensures { SolvablesAreGeneric }
{}
