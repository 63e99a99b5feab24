// Laws of flow sets, as contracts.

ghost use Rattle.flow_sets.specs.Laws.{ByTypeSolves};

/// In a well formed program all functions of each type are a solution.
pub fn sets_by_type_solve()
    ensures { ByTypeSolves }
{}
