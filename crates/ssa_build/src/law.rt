// Laws of the pass, as contracts.

ghost use Rattle.ssa_build.specs.Laws.{SameMeaning, StaysWellFormed, StaysSmall, BindsNoMore, NeedsNoMoreAtOnce, MakesNoMore};

/// The SSA form of a program does the same at every number of turns, whatever the program; that of a well formed one is well formed. It has at most twice
/// the nodes, each function binds a part of what it bound, in order and as often, and has no more variables in scope at once; it makes no other exceptions.
pub fn ssa_build_keeps()
    ensures same { SameMeaning }
    ensures well_formed { StaysWellFormed }
    ensures small { StaysSmall }
    ensures binders { BindsNoMore }
    ensures at_once { NeedsNoMoreAtOnce }
    ensures exceptions { MakesNoMore }
{}
