// What the pass keeps, as contracts.

ghost use Rattle.ir_poly.specs.Prog.{Decs};
ghost use Rattle.ir_poly.specs.WellFormed.{Program};
ghost use Rattle.match_compile.specs.Laws.{KeepsMeaning, KeepsTyping, BindsOnce, MakesLocal, KeepsWeight, KeepsExceptions, StaysWellFormed, SameMeaning, BringsNoException, SameExpansion};

/// Any program and the tests that it becomes have one outcome at every number of turns, also where they go wrong.
pub fn compiled_does_the_same()
    ensures { (ds : Decs) → KeepsMeaning ds }
{}

/// A well typed program becomes well typed tests, and no miss gets out of them.
pub fn typing_is_kept()
    ensures { (ds : Decs) → KeepsTyping ds }
{}

/// What any program becomes binds each variable once, and each atom in its own function.
pub fn variables_are_bound()
    ensures once { (ds : Decs) → BindsOnce ds }
    ensures local { (ds : Decs) → MakesLocal ds }
{}

/// It stands for as many nodes of the source, and makes the same exceptions.
pub fn counts_are_kept()
    ensures weight { (ds : Decs) → KeepsWeight ds }
    ensures exceptions { (ds : Decs) → KeepsExceptions ds }
{}

/// What a pass has to keep: of a well formed program it makes a well formed one, with the same outcomes, no new exception and the same expansion.
pub fn programs_are_kept()
    ensures well_formed { (p : Program Decs) → StaysWellFormed p }
    ensures same { (p : Program Decs) → SameMeaning p }
    ensures exceptions { (p : Program Decs) → BringsNoException p }
    ensures size { (p : Program Decs) → SameExpansion p }
{}
