// That the functions decide well-formedness, as contracts.

ghost use Rattle.prog_check.specs.Laws.{Decides, DecidesOnce, DecidesProg, KnowsAfter};

/// The function answers yes exactly where the rules of typing hold.
pub fn decides_typing()
    ensures exactly { Decides }
    ensures after { KnowsAfter }
{}

/// The variables that a program binds are distinct exactly where each is bound once.
pub fn decides_once()
    ensures { DecidesOnce }
{}

/// The whole answer is yes exactly where a program is well formed.
pub fn decides_prog()
    ensures { DecidesProg }
{}
