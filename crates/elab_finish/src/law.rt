// Laws of the program at the end, as contracts.

ghost use Rattle.elab_finish.specs.Laws.{MadeProgramsAreRight, ProgramsAreRight, RunsAreRight};

/// The program of declarations that were elaborated in the initial basis is right.
pub fn programs_are_right()
    ensures { ProgramsAreRight }
{}

/// So it is behind a tidy state whose constructors may stand in a program's table.
pub fn runs_are_right()
    ensures { RunsAreRight }
{}

/// So is the program that is made of the last state and the tree.
pub fn made_programs_are_right()
    ensures { MadeProgramsAreRight }
{}
