// Which exceptions end a program, as contracts.

ghost use Rattle.ssa_exceptions.specs.Uncaught.{UncaughtIsMade};
ghost use Rattle.ssa_exceptions.specs.Texts.{TextsOfMadeAreEnough};

/// An exception that nothing handles is one that the program makes, or one of the initial basis.
pub fn uncaught_is_made()
    ensures { UncaughtIsMade }
{}

/// So only the texts of those identifiers are told.
pub fn texts_of_made_are_enough()
    ensures { TextsOfMadeAreEnough }
{
    uncaught_is_made();
}
