// Laws of copies, as contracts.

ghost use Rattle.mono_exceptions.specs.Laws.{MakesNoMore};

/// Copies make no exceptions but those of the program.
pub fn copies_make_no_more()
    ensures { MakesNoMore }
{}
