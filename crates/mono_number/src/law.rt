// The law of numbering, as a contract.

ghost use Rattle.mono_number.specs.Laws.{WordsAreNumbered};

/// The words of copies become those of the copies with numbers.
pub fn words_are_numbered()
    ensures { WordsAreNumbered }
{}
