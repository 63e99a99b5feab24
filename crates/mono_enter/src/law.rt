// The law of what words want, as a contract.

ghost use Rattle.mono_enter.specs.Laws.{WordsAreWanted};

/// The words of copies want what the copies do, in the same order.
pub fn words_are_wanted()
    ensures { WordsAreWanted }
{}
