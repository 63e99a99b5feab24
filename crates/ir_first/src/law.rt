// Laws of the two meanings, as contracts.

ghost use Rattle.ir_first.specs.Laws.{MeaningsAreOne, MeaningsAreOneUnlessWrong};

/// The meaning with results and the continued one are equal at every number of turns, where nothing misses that is not to; and wherever the continued one
/// isn't wrong.
pub fn meanings_are_one()
    ensures whole { MeaningsAreOne }
    ensures unless_wrong { MeaningsAreOneUnlessWrong }
{}
