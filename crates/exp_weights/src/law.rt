// Laws of counts, as contracts.

ghost use Rattle.exp_weights.specs.Whole.{CountsAreWhole};

/// No node is counted twice, and none is left out.
pub fn counts_are_whole()
    ensures { CountsAreWhole }
{}
