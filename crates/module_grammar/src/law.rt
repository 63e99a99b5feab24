// The laws of the grammar of programs with modules, and of the function that reads it.

ghost use Rattle.module_grammar.specs.Laws.{BadSound, Complete, Cut, DeepComplete, DeepSound, OneOutcome, OneTree, Sound};

/// No tokens are a source in two ways.
pub fn one_tree()
    ensures { OneTree }
{}

/// The reading function gives exactly the trees of the grammar that aren't too deep, and tells the two refusals apart.
pub fn reads_sources()
    ensures sound { Sound }
    ensures complete { Complete }
    ensures deep_sound { DeepSound }
    ensures deep_complete { DeepComplete }
    ensures bad_sound { BadSound }
{}

/// Terminals are a source that isn't too deep, or too deep, or wrong, and one of these alone.
pub fn one_outcome()
    ensures { OneOutcome }
{}

/// Partial trees are trees that are cut off: a tree has one of each depth up to its own.
pub fn partial_trees()
    ensures { Cut }
{}
