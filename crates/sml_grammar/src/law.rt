// The laws of the grammar of the core, and of the function that reads it.

ghost use Rattle.sml_grammar.specs.Laws.{BadSound, Complete, DeepComplete, DeepSound, OneTree, Sound};

/// No tokens are declarations in two ways.
pub fn one_tree()
    ensures { OneTree }
{}

/// The reading function gives exactly the trees of the grammar that aren't too deep, and tells the two refusals apart.
pub fn reads_exactly()
    ensures sound { Sound }
    ensures complete { Complete }
    ensures deep_sound { DeepSound }
    ensures deep_complete { DeepComplete }
    ensures bad_sound { BadSound }
{}
