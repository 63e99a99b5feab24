// The law of building, as a contract.

ghost use Rattle.mono_read.specs.Laws.{TreesAreBuilt};

/// Of the words of a tree the tree is built.
pub fn trees_are_built()
    ensures { TreesAreBuilt }
{}
