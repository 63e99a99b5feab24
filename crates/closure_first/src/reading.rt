// Laws, as contracts.

ghost use Rattle.closure_first.specs.Same.{TreesReadSame};

/// A tree reads the same by strings that have the same numbers.
pub fn trees_read_same()
    ensures { TreesReadSame }
{}
