// Laws of the plain-order tree, as contracts.

ghost use Rattle.ir_plain.specs.Kind.{Kind};
ghost use Rattle.ir_plain.specs.Laws.{CopiesGive, OperationsAgain, CopiesWeigh, OnceIsUnique, FuelIsEnough};

/// A form that fills in the tree.
pub trait Plain {
    ghost kind: { Kind };
}

/// A value that is generalised may be copied without its turns: the copy gives the same in every world with the same store, leaves the world as it is,
/// and stands for as many nodes.
pub fn values_are_copied<F: Plain>()
    ensures same { CopiesGive F.kind }
    ensures again { OperationsAgain F.kind }
    ensures weight { CopiesWeigh F.kind }
{}

/// A program whose variables are bound once binds none where it is bound already.
pub fn once_is_unique<F: Plain>()
    ensures { OnceIsUnique F.kind }
{}

/// Calls that may nest deeper than the turns allow change nothing.
pub fn fuel_is_enough<F: Plain>()
    ensures { FuelIsEnough F.kind }
{}
