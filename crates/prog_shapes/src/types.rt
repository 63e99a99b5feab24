// The types that expressions have written.
ghost use Rattle.std.specs.Prelude.{◌≡◌};
ghost use Rattle.ir_poly.specs.Prog.{type_of};
ghost use Rattle.prog_tree.specs.TreeOf.{Reading, tree_of};
ghost use Rattle.prog_shapes.specs.Shapes.{last_type, joined_type, given_type};

use prog_tree::tree::{Exp, Join, Side};

/// The type of an application to arguments, where that of the function is given.
fn applied_type(function: usize, arguments: &[(usize, Exp)]) -> usize
    ensures { result ≡ last_type function arguments.now }
{
    if arguments.is_empty() {
        return function;
    }
    arguments[arguments.len() - 1].0
}

/// The type of a chain, where that of its first operand is given.
fn chain_type(side: Side, first: usize, joins: &[(Join, Exp, Exp)]) -> usize
    ensures { result ≡ joined_type side first joins.now }
{
    if joins.is_empty() {
        return first;
    }
    match side {
        Side::Left => joins[joins.len() - 1].0.ty,
        Side::Right => joins[0].0.ty,
    }
}

/// The type of a sequence, where that of the last expression is given.
fn sequence_type(before: &[Exp], last: usize, ty: usize) -> usize
    ensures { result ≡ given_type before.now last ty }
{
    if before.is_empty() {
        return last;
    }
    ty
}

/// The number of the type that an expression has written.
pub fn type_of(exp: &Exp) -> usize
    ensures { (R : Reading) → R.type result ≡ type_of (tree_of R exp.now) }
{
    match exp {
        Exp::Atom(_, ty) => *ty,
        Exp::Use(_, _, ty) => *ty,
        Exp::Record(ty, _) => *ty,
        Exp::Let(ty, _, _) => *ty,
        Exp::Apply(_, function, arguments) => applied_type(type_of(function), arguments),
        Exp::Infix(side, first, joins) => chain_type(*side, type_of(first), joins),
        Exp::Case(_, ty, _, _) => *ty,
        Exp::Sequence(_, ty, before, last) => sequence_type(before, type_of(last), *ty),
        Exp::Test(_, ty, _, _) => *ty,
        Exp::Handle(ty, _, _) => *ty,
        Exp::Raise(ty, _) => *ty,
        Exp::Fn(ty, _) => *ty,
        Exp::Counted(_, ty, _) => *ty,
    }
}
