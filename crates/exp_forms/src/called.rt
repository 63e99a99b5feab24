// Operators of applications.
ghost use Rattle.std.specs.Prelude.{◌≡◌, true};
ghost use Rattle.sml_tree.specs.TreeOf.{exp_of};
ghost use Rattle.core_elab.specs.Resolves.{IsCalled};

use sml_tree::tree::Exp;

/// Whether an expression is a `fn` as it is written.
pub fn is_fn(exp: &Exp) -> bool {
    match exp {
        Exp::Fn(_, _) => true,
        _ => false,
    }
}

/// Whether an operator is surely no `fn`, which a list of operands with none in it would hide.
pub fn is_called(exp: &Exp) -> bool
    ensures { result ≡ true → IsCalled (exp_of exp.now) }
{
    match exp {
        Exp::Constant(_, _) => true,
        Exp::Vid(_, _) => true,
        Exp::BuiltIn(_, _) => true,
        Exp::Record(_, _) => true,
        Exp::Tuple(_, _) => true,
        Exp::List(_, _) => true,
        Exp::Sequence(_, _, rest) => rest.len() > 0,
        Exp::Let(_, _, _) => true,
        Exp::Apply(_, _, arguments) => arguments.len() > 0,
        Exp::Chain(_, _, _, parts) => parts.len() > 0,
        Exp::Typed(_, _, _) => true,
        Exp::Handle(_, _, _) => true,
        Exp::Raise(_, _) => true,
        Exp::Fn(_, _) => false,
    }
}
