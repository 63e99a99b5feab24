// Whether expressions are values.
ghost use Rattle.std.specs.Prelude.{◌≡◌};
ghost use Rattle.ir_poly.specs.Prog.{is_value, is_construction};
ghost use Rattle.prog_known.specs.Lists.{all_hold};
ghost use Rattle.prog_tree.specs.TreeOf.{Reading, tree_of, atom_of, use_of};
ghost use Rattle.prog_values.specs.Parts.{field_is_value, join_is_value, are_values, names_construction, uses_construction, is_nil};

use mlc_names::label::Label;
use prog_known::answers::both;
use prog_tree::tree::{Atom, Exp, Join, Used};

fn is_exception(atom: Atom) -> bool
    ensures { result ≡ names_construction atom }
{
    match atom {
        Atom::Constant(_) => false,
        Atom::Own(_) => false,
        Atom::Exception(_) => true,
        Atom::Reference(_) => false,
    }
}

fn is_constructor(used: Used) -> bool
    ensures { result ≡ uses_construction used }
{
    match used {
        Used::Variable(_) => false,
        Used::Constructor(_, _) => true,
        Used::Primitive(_) => false,
    }
}

/// Whether a list has nothing.
fn is_nothing<T>(list: &[T]) -> bool
    ensures { result ≡ is_nil list.now }
{
    list.is_empty()
}

/// Whether an expression makes what it is applied to.
pub fn is_construction(exp: &Exp) -> bool
    ensures { (R : Reading) → result ≡ is_construction (tree_of R exp.now) }
{
    match exp {
        Exp::Atom(atom, _) => is_exception(*atom),
        Exp::Use(used, _, _) => is_constructor(*used),
        Exp::Record(_, _) => false,
        Exp::Let(_, _, _) => false,
        Exp::Apply(_, function, arguments) => {
            both(is_nothing(arguments), is_construction(function))
        }
        Exp::Infix(_, first, joins) => both(is_nothing(joins), is_construction(first)),
        Exp::Case(_, _, _, _) => false,
        Exp::Sequence(_, _, before, last) => both(is_nothing(before), is_construction(last)),
        Exp::Test(_, _, _, _) => false,
        Exp::Handle(_, _, _) => false,
        Exp::Raise(_, _) => false,
        Exp::Fn(_, _) => false,
        Exp::Counted(_, _, body) => is_construction(body),
    }
}

/// Whether an expression's value can be generalised: it needs no turns but those of constructions.
#[cycle(values)]
pub fn is_value(exp: &Exp) -> bool
    ensures { (R : Reading) → result ≡ is_value (tree_of R exp.now) }
{
    match exp {
        Exp::Atom(_, _) => true,
        Exp::Use(_, _, _) => true,
        Exp::Record(_, fields) => fields_are_values(fields),
        Exp::Let(_, _, _) => false,
        Exp::Apply(_, function, arguments) => {
            is_applied(arguments, is_value(function), is_construction(function))
        }
        Exp::Infix(_, first, joins) => both(is_value(first), joins_are_values(joins)),
        Exp::Case(_, _, _, _) => false,
        Exp::Sequence(_, _, before, last) => both(is_nothing(before), is_value(last)),
        Exp::Test(_, _, _, _) => false,
        Exp::Handle(_, _, _) => false,
        Exp::Raise(_, _) => false,
        Exp::Fn(_, _) => true,
        Exp::Counted(_, _, body) => is_value(body),
    }
}

/// Whether an application to these arguments is a value: a construction of one value, or the function alone.
#[cycle(values)]
fn is_applied(arguments: &[(usize, Exp)], alone: bool, makes: bool) -> bool
    ensures { (R : Reading) → result ≡ are_values R alone makes arguments.now }
{
    if arguments.is_empty() {
        return alone;
    }
    if arguments.len() > 1 {
        return false;
    }
    let argument = &arguments[0];
    both(makes, is_value(&argument.1))
}

#[cycle(values)]
fn fields_are_values(fields: &[(Label, Exp)]) -> bool
    ensures { (R : Reading) → result ≡ all_hold (field_is_value R) fields.now }
{
    let mut so_far = true;
    for i in 0..fields.len() {
        let field = &fields[i];
        let one = is_value(&field.1);
        so_far = both(so_far, one);
    }
    so_far
}

#[cycle(values)]
fn joins_are_values(joins: &[(Join, Exp, Exp)]) -> bool
    ensures { (R : Reading) → result ≡ all_hold (join_is_value R) joins.now }
{
    let mut so_far = true;
    for i in 0..joins.len() {
        let join = &joins[i];
        let made = is_construction(&join.1);
        let value = is_value(&join.2);
        so_far = both(so_far, both(made, value));
    }
    so_far
}
