// How applications and matches go, seen by their first nodes.
ghost use Rattle.std.specs.Prelude.{◌≡◌, ◌&&◌, IfOk};
ghost use Rattle.mlc_names.specs.declared.label.Label.TheVariants.{Number};
ghost use Rattle.ir_values.specs.Values.{same_label};
ghost use Rattle.ty_core.specs.Types.{Typ};
ghost use Rattle.ir_poly.specs.Prog.{Exp as Source};
ghost use Rattle.match_compile.specs.Compile as clean;
ghost use Rattle.prog_tree.specs.TreeOf.{Reading, tree_of, pat_of, atom_of, use_of};
ghost use Rattle.match_steps.specs.of_match_types.declared.work.Work.{Work as State};
ghost use Rattle.exp_steps.specs.Ways.{way_of, headed, operands, type_or_unit, labels_from};
ghost use Rattle.exp_steps.specs.Making.{Weighs};

use crate::operations::push_counted;
use mlc_base::memory::NoMemory;
use mlc_names::label::Label;
use mlc_prims::basis::BasisPrimitive;
use plain_tree::tree::Step;
use prog_tree::tree::{Atom, Exception, Exp, Pat, Used};

/// What makes its value at once.
#[derive(Clone, Copy)]
pub enum Built {
    Constructor(usize),
    /// `ref`, at the type of what is held.
    Reference(usize),
    Exception(Exception),
}

/// An application is a call, or makes a value at once, or performs a primitive, at a type where it has one.
#[derive(Clone, Copy)]
pub enum Way {
    Call,
    Building(Built),
    Performing(BasisPrimitive, Option<usize>),
}

/// What an application begins with.
#[derive(Clone, Copy)]
pub enum Heading {
    Other,
    Value(Built),
    /// A primitive and the first type that it is used at.
    Primitive(BasisPrimitive, Option<usize>),
}

fn atom_head(atom: Atom) -> Heading
    ensures { (R : Reading) (u : Typ) (a : Source) → clean.way (atom_of R atom u) a ≡ headed result (λ k. clean.is_tuple k a) R }
{
    match atom {
        Atom::Constant(_) => Heading::Other,
        Atom::Own(_) => Heading::Other,
        Atom::Exception(exception) => Heading::Value(Built::Exception(exception)),
        Atom::Reference(held) => Heading::Value(Built::Reference(held)),
    }
}

fn used_head(what: Used, types: &[usize]) -> Heading
    ensures { (R : Reading) (u : Typ) (a : Source) → clean.way (use_of R what types.now u) a ≡ headed result (λ k. clean.is_tuple k a) R }
{
    match what {
        Used::Variable(_) => Heading::Other,
        Used::Constructor(constructor, _) => Heading::Value(Built::Constructor(constructor)),
        Used::Primitive(primitive) => {
            if types.is_empty() {
                Heading::Primitive(primitive, None)
            } else {
                Heading::Primitive(primitive, Some(types[0]))
            }
        }
    }
}

/// What an expression is, under nodes that add nothing but weight.
fn head_of(exp: &Exp) -> Heading
    ensures { (R : Reading) (a : Source) → clean.way (tree_of R exp.now) a ≡ headed result (λ k. clean.is_tuple k a) R }
{
    match exp {
        Exp::Atom(atom, _) => atom_head(*atom),
        Exp::Use(what, types, _) => used_head(*what, types),
        Exp::Counted(_, _, inner) => head_of(inner),
        Exp::Apply(_, inner, rest) => {
            if rest.is_empty() {
                return head_of(inner);
            }
            Heading::Other
        }
        Exp::Infix(_, inner, rest) => {
            if rest.is_empty() {
                return head_of(inner);
            }
            Heading::Other
        }
        Exp::Sequence(_, _, dropped, inner) => {
            if dropped.is_empty() {
                return head_of(inner);
            }
            Heading::Other
        }
        Exp::Record(_, _) => Heading::Other,
        Exp::Let(_, _, _) => Heading::Other,
        Exp::Case(_, _, _, _) => Heading::Other,
        Exp::Test(_, _, _, _) => Heading::Other,
        Exp::Handle(_, _, _) => Heading::Other,
        Exp::Raise(_, _) => Heading::Other,
        Exp::Fn(_, _) => Heading::Other,
    }
}

/// How many arguments a primitive has.
fn arity(primitive: BasisPrimitive) -> usize
    ensures { result ≡ clean.arity primitive }
{
    match primitive {
        BasisPrimitive::Negate | BasisPrimitive::Absolute | BasisPrimitive::BitsNot => 1,
        BasisPrimitive::ToInt | BasisPrimitive::ToIntSigned | BasisPrimitive::FromInt => 1,
        BasisPrimitive::CharCode | BasisPrimitive::CharOf | BasisPrimitive::TextOf => 1,
        BasisPrimitive::SizeOf | BasisPrimitive::StringOf | BasisPrimitive::Print => 1,
        BasisPrimitive::Add | BasisPrimitive::Subtract | BasisPrimitive::Multiply => 2,
        BasisPrimitive::Divide | BasisPrimitive::Modulo => 2,
        BasisPrimitive::Quotient | BasisPrimitive::Remainder => 2,
        BasisPrimitive::Less | BasisPrimitive::LessEqual | BasisPrimitive::Equals => 2,
        BasisPrimitive::Greater | BasisPrimitive::GreaterEqual | BasisPrimitive::Assign => 2,
        BasisPrimitive::BitsAnd | BasisPrimitive::BitsOr | BasisPrimitive::BitsXor => 2,
        BasisPrimitive::ShiftLeft | BasisPrimitive::ShiftRight => 2,
        BasisPrimitive::ShiftSigned | BasisPrimitive::CharAt | BasisPrimitive::Concat => 2,
        BasisPrimitive::PartOf => 3,
    }
}

/// Whether a label is this number.
fn is_number(label: Label, number: usize) -> bool
    ensures { result ≡ same_label (Number number) label }
{
    match label {
        Label::Number(found) => number == found as usize,
        Label::Word(_) => false,
    }
}

/// Whether the labels are 1, 2, ..
fn are_numbered(fields: &[(Label, Exp)]) -> bool
    ensures { result ≡ labels_from 1 fields.now }
{
    for i in 0..fields.len() {
        if !is_number(fields[i].0, i + 1) {
            return false;
        }
    }
    true
}

/// Whether a tuple of so many parts is written.
fn is_tuple(count: usize, exp: &Exp) -> bool
    ensures { (R : Reading) → result ≡ clean.is_tuple count (tree_of R exp.now) }
{
    match exp {
        Exp::Record(_, fields) => {
            if fields.len() != count {
                return false;
            }
            are_numbered(fields)
        }
        Exp::Counted(_, _, inner) => is_tuple(count, inner),
        Exp::Apply(_, inner, rest) => {
            if rest.is_empty() {
                return is_tuple(count, inner);
            }
            false
        }
        Exp::Infix(_, inner, rest) => {
            if rest.is_empty() {
                return is_tuple(count, inner);
            }
            false
        }
        Exp::Sequence(_, _, dropped, inner) => {
            if dropped.is_empty() {
                return is_tuple(count, inner);
            }
            false
        }
        Exp::Atom(_, _) => false,
        Exp::Use(_, _, _) => false,
        Exp::Let(_, _, _) => false,
        Exp::Case(_, _, _, _) => false,
        Exp::Test(_, _, _, _) => false,
        Exp::Handle(_, _, _) => false,
        Exp::Raise(_, _) => false,
        Exp::Fn(_, _) => false,
    }
}

/// How a primitive is applied, where its tuple may be written.
fn primitive_way(primitive: BasisPrimitive, at: Option<usize>, many: bool, written: bool) -> Way
    ensures { (R : Reading) → way_of result R ≡ clean.performed (many && written) primitive (type_or_unit at R) }
{
    if many && written {
        return Way::Performing(primitive, at);
    }
    Way::Call
}

/// How a function is applied to an argument.
pub fn application_way(function: &Exp, argument: &Exp) -> Way
    ensures { (R : Reading) → clean.way (tree_of R function.now) (tree_of R argument.now) ≡ way_of result R }
{
    match head_of(function) {
        Heading::Other => Way::Call,
        Heading::Value(built) => Way::Building(built),
        Heading::Primitive(primitive, at) => {
            let count = arity(primitive);
            let written = is_tuple(count, argument);
            primitive_way(primitive, at, count > 1, written)
        }
    }
}

/// How an operator is applied to its operands.
pub fn pair_way(operator: &Exp) -> Way
    ensures { (R : Reading) (u : Typ) (d e : Source) → clean.way (tree_of R operator.now) (operands u d e) ≡ way_of result R }
{
    match head_of(operator) {
        Heading::Other => Way::Call,
        Heading::Value(built) => Way::Building(built),
        Heading::Primitive(primitive, at) => {
            let count = arity(primitive);
            primitive_way(primitive, at, count > 1, count == 2)
        }
    }
}

/// The weights of a function that isn't made itself.
pub fn push_weights(exp: &Exp, steps: &mut Vec<Step>) -> Result<(), NoMemory>
    ensures { IfOk result (λ _. (w : State) → Weighs w w steps.old.items steps.new.items (λ R. tree_of R exp.now)) }
{
    match exp {
        Exp::Counted(count, _, inner) => {
            push_counted(*count, steps)?;
            push_weights(inner, steps)?;
            Ok(())
        }
        Exp::Apply(_, inner, rest) => {
            if rest.is_empty() {
                push_weights(inner, steps)?;
            }
            Ok(())
        }
        Exp::Infix(_, inner, rest) => {
            if rest.is_empty() {
                push_weights(inner, steps)?;
            }
            Ok(())
        }
        Exp::Sequence(_, _, dropped, inner) => {
            if dropped.is_empty() {
                push_weights(inner, steps)?;
            }
            Ok(())
        }
        Exp::Atom(_, _) => Ok(()),
        Exp::Use(_, _, _) => Ok(()),
        Exp::Record(_, _) => Ok(()),
        Exp::Let(_, _, _) => Ok(()),
        Exp::Case(_, _, _, _) => Ok(()),
        Exp::Test(_, _, _, _) => Ok(()),
        Exp::Handle(_, _, _) => Ok(()),
        Exp::Raise(_, _) => Ok(()),
        Exp::Fn(_, _) => Ok(()),
    }
}

/// Whether any value fits a pattern.
pub fn fits_all(pat: &Pat) -> bool
    ensures { (R : Reading) → result ≡ clean.fits_all (pat_of R pat.now) }
{
    match pat {
        Pat::Any => true,
        Pat::Variable(_) => true,
        Pat::As(_, inner) => fits_all(inner),
        Pat::Chain(_, first, parts) => {
            if parts.is_empty() {
                return fits_all(first);
            }
            false
        }
        Pat::Constant(_) => false,
        Pat::Constructor(_) => false,
        Pat::Exception(_) => false,
        Pat::Before(_, _, _) => false,
        Pat::Record(_, _) => false,
    }
}
