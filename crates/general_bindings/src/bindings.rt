// Generalised bindings: a value in a block; of a pattern that isn't one variable a record of all variables, of which each is a field.
ghost use Rattle.std.specs.Prelude.{◌≡◌, [], suc, IfOk};
ghost use Rattle.ir_plain.specs.Tree.{ret};
ghost use Rattle.ir_poly.specs.Tests.{Tests};
ghost use Rattle.match_compile.specs.Compile.{atom, past_split, split_spots, spot, no_spots, general_shape};
ghost use Rattle.prog_tree.specs.TreeOf.{Reading, pat_of};
ghost use Rattle.pattern_tests.specs.of_match_types.Views.{View, Keeps, Stands, value_type, in_view};
ghost use Rattle.pattern_tests.specs.of_match_steps.Steps.{Puts};
ghost use Rattle.pattern_tests.specs.Spots.{spots_onto};
ghost use Rattle.pattern_tests.specs.Tasks.{tests_of};
ghost use Rattle.exp_blocks.specs.Giving.{Gives};
ghost use Rattle.general_bindings.specs.General.{over_scope, general, spots_of, whole, found as in_pattern, past, recording, separate, shape_of, past_of, found_of, made_of};

use crate::records::{push_general, push_split, push_together, raise_bind, record_type};
use exp_blocks::blocks::{ended, one_of};
use mlc_base::memory::NoMemory;
use pattern_tests::match_types::types::scoped_type;
use pattern_tests::match_types::work::{ValueType, Work};
use pattern_tests::patterns::push_tests;
use pattern_tests::spots::Spot;
use plain_tree::tree::{Exp, Step};
use prog_tree::tree::Pat;
use std::alloc::Global;

/// A generalised binding of one variable to a value, which these steps make.
fn push_alone(
    alloc: Global,
    work: &mut Work,
    parameters: usize,
    x: usize,
    u: ValueType,
    inner: Vec<Step>,
    value: usize,
    steps: &mut Vec<Step>,
    spots: &mut Vec<Spot>,
) -> Result<(), NoMemory>
    ensures next { IfOk result (λ _. work.new.next ≡ suc work.old.next) }
    ensures keeps { IfOk result (λ _. Keeps work.old work.new) }
    ensures spots { IfOk result (λ _. (v : View) → spots_onto v spots.new.items no_spots
        ≡ spot x work.old.next (value_type v u) (spots_onto v spots.old.items no_spots)) }
    ensures puts { IfOk result (λ _. (f : View → Tests → Tests) → Puts work.old [] inner.items f
        → Puts work.new steps.old.items steps.new.items (general parameters work.old.next (in_view u) (λ v. f v (ret (atom value))))) }
{
    let body = ended(alloc, inner, value)?;
    let ty = scoped_type(alloc, work, u)?;
    let number = push_general(alloc, work, parameters, ty, body, steps)?;
    spots.push(Spot {
        variable: x,
        number,
        ty: u,
    })?;
    Ok(())
}

/// The tests of a value against a pattern, and where the pattern's variables are, the latest first.
fn push_found(
    alloc: Global,
    work: &mut Work,
    pat: &Pat,
    u: ValueType,
    value: usize,
    steps: &mut Vec<Step>,
) -> Result<Vec<Spot>, NoMemory>
    ensures next { IfOk result (λ _. (v : View) → work.new.next ≡ past pat.now work.old.next v) }
    ensures keeps { IfOk result (λ _. Keeps work.old work.new) }
    ensures spots { IfOk result (λ made. (v : View) → spots_of v made.items ≡ in_pattern pat.now u work.old.next value v) }
    ensures tests { IfOk result (λ _. Puts work.new steps.old.items steps.new.items (tests_of pat.now u work.old.next value)) }
{
    let mut found = Vec::new(alloc);
    push_tests(alloc, work, pat, u, value, steps, &mut found)?;
    found.reverse();
    Ok(found)
}

/// The record of a pattern's variables, with its type and where the variables are, the latest first.
#[derive(Drop)]
struct Recorded {
    spots: Vec<Spot>,
    ty: usize,
    body: Exp,
}

/// The record of the variables of a pattern for a value that these steps make.
fn record_body(
    alloc: Global,
    work: &mut Work,
    pat: &Pat,
    u: ValueType,
    mut inner: Vec<Step>,
    value: usize,
) -> Result<Recorded, NoMemory>
    ensures next { IfOk result (λ _. (v : View) → work.new.next ≡ suc (suc (past pat.now work.old.next v))) }
    ensures keeps { IfOk result (λ _. Keeps work.old work.new) }
    ensures spots { IfOk result (λ made. (v : View) → spots_of v made.spots.items ≡ in_pattern pat.now u work.old.next value v) }
    ensures ty { IfOk result (λ made. Stands work.new made.ty (over_scope (whole made.spots.items))) }
    ensures gives { IfOk result (λ made. (f : View → Tests → Tests) → Puts work.old [] inner.items f
        → Gives work.new made.body (recording pat.now u work.old.next value f)) }
{
    let found = push_found(alloc, work, pat, u, value, &mut inner)?;
    let ty = record_type(alloc, work, &found)?;
    let whole = push_together(alloc, work, ty, &found, &mut inner)?;
    let other = raise_bind(alloc, work, ty)?;
    let body = ended(alloc, inner, whole)?;
    let body = one_of(alloc, body, other)?;
    Ok(Recorded {
        spots: found,
        ty,
        body,
    })
}

/// Any other generalised binding: a record of its variables, and each of them.
fn push_recorded(
    alloc: Global,
    work: &mut Work,
    parameters: usize,
    pat: &Pat,
    u: ValueType,
    inner: Vec<Step>,
    value: usize,
    steps: &mut Vec<Step>,
    spots: &mut Vec<Spot>,
) -> Result<(), NoMemory>
    ensures next { IfOk result (λ _. (v : View)
        → work.new.next ≡ past_split (in_pattern pat.now u work.old.next value v) (suc (suc (suc (past pat.now work.old.next v))))) }
    ensures keeps { IfOk result (λ _. Keeps work.old work.new) }
    ensures spots { IfOk result (λ _. (v : View) → spots_onto v spots.new.items no_spots
        ≡ split_spots (in_pattern pat.now u work.old.next value v) (suc (suc (suc (past pat.now work.old.next v)))) (spots_onto v spots.old.items no_spots)) }
    ensures puts { IfOk result (λ _. (f : View → Tests → Tests) → Puts work.old [] inner.items f
        → Puts work.new steps.old.items steps.new.items (separate parameters pat.now u work.old.next value f)) }
{
    let made = record_body(alloc, work, pat, u, inner, value)?;
    let whole = push_general(alloc, work, parameters, made.ty, made.body, steps)?;
    let mut found = push_split(alloc, work, parameters, whole, made.ty, &made.spots, steps)?;
    found.reverse();
    spots.extend_from_slice(&found)?;
    Ok(())
}

/// A binding over parameters that are in scope: of one variable, where it is given, or any other.
pub fn push_shaped(
    alloc: Global,
    work: &mut Work,
    parameters: usize,
    sole: Option<usize>,
    pat: &Pat,
    u: ValueType,
    inner: Vec<Step>,
    value: usize,
    steps: &mut Vec<Step>,
    spots: &mut Vec<Spot>,
) -> Result<(), NoMemory>
    ensures next { IfOk result (λ _. (v : View) → work.new.next ≡ past_of sole pat.now u work.old.next value v) }
    ensures keeps { IfOk result (λ _. Keeps work.old work.new) }
    ensures spots { IfOk result (λ _. (v : View) → spots_onto v spots.new.items no_spots
        ≡ found_of sole pat.now u work.old.next value v (spots_onto v spots.old.items no_spots)) }
    ensures puts { IfOk result (λ _. (f : View → Tests → Tests) → Puts work.old [] inner.items f
        → Puts work.new steps.old.items steps.new.items (made_of sole parameters pat.now u work.old.next value f)) }
{
    match sole {
        Some(x) => {
            push_alone(alloc, work, parameters, x, u, inner, value, steps, spots)?;
            Ok(())
        }
        None => {
            push_recorded(alloc, work, parameters, pat, u, inner, value, steps, spots)?;
            Ok(())
        }
    }
}

/// The variable of a pattern that is one.
pub fn sole_variable(pat: &Pat) -> Option<usize>
    ensures { (R : Reading) → general_shape (pat_of R pat.now) ≡ shape_of result }
{
    match pat {
        Pat::Variable(x) => Some(*x),
        Pat::Chain(_, first, parts) => {
            if parts.is_empty() {
                return sole_variable(first);
            }
            None
        }
        Pat::Any => None,
        Pat::Constant(_) => None,
        Pat::Constructor(_) => None,
        Pat::Exception(_) => None,
        Pat::Before(_, _, _) => None,
        Pat::Record(_, _) => None,
        Pat::As(_, _) => None,
    }
}
