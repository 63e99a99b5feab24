// Whether a type is another one with types put for its variables.
ghost use Rattle.std.specs.Prelude.{◌≡◌, ◌↔◌, ◌++◌, ℕ, List, zip, length, true, false, IsTrue, IfOk};
ghost use Rattle.ir_tables.specs.of_ty_core.Types.{var};
ghost use Rattle.ir_tables.specs.of_ty_core.Statics.{replace};
ghost use Rattle.ir_tables.specs.of_ty_table.TypeAt.{type_at};
ghost use Rattle.ir_known.specs.Images.{image_of, IsImage, OpensImage};

use crate::ask::{is_unit, same_type};
use crate::stack::Stack;
use indexmap::IndexSet;
use ir_tables::ty_core::ty::same_head;
use ir_tables::ty_table::types::{Types, View};
use mlc_base::memory::NoMemory;
use std::alloc::Global;

/// What stands for a variable for which no type is put.
#[derive(Clone, Copy)]
pub enum Rest {
    Itself,
    Unit,
}

/// Whether a type is this variable.
fn is_variable(types: &Types, t: usize, v: usize) -> bool
    ensures { IsTrue result ↔ (type_at types.now t ≡ var v) }
{
    match types.view(t) {
        View::Var(found) => found == v,
        View::Apply(_, _) => false,
    }
}

/// Whether a type stands for a variable.
fn stands(types: &Types, images: &Stack<usize>, rest: Rest, v: usize, t: usize) -> bool
    ensures { IsTrue result ↔ (type_at types.now t ≡ image_of types.now images.now rest v) }
{
    match images.get(v) {
        Some(found) => same_type(types, t, found),
        None => match rest {
            Rest::Itself => is_variable(types, t, v),
            Rest::Unit => is_unit(types, t),
        },
    }
}

/// Puts the parts of two types, side by side, on the pairs that are pending.
fn push_pairs(
    parts: &[usize],
    others: &[usize],
    pending: &mut Vec<(usize, usize)>,
) -> Result<(), NoMemory>
    requires { length parts.now ≡ length others.now }
    ensures { IfOk result (λ _. pending.new.items ≡ pending.old.items ++ zip parts.now others.now) }
{
    for i in 0..parts.len() {
        pending.push((parts[i], others[i]))?;
    }
    Ok(())
}

/// Puts the pairs on which the answer rests on those that are pending, or says no. Of a type without variables nothing else is an image than the type itself.
fn open_pair(
    types: &Types,
    images: &Stack<usize>,
    rest: Rest,
    pair: (usize, usize),
    pending: &mut Vec<(usize, usize)>,
) -> Result<bool, NoMemory>
    ensures opens { IfOk result (λ yes. yes ≡ true → OpensImage types.now (image_of types.now images.now rest) pair pending.old.items pending.new.items) }
    ensures no { IfOk result (λ yes. yes ≡ false → IsImage types.now (image_of types.now images.now rest) pair → ⊥) }
{
    let (body, t) = pair;
    if types.top(body) == 0 {
        return Ok(same_type(types, t, body));
    }
    match types.view(body) {
        View::Var(v) => Ok(stands(types, images, rest, v, t)),
        View::Apply(head, parts) => match types.view(t) {
            View::Var(_) => Ok(false),
            View::Apply(other, others) => {
                if !same_head(head, other) {
                    return Ok(false);
                }
                if parts.len() != others.len() {
                    return Ok(false);
                }
                push_pairs(parts, others, pending)?;
                Ok(true)
            }
        },
    }
}

/// Whether a type is `body` with types put for its variables: each pair of numbers is looked at once.
pub fn is_image(
    alloc: Global,
    types: &Types,
    images: &Stack<usize>,
    rest: Rest,
    body: usize,
    t: usize,
) -> Result<bool, NoMemory>
    ensures { IfOk result (λ yes. IsTrue yes ↔ (type_at types.now t ≡ replace (image_of types.now images.now rest) (type_at types.now body))) }
{
    let mut seen: IndexSet<(usize, usize)> = IndexSet::new(alloc);
    let mut pending = Vec::new(alloc);
    pending.push((body, t))?;
    while let Some(next) = pending.pop() {
        let new = seen.insert(next)?;
        if new {
            let yes = open_pair(types, images, rest, next, &mut pending)?;
            if !yes {
                return Ok(false);
            }
        }
    }
    Ok(true)
}
