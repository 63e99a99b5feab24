// The types that are measured.

use mlc_base::memory::NoMemory;
use mlc_names::label::Label;
use std::alloc::Global;
use ty_core::mark::Mark;
use ty_core::name::{Equality, TyName};
use ty_core::ty::Head;
use ty_solve::known::{fits, is_known};
use ty_solve::row::Row;
use ty_solve::solve::unify;
use ty_solve::subst::Subst;
use ty_table::types::Types;

pub const LIST: TyName = TyName {
    stamp: 20,
    arity: 1,
    equality: Equality::ByArguments,
};

/// A number that no table has.
pub const NONE: usize = usize::MAX;

/// A substitution, and two types of it.
#[derive(Drop)]
pub struct Problem {
    pub s: Subst,
    pub left: usize,
    pub right: usize,
}

/// A type name with a part.
pub fn one(alloc: Global, s: &mut Subst, name: TyName, part: usize) -> Result<usize, NoMemory> {
    if part < s.types.len() {
        s.apply(alloc, Head::Named(name), &[part])
    } else {
        Ok(NONE)
    }
}

/// A pair of a type with itself.
fn pair(alloc: Global, s: &mut Subst, part: usize) -> Result<usize, NoMemory> {
    let labels = vec![in alloc; Label::Number(1), Label::Number(2)]?;
    if part < s.types.len() {
        s.apply(alloc, Head::Record(labels), &[part, part])
    } else {
        Ok(NONE)
    }
}

/// A new variable as a type.
pub fn variable(alloc: Global, s: &mut Subst) -> Result<usize, NoMemory> {
    let v = s.fresh(Mark::Any)?;
    s.variable(alloc, v)
}

/// A row with one field, of a new type, as a type.
pub fn row(alloc: Global, s: &mut Subst) -> Result<usize, NoMemory> {
    let field = variable(alloc, s)?;
    let mut row = Row::empty(alloc, false);
    row.labels.push(Label::Number(1))?;
    row.types.push(field)?;
    if fits(alloc, s, &row)? {
        let v = s.fresh_row(row)?;
        s.variable(alloc, v)
    } else {
        Ok(NONE)
    }
}

/// A variable under so many lists.
fn lists(alloc: Global, s: &mut Subst, depth: usize) -> Result<usize, NoMemory> {
    let mut last = variable(alloc, s)?;
    for _ in 0..depth {
        last = one(alloc, s, LIST, last)?;
    }
    Ok(last)
}

/// A variable under 40 pairs of a type with itself.
fn doubled(alloc: Global, s: &mut Subst) -> Result<usize, NoMemory> {
    let mut last = variable(alloc, s)?;
    for _ in 0..40 {
        last = pair(alloc, s, last)?;
    }
    Ok(last)
}

/// Two types of so many nodes, which share none.
pub fn deep_types(alloc: Global, nodes: usize) -> Result<Problem, NoMemory> {
    let mut s = Subst::new(alloc)?;
    let left = lists(alloc, &mut s, nodes.saturating_sub(1))?;
    let right = lists(alloc, &mut s, nodes.saturating_sub(1))?;
    Ok(Problem { s, left, right })
}

/// Two types of 2^40 nodes as written, and 41 in the table.
pub fn shared_types(alloc: Global) -> Result<Problem, NoMemory> {
    let mut s = Subst::new(alloc)?;
    let left = doubled(alloc, &mut s)?;
    let right = doubled(alloc, &mut s)?;
    Ok(Problem { s, left, right })
}

/// Whether two types are made equal.
pub fn are_unified(alloc: Global, s: &mut Subst, left: usize, right: usize) -> bool {
    is_known(s, left) && is_known(s, right) && unify(alloc, s, left, right).is_ok()
}

fn arrow(alloc: Global, types: &mut Types, from: usize, to: usize) -> Result<usize, NoMemory> {
    if from < types.len() && to < types.len() {
        types.apply(alloc, Head::Function, &[from, to])
    } else {
        Ok(NONE)
    }
}

/// A body of 20 nodes: two parameters, and eighteen arrows over them.
pub fn scheme_body(alloc: Global, types: &mut Types) -> Result<usize, NoMemory> {
    let mut left = types.variable(alloc, 0)?;
    let right = types.variable(alloc, 1)?;
    for _ in 0..9 {
        let arrow_to_itself = arrow(alloc, types, left, left)?;
        left = arrow(alloc, types, right, arrow_to_itself)?;
    }
    Ok(left)
}
