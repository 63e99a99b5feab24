// Limits that fall along what variables stand for.
ghost use Rattle.std.specs.Prelude.{◌≡◌, ◌<◌, ◌≤◌, ◌+◌, ◌++◌, ◌∷◌, [], ℕ, length, IfOk, IfErr, true, false};
ghost use Rattle.ty_table.specs.of_ty_core.Types.{var, name};
ghost use Rattle.ty_table.specs.of_ty_core.TypesOf.{head_of};
ghost use Rattle.ty_table.specs.of_ty_core.declared.name.TyName.{TyName};
ghost use Rattle.ty_table.specs.TypeAt.{type_at, types_at};
ghost use Rattle.ty_solve.specs.Substitution.{are_below};
ghost use Rattle.ty_solve.specs.Forces.{Problem, IsForced};
ghost use Rattle.ty_solve.specs.Said.{said};
ghost use Rattle.ty_solve.specs.Limits.{SymbolOver, limit_at};
ghost use Rattle.ty_solve.specs.Lowering.{undo_limits, variables, sum, together, Lowering, LowersOne, Visits, LowersType, RefusesName, RefusesIn, RefusesLimits};
ghost use Rattle.ty_solve.specs.declared.limit.Limit.{Limit};

use crate::limit::{KeptLimit, Limit, narrower};
use crate::refused::UnifyRefused;
use crate::subst::Subst;
use crate::trail::Kept;
use crate::walk::{add_all, look_under};
use indexmap::IndexSet;
use mlc_base::memory::NoMemory;
use std::alloc::Global;
use ty_table::ty_core::ty::Head;
use ty_table::types::{Types, View};

/// Puts back what was kept of limits, the last first.
pub fn put_back_limits(limits: &mut Vec<Limit>, kept: &mut Vec<KeptLimit>)
    ensures { limits.new.items ≡ undo_limits kept.old.items limits.old.items }
{
    while let Some(last) = kept.pop() {
        restore(limits, last);
    }
}

/// Puts back what was kept of one limit.
fn restore(limits: &mut Vec<Limit>, kept: KeptLimit)
    ensures { limits.new.items ≡ undo_limits (kept ∷ []) limits.old.items }
{
    let KeptLimit { variable, limit } = kept;
    if variable < limits.len() {
        limits[variable] = limit;
    }
}

/// Gives a variable a limit no wider than `to`, and notes it if that is a change.
fn lower_variable(
    limits: &mut Vec<Limit>,
    y: usize,
    to: Limit,
    noted: &mut Vec<usize>,
    kept: &mut Vec<KeptLimit>,
) -> Result<(), NoMemory>
    requires { y < length limits.old.items }
    ensures undone { undo_limits kept.new.items limits.new.items ≡ undo_limits kept.old.items limits.old.items }
    ensures same_length { length limits.new.items ≡ length limits.old.items }
    ensures lowers { IfOk result (λ _. LowersOne limits.old.items limits.new.items y to noted.old.items noted.new.items) }
{
    let old = limits[y];
    let next = narrower(old, to);
    if next == old {
        return Ok(());
    }
    noted.push(y)?;
    kept.push(KeptLimit {
        variable: y,
        limit: old,
    })?;
    limits[y] = next;
    Ok(())
}

/// Whether a symbol is no type name but one of the first `names`.
fn is_old(head: &Head, names: usize) -> bool
    ensures old { result ≡ true → SymbolOver names (head_of head.now) }
    ensures late { result ≡ false → (n : TyName) × (head_of head.now ≡ name n) × (names ≤ n.stamp) }
{
    match head {
        Head::Named(name) => (name.stamp as usize) < names,
        Head::Function => true,
        Head::Record(_) => true,
    }
}

/// Looks at the first node of a type: a variable's limit falls, and the parts of another type are pending.
fn visit(
    types: &Types,
    k: usize,
    to: Limit,
    limits: &mut Vec<Limit>,
    pending: &mut Vec<usize>,
    noted: &mut Vec<usize>,
    kept: &mut Vec<KeptLimit>,
) -> Result<(), UnifyRefused>
    requires { (y : ℕ) → type_at types.now k ≡ var y → y < length limits.old.items }
    ensures undone { undo_limits kept.new.items limits.new.items ≡ undo_limits kept.old.items limits.old.items }
    ensures same_length { length limits.new.items ≡ length limits.old.items }
    ensures visits { IfOk result (λ _. Visits types.now k to limits.old.items limits.new.items pending.old.items pending.new.items noted.old.items
        noted.new.items) }
    ensures cause { IfErr result (RefusesName (type_at types.now k) to) }
{
    match types.view(k) {
        View::Var(y) => {
            lower_variable(limits, y, to, noted, kept)?;
            Ok(())
        }
        View::Apply(head, parts) => {
            if !is_old(head, to.names) {
                return Err(UnifyRefused::Clash);
            }
            add_all(pending, parts)?;
            Ok(())
        }
    }
}

/// Gives the variables of types limits no wider than `to`. Each part of them is looked at once.
fn lower_types(
    alloc: Global,
    types: &Types,
    parts: Vec<usize>,
    to: Limit,
    limits: &mut Vec<Limit>,
    noted: &mut Vec<usize>,
    kept: &mut Vec<KeptLimit>,
) -> Result<(), UnifyRefused>
    requires { are_below (length limits.old.items) (types_at types.now parts.items) ≡ true }
    ensures undone { undo_limits kept.new.items limits.new.items ≡ undo_limits kept.old.items limits.old.items }
    ensures same_length { length limits.new.items ≡ length limits.old.items }
    ensures lowers { IfOk result (λ _. LowersType (together (types_at types.now parts.items)) to limits.old.items limits.new.items noted.old.items
        noted.new.items) }
    ensures cause { IfErr result (RefusesIn (together (types_at types.now parts.items)) to) }
{
    let mut seen: IndexSet<usize> = IndexSet::new(alloc);
    let mut pending = parts;
    while let Some(next) = pending.pop() {
        let new = seen.insert(next)?;
        if new {
            match visit(types, next, to, limits, &mut pending, noted, kept) {
                Err(refused) => return Err(refused),
                Ok(()) => {}
            }
        }
    }
    Ok(())
}

/// Lets the limit of a variable fall along what it stands for.
fn lower_under(
    alloc: Global,
    s: &Subst,
    v: usize,
    limits: &mut Vec<Limit>,
    noted: &mut Vec<usize>,
    kept: &mut Vec<KeptLimit>,
) -> Result<(), UnifyRefused>
    requires { length limits.old.items ≡ length s.now.slots.items }
    ensures undone { undo_limits kept.new.items limits.new.items ≡ undo_limits kept.old.items limits.old.items }
    ensures same_length { length limits.new.items ≡ length limits.old.items }
    ensures lowers { IfOk result (λ _. (p : Problem) (b : ℕ → Limit) → IsForced p (said s.now)
        → Lowering p (said s.now) b (limit_at limits.old.items) (noted.old.items ++ v ∷ [])
        → Lowering p (said s.now) b (limit_at limits.new.items) noted.new.items) }
    ensures fewer { IfOk result (λ _. sum limits.new.items + length noted.new.items ≤ sum limits.old.items + length noted.old.items) }
    ensures cause { IfErr result (λ e. (p : Problem) (b : ℕ → Limit) → IsForced p (said s.now)
        → Lowering p (said s.now) b (limit_at limits.old.items) (noted.old.items ++ v ∷ []) → RefusesLimits p (said s.now) b e) }
{
    if v >= limits.len() {
        return Ok(());
    }
    let to = limits[v];
    let mut parts = Vec::new(alloc);
    look_under(s, v, &mut parts)?;
    lower_types(alloc, &s.types, parts, to, limits, noted, kept)
}

/// The variables of a trail.
fn changed(alloc: Global, trail: &[Kept]) -> Result<Vec<usize>, NoMemory>
    ensures { IfOk result (λ noted. noted.items ≡ variables trail.now) }
{
    let mut noted = Vec::new(alloc);
    for kept in trail {
        noted.push(kept.variable)?;
    }
    Ok(noted)
}

/// Lets limits fall along what the variables of a trail stand for, until none rises.
pub fn lower(
    alloc: Global,
    s: &Subst,
    trail: &[Kept],
    limits: &mut Vec<Limit>,
    kept: &mut Vec<KeptLimit>,
) -> Result<(), UnifyRefused>
    requires { length limits.old.items ≡ length s.now.slots.items }
    ensures undone { undo_limits kept.new.items limits.new.items ≡ undo_limits kept.old.items limits.old.items }
    ensures same_length { length limits.new.items ≡ length limits.old.items }
    ensures lowers { IfOk result (λ _. (p : Problem) → IsForced p (said s.now) → Lowering p (said s.now) (limit_at limits.old.items) (limit_at limits.old.items)
        (variables trail.now) → Lowering p (said s.now) (limit_at limits.old.items) (limit_at limits.new.items) []) }
    ensures cause { IfErr result (λ e. (p : Problem) → IsForced p (said s.now) → Lowering p (said s.now) (limit_at limits.old.items) (limit_at limits.old.items)
        (variables trail.now) → RefusesLimits p (said s.now) (limit_at limits.old.items) e) }
{
    let mut noted = changed(alloc, trail)?;
    while let Some(v) = noted.pop() {
        match lower_under(alloc, s, v, limits, &mut noted, kept) {
            Err(refused) => return Err(refused),
            Ok(()) => {}
        }
    }
    Ok(())
}
