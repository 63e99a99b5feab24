// What the type names of types in the end are below.
ghost use Rattle.std.specs.Prelude.{◌≡◌, Some, IfOk};
ghost use Rattle.ty_core.specs.TypesOf.{head_of};
ghost use Rattle.core_rules.specs.Objects.{SymbolOver};
ghost use Rattle.final_types.specs.Bounds.{AreBounds, IsBoundOf, bound_in, wider_of, widest};

use crate::node::limit_of;
use mlc_base::memory::NoMemory;
use std::alloc::Global;
use ty_core::ty::Head;
use ty_solve::solver::Solver;
use ty_table::types::View;

/// The bound of a type, none where none is known.
pub fn bound_at(bounds: &[Option<usize>], k: usize) -> Option<usize>
    ensures { result ≡ bound_in bounds.now k }
{
    if k < bounds.len() { bounds[k] } else { None }
}

/// A bound of what either is a bound of.
fn wider(bound: Option<usize>, other: Option<usize>) -> Option<usize>
    ensures { result ≡ wider_of bound other }
{
    match bound {
        Some(a) => match other {
            Some(b) => Some(a.max(b)),
            None => None,
        },
        None => None,
    }
}

/// A bound of a symbol's own name.
fn head_bound(head: &Head) -> usize
    ensures { SymbolOver result (head_of head.now) }
{
    match head {
        Head::Named(name) => name.stamp as usize + 1,
        _ => 0,
    }
}

/// The widest bound of all.
fn parts_bound(bounds: &[Option<usize>], least: usize, parts: &[usize]) -> Option<usize>
    ensures { result ≡ widest bounds.now (Some least) parts.now }
{
    let mut bound = Some(least);
    for i in 0..parts.len() {
        bound = wider(bound, bound_at(bounds, parts[i]));
    }
    bound
}

/// The bound of a type, where those of earlier ones are known. A variable's names are those of its limit.
fn bound_of(solver: &Solver, bounds: &[Option<usize>], k: usize) -> Option<usize>
    requires { AreBounds solver.now bounds.now }
    ensures { IsBoundOf solver.now k result }
{
    match solver.subst.types.view(k) {
        View::Var(v) => Some(limit_of(solver, v).names),
        View::Apply(head, parts) => parts_bound(bounds, head_bound(head), parts),
    }
}

/// The bounds of all types.
pub fn bounds_of(alloc: Global, solver: &Solver) -> Result<Vec<Option<usize>>, NoMemory>
    ensures { IfOk result (λ bounds. AreBounds solver.now bounds.items) }
{
    let mut bounds = Vec::new(alloc);
    for k in 0..solver.subst.types.len() {
        let bound = bound_of(solver, &bounds, k);
        bounds.push(bound)?;
    }
    Ok(bounds)
}
