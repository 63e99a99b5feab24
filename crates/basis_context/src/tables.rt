// The types of the initial basis in a state.
ghost use Rattle.std.specs.Prelude.{◌≡◌, length, map, slice_get, take, IfOk, Some};
ghost use Rattle.ty_table.specs.TypeAt.{type_at, AllBelow};
ghost use Rattle.ty_solve.specs.SlotsOf.{seen};
ghost use Rattle.ty_solve.specs.Said.{said};
ghost use Rattle.elab_steps.specs.Growing.{Grows};
ghost use Rattle.elab_state.specs.States.{types_in};
ghost use Rattle.basis_context.specs.Basis.{body_of, body_with, function_bodies, HasBasis};

use crate::rows::TYPES;
use elab_state::state::State;
use initial_types::row::Scheme;
use initial_types::schemes::{hidden_schemes, initial_schemes, integer_schemes};
use initial_types::shapes::{applied, shape_in};
use ir_uses::shape::Shape;
use mlc_base::memory::NoMemory;
use std::alloc::Global;
use ty_core::name::TyName;
use ty_solve::solver::Solver;
use ty_solve::subst::Subst;
use ty_table::types::Types;

/// Schemes of values, of the members of `Int` and of `Prim`, and bodies of type functions, by number.
#[derive(Drop)]
pub struct Basis {
    pub values: Vec<Scheme>,
    pub integers: Vec<Scheme>,
    pub hidden: Vec<Scheme>,
    pub bodies: Vec<usize>,
}

/// The body of a type name.
fn named_in(alloc: Global, types: &mut Types, name: TyName) -> Result<usize, NoMemory>
    ensures is { IfOk result (λ r. slice_get types.new r ≡ Some (body_with name name.arity)) }
    ensures earlier_stay { take (length types.old) types.new ≡ types.old }
{
    if name.arity == 0 {
        return shape_in(alloc, types, Shape::Named(name));
    }
    let parameter = types.variable(alloc, 0)?;
    applied(alloc, types, name, parameter)
}

/// The body of a type constructor.
fn body_in(alloc: Global, types: &mut Types, name: Option<TyName>) -> Result<usize, NoMemory>
    ensures is { IfOk result (λ r. slice_get types.new r ≡ Some (body_of name)) }
    ensures earlier_stay { take (length types.old) types.new ≡ types.old }
{
    match name {
        None => shape_in(alloc, types, Shape::Unit),
        Some(name) => named_in(alloc, types, name),
    }
}

/// The bodies of all type constructors.
fn bodies_in(alloc: Global, types: &mut Types) -> Result<Vec<usize>, NoMemory>
    ensures held { IfOk result (λ made. AllBelow (length types.new) made.items) }
    ensures are { IfOk result (λ made. map (type_at types.new) made.items ≡ function_bodies) }
    ensures earlier_stay { take (length types.old) types.new ≡ types.old }
{
    let mut made = Vec::new(alloc);
    for i in 0..TYPES.len() {
        let body = body_in(alloc, types, TYPES[i].1)?;
        made.push(body)?;
    }
    Ok(made)
}

/// The types of the basis in a table.
fn basis_in(alloc: Global, types: &mut Types) -> Result<Basis, NoMemory>
    ensures has { IfOk result (λ b. HasBasis types.new b) }
    ensures earlier_stay { take (length types.old) types.new ≡ types.old }
{
    let values = initial_schemes(alloc, types)?;
    let integers = integer_schemes(alloc, types)?;
    let hidden = hidden_schemes(alloc, types)?;
    let bodies = bodies_in(alloc, types)?;
    Ok(Basis {
        values,
        integers,
        hidden,
        bodies,
    })
}

/// In the table of a substitution. What is said of variables stays.
fn basis_under(alloc: Global, s: &mut Subst) -> Result<Basis, NoMemory>
    ensures has { IfOk result (λ b. HasBasis s.new.types b) }
    ensures earlier_stay { take (length s.old.types) s.new.types ≡ s.old.types }
    ensures slots { s.new.slots.items ≡ s.old.slots.items }
    ensures says { seen s.new.types s.new.slots.items ≡ seen s.old.types s.old.slots.items }
{
    basis_in(alloc, &mut s.types)
}

/// In the table of a solver.
fn basis_within(alloc: Global, solver: &mut Solver) -> Result<Basis, NoMemory>
    ensures has { IfOk result (λ b. HasBasis solver.new.subst.types b) }
    ensures earlier_stay { take (length solver.old.subst.types) solver.new.subst.types ≡ solver.old.subst.types }
    ensures slots { solver.new.subst.slots.items ≡ solver.old.subst.slots.items }
    ensures limits { solver.new.limits.items ≡ solver.old.limits.items }
    ensures says { said solver.new.subst ≡ said solver.old.subst }
{
    basis_under(alloc, &mut solver.subst)
}

/// In a state.
pub fn basis_of(alloc: Global, state: &mut State) -> Result<Basis, NoMemory>
    ensures has { IfOk result (λ b. HasBasis (types_in state.new) b) }
    ensures grows { IfOk result (λ _. Grows state.old state.new) }
    ensures tables { state.new.tables ≡ state.old.tables }
    ensures variables { state.new.solver.subst.slots.items ≡ state.old.solver.subst.slots.items }
    ensures next { state.new.next ≡ state.old.next }
{
    basis_within(alloc, &mut state.solver)
}
