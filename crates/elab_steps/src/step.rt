// What the elaborator does to its state.
ghost use Rattle.std.specs.Prelude.{◌≡◌, ◌<◌, ◌≤◌, ◌+◌, true, length, IfOk};
ghost use Rattle.ty_core.specs.Types.{con};
ghost use Rattle.ty_core.specs.TypesOf.{head_of};
ghost use Rattle.ty_core.specs.Marks.{is_inhabited};
ghost use Rattle.elab_state.specs.of_ir_tables.Tables.{string_at};
ghost use Rattle.elab_state.specs.of_elab_typed.Numbers.{type_as};
ghost use Rattle.elab_state.specs.Namings.{IsAmong};
ghost use Rattle.elab_state.specs.States.{dead_level, limit_in, made, types_in};
ghost use Rattle.elab_steps.specs.Growing.{HasType, Always, AreTypes, Grows, IsLimited, IsWithin, types_of};
ghost use Rattle.elab_steps.specs.Instances.{begins_as_function};
ghost use Rattle.elab_steps.specs.Ordered.{is_ordered};
ghost use Rattle.elab_steps.specs.World.{type_of};
ghost use Rattle.ty_table.specs.TypeAt.{AllBelow, type_at, types_at};
ghost use Rattle.elab_types.specs.of_ty_solve.Changes.{IsFitRow};
ghost use Rattle.elab_types.specs.of_ty_solve.Limits.{AllLimited};
ghost use Rattle.elab_types.specs.of_ty_solve.Rows.{Extends};
ghost use Rattle.elab_types.specs.of_ty_solve.SlotsOf.{row_in};

use elab_state::naming::Written;
use elab_state::state::State;
use elab_types::refused::Refused;
use elab_types::ty_solve::limit::Limit;
use elab_types::ty_solve::refused::UnifyRefused;
use elab_types::ty_solve::row::Row;
use mlc_base::memory::NoMemory;
use mlc_base::place::Place;
use std::alloc::Global;
use ty_core::mark::Mark;
use ty_core::ty::Head;
use ty_table::types::View;

/// A new variable of types, as a type.
pub fn fresh_type(
    alloc: Global,
    state: &mut State,
    mark: Mark,
    limit: Limit,
) -> Result<usize, NoMemory>
    requires inhabited { is_inhabited mark ≡ true }
    requires wide { 4 ≤ limit.names }
    requires deep { limit.level < dead_level }
    requires inside { limit.level ≤ state.old.level }
    ensures grows { IfOk result (λ _. Grows state.old state.new) }
    ensures is { IfOk result (λ r. HasType state.new r) }
    ensures within { IfOk result (λ r. Always state.new (λ W. IsWithin W limit r)) }
    ensures limited { IfOk result (λ r. IsLimited state.new limit r) }
    ensures next { IfOk result (λ _. state.new.next ≡ state.old.next) }
{
    let v = state.solver.fresh(mark, limit)?;
    state.solver.variable(alloc, v)
}

/// A new variable that stands for a record with the fields of a row and perhaps others, as a type.
pub fn fresh_row(
    alloc: Global,
    state: &mut State,
    row: Row,
    limit: Limit,
) -> Result<usize, NoMemory>
    requires held { AllBelow (length (types_in state.old)) row.types.items }
    requires fit { IsFitRow (made state.old) (row_in (types_in state.old) row) }
    requires limited { AllLimited (limit_in state.old) limit (types_at (types_in state.old) row.types.items) }
    requires wide { 4 ≤ limit.names }
    requires deep { limit.level < dead_level }
    requires inside { limit.level ≤ state.old.level }
    ensures grows { IfOk result (λ _. Grows state.old state.new) }
    ensures is { IfOk result (λ r. HasType state.new r) }
    ensures within { IfOk result (λ r. Always state.new (λ W. IsWithin W limit r)) }
    ensures extends { IfOk result (λ r. Always state.new (λ W. Extends W.admits row.equality row.labels.items (types_of W row.types.items) (type_of W r))) }
    ensures ordered { IfOk result (λ r. Always state.new (λ W. is_ordered (type_of W r) ≡ true)) }
    ensures next { IfOk result (λ _. state.new.next ≡ state.old.next) }
{
    let v = state.solver.fresh_row(row, limit)?;
    state.solver.variable(alloc, v)
}

/// Makes two types equal.
pub fn unify(
    alloc: Global,
    state: &mut State,
    place: Place,
    a: usize,
    b: usize,
) -> Result<(), Refused>
    requires a { HasType state.old a }
    requires b { HasType state.old b }
    ensures grows { IfOk result (λ _. Grows state.old state.new) }
    ensures equal { IfOk result (λ _. Always state.new (λ W. type_of W a ≡ type_of W b)) }
    ensures next { IfOk result (λ _. state.new.next ≡ state.old.next) }
{
    match state.solver.unify(alloc, a, b) {
        Ok(()) => Ok(()),
        Err(UnifyRefused::Memory) => Err(Refused::Memory),
        Err(UnifyRefused::Large) => Err(Refused::Large(place)),
        Err(_) => Err(Refused::Mistyped(place)),
    }
}

/// The type of a symbol with parts.
pub fn apply(
    alloc: Global,
    state: &mut State,
    head: Head,
    parts: &[usize],
) -> Result<usize, NoMemory>
    requires { AreTypes state.old parts.now }
    ensures grows { IfOk result (λ _. Grows state.old state.new) }
    ensures is { IfOk result (λ r. HasType state.new r) }
    ensures made { IfOk result (λ r. Always state.new (λ W. type_of W r ≡ con (head_of head) (types_of W parts.now))) }
    ensures next { IfOk result (λ _. state.new.next ≡ state.old.next) }
{
    state.solver.apply(alloc, head, parts)
}

/// Whether a type of the table is one of functions, as far as its first node.
pub fn is_function(state: &State, ty: usize) -> bool
    ensures { result ≡ begins_as_function (type_at (types_in state.now) ty) }
{
    match state.solver.subst.types.view(ty) {
        View::Var(_) => false,
        View::Apply(head, _) => match head {
            Head::Function => true,
            _ => false,
        },
    }
}

/// The number of a string that the program has.
pub fn text(alloc: Global, state: &mut State, bytes: &[u8]) -> Result<usize, NoMemory>
    ensures grows { IfOk result (λ _. Grows state.old state.new) }
    ensures is { IfOk result (λ k. Always state.new (λ W. string_at W.reading.strings k ≡ bytes.now)) }
    ensures next { IfOk result (λ _. state.new.next ≡ state.old.next) }
{
    let number = state.tables.strings.len();
    let mut copy = Vec::new(alloc);
    copy.extend_from_slice(bytes)?;
    state.tables.strings.push(copy)?;
    Ok(number)
}

/// The number under which the tree writes a type, where a naming is in force.
pub fn write(state: &mut State, ty: usize, naming: Option<usize>) -> Result<usize, NoMemory>
    requires held { ty < length (types_in state.old) }
    requires among { IsAmong (length state.old.namings.items) naming }
    ensures grows { IfOk result (λ _. Grows state.old state.new) }
    ensures is { IfOk result (λ k. Always state.new (λ W. W.reading.type k ≡ type_as (W.naming naming) (type_of W ty))) }
    ensures next { IfOk result (λ _. state.new.next ≡ state.old.next) }
{
    let number = state.written.len();
    state.written.push(Written { ty, naming })?;
    Ok(number)
}

/// The next variable of the program.
pub fn next_variable(state: &mut State) -> Result<usize, NoMemory>
    ensures grows { IfOk result (λ _. Grows state.old state.new) }
    ensures is { IfOk result (λ n. n ≡ state.old.next) }
    ensures next { IfOk result (λ n. state.new.next ≡ n + 1) }
{
    let number = state.next;
    if number == usize::MAX {
        return Err(NoMemory);
    }
    state.next = number + 1;
    Ok(number)
}
