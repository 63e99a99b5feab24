// What is put where no expression is copied.
ghost use Rattle.std.specs.Prelude.{◌≡◌, ℕ, List, Bool, IfOk, IfErr};
ghost use Rattle.std.specs.Option.{option_map};
ghost use Rattle.mlc_runs.specs.declared.pass.PassFault.TheVariants.{Expansion};
ghost use Rattle.ir_tables.specs.declared.tables.Tables.{Tables};
ghost use Rattle.mono_words.specs.Made.{all_bare};
ghost use Rattle.mono_parts.specs.Steps.{steps_in};
ghost use Rattle.mono_parts.specs.of_mono_state.Seen.{Held, held_of, seen};
ghost use Rattle.mono_parts.specs.of_mono_state.Going.{IsHeld, IsOpen};
ghost use Rattle.mono_copy.specs.Puts.{IsReady, Puts, Passes};
ghost use Rattle.mono_copy.specs.Standing.{StandsFor, IsBefore, stood_back};
ghost use Rattle.mono_copy.specs.Changes.{ret_put, packet_put, test_left, counted_left, step_in, bound_at, binding_in, step_opened, plainly_left};

use indexmap::IndexMap;
use ir_tables::tables::Tables;
use mlc_base::memory::NoMemory;
use mlc_runs::pass::PassFault;
use mono_parts::arms::{leave_arm, put_switch};
use mono_parts::mono_state::copier::Copier;
use mono_parts::mono_state::names::{alone, atom, restore, stand};
use mono_parts::mono_state::word::Word;
use mono_parts::steps::{
    enter_binding, enter_group, enter_variable, leave_exception, leave_name, leave_variable,
    stripped,
};
use plain_tree::tree::{Binding, Case, Step};
use std::alloc::Global;
use ty_core::scheme::Quantified;

/// An atom as what comes of an expression.
pub fn put_ret(tables: &Tables, copier: &mut Copier, variable: usize) -> Result<(), NoMemory>
    requires { IsReady tables.now copier.old }
    ensures { IfOk result (λ _. (bare : Bool) → Puts tables.now (ret_put bare variable) copier.old copier.new) }
{
    let k = atom(copier, variable)?;
    copier.put(&Word::Ret(k))
}

/// Leaves the scope of a packet's variable, and puts it.
pub fn put_packet(
    alloc: Global,
    tables: &Tables,
    copier: &mut Copier,
    variable: usize,
) -> Result<(), NoMemory>
    requires { IsReady tables.now copier.old }
    ensures { IfOk result (λ _. Puts tables.now (packet_put variable) copier.old copier.new) }
{
    leave_variable(alloc, copier);
    let k = alone(copier, variable)?;
    copier.put(&Word::Packet(k))
}

/// Leaves the scope of a test's first arm, and puts the test.
pub fn leave_test(
    alloc: Global,
    tables: &Tables,
    copier: &mut Copier,
    variable: usize,
    ty: usize,
    case: Case,
) -> Result<(), NoMemory>
    requires { IsReady tables.now copier.old }
    ensures { IfOk result (λ _. Puts tables.now (test_left tables.now variable ty case) copier.old copier.new) }
{
    leave_arm(alloc, tables, copier, case)?;
    put_switch(alloc, tables, copier, variable, ty)
}

/// So many further nodes.
pub fn put_counted(tables: &Tables, copier: &mut Copier, nodes: usize) -> Result<(), PassFault>
    requires { IsReady tables.now copier.old }
    ensures put { IfOk result (λ _. Puts tables.now (counted_left nodes) copier.old copier.new) }
    ensures too_large { IfErr result (λ fault. fault ≡ Expansion → Passes tables.now (counted_left nodes) copier.old) }
{
    let _types_once = copier.closed.len();
    let _lists_once = copier.lists.len();
    copier.count(nodes)?;
    copier.put(&Word::Counted(nodes))?;
    Ok(())
}

/// The binding of a step, if it binds the value of an operation.
pub fn binding_of(step: &Step) -> Option<Binding>
    ensures { (t : Tables) → option_map (binding_in t) result ≡ bound_at (step_in t step.now) }
{
    match step {
        Step::Let(binding, _) => Some(*binding),
        Step::Fn {
            binding,
            parameters: _,
            last: _,
            body: _,
        } => Some(*binding),
        Step::Block(binding, _) => Some(*binding),
        Step::Handle {
            binding,
            body: _,
            packet: _,
            handler: _,
        } => Some(*binding),
        _ => None,
    }
}

/// Enters the scope of what a step binds, but for that of a test's first arm.
pub fn open_step(
    alloc: Global,
    tables: &Tables,
    copier: &mut Copier,
    step: &Step,
) -> Result<(), NoMemory>
    requires { IsReady tables.now copier.old }
    ensures { IfOk result (λ _. Puts tables.now (step_opened tables.now step.now) copier.old copier.new) }
{
    match step {
        Step::Exception {
            variable,
            identifier: _,
            argument: _,
        } => enter_variable(alloc, copier, *variable),
        Step::Name(variable, _) => enter_variable(alloc, copier, *variable),
        Step::Group(parameters, functions) => {
            enter_group(alloc, tables, copier, *parameters, functions)
        }
        _ => match binding_of(step) {
            Some(binding) => enter_binding(alloc, tables, copier, binding),
            None => Ok(()),
        },
    }
}

/// Leaves a step of which nothing is copied.
pub fn leave_plain(
    alloc: Global,
    tables: &Tables,
    copier: &mut Copier,
    step: &Step,
) -> Result<(), PassFault>
    requires { IsReady tables.now copier.old }
    ensures put { IfOk result (λ _. Puts tables.now (plainly_left tables.now step.now) copier.old copier.new) }
    ensures too_large { IfErr result (λ fault. fault ≡ Expansion → Passes tables.now (plainly_left tables.now step.now) copier.old) }
{
    match step {
        Step::Exception {
            variable,
            identifier,
            argument,
        } => {
            leave_exception(alloc, tables, copier, *variable, *identifier, *argument)?;
            Ok(())
        }
        Step::Name(variable, exception) => {
            leave_name(alloc, copier, *variable, *exception)?;
            Ok(())
        }
        Step::Test {
            atom,
            ty,
            case,
            others: _,
        } => {
            leave_test(alloc, tables, copier, *atom, *ty, *case)?;
            Ok(())
        }
        Step::Counted(nodes) => put_counted(tables, copier, *nodes),
        _ => Ok(()),
    }
}

/// Whether what comes of steps takes no turns.
pub fn strips_behind(steps: &[Step], strip: bool) -> bool
    ensures { (t : Tables) → result ≡ all_bare strip (steps_in t steps.now) }
{
    steps.len() < stripped(steps, strip)
}

/// What was closed before types were put for parameters; nothing where there are no parameters.
#[derive(Drop)]
pub enum Before {
    Same,
    Closed(IndexMap<usize, usize>),
}

/// Puts the types of a list for parameters, and hands out what was closed before. Where there are no parameters all stays as it is, with what was closed.
pub fn stand_for(
    alloc: Global,
    copier: &mut Copier,
    parameters: &[Quantified],
    list: usize,
) -> Result<Before, NoMemory>
    requires is_open { IsOpen copier.old }
    requires held { IsHeld (held_of copier.old) list }
    ensures stands { IfOk result (λ _. StandsFor parameters.now list copier.old copier.new) }
    ensures stays { IfOk result (λ _. (ss : List (List ℕ)) (H : Held) → seen ss H copier.new ≡ seen ss H copier.old) }
    ensures before { IfOk result (λ before. IsBefore parameters.now copier.old before) }
{
    if parameters.is_empty() {
        return Ok(Before::Same);
    }
    let before = stand(alloc, copier, parameters, list)?;
    Ok(Before::Closed(before))
}

/// Takes back the types that were put for parameters: leaves all slots but the first so many, with what was closed before.
pub fn stand_back(copier: &mut Copier, slots: usize, before: Before)
    ensures { copier.new ≡ stood_back slots before copier.old }
{
    match before {
        Before::Same => {}
        Before::Closed(known) => restore(copier, slots, known),
    }
}
