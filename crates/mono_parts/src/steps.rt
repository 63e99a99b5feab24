// What steps bind.
ghost use Rattle.std.specs.Prelude.{◌≡◌, ◌≤◌, ℕ, Bool, not, ◌&&◌, List, [], ◌∷◌, map, reverse, take, length, IfOk, nat_lt};
ghost use Rattle.std.specs.Option.{option_map};
ghost use Rattle.ty_core.specs.Types.{Typ};
ghost use Rattle.ty_core.specs.Statics.{replace};
ghost use Rattle.ty_table.specs.TypeAt.{type_at};
ghost use Rattle.ir_tables.specs.Tables.{strings_of, parameters_of, parameters_at};
ghost use Rattle.ir_tables.specs.declared.tables.Tables.{Tables};
ghost use Rattle.plain_tree.specs.TreeOf as tree;
ghost use Rattle.plain_tree.specs.TreeOf.{step_of};
ghost use Rattle.tests_check.specs.Reads.{reading};
ghost use Rattle.monomorphise.specs.Monomorphise.{copy_of, units, fun_vars, funs_copy, copy_argument, copy_name, name_needs};
ghost use Rattle.mono_close.specs.Closing.{standing};
ghost use Rattle.mono_scopes.specs.Scopes.{variable as variable_scope, binding};
ghost use Rattle.mono_state.specs.of_mono_words.Words.{exception_sign, name_sign, last_sign, spell_heads};
ghost use Rattle.mono_state.specs.of_mono_words.Seen.{with_sign, with_needs, within, out, needed_types, made};
ghost use Rattle.mono_state.specs.Seen.{Held, held_of, Later, types_in, seen};
ghost use Rattle.mono_state.specs.Going.{IsHeld, AllHeld, IsOpen, IsRight, Goes};
ghost use Rattle.mono_state.specs.of_mono_words.Made.{still_bare, all_bare};
ghost use Rattle.mono_parts.specs.Steps.{functions_in, steps_in, with_own, parameters_entered, parameters_left};

use crate::arms::{exception_of, parameter_of};
use ir_tables::tables::Tables;
use mlc_base::memory::NoMemory;
use mlc_names::names::Name;
use mono_state::copier::Copier;
use mono_state::names::{alone, copy_at, type_of, unit_list};
use mono_state::word::Word;
use plain_tree::tree::{Binding, Exception, Function, Parameter, Step};
use std::alloc::Global;

/// The scope of a variable of which nothing is copied.
pub fn enter_variable(alloc: Global, copier: &mut Copier, variable: usize) -> Result<(), NoMemory>
    requires { IsOpen copier.old }
    ensures goes { IfOk result (λ _. (sources : List Typ) → Goes sources copier.old copier.new) }
    ensures entered { IfOk result (λ _. (ss : List (List ℕ)) (H : Held) → seen ss H copier.new ≡ within (variable_scope variable) (seen ss H copier.old)) }
{
    copier.scopes.open_variable(alloc, variable)
}

/// Leaves the scope of a variable.
pub fn leave_variable(alloc: Global, copier: &mut Copier)
    requires { IsOpen copier.old }
    ensures goes { (sources : List Typ) → Goes sources copier.old copier.new }
    ensures left { (ss : List (List ℕ)) (H : Held) → seen ss H copier.new ≡ out (seen ss H copier.old) }
{
    let _none = copier.scopes.close(alloc);
}

/// The scope of a binding.
pub fn enter_binding(
    alloc: Global,
    tables: &Tables,
    copier: &mut Copier,
    bound: Binding,
) -> Result<(), NoMemory>
    requires { IsOpen copier.old }
    ensures goes { IfOk result (λ _. (sources : List Typ) → Goes sources copier.old copier.new) }
    ensures entered { IfOk result (λ _. (ss : List (List ℕ)) (H : Held) → Later (held_of copier.new) H → seen ss H copier.new
        ≡ within (binding (bound.variable ∷ []) (units (parameters_at (parameters_of tables.now) bound.parameters)) []) (seen ss H copier.old)) }
{
    let unit = unit_list(alloc, copier, tables.parameters(bound.parameters))?;
    copier.scopes.open_binding(alloc, unit)?;
    copier.scopes.add(bound.variable)
}

/// The scope of a group.
pub fn enter_group(
    alloc: Global,
    tables: &Tables,
    copier: &mut Copier,
    parameters: usize,
    functions: &[Function],
) -> Result<(), NoMemory>
    requires { IsOpen copier.old }
    ensures goes { IfOk result (λ _. (sources : List Typ) → Goes sources copier.old copier.new) }
    ensures entered { IfOk result (λ _. (ss : List (List ℕ)) (H : Held) → Later (held_of copier.new) H → seen ss H copier.new
        ≡ within (binding (fun_vars (functions_in tables.now functions.now)) (units (parameters_at (parameters_of tables.now) parameters)) []) (seen ss H copier.old)) }
{
    let unit = unit_list(alloc, copier, tables.parameters(parameters))?;
    copier.scopes.open_binding(alloc, unit)?;
    let mut left = functions.len();
    while left > 0 {
        left -= 1;
        let function = &functions[left];
        copier.scopes.add(function.variable)?;
    }
    Ok(())
}

/// Leaves the scope of a binding or of a group. The lists at which it was needed, the first one that was found first.
pub fn leave_binding(alloc: Global, copier: &mut Copier) -> Vec<usize>
    requires { IsOpen copier.old }
    ensures goes { (sources : List Typ) → Goes sources copier.old copier.new }
    ensures left { (ss : List (List ℕ)) (H : Held) → seen ss H copier.new ≡ out (seen ss H copier.old) }
    ensures lists { (ss : List (List ℕ)) (H : Held) → reverse (map (types_in H) result.items) ≡ needed_types (seen ss H copier.old).scopes }
    ensures held { AllHeld (held_of copier.new) result.items }
{
    copier.scopes.close(alloc)
}

/// Inside a group its functions are those of its own copy.
pub fn own_functions(
    copier: &mut Copier,
    functions: &[Function],
    list: usize,
) -> Result<(), NoMemory>
    requires is_open { IsOpen copier.old }
    requires held { IsHeld (held_of copier.old) list }
    ensures is_open { IfOk result (λ _. IsOpen copier.new) }
    ensures own { IfOk result (λ _. (t : Tables) → copier.new ≡ record copier.old { own = with_own (fun_vars (functions_in t functions.now)) list copier.old.own }) }
{
    let mut left = functions.len();
    while left > 0 {
        left -= 1;
        let function = &functions[left];
        copier.own.bind(function.variable, list)?;
    }
    Ok(())
}

/// The functions' names and types, and an end.
pub fn put_heads(
    alloc: Global,
    tables: &Tables,
    copier: &mut Copier,
    functions: &[Function],
    list: usize,
) -> Result<(), NoMemory>
    requires is_open { IsOpen copier.old }
    requires right { IsRight tables.now.types copier.old }
    ensures goes { IfOk result (λ _. Goes tables.now.types copier.old copier.new) }
    ensures put { IfOk result (λ _. (ss : List (List ℕ)) (H : Held) → Later (held_of copier.new) H → seen ss H copier.new
        ≡ made (spell_heads (funs_copy (types_in H list) [] (standing H.types copier.old.slots) (functions_in tables.now functions.now))) [] [] 0 (seen ss H copier.old)) }
{
    copier.put(&Word::End)?;
    let mut left = functions.len();
    while left > 0 {
        left -= 1;
        let function = &functions[left];
        let ty = type_of(alloc, tables, copier, function.ty)?;
        let variable = copy_at(copier, function.variable, list)?;
        copier.put(&Word::Function { variable, ty })?;
    }
    Ok(())
}

/// The scopes of parameters, the first one outermost.
pub fn enter_parameters(
    alloc: Global,
    copier: &mut Copier,
    parameters: &[Parameter],
) -> Result<(), NoMemory>
    requires { IsOpen copier.old }
    ensures goes { IfOk result (λ _. (sources : List Typ) → Goes sources copier.old copier.new) }
    ensures entered { IfOk result (λ _. (ss : List (List ℕ)) (H : Held) → seen ss H copier.new ≡ parameters_entered parameters.now (seen ss H copier.old)) }
{
    for i in 0..parameters.len() {
        enter_variable(alloc, copier, parameters[i].variable)?;
    }
    Ok(())
}

/// Leaves the scopes of parameters, from the last to the first, and puts them.
pub fn leave_parameters(
    alloc: Global,
    tables: &Tables,
    copier: &mut Copier,
    parameters: &[Parameter],
) -> Result<(), NoMemory>
    requires is_open { IsOpen copier.old }
    requires right { IsRight tables.now.types copier.old }
    ensures goes { IfOk result (λ _. Goes tables.now.types copier.old copier.new) }
    ensures left { IfOk result (λ _. (ss : List (List ℕ)) (H : Held) → Later (held_of copier.new) H → seen ss H copier.new
        ≡ parameters_left (standing H.types copier.old.slots) tables.now.types parameters.now (seen ss H copier.old)) }
{
    let mut left = parameters.len();
    while left > 0 {
        left -= 1;
        leave_variable(alloc, copier);
        let made = parameter_of(alloc, tables, copier, parameters[left])?;
        copier.put(&Word::Parameter(made))?;
    }
    Ok(())
}

/// Leaves the scope of a function's last parameter, and puts it.
pub fn leave_last(
    alloc: Global,
    tables: &Tables,
    copier: &mut Copier,
    last: Parameter,
) -> Result<(), NoMemory>
    requires is_open { IsOpen copier.old }
    requires right { IsRight tables.now.types copier.old }
    ensures goes { IfOk result (λ _. Goes tables.now.types copier.old copier.new) }
    ensures left { IfOk result (λ _. (ss : List (List ℕ)) (H : Held) → Later (held_of copier.new) H → seen ss H copier.new
        ≡ with_sign (last_sign (copy_of last.variable []) (replace (standing H.types copier.old.slots) (type_at tables.now.types last.ty)))
        (out (seen ss H copier.old))) }
{
    leave_variable(alloc, copier);
    let made = parameter_of(alloc, tables, copier, last)?;
    copier.put(&Word::Last(made))
}

/// The type of a new exception's argument, if it has one.
fn argument_of(
    alloc: Global,
    tables: &Tables,
    copier: &mut Copier,
    argument: Option<usize>,
) -> Result<Option<usize>, NoMemory>
    requires is_open { IsOpen copier.old }
    requires right { IsRight tables.now.types copier.old }
    ensures goes { IfOk result (λ _. Goes tables.now.types copier.old copier.new) }
    ensures stays { IfOk result (λ _. (ss : List (List ℕ)) (H : Held) → seen ss H copier.new ≡ seen ss H copier.old) }
    ensures is { IfOk result (λ made. (H : Held) → Later (held_of copier.new) H
        → option_map (type_at H.types) made ≡ copy_argument (standing H.types copier.old.slots) (option_map (type_at tables.now.types) argument)) }
{
    match argument {
        Some(ty) => {
            let closed = type_of(alloc, tables, copier, ty)?;
            Ok(Some(closed))
        }
        None => Ok(None),
    }
}

/// Leaves the scope of a new exception, and puts it.
pub fn leave_exception(
    alloc: Global,
    tables: &Tables,
    copier: &mut Copier,
    variable: usize,
    identifier: Name,
    argument: Option<usize>,
) -> Result<(), NoMemory>
    requires is_open { IsOpen copier.old }
    requires right { IsRight tables.now.types copier.old }
    ensures goes { IfOk result (λ _. Goes tables.now.types copier.old copier.new) }
    ensures left { IfOk result (λ _. (ss : List (List ℕ)) (H : Held) → Later (held_of copier.new) H → seen ss H copier.new
        ≡ with_sign (exception_sign (copy_of variable []) identifier (copy_argument (standing H.types copier.old.slots) (option_map (type_at tables.now.types) argument)))
        (out (seen ss H copier.old))) }
{
    leave_variable(alloc, copier);
    let argument = argument_of(alloc, tables, copier, argument)?;
    let variable = alone(copier, variable)?;
    copier.put(&Word::Exception {
        variable,
        identifier,
        argument,
    })
}

/// Leaves the scope of an exception's name, and puts it.
pub fn leave_name(
    alloc: Global,
    copier: &mut Copier,
    variable: usize,
    exception: Exception,
) -> Result<(), NoMemory>
    requires { IsOpen copier.old }
    ensures goes { IfOk result (λ _. (sources : List Typ) → Goes sources copier.old copier.new) }
    ensures left { IfOk result (λ _. (t : Tables) (ss : List (List ℕ)) (H : Held) → Later (held_of copier.new) H → seen ss H copier.new
        ≡ with_sign (name_sign (copy_of variable []) (copy_name (tree.exception_of (reading t) exception)))
        (with_needs (name_needs (tree.exception_of (reading t) exception)) (out (seen ss H copier.old)))) }
{
    leave_variable(alloc, copier);
    let exception = exception_of(copier, exception)?;
    let variable = alone(copier, variable)?;
    copier.put(&Word::Name(variable, exception))
}

/// Whether what follows a step takes turns though the step's copy takes none.
fn ends_strip(step: &Step) -> bool
    ensures { (t : Tables) (bare : Bool) → still_bare bare (step_of (reading t) step.now) ≡ (bare && not result) }
{
    match step {
        Step::Exception {
            variable: _,
            identifier: _,
            argument: _,
        } => true,
        Step::Group(_, _) => true,
        _ => false,
    }
}

/// How many steps there are up to the first one behind which turns are taken; one more than all where no step is one.
pub fn stripped(steps: &[Step], strip: bool) -> usize
    ensures { (t : Tables) (i : ℕ) → i ≤ length steps.now → nat_lt i result ≡ all_bare strip (take i (steps_in t steps.now)) }
{
    if !strip {
        return 0;
    }
    for i in 0..steps.len() {
        if ends_strip(&steps[i]) {
            return i + 1;
        }
    }
    steps.len() + 1
}
