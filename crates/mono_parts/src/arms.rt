// Arms of switches.
ghost use Rattle.std.specs.Prelude.{◌≡◌, ℕ, List, [], ◌∷◌, IfOk};
ghost use Rattle.ty_core.specs.Types.{Typ};
ghost use Rattle.ty_core.specs.Statics.{replace};
ghost use Rattle.ty_table.specs.TypeAt.{type_at};
ghost use Rattle.ir_tables.specs.Tables.{strings_of};
ghost use Rattle.ir_tables.specs.declared.tables.Tables.{Tables};
ghost use Rattle.ir_poly.specs.Tests.{inst};
ghost use Rattle.plain_tree.specs.TreeOf as tree;
ghost use Rattle.tests_check.specs.Reads.{reading};
ghost use Rattle.monomorphise.specs.Monomorphise.{copy_of, copy_case, case_needs, copy_name, name_needs};
ghost use Rattle.mono_close.specs.Closing.{standing};
ghost use Rattle.mono_state.specs.of_mono_words.Words.{arm_sign, switch_sign};
ghost use Rattle.mono_state.specs.of_mono_words.Seen.{with_sign, with_needs, out};
ghost use Rattle.mono_state.specs.Seen.{Held, held_of, Later, name_in, copy_reading, seen};
ghost use Rattle.mono_state.specs.Going.{IsOpen, IsRight, Goes};
ghost use Rattle.mono_parts.specs.Arms.{bound_in, entered, left, ParameterIs};

use ir_tables::tables::Tables;
use mlc_base::memory::NoMemory;
use mono_state::copier::Copier;
use mono_state::names::{alone, atom, type_of};
use mono_state::word::Word;
use plain_tree::tree::{Case, Exception, Parameter};
use std::alloc::Global;

/// A variable with its type, of which nothing is copied.
pub fn parameter_of(
    alloc: Global,
    tables: &Tables,
    copier: &mut Copier,
    parameter: Parameter,
) -> Result<Parameter, NoMemory>
    requires is_open { IsOpen copier.old }
    requires right { IsRight tables.now.types copier.old }
    ensures goes { IfOk result (λ _. Goes tables.now.types copier.old copier.new) }
    ensures stays { IfOk result (λ _. (ss : List (List ℕ)) (H : Held) → seen ss H copier.new ≡ seen ss H copier.old) }
    ensures is { IfOk result (λ p. (H : Held) → Later (held_of copier.new) H
        → ParameterIs H (standing H.types copier.old.slots) tables.now.types parameter p) }
{
    let variable = alone(copier, parameter.variable)?;
    let ty = type_of(alloc, tables, copier, parameter.ty)?;
    Ok(Parameter { variable, ty })
}

/// What an arm wants.
fn case_of(
    alloc: Global,
    tables: &Tables,
    copier: &mut Copier,
    case: Case,
) -> Result<Case, NoMemory>
    requires is_open { IsOpen copier.old }
    requires right { IsRight tables.now.types copier.old }
    ensures goes { IfOk result (λ _. Goes tables.now.types copier.old copier.new) }
    ensures noted { IfOk result (λ _. (ss : List (List ℕ)) (H : Held) → Later (held_of copier.new) H
        → seen ss H copier.new ≡ with_needs (case_needs (tree.case_of (reading tables.now) case)) (seen ss H copier.old)) }
    ensures is { IfOk result (λ made. (H : Held) → Later (held_of copier.new) H → tree.case_of (copy_reading (strings_of tables.now) H) made
        ≡ copy_case (standing H.types copier.old.slots) (tree.case_of (reading tables.now) case)) }
{
    match case {
        Case::Constant(c) => Ok(Case::Constant(c)),
        Case::Constructor(c) => Ok(Case::Constructor(c)),
        Case::ConstructorOf {
            constructor,
            argument,
        } => {
            let argument = parameter_of(alloc, tables, copier, argument)?;
            Ok(Case::ConstructorOf {
                constructor,
                argument,
            })
        }
        Case::Exception(variable) => {
            let exception = atom(copier, variable)?;
            Ok(Case::Exception(exception))
        }
        Case::ExceptionOf {
            exception,
            argument,
        } => {
            let argument = parameter_of(alloc, tables, copier, argument)?;
            let exception = atom(copier, exception)?;
            Ok(Case::ExceptionOf {
                exception,
                argument,
            })
        }
        Case::Record(size) => Ok(Case::Record(size)),
    }
}

/// The variable that an arm binds.
fn bound_by(case: Case) -> Option<usize>
    ensures { result ≡ bound_in case }
{
    match case {
        Case::ConstructorOf {
            constructor: _,
            argument,
        } => Some(argument.variable),
        Case::ExceptionOf {
            exception: _,
            argument,
        } => Some(argument.variable),
        Case::Constant(_) => None,
        Case::Constructor(_) => None,
        Case::Exception(_) => None,
        Case::Record(_) => None,
    }
}

/// The scope of an arm's variable, if it has one.
pub fn enter_arm(alloc: Global, copier: &mut Copier, case: Case) -> Result<(), NoMemory>
    requires { IsOpen copier.old }
    ensures goes { IfOk result (λ _. (sources : List Typ) → Goes sources copier.old copier.new) }
    ensures entered { IfOk result (λ _. (ss : List (List ℕ)) (H : Held) → seen ss H copier.new ≡ entered (bound_in case) (seen ss H copier.old)) }
{
    match bound_by(case) {
        Some(variable) => copier.scopes.open_variable(alloc, variable),
        None => Ok(()),
    }
}

/// Leaves the scope of an arm's variable, and puts what the arm wants.
pub fn leave_arm(
    alloc: Global,
    tables: &Tables,
    copier: &mut Copier,
    case: Case,
) -> Result<(), NoMemory>
    requires is_open { IsOpen copier.old }
    requires right { IsRight tables.now.types copier.old }
    ensures goes { IfOk result (λ _. Goes tables.now.types copier.old copier.new) }
    ensures left { IfOk result (λ _. (H : Held) → Later (held_of copier.new) H → seen (strings_of tables.now) H copier.new
        ≡ with_sign (arm_sign (copy_case (standing H.types copier.old.slots) (tree.case_of (reading tables.now) case)))
        (with_needs (case_needs (tree.case_of (reading tables.now) case)) (left (bound_in case) (seen (strings_of tables.now) H copier.old)))) }
{
    close_arm(alloc, copier, case);
    let made = case_of(alloc, tables, copier, case)?;
    copier.put(&Word::Arm(made))
}

fn close_arm(alloc: Global, copier: &mut Copier, case: Case)
    requires { IsOpen copier.old }
    ensures goes { (sources : List Typ) → Goes sources copier.old copier.new }
    ensures left { (ss : List (List ℕ)) (H : Held) → seen ss H copier.new ≡ left (bound_in case) (seen ss H copier.old) }
{
    if bound_by(case).is_some() {
        let _none = copier.scopes.close(alloc);
    }
}

/// The switch itself, whose arms stand behind it.
pub fn put_switch(
    alloc: Global,
    tables: &Tables,
    copier: &mut Copier,
    variable: usize,
    ty: usize,
) -> Result<(), NoMemory>
    requires is_open { IsOpen copier.old }
    requires right { IsRight tables.now.types copier.old }
    ensures goes { IfOk result (λ _. Goes tables.now.types copier.old copier.new) }
    ensures put { IfOk result (λ _. (ss : List (List ℕ)) (H : Held) → Later (held_of copier.new) H → seen ss H copier.new
        ≡ with_sign (switch_sign (copy_of variable []) (replace (standing H.types copier.old.slots) (type_at tables.now.types ty)))
        (with_needs (copy_of variable [] ∷ []) (seen ss H copier.old))) }
{
    let ty = type_of(alloc, tables, copier, ty)?;
    let k = atom(copier, variable)?;
    copier.put(&Word::Switch { atom: k, ty })
}

/// An exception's name.
pub fn exception_of(copier: &mut Copier, exception: Exception) -> Result<Exception, NoMemory>
    requires { IsOpen copier.old }
    ensures goes { IfOk result (λ _. (sources : List Typ) → Goes sources copier.old copier.new) }
    ensures noted { IfOk result (λ _. (t : Tables) (ss : List (List ℕ)) (H : Held) → Later (held_of copier.new) H
        → seen ss H copier.new ≡ with_needs (name_needs (tree.exception_of (reading t) exception)) (seen ss H copier.old)) }
    ensures is { IfOk result (λ made. (t : Tables) (ss : List (List ℕ)) (H : Held) → Later (held_of copier.new) H
        → tree.exception_of (copy_reading ss H) made ≡ copy_name (tree.exception_of (reading t) exception)) }
{
    match exception {
        Exception::Initial(n) => Ok(Exception::Initial(n)),
        Exception::Held(variable) => {
            let k = atom(copier, variable)?;
            Ok(Exception::Held(k))
        }
    }
}
