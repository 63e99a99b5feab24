// Steps that hold no expression.
ghost use Rattle.std.specs.Prelude.{◌≡◌, ◌↔◌, Option, None, true, false, IfOk, MatchOption};
ghost use Rattle.std.specs.Option.{option_map};
ghost use Rattle.ty_core.specs.Types.{Typ};
ghost use Rattle.ty_table.specs.TypeAt.{type_at};
ghost use Rattle.ir_poly.specs.TestsChecked.{at, exception, exn_type, NameChecked};
ghost use Rattle.ir_known.specs.Knows.{marks_of};
ghost use Rattle.plain_tree.specs.TreeOf.{operation_of, exception_of};
ghost use Rattle.record_order.specs.Order.{AreOrders};
ghost use Rattle.tests_check.specs.Fits.{ArgumentFits};
ghost use Rattle.tests_check.specs.Reads.{reading};
ghost use Rattle.tests_check.specs.Walk.{IsLet, IsName, Holds, Declares, all};

use crate::opening::{bind_declared, leave, open_binding};
use crate::operation::is_operation;
use crate::value::operation_may;
use ir_known::known::Known;
use ir_known::scope::Scope;
use ir_known::stack::Stack;
use ir_tables::tables::Tables;
use mlc_base::memory::NoMemory;
use plain_tree::tree::{Binding, Exception, Operation};
use record_order::facts::Facts;
use record_order::ir_uses::exception::is_initial;
use record_order::ir_uses::using::is_option_over;
use std::alloc::Global;
use ty_core::mark::Mark;

/// Whether the binding of an operation that holds no expression fits.
pub fn operation_brings(
    alloc: Global,
    tables: &Tables,
    facts: &Facts,
    marks: &mut Stack<Mark>,
    scope: &mut Scope,
    binding: Binding,
    operation: &Operation,
) -> Result<bool, NoMemory>
    requires exn { type_at tables.now.types facts.now.exn ≡ exn_type }
    requires orders { AreOrders tables.now.types facts.now.orders }
    ensures yes { IfOk result (λ yes. yes ≡ true → IsLet tables.now (marks_of marks.old) scope.old binding (operation_of (reading tables.now) operation.now)) }
    ensures no { IfOk result (λ yes. yes ≡ false
        → IsLet tables.now (marks_of marks.old) scope.old binding (operation_of (reading tables.now) operation.now) → ⊥) }
    ensures bound { IfOk result (λ yes. yes ≡ true → Declares tables.now scope.old scope.new binding) }
    ensures marks { IfOk result (λ yes. yes ≡ true → marks_of marks.new ≡ marks_of marks.old) }
{
    let len = marks.len();
    if !operation_may(tables, binding.parameters, operation) {
        return Ok(false);
    }
    let yes = open_binding(alloc, tables, marks, binding)?;
    if !yes {
        return Ok(false);
    }
    let yes = is_operation(alloc, tables, facts, marks, scope, operation, binding.ty)?;
    if !yes {
        return Ok(false);
    }
    leave(marks, len);
    let new = bind_declared(tables, scope, binding)?;
    Ok(new)
}

/// Binds a new exception.
pub fn exception_brings(
    alloc: Global,
    tables: &Tables,
    marks: &Stack<Mark>,
    scope: &mut Scope,
    variable: usize,
    argument: Option<usize>,
) -> Result<bool, NoMemory>
    ensures argument { IfOk result (λ yes. yes ≡ true → ArgumentFits (marks_of marks.now) (option_map (type_at tables.now.types) argument)) }
    ensures new { IfOk result (λ yes. yes ≡ true → at (all tables.now scope.old) variable ≡ None) }
    ensures no { IfOk result (λ yes. yes ≡ false → ArgumentFits (marks_of marks.now) (option_map (type_at tables.now.types) argument)
        → at (all tables.now scope.old) variable ≡ None → ⊥) }
    ensures bound { IfOk result (λ yes. yes ≡ true
        → Holds tables.now scope.old scope.new variable (exception (option_map (type_at tables.now.types) argument))) }
{
    let yes = is_option_over(alloc, &tables.types, marks, argument)?;
    if !yes {
        return Ok(false);
    }
    let new = scope.bind(variable, Known::Exception(argument))?;
    Ok(new)
}

/// The argument of an exception whose name is brought in.
fn named_argument(tables: &Tables, scope: &Scope, named: Exception) -> Option<Option<usize>>
    ensures { MatchOption result ((a : Option Typ) → NameChecked (all tables.now scope.now) (exception_of (reading tables.now) named) a → ⊥)
        (λ k. (a : Option Typ) → NameChecked (all tables.now scope.now) (exception_of (reading tables.now) named) a
        ↔ (a ≡ option_map (type_at tables.now.types) k)) }
{
    match named {
        Exception::Initial(number) => { if is_initial(number) { Some(None) } else { None } }
        Exception::Held(variable) => match scope.find(variable) {
            Some(known) => match known {
                Known::Exception(argument) => Some(argument),
                Known::OfType(_) => None,
                Known::General { .. } => None,
                Known::Own(_) => None,
            },
            None => None,
        },
    }
}

/// Binds an exception's name.
pub fn name_brings(
    tables: &Tables,
    scope: &mut Scope,
    variable: usize,
    named: Exception,
) -> Result<bool, NoMemory>
    ensures yes { IfOk result (λ yes. yes ≡ true → IsName tables.now scope.old scope.new variable (exception_of (reading tables.now) named)) }
    ensures no { IfOk result (λ yes. yes ≡ false → (a : Option Typ) → NameChecked (all tables.now scope.old) (exception_of (reading tables.now) named) a
        → at (all tables.now scope.old) variable ≡ None → ⊥) }
{
    match named_argument(tables, scope, named) {
        Some(argument) => {
            let new = scope.bind(variable, Known::Exception(argument))?;
            Ok(new)
        }
        None => Ok(false),
    }
}
