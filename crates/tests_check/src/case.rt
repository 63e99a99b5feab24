// What an arm asks of a value.
ghost use Rattle.std.specs.Prelude.{◌≡◌, true, false, IfOk};
ghost use Rattle.ty_table.specs.TypeAt.{type_at};
ghost use Rattle.ir_poly.specs.TestsChecked.{exn_type};
ghost use Rattle.ir_known.specs.Knows.{marks_of};
ghost use Rattle.plain_tree.specs.TreeOf.{case_of};
ghost use Rattle.tests_check.specs.Fits.{CaseFits};
ghost use Rattle.tests_check.specs.Reads.{reading};
ghost use Rattle.tests_check.specs.Walk.{Opens, all, local, table_of};

use crate::opening::bind_parameter;
use crate::operation::is_local_exception;
use ir_known::ask::same_type;
use ir_known::scope::Scope;
use ir_known::stack::Stack;
use ir_tables::tables::Tables;
use mlc_base::memory::NoMemory;
use plain_tree::tree::{Case, Parameter};
use record_order::ir_uses::constructor::has_constructor;
use record_order::ir_uses::literal::has_literal;
use record_order::ir_uses::record::is_sized_record;
use std::alloc::Global;
use ty_core::mark::Mark;

/// Binds the argument of a constructor that values of a type may have.
fn bind_constructed(
    alloc: Global,
    tables: &Tables,
    marks: &Stack<Mark>,
    scope: &mut Scope,
    constructor: usize,
    argument: Parameter,
    ty: usize,
) -> Result<bool, NoMemory>
    ensures yes { IfOk result (λ yes. yes ≡ true
        → Opens tables.now (marks_of marks.now) scope.old scope.new (case_of (reading tables.now) (Case.ConstructorOf constructor argument)) ty) }
    ensures no { IfOk result (λ yes. yes ≡ false
        → CaseFits (table_of tables.now) (marks_of marks.now) (all tables.now scope.old) (local tables.now scope.old) (case_of (reading tables.now)
        (Case.ConstructorOf constructor argument)) (type_at tables.now.types ty) → ⊥) }
{
    let yes = has_constructor(alloc, tables, constructor, ty, Some(argument.ty))?;
    if !yes {
        return Ok(false);
    }
    let yes = bind_parameter(alloc, tables, marks, scope, argument)?;
    Ok(yes)
}

/// Binds the argument of an exception.
fn bind_packed(
    alloc: Global,
    tables: &Tables,
    exn: usize,
    marks: &Stack<Mark>,
    scope: &mut Scope,
    exception: usize,
    argument: Parameter,
    ty: usize,
) -> Result<bool, NoMemory>
    requires { type_at tables.now.types exn ≡ exn_type }
    ensures yes { IfOk result (λ yes. yes ≡ true
        → Opens tables.now (marks_of marks.now) scope.old scope.new (case_of (reading tables.now) (Case.ExceptionOf exception argument)) ty) }
    ensures no { IfOk result (λ yes. yes ≡ false
        → CaseFits (table_of tables.now) (marks_of marks.now) (all tables.now scope.old) (local tables.now scope.old) (case_of (reading tables.now)
        (Case.ExceptionOf exception argument)) (type_at tables.now.types ty) → ⊥) }
{
    if !same_type(&tables.types, ty, exn) {
        return Ok(false);
    }
    if !is_local_exception(tables, scope, exception, Some(argument.ty)) {
        return Ok(false);
    }
    let yes = bind_parameter(alloc, tables, marks, scope, argument)?;
    Ok(yes)
}

/// Whether an arm's test fits values of a type; binds what it binds.
pub fn bind_case(
    alloc: Global,
    tables: &Tables,
    exn: usize,
    marks: &Stack<Mark>,
    scope: &mut Scope,
    case: Case,
    ty: usize,
) -> Result<bool, NoMemory>
    requires { type_at tables.now.types exn ≡ exn_type }
    ensures yes { IfOk result (λ yes. yes ≡ true → Opens tables.now (marks_of marks.now) scope.old scope.new (case_of (reading tables.now) case) ty) }
    ensures no { IfOk result (λ yes. yes ≡ false
        → CaseFits (table_of tables.now) (marks_of marks.now) (all tables.now scope.old) (local tables.now scope.old) (case_of
        (reading tables.now) case) (type_at tables.now.types ty) → ⊥) }
{
    match case {
        Case::Constant(constant) => Ok(has_literal(&tables.types, constant, ty)),
        Case::Constructor(constructor) => {
            let yes = has_constructor(alloc, tables, constructor, ty, None)?;
            Ok(yes)
        }
        Case::ConstructorOf {
            constructor,
            argument,
        } => {
            let yes = bind_constructed(alloc, tables, marks, scope, constructor, argument, ty)?;
            Ok(yes)
        }
        Case::Exception(exception) => {
            if !same_type(&tables.types, ty, exn) {
                return Ok(false);
            }
            Ok(is_local_exception(tables, scope, exception, None))
        }
        Case::ExceptionOf {
            exception,
            argument,
        } => {
            let yes = bind_packed(alloc, tables, exn, marks, scope, exception, argument, ty)?;
            Ok(yes)
        }
        Case::Record(size) => Ok(is_sized_record(&tables.types, ty, size)),
    }
}
