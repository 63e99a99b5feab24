// Whether a program of tests is well formed.
ghost use Rattle.std.specs.Prelude.{◌≡◌, ◌↔◌, IsTrue, IfOk};
ghost use Rattle.mlc_runs.specs.Passes.{initial_exceptions};
ghost use Rattle.ty_table.specs.TypeAt.{type_at};
ghost use Rattle.ir_poly.specs.TestsChecked.{exn_type};
ghost use Rattle.ir_tables.specs.Tables.{initial_of};
ghost use Rattle.ir_tests.specs.Programs.{IsTyped, IsWellFormed};

use crate::program::Program;
use initial_names::are_initial;
use ir_known::ask::is_named;
use ir_known::scope::Scope;
use ir_known::stack::Stack;
use mlc_base::memory::NoMemory;
use mlc_runs::pass::{Check, Form};
use std::alloc::Global;
use tests_check::infer::exp_type;
use tests_check::ir_uses::table::is_table;
use tests_check::record_order::facts::Facts;
use ty_core::mark::Mark;
use ty_core::name::TyName;

/// Whether the basis' exceptions are named, and the type of exceptions has its number.
fn has_basis(program: &Program) -> bool
    ensures { IsTrue result ↔ ((initial_of program.now.tables ≡ initial_exceptions) × (type_at program.now.tables.types program.now.exn ≡ exn_type)) }
{
    if !are_initial(&program.tables.initial) {
        return false;
    }
    is_named(&program.tables.types, program.exn, TyName::EXN)
}

/// Whether the body has a type, where nothing is in scope.
fn is_typed(alloc: Global, program: &Program) -> Result<bool, NoMemory>
    requires { type_at program.now.tables.types program.now.exn ≡ exn_type }
    ensures { IfOk result (λ yes. IsTrue yes ↔ IsTyped program.now) }
{
    let facts = Facts::find(alloc, &program.tables.types, program.exn)?;
    let mut marks: Stack<Mark> = Stack::new(alloc);
    let mut scope = Scope::new(alloc);
    let found = exp_type(
        &program.body,
        alloc,
        &program.tables,
        &facts,
        &mut marks,
        &mut scope,
    )?;
    match found {
        Some(_) => Ok(true),
        None => Ok(false),
    }
}

/// Whether a program is well formed.
pub fn is_well_formed(alloc: Global, program: &Program) -> Result<bool, NoMemory>
    ensures { IfOk result (λ yes. IsTrue yes ↔ IsWellFormed program.now) }
{
    if !has_basis(program) {
        return Ok(false);
    }
    if !is_table(&program.tables) {
        return Ok(false);
    }
    let once = program.binds_once(alloc)?;
    if !once {
        return Ok(false);
    }
    let yes = is_typed(alloc, program)?;
    Ok(yes)
}

impl Form for Program {
    ghost use Rattle.ir_tests.specs.Programs as programs;
    ghost use Rattle.ir_tests.specs.Programs.{IsWellFormed};

    ghost meaning = { programs.meaning };

    ghost is_well_formed = { IsWellFormed };

    ghost exceptions = { programs.exceptions };

    ghost expansion = { programs.expansion };

    fn check(&self, alloc: Global) -> Check {
        match is_well_formed(alloc, self) {
            Ok(true) => Check::Yes,
            Ok(false) => Check::No,
            Err(_) => Check::Memory,
        }
    }
}
