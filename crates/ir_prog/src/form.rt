// Which programs are well formed.
ghost use Rattle.std.specs.Prelude.{◌≡◌, ◌↔◌, ◌&&◌, [], nat_eq, length, IsTrue, IfOk};
ghost use Rattle.mlc_runs.specs.Passes.{initial_exceptions};
ghost use Rattle.ty_table.specs.TypeAt.{type_at};
ghost use Rattle.ir_poly.specs.TestsChecked.{exn_type};
ghost use Rattle.ir_poly.specs.WellFormed.{IsProg};
ghost use Rattle.prog_check.specs.Program.{check_table};
ghost use Rattle.prog_check.specs.Checking.{check_decs};
ghost use Rattle.ir_tables.specs.Tables.{initial_of, constructors_of};
ghost use Rattle.prog_known.specs.Environments.{table_in};
ghost use Rattle.ir_prog.specs.Programs.{body_in, prog_of, IsWellFormed};

use crate::program::Program;
use initial_names::are_initial;
use ir_known::ask::is_named;
use mlc_base::memory::NoMemory;
use mlc_names::names::Name;
use mlc_runs::pass::{Check, Form};
use prog_exps::exps::check_decs;
use prog_exps::ir_uses::table::is_table;
use prog_exps::record_order::facts::Facts;
use prog_known::answers::both;
use prog_known::environment::Environment;
use std::alloc::Global;
use ty_core::name::TyName;

/// Whether a program is well typed, which carries the type of exceptions.
fn is_typed(alloc: Global, program: &Program) -> Result<bool, NoMemory>
    requires { type_at program.now.tables.types program.now.exn ≡ exn_type }
    ensures { IfOk result (λ so. so ≡ check_decs (table_in program.now.tables) [] [] (body_in program.now)) }
{
    let facts = Facts::find(alloc, &program.tables.types, program.exn)?;
    let mut environment = Environment::new(alloc);
    let so = check_decs(
        alloc,
        &program.tables,
        &facts,
        &mut environment,
        &program.body,
    )?;
    Ok(so)
}

/// Whether there are as many names as the basis has exceptions.
fn are_seven(names: &[Name]) -> bool
    ensures { result ≡ nat_eq (length names.now) 7 }
{
    names.len() == 7
}

/// Whether the tables have the basis' exceptions, and constructors that may stand there.
fn has_tables(program: &Program) -> bool
    ensures { result ≡ (nat_eq (length (initial_of program.now.tables)) 7 && check_table (constructors_of program.now.tables)) }
{
    let seven = are_seven(&program.tables.initial);
    both(seven, is_table(&program.tables))
}

/// Whether a program is well formed, which carries the type of exceptions.
fn is_program(alloc: Global, program: &Program) -> Result<bool, NoMemory>
    requires { type_at program.now.tables.types program.now.exn ≡ exn_type }
    ensures { IfOk result (λ so. IsTrue so ↔ IsProg (prog_of program.now)) }
{
    let tables = has_tables(program);
    let typed = is_typed(alloc, program)?;
    let once = program.binds_once(alloc)?;
    Ok(both(tables, both(typed, once)))
}

/// Whether the exceptions of the initial basis have their names.
fn has_initial(program: &Program) -> bool
    ensures { IsTrue result ↔ (initial_of program.now.tables ≡ initial_exceptions) }
{
    are_initial(&program.tables.initial)
}

/// Whether a program is well formed.
pub fn is_well_formed(alloc: Global, program: &Program) -> Result<bool, NoMemory>
    ensures { IfOk result (λ so. IsTrue so ↔ IsWellFormed program.now) }
{
    let named = has_initial(program);
    if !named {
        return Ok(false);
    }
    let carries = is_named(&program.tables.types, program.exn, TyName::EXN);
    if !carries {
        return Ok(false);
    }
    let so = is_program(alloc, program)?;
    Ok(so)
}

impl Form for Program {
    ghost use Rattle.ir_prog.specs.Programs as programs;
    ghost use Rattle.ir_prog.specs.Programs.{IsWellFormed};

    ghost meaning = { programs.meaning };

    ghost is_well_formed = { IsWellFormed };

    ghost exceptions = { programs.exceptions };

    ghost expansion = { programs.expansion };

    fn check(&self, alloc: Global) -> Check {
        match is_well_formed(alloc, self) {
            Ok(true) => Check::Yes,
            Ok(false) => Check::No,
            Err(_) => Check::Memory,
        }
    }
}
