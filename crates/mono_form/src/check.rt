// Whether a program of simple types is well formed.
ghost use Rattle.std.specs.Prelude.{◌≡◌, ◌↔◌, ℕ, true, IsTrue, IfOk};
ghost use Rattle.mlc_runs.specs.Passes.{initial_exceptions};
ghost use Rattle.ir_mono.specs.Types.{IsExn};
ghost use Rattle.mono_tree.specs.Programs.{initial_of};
ghost use Rattle.mono_form.specs.Programs.{IsTyped, IsWellFormed, NeverWrong};

use crate::parts::has_parts;
use crate::program::Program;
use initial_names::are_initial;
use ir_known::scope::Scope;
use mlc_base::memory::NoMemory;
use mlc_runs::pass::{Check, Form};
use mono_check::infer::exp_type;
use mono_table::mono_uses::ask::is_exn;
use mono_table::table::is_table;
use std::alloc::Global;

/// Whether the basis' exceptions are named, and the type of exceptions has its number.
fn has_basis(program: &Program) -> bool
    ensures { IsTrue result ↔ ((initial_of program.now.tables ≡ initial_exceptions) × IsExn program.now.tables.types program.now.tables.exn) }
{
    if !are_initial(&program.tables.initial) {
        return false;
    }
    is_exn(&program.tables.types, program.tables.exn)
}

/// Whether the body has a type, where nothing is in scope.
fn is_typed(alloc: Global, program: &Program) -> Result<bool, NoMemory>
    ensures { IfOk result (λ yes. IsTrue yes ↔ IsTyped program.now) }
{
    let mut scope = Scope::new(alloc);
    let found = exp_type(&program.body, alloc, &program.tables, &mut scope)?;
    match found {
        Some(_) => Ok(true),
        None => Ok(false),
    }
}

/// Whether a program is well formed. One that is goes wrong at no number of turns.
pub fn is_well_formed(alloc: Global, program: &Program) -> Result<bool, NoMemory>
    ensures is { IfOk result (λ yes. IsTrue yes ↔ IsWellFormed program.now) }
    ensures sound { IfOk result (λ yes. yes ≡ true → NeverWrong program.now) }
{
    if !has_basis(program) {
        return Ok(false);
    }
    if !is_table(&program.tables.types) {
        return Ok(false);
    }
    if !has_parts(&program.tables.types) {
        return Ok(false);
    }
    let once = program.binds_once(alloc)?;
    if !once {
        return Ok(false);
    }
    let yes = is_typed(alloc, program)?;
    Ok(yes)
}

impl Form for Program {
    ghost use Rattle.mono_form.specs.Programs as programs;
    ghost use Rattle.mono_form.specs.Programs.{IsWellFormed};

    ghost meaning = { programs.meaning };

    ghost is_well_formed = { IsWellFormed };

    ghost exceptions = { programs.exceptions };

    ghost expansion = { λ p. p.expansion };

    fn check(&self, alloc: Global) -> Check {
        match is_well_formed(alloc, self) {
            Ok(true) => Check::Yes,
            Ok(false) => Check::No,
            Err(_) => Check::Memory,
        }
    }
}
