// Programs.
ghost use Rattle.std.specs.Prelude.{◌≡◌, length, take, IfOk};
ghost use Rattle.ir_tables.specs.Tables.{initial_of, constructors_of, strings_of};
ghost use Rattle.match_compile.specs.Compile as clean;
ghost use Rattle.plain_tree.specs.TreeOf as plain;
ghost use Rattle.prog_tree.specs.TreeOf as source;
ghost use Rattle.prog_tree.specs.Readings as before;
ghost use Rattle.ir_tests.specs.of_tests_check.Reads as after;
ghost use Rattle.match_names.specs.Bindings.{names_of};
ghost use Rattle.general_bindings.specs.of_exp_blocks.Giving.{Gives, Grows};
ghost use Rattle.match_pass.specs.Programs.{program};

use crate::exps::push_decs;
use crate::tables::{all_kept, all_unclassed};
use general_bindings::exp_blocks::blocks::{Otherwise, ended, one_of, raising};
use general_bindings::exp_steps::calls::push_unit;
use general_bindings::match_types::work::{ValueType, Work};
use ir_known::stack::Stack;
use ir_tables::tables::Tables;
use match_names::names::Names;
use mlc_base::memory::NoMemory;
use plain_tree::tree::Exp;
use prog_tree::tree::Dec;
use std::alloc::Global;

/// Tests with the tables that their numbers stand in.
#[derive(Drop)]
pub struct Compiled {
    pub tables: Tables,
    pub body: Exp,
}

/// The tests of declarations.
fn push_body(alloc: Global, work: &mut Work, decs: &[Dec]) -> Result<Exp, NoMemory>
    ensures grows { IfOk result (λ _. Grows work.old work.new) }
    ensures scope { IfOk result (λ _. work.new.scope ≡ work.old.scope) }
    ensures gives { IfOk result (λ made. Gives work.new made (λ v. program v.scope (names_of work.old.names) (source.body_of v.source decs.now) work.old.next)) }
{
    let mut steps = Vec::new(alloc);
    push_decs(alloc, work, decs, &mut steps)?;
    let value = push_unit(alloc, work, &mut steps)?;
    let body = ended(alloc, steps, value)?;
    let other = raising(alloc, work, ValueType::Unit, 0, Otherwise::Bind)?;
    let made = one_of(alloc, body, other)?;
    Ok(made)
}

/// A program as tests.
pub fn compile(alloc: Global, tables: Tables, decs: &[Dec]) -> Result<Compiled, NoMemory>
    ensures tests { IfOk result (λ made. plain.tree_of (after.reading made.tables) made.body ≡ clean.compile (source.body_of (before.reading tables) decs.now)) }
    ensures initial { IfOk result (λ made. initial_of made.tables ≡ initial_of tables) }
    ensures constructors { IfOk result (λ made. constructors_of made.tables ≡ constructors_of tables) }
    ensures types { IfOk result (λ made. take (length tables.types) made.tables.types ≡ tables.types) }
    ensures strings { IfOk result (λ made. strings_of made.tables ≡ strings_of tables) }
{
    let first = tables.types.len();
    let mut tables = tables;
    let none = tables.types.variable(alloc, 0)?;
    let constructors = all_kept(alloc, first, none, tables.constructors.rows())?;
    let parameters = all_unclassed(alloc, &tables.parameters)?;
    tables.constructors = constructors;
    tables.parameters = parameters;
    let mut work = Work {
        tables,
        first,
        scope: Stack::new(alloc),
        names: Names::new(alloc),
        next: 1,
    };
    let body = push_body(alloc, &mut work, decs)?;
    Ok(Compiled {
        tables: work.tables,
        body,
    })
}
