// The identifiers of the exceptions that a program makes.

ghost use Rattle.std.specs.Prelude.{◌≡◌, ℕ, map, IfOk, OnOk};
ghost use Rattle.first_tables.specs.TablesOf.{plain_of, tables_of};
ghost use Rattle.first_tables.specs.Exceptions.{made_by};
ghost use Rattle.ssa_tree.specs.TreeOf.{arm_of, fun_of, step_of, tree_of};
ghost use Rattle.ssa_tree.specs.Exceptions.{exceptions, makes};
ghost use Rattle.image_law.specs.ImageOf.{has};
ghost use Rattle.emit_known.specs.Found.{Adds, arms_make, step_makes, steps_make};

use first_tables::operation::Plain;
use first_tables::tables::Tables;
use mlc_base::memory::NoMemory;
use mlc_names::names::Name;
use ssa_tree::tree::{Arm, Body, Fun, Step};
use std::alloc::Global;

/// Those of a body, behind those so far.
#[cycle(exceptions)]
fn add_body(found: &mut Vec<Name>, body: &Body) -> Result<(), NoMemory>
    ensures { OnOk result (Adds found.old.items (makes (tree_of body.now)) found.new.items) }
{
    match body {
        Body::Steps(steps, rest) => {
            add_steps(found, steps)?;
            add_body(found, rest)
        }
        Body::Guard {
            label: _,
            body,
            packet: _,
            handler,
        } => {
            add_body(found, body)?;
            add_body(found, handler)
        }
        Body::Switch(_, arms, last) => {
            add_arms(found, arms)?;
            add_body(found, last)
        }
        Body::Goto(_, _) => Ok(()),
        Body::Jump(_, _, _) => Ok(()),
        Body::Tail(_, _, _) => Ok(()),
        Body::Ret(_) => Ok(()),
        Body::Raise(_) => Ok(()),
    }
}

#[cycle(exceptions)]
fn add_steps(found: &mut Vec<Name>, steps: &[Step]) -> Result<(), NoMemory>
    ensures { OnOk result (Adds found.old.items (steps_make (map step_of steps.now)) found.new.items) }
{
    for i in 0..steps.len() {
        add_step(found, &steps[i])?;
    }
    Ok(())
}

fn add_plain(found: &mut Vec<Name>, plain: Plain) -> Result<(), NoMemory>
    ensures { OnOk result (Adds found.old.items (made_by (plain_of plain)) found.new.items) }
{
    match plain {
        Plain::Exception(name) => {
            found.push(name)?;
            Ok(())
        }
        _ => Ok(()),
    }
}

#[cycle(exceptions)]
fn add_step(found: &mut Vec<Name>, step: &Step) -> Result<(), NoMemory>
    ensures { OnOk result (Adds found.old.items (step_makes (step_of step.now)) found.new.items) }
{
    match step {
        Step::Plain(plain, _, _) => add_plain(found, *plain),
        Step::Make(_, _, _) => Ok(()),
        Step::Call(_, _, _, _) => Ok(()),
        Step::Attempt(_, _, _, _, body) => add_body(found, body),
        Step::Turn(_) => Ok(()),
        Step::Label(_, body) => add_body(found, body),
        Step::Again(_, body) => add_body(found, body),
        Step::When(_, _, body) => add_body(found, body),
        Step::Unless(_, _, body) => add_body(found, body),
        Step::Case {
            cell: _,
            tag: _,
            others,
            last,
        } => {
            add_arms(found, others)?;
            add_body(found, last)
        }
    }
}

#[cycle(exceptions)]
fn add_arms(found: &mut Vec<Name>, arms: &[Arm]) -> Result<(), NoMemory>
    ensures { OnOk result (Adds found.old.items (arms_make (map arm_of arms.now)) found.new.items) }
{
    for i in 0..arms.len() {
        add_body(found, &arms[i].body)?;
    }
    Ok(())
}

/// The exceptions of the initial basis and of functions, in any order.
pub fn exceptions_of(alloc: Global, tables: &Tables, funs: &[Fun]) -> Result<Vec<Name>, NoMemory>
    ensures { IfOk result (λ found. (i : ℕ) → has found.items i
        ≡ has (exceptions (record { tables = tables_of tables.now; funs = map fun_of funs.now })) i) }
{
    let mut found = Vec::from_slice(alloc, &tables.initial)?;
    for i in 0..funs.len() {
        add_body(&mut found, &funs[i].body)?;
    }
    Ok(found)
}
