// Steps of expressions that are converted already, and of closures.
ghost use Rattle.std.specs.Prelude.{◌≡◌, [], ℕ, List, IfOk};
ghost use Rattle.flow_sets.specs.Flow.{Flow};
ghost use Rattle.plain_tree.specs.TreeOf.{exception_of};
ghost use Rattle.mono_bound.specs.Reads.{reading};
ghost use Rattle.closure_convert.specs.Scope.{Table};
ghost use Rattle.closure_convert.specs.Closed.{members};
ghost use Rattle.capture_scope.specs.Seen.{members_of};
ghost use Rattle.first_values.specs.Operations as op;
ghost use Rattle.first_tree.specs.TreeOf.{tree_of};
ghost use Rattle.ir_first.specs.Tree as out;
ghost use Rattle.closure_meaning.specs.Convert.{Numbering, var, name_of, making, group_in};
ghost use Rattle.closure_steps.specs.Reads.{functions_in};
ghost use Rattle.closure_parts.specs.Puts.{Puts};
ghost use Rattle.closure_parts.specs.Settings.{Row, Texts, Holds};

use crate::scope::{members_of_group, rest_of};
use capture_scope::scope::{Member, Scope};
use closure_parts::access::{access, named};
use closure_parts::making::{push_closure, push_followers, push_let};
use closure_parts::setting::Setting;
use first_tables::operation::Plain;
use first_tree::tree::{Exp, Operation, Step};
use mlc_base::make::boxed;
use mlc_base::memory::NoMemory;
use mlc_names::names::Name;
use plain_tree::tree::{Exception, Function};
use std::alloc::Global;

/// A name for the value of an expression that doesn't miss.
pub fn push_block(steps: &mut Vec<Step>, name: usize, body: Box<Exp>) -> Result<(), NoMemory>
    ensures { IfOk result (λ _. Puts steps.old.items steps.new.items (out.let_in name (out.block (tree_of body.value)))) }
{
    steps.push(Step::Block(name, body))?;
    Ok(())
}

/// A name for the value of an expression, or of a handler.
pub fn push_handle(
    steps: &mut Vec<Step>,
    name: usize,
    body: Box<Exp>,
    packet: usize,
    handler: Box<Exp>,
) -> Result<(), NoMemory>
    ensures { IfOk result (λ _. Puts steps.old.items steps.new.items
        (out.let_in name (out.handle (tree_of body.value) packet (tree_of handler.value)))) }
{
    steps.push(Step::Handle {
        variable: name,
        body,
        packet,
        handler,
    })?;
    Ok(())
}

/// The rest is tried where this misses.
pub fn push_try(alloc: Global, steps: &mut Vec<Step>, attempt: Exp) -> Result<(), NoMemory>
    ensures { IfOk result (λ _. Puts steps.old.items steps.new.items (out.first (tree_of attempt))) }
{
    let attempt = boxed(alloc, attempt)?;
    steps.push(Step::Try(attempt))?;
    Ok(())
}

/// A new exception.
pub fn push_exception(
    alloc: Global,
    steps: &mut Vec<Step>,
    variable: usize,
    identifier: Name,
) -> Result<(), NoMemory>
    ensures { IfOk result (λ _. Puts steps.old.items steps.new.items (out.let_in (var variable) (out.plain (op.exception identifier) []))) }
{
    let name = named(variable)?;
    push_let(
        steps,
        name,
        Operation::Plain(Plain::Exception(identifier), Vec::new(alloc)),
    )
}

/// The name of an exception is brought in.
pub fn push_name(
    alloc: Global,
    setting: &Setting,
    scope: &Scope,
    steps: &mut Vec<Step>,
    variable: usize,
    exception: Exception,
) -> Result<(), NoMemory>
    ensures { IfOk result (λ _. (types : List Row) (strings : Texts) (n : Numbering) (F : Flow) (T : Table) → Holds setting.now types strings n F T
        → Puts steps.old.items steps.new.items (out.let_in (var variable) (name_of n types F T scope.now (exception_of (reading types strings) exception)))) }
{
    let name = named(variable)?;
    match exception {
        Exception::Initial(number) => push_let(
            steps,
            name,
            Operation::Plain(Plain::Initial(number), Vec::new(alloc)),
        ),
        Exception::Held(held) => {
            let found = access(alloc, &setting.tags, scope, held)?;
            push_let(steps, name, found)
        }
    }
}

/// The closure of a function alone, or of the first of a group, by its number.
pub fn push_making(
    alloc: Global,
    setting: &Setting,
    scope: &Scope,
    steps: &mut Vec<Step>,
    name: usize,
    number: usize,
) -> Result<(), NoMemory>
    ensures { IfOk result (λ _. (types : List Row) (strings : Texts) (n : Numbering) (F : Flow) (T : Table) → Holds setting.now types strings n F T
        → Puts steps.old.items steps.new.items (making n types F T scope.now name number)) }
{
    let pieces = setting.pieces(number);
    push_closure(alloc, &setting.tags, scope, pieces, name, number, steps)
}

/// The closures of these functions of a group.
fn push_members(
    alloc: Global,
    setting: &Setting,
    scope: &Scope,
    steps: &mut Vec<Step>,
    members: &[Member],
) -> Result<(), NoMemory>
    ensures { IfOk result (λ _. (types : List Row) (strings : Texts) (n : Numbering) (F : Flow) (T : Table) → Holds setting.now types strings n F T
        → Puts steps.old.items steps.new.items (group_in n types F T scope.now (members_of members.now))) }
{
    if members.is_empty() {
        return Ok(());
    }
    let first = members[0];
    let others = rest_of(members);
    let name = named(first.name)?;
    push_making(alloc, setting, scope, steps, name, first.number)?;
    push_followers(alloc, &setting.tags, first.name, others, steps)
}

/// The closures of a group.
pub fn push_group(
    alloc: Global,
    setting: &Setting,
    scope: &Scope,
    steps: &mut Vec<Step>,
    functions: &[Function],
) -> Result<(), NoMemory>
    ensures { IfOk result (λ _. (types : List Row) (strings : Texts) (n : Numbering) (F : Flow) (T : Table) → Holds setting.now types strings n F T
        → Puts steps.old.items steps.new.items (group_in n types F T scope.now (members types (functions_in types strings functions.now)))) }
{
    let members = members_of_group(alloc, functions)?;
    push_members(alloc, setting, scope, steps, &members)
}
