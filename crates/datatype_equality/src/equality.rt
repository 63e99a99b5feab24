// Which of the datatypes that are declared together admit equality.
ghost use Rattle.std.specs.Prelude.{◌≡◌, ◌<◌, ◌≤◌, ◌+◌, [], ℕ, List, Bool, not, map, take, length, All, IfOk};
ghost use Rattle.ty_table.specs.TypeAt.{type_at};
ghost use Rattle.datatype_equality.specs.Respects.{Respects, AllBelow};
ghost use Rattle.datatype_equality.specs.Falling.{IsFall};
ghost use Rattle.datatype_equality.specs.Holding.{Rested, Opens, Argues, Holds};

use crate::argument::Argument;
use crate::graph::{Graph, Rule, head_rule};
use mlc_base::memory::NoMemory;
use std::alloc::Global;
use ty_table::types::{Types, View};

/// Has a vertex rest on types.
fn rest_on(
    alloc: Global,
    graph: &mut Graph,
    count: usize,
    parts: &[usize],
    v: usize,
    pending: &mut Vec<usize>,
) -> Result<(), NoMemory>
    requires { length graph.old.edges ≡ count + length graph.old.asked }
    ensures { IfOk result (λ _. (ts : List _) (first : ℕ) → Rested ts first count graph.old graph.new parts.now v pending.old.items pending.new.items) }
{
    for part in parts {
        let p = graph.vertex(alloc, count, *part, pending)?;
        graph.rest(p, v)?;
    }
    Ok(())
}

/// Has what a type rests on be there, and it rest on that.
fn open(
    alloc: Global,
    graph: &mut Graph,
    types: &Types,
    first: usize,
    count: usize,
    k: usize,
    pending: &mut Vec<usize>,
) -> Result<(), NoMemory>
    requires { length graph.old.edges ≡ count + length graph.old.asked }
    ensures { IfOk result (λ _. Opens types.now first count k graph.old graph.new pending.old.items pending.new.items) }
{
    let v = graph.vertex(alloc, count, k, pending)?;
    match types.view(k) {
        View::Var(_) => Ok(()),
        View::Apply(head, parts) => match head_rule(first, count, head) {
            Rule::Admits => Ok(()),
            Rule::Refuses => {
                graph.fail(v)?;
                Ok(())
            }
            Rule::Parts => {
                rest_on(alloc, graph, count, parts, v, pending)?;
                Ok(())
            }
            Rule::New(j) => {
                graph.rest(j, v)?;
                rest_on(alloc, graph, count, parts, v, pending)?;
                Ok(())
            }
        },
    }
}

/// Has the type of a constructor's argument be there, and the constructor's datatype rest on it.
fn argue(
    alloc: Global,
    graph: &mut Graph,
    count: usize,
    argument: Argument,
    pending: &mut Vec<usize>,
) -> Result<(), NoMemory>
    requires { length graph.old.edges ≡ count + length graph.old.asked }
    ensures { IfOk result (λ _. (ts : List _) (first : ℕ) → Argues ts first count argument graph.old graph.new pending.old.items pending.new.items) }
{
    let v = graph.vertex(alloc, count, argument.ty, pending)?;
    graph.rest(v, argument.datatype)?;
    Ok(())
}

/// The graph of all that is asked.
fn asked(
    alloc: Global,
    types: &Types,
    first: usize,
    count: usize,
    arguments: &[Argument],
) -> Result<Graph, NoMemory>
    requires { All (λ a. a.datatype < count) arguments.now }
    ensures { IfOk result (λ graph. Holds types.now first count arguments.now graph arguments.now []) }
{
    let mut graph = Graph::new(alloc, count)?;
    let mut pending = Vec::new(alloc);
    for argument in arguments {
        argue(alloc, &mut graph, count, *argument, &mut pending)?;
    }
    while let Some(k) = pending.pop() {
        open(alloc, &mut graph, types, first, count, k, &mut pending)?;
    }
    Ok(graph)
}

/// The first so many vertices, each with whether it stands.
fn standing(alloc: Global, marks: &[bool], count: usize) -> Result<Vec<bool>, NoMemory>
    requires { count ≤ length marks.now }
    ensures { IfOk result (λ qs. qs.items ≡ map not (take count marks.now)) }
{
    let mut qs = Vec::new(alloc);
    for i in 0..count {
        qs.push(!marks[i])?;
    }
    Ok(qs)
}

/// Which of `count` datatypes that are declared together admit equality: as many as can. Their names have the stamps `first`, `first + 1`, .. in `types`; how
/// these are marked there is not looked at. `arguments` are those of their constructors.
pub fn equality_of_datatypes(
    alloc: Global,
    types: &Types,
    first: usize,
    count: usize,
    arguments: &[Argument],
) -> Result<Vec<bool>, NoMemory>
    requires { All (λ a. a.datatype < count) arguments.now }
    ensures length { IfOk result (λ qs. length qs.items ≡ count) }
    ensures respects { IfOk result (λ qs. Respects first types.now arguments.now qs.items) }
    ensures greatest { IfOk result (λ qs. (rs : List Bool) → length rs ≡ count → Respects first types.now arguments.now rs → AllBelow rs qs.items) }
{
    let graph = asked(alloc, types, first, count, arguments)?;
    let marks = graph.fall(alloc)?;
    let qs = standing(alloc, marks.as_slice(), count)?;
    Ok(qs)
}
