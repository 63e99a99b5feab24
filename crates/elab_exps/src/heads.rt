// Heads of functions that are declared together, the last function's first.
ghost use Rattle.std.specs.Prelude.{◌≡◌, ◌<◌, List, length, map, reverse, get_or, IfOk};
ghost use Rattle.sml_tree.specs.TreeOf.{bind_of};
ghost use Rattle.vid_scope.specs.Entries.{mark_of};
ghost use Rattle.elab_context.specs.Telling.{IsContext};
ghost use Rattle.elab_state.specs.declared.state.State.{State as StateOf};
ghost use Rattle.general_decs.specs.of_rec_groups.Heads.{AreReserved, with_own};
ghost use Rattle.elab_exps.specs.Decs.{StandsIn};
ghost use Rattle.elab_exps.specs.Groups.{HaveHeads, function_bind};

use elab_context::context::Context;
use elab_state::state::State;
use elab_types::refused::Refused;
use general_decs::rec_groups::enter::enter_heads;
use general_decs::rec_groups::head::Head;
use general_decs::rec_groups::reserve::{reserve, reserve_name};
use mlc_base::memory::NoMemory;
use sml_tree::tree::{Bind, Function};
use std::alloc::Global;
use vid_scope::vids::VidMark;

/// The heads of the functions of `val rec`.
pub fn reserve_recs(
    alloc: Global,
    state: &mut State,
    context: &Context,
    recs: &[Bind],
) -> Result<Vec<Head>, Refused>
    requires { IsContext state.old context.now }
    ensures { IfOk result (λ hs. AreReserved state.old context.now (map (λ r. r.pat) (map bind_of recs.now)) state.new (reverse hs.items)) }
{
    let mut heads = Vec::new(alloc);
    let mut i = recs.len();
    while i > 0 {
        i -= 1;
        let head = reserve(alloc, state, context, &recs[i].pat)?;
        heads.push(head)?;
    }
    Ok(heads)
}

/// The heads of the functions of `fun`.
pub fn reserve_names(
    alloc: Global,
    state: &mut State,
    context: &Context,
    functions: &[Function],
) -> Result<Vec<Head>, Refused>
    requires { IsContext state.old context.now }
    ensures { IfOk result (λ hs. AreReserved state.old context.now (map (λ r. r.pat) (map function_bind functions.now)) state.new (reverse hs.items)) }
{
    let mut heads = Vec::new(alloc);
    let mut i = functions.len();
    while i > 0 {
        i -= 1;
        let function = &functions[i];
        let head = reserve_name(alloc, state, context, function.vid_place, &function.vid)?;
        heads.push(head)?;
    }
    Ok(heads)
}

/// The head of a function, by its place among them.
pub fn head_at(heads: &[Head], index: usize) -> &Head
    requires { index < length heads.now }
    ensures { result.now ≡ get_or (reverse heads.now) index result.now }
{
    &heads[heads.len() - 1 - index]
}

/// Brings the functions into scope, each as one inside its group, and answers how much was in scope before.
pub fn enter_group(context: &mut Context, heads: &[Head]) -> Result<VidMark, NoMemory>
    ensures entered { IfOk result (λ _. context.new ≡ with_own context.old (reverse heads.now)) }
    ensures mark { IfOk result (λ m. m ≡ mark_of context.old.values) }
    ensures stands { IfOk result (λ _. (S : StateOf) → StandsIn S context.old → HaveHeads S heads.now → StandsIn S context.new) }
{
    let mark = context.values.mark();
    enter_heads(context, heads)?;
    Ok(mark)
}
