// `let`.
ghost use Rattle.std.specs.Prelude.{◌≡◌, ℕ, List, IfOk};
ghost use Rattle.sml_tree.specs.declared.ident.Vid.{Vid};
ghost use Rattle.sml_tree.specs.BareTree.{Dec as SourceDec, Exp as SourceExp, let_in};
ghost use Rattle.sml_tree.specs.TreeOf.{decs_of};
ghost use Rattle.exp_forms.specs.of_elab_context.Telling.{IsContext};
ghost use Rattle.exp_forms.specs.of_elab_context.declared.context.Context.{Context};
ghost use Rattle.exp_forms.specs.of_elab_context.declared.entry.Entry.{Entry};
ghost use Rattle.elab_types.specs.declared.scope.TypeEntry.{TypeEntry};
ghost use Rattle.closed_types.specs.of_elab_steps.Growing.{HasType};
ghost use Rattle.exp_forms.specs.of_use_elab.Elaborated.{IsExp};
ghost use Rattle.dec_forms.specs.Decs.{IsDecs};
ghost use Rattle.dec_forms.specs.Entries.{Adds};
ghost use Rattle.dec_forms.specs.Local.{block_mark_in};

use crate::local::{LocalMark, begin_local};
use closed_types::elab_state::state::State;
use closed_types::elab_steps::step::{fresh_type, unify, write};
use elab_types::refused::Refused;
use exp_forms::elab_context::context::Context;
use exp_forms::use_elab::typed::TypedExp;
use mlc_base::make::boxed;
use mlc_base::place::Place;
use prog_tree::tree::{Dec, Exp};
use std::alloc::Global;
use ty_core::mark::Mark;

/// What is in scope where a `let` begins, how many type names there are, with their numbers in the program, and how many schemes.
#[derive(Clone, Copy)]
pub struct BlockMark {
    pub local: LocalMark,
    pub names: usize,
    pub naming: Option<usize>,
    pub numbers: usize,
    pub schemes: usize,
}

/// Where a `let` begins.
pub fn begin_block(context: &Context) -> BlockMark
    ensures { result ≡ block_mark_in context.now }
{
    BlockMark {
        local: begin_local(context),
        names: context.names,
        naming: context.naming,
        numbers: context.numbers.len(),
        schemes: context.schemes.len(),
    }
}

/// Where a `let` ends: what its declarations brought goes.
pub fn leave_block(context: &mut Context, mark: BlockMark)
    ensures { (C : Context) (es : List (Vid × Entry)) (ts : List (ℕ × TypeEntry)) → mark ≡ block_mark_in C → Adds C context.old es ts → context.new ≡ C }
{
    context.values.leave(mark.local.values);
    context.types.leave(mark.local.types);
    context.numbers.truncate(mark.numbers);
    context.schemes.truncate(mark.schemes);
    context.names = mark.names;
    context.naming = mark.naming;
}

/// Declarations before an expression, in the context before them: its type has no type name of theirs.
pub fn block(
    alloc: Global,
    state: &mut State,
    context: &Context,
    place: Place,
    decs: Vec<Dec>,
    body: TypedExp,
) -> Result<TypedExp, Refused>
    requires context { IsContext state.old context.now }
    requires body { HasType state.old body.ty }
    ensures { IfOk result (λ r. (S M : State) (inner : Context) (p : Place) (ds : List SourceDec) (e : SourceExp)
        → IsDecs S context.now ds M inner decs.items → IsExp M inner e state.old body → IsExp S context.now (let_in p (decs_of ds) e) state.new r) }
{
    let ty = fresh_type(alloc, state, Mark::Any, context.limit())?;
    unify(alloc, state, place, body.ty, ty)?;
    let written = write(state, ty, context.naming)?;
    let exp = boxed(alloc, body.exp)?;
    Ok(TypedExp {
        exp: Exp::Let(written, decs, exp),
        ty,
    })
}
