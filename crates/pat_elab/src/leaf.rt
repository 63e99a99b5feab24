// Patterns with no parts.
ghost use Rattle.std.specs.Prelude.{◌≡◌, List, IfOk};
ghost use Rattle.sml_tree.specs.TreeOf.{constant_of};
ghost use Rattle.sml_tree.specs.BareTree.{wild_pat, constant_pat};
ghost use Rattle.elab_context.specs.Telling.{IsContext};
ghost use Rattle.elab_context.specs.of_elab_steps.Growing.{HasType, Always, Grows};
ghost use Rattle.elab_context.specs.of_elab_steps.World.{type_of};
ghost use Rattle.ir_tables.specs.Tables.{literal_at};
ghost use Rattle.core_rules.specs.Match.{constant_of as literal_of};
ghost use Rattle.core_rules.specs.Typing.{constant_type};
ghost use Rattle.pat_elab.specs.Elaborated.{IsBound, IsPat};

use crate::bound::{BoundVariable, TypedPat};
use elab_context::context::Context;
use elab_context::elab_state::state::State;
use elab_context::elab_steps::step::{apply, fresh_type, next_variable, text};
use elab_context::entry::{is_free, is_kept};
use elab_types::refused::Refused;
use ir_tables::tables::Constant as ProgramConstant;
use mlc_base::memory::NoMemory;
use mlc_base::place::Place;
use prog_tree::tree::Pat;
use sml_tree::ident::{Constant, Vid};
use std::alloc::Global;
use ty_core::mark::Mark;
use ty_core::name::TyName;
use ty_core::ty::Head;

/// A pattern that takes everything and binds nothing.
#[tactic(auto, using(crate::proofs::Leaves::wild_is))]
pub fn wild(alloc: Global, state: &mut State, context: &Context) -> Result<TypedPat, NoMemory>
    requires context { IsContext state.old context.now }
    ensures is { IfOk result (λ r. (place : Place) (bs : List BoundVariable) → IsPat state.old context.now (wild_pat place) state.new bs bs r) }
{
    let ty = fresh_type(alloc, state, Mark::Any, context.limit())?;
    Ok(TypedPat { pat: Pat::Any, ty })
}

/// Binds an identifier, where a pattern may.
#[tactic(auto, using(crate::proofs::Leaves::bound_is))]
pub fn bind_variable(
    alloc: Global,
    state: &mut State,
    context: &Context,
    place: Place,
    vid: &Vid,
    bound: &mut Vec<BoundVariable>,
) -> Result<BoundVariable, Refused>
    requires context { IsContext state.old context.now }
    ensures is { IfOk result (λ b. IsBound state.old context.now vid.now bound.old.items bound.new.items b state.new) }
{
    let free = is_free(context.values.find(*vid));
    let kept = is_kept(*vid);
    if !free || kept {
        return Err(Refused::Broken(place));
    }
    let ty = fresh_type(alloc, state, Mark::Any, context.limit())?;
    let number = next_variable(state)?;
    bound.push(BoundVariable {
        vid: *vid,
        number,
        ty,
    })?;
    Ok(BoundVariable {
        vid: *vid,
        number,
        ty,
    })
}

/// The type of a constant.
pub fn type_of_constant(
    alloc: Global,
    state: &mut State,
    constant: &Constant,
) -> Result<usize, NoMemory>
    ensures grows { IfOk result (λ _. Grows state.old state.new) }
    ensures is { IfOk result (λ r. HasType state.new r) }
    ensures has { IfOk result (λ r. Always state.new (λ W. type_of W r ≡ constant_type (constant_of constant.now))) }
    ensures next { IfOk result (λ _. state.new.next ≡ state.old.next) }
{
    let name = match constant {
        Constant::Int(_) => TyName::INT,
        Constant::Word(_) => TyName::WORD,
        Constant::Char(_) => TyName::CHAR,
        Constant::Str(_) => TyName::STRING,
    };
    apply(alloc, state, Head::Named(name), &[])
}

/// The constant of the program.
pub fn program_constant(
    alloc: Global,
    state: &mut State,
    constant: &Constant,
) -> Result<ProgramConstant, NoMemory>
    ensures grows { IfOk result (λ _. Grows state.old state.new) }
    ensures is { IfOk result (λ r. Always state.new (λ W. literal_at W.reading.strings r ≡ literal_of (constant_of constant.now))) }
    ensures next { IfOk result (λ _. state.new.next ≡ state.old.next) }
{
    match constant {
        Constant::Int(value) => Ok(ProgramConstant::Int(*value)),
        Constant::Word(value) => Ok(ProgramConstant::Word(*value)),
        Constant::Char(value) => Ok(ProgramConstant::Char(*value)),
        Constant::Str(bytes) => Ok(ProgramConstant::Text(text(alloc, state, bytes)?)),
    }
}

/// A constant.
#[tactic(auto, using(crate::proofs::Leaves::constant_is))]
pub fn constant(
    alloc: Global,
    state: &mut State,
    context: &Context,
    constant: &Constant,
) -> Result<TypedPat, NoMemory>
    requires context { IsContext state.old context.now }
    ensures is { IfOk result (λ r. (place : Place) (bs : List BoundVariable)
        → IsPat state.old context.now (constant_pat place (constant_of constant.now)) state.new bs bs r) }
{
    let _ = context;
    let ty = type_of_constant(alloc, state, constant)?;
    let literal = program_constant(alloc, state, constant)?;
    Ok(TypedPat {
        pat: Pat::Constant(literal),
        ty,
    })
}
