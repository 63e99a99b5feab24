// Records: fields as they are written.
ghost use Rattle.std.specs.Prelude.{◌≡◌, ◌++◌, ◌∷◌, [], List, IfOk};
ghost use Rattle.std.specs.List.{AllByRecursion};
ghost use Rattle.sml_tree.specs.BareTree.{Exp as SourceExp, fields_exp};
ghost use Rattle.pat_elab.specs.of_elab_context.Telling.{IsContext};
ghost use Rattle.pat_elab.specs.of_elab_steps.Growing.{HasType};
ghost use Rattle.use_elab.specs.Elaborated.{IsExp};
ghost use Rattle.exp_forms.specs.Parts.{AreFields, with_labels};

use crate::made::FieldsMade;
use elab_types::refused::Refused;
use label_rows::sort::Field;
use mlc_base::memory::NoMemory;
use mlc_base::place::Place;
use mlc_names::label::Label;
use pat_elab::elab_context::context::Context;
use pat_elab::elab_state::state::State;
use pat_elab::elab_steps::rows::record_type;
use pat_elab::elab_steps::step::write;
use prog_tree::tree::Exp;
use std::alloc::Global;
use use_elab::typed::TypedExp;

/// No fields.
pub fn no_fields(alloc: Global) -> FieldsMade
    ensures { (S : State) (C : Context) → AreFields S C [] [] S result }
{
    FieldsMade {
        exps: Vec::new(alloc),
        row: Vec::new(alloc),
    }
}

/// One field more.
pub fn add_field(label: &Label, one: TypedExp, fields: &mut FieldsMade) -> Result<(), NoMemory>
    ensures { IfOk result (λ _. (S M T : State) (C : Context) (ls : List Label) (es : List SourceExp) (e : SourceExp)
        → AreFields S C ls es M fields.old → IsExp M C e T one → AreFields S C (ls ++ label.now ∷ []) (es ++ e ∷ []) T fields.new) }
{
    fields.row.push(Field {
        label: *label,
        part: one.ty,
    })?;
    fields.exps.push((*label, one.exp))?;
    Ok(())
}

/// The record of these fields; none has a label twice.
pub fn record(
    alloc: Global,
    state: &mut State,
    context: &Context,
    place: Place,
    fields: FieldsMade,
) -> Result<TypedExp, Refused>
    requires context { IsContext state.old context.now }
    requires row { AllByRecursion (λ f. HasType state.old f.part) fields.row.items }
    ensures { IfOk result (λ r. (S : State) (p : Place) (ls : List Label) (es : List SourceExp) → AreFields S context.now ls es state.old fields
        → IsExp S context.now (fields_exp p (with_labels ls es)) state.new r) }
{
    let ty = record_type(alloc, state, place, &fields.row)?;
    let written = write(state, ty, context.naming)?;
    Ok(TypedExp {
        exp: Exp::Record(written, fields.exps),
        ty,
    })
}
