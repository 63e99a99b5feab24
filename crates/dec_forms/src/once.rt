// Identifiers that a declaration may bring into scope.
ghost use Rattle.std.specs.Prelude.{◌≡◌, ◌⊎◌, nat_eq, Some, None, true, false, IfOk, IfErr};
ghost use Rattle.core_rules.specs.Restrictions.{distinct};
ghost use Rattle.core_rules.specs.Words.{same_vid};
ghost use Rattle.elab_types.specs.declared.refused.Refused.TheVariants.{Broken, Memory};
ghost use Rattle.exp_forms.specs.Rules.{vids_of};
ghost use Rattle.exp_forms.specs.of_elab_context.Telling.{vids_in};
ghost use Rattle.dec_forms.specs.Entries.{constructing_name, named_vids};

use elab_types::refused::Refused;
use exp_forms::distinct::check_once;
use exp_forms::elab_context::entry::{Entry, is_kept};
use exp_forms::pat_elab::bound::BoundVariable;
use mlc_base::memory::NoMemory;
use mlc_base::place::Place;
use mlc_names::names::Name;
use mlc_names::words;
use sml_tree::ident::Vid;
use std::alloc::Global;

/// The name of a constructor or an exception: no identifier that is never bound, nor `it`.
pub fn constructing(place: Place, vid: Vid) -> Result<Name, Refused>
    ensures is { IfOk result (λ name. constructing_name vid ≡ Some name) }
    ensures refused { IfErr result (λ e. (e ≡ Broken place) × (constructing_name vid ≡ None)) }
{
    let Vid::Named(name) = vid else {
        return Err(Refused::Broken(place));
    };
    if is_kept(vid) || name.number() == words::IT {
        return Err(Refused::Broken(place));
    }
    Ok(name)
}

/// The identifiers, as a pattern binds them.
fn as_bound(alloc: Global, values: &[(Vid, Entry)]) -> Result<Vec<BoundVariable>, NoMemory>
    ensures { IfOk result (λ bs. vids_of bs.items ≡ vids_in values.now) }
{
    let mut bound = Vec::new(alloc);
    for i in 0..values.len() {
        let value = values[i];
        bound.push(BoundVariable {
            vid: value.0,
            number: 0,
            ty: 0,
        })?;
    }
    Ok(bound)
}

/// Refuses identifiers of which one comes into scope twice.
pub fn check_values(alloc: Global, place: Place, values: &[(Vid, Entry)]) -> Result<(), Refused>
    ensures once { IfOk result (λ _. distinct same_vid (vids_in values.now) ≡ true) }
    ensures refused { IfErr result (λ e. (e ≡ Memory) ⊎ ((e ≡ Broken place) × (distinct same_vid (vids_in values.now) ≡ false))) }
{
    let bound = as_bound(alloc, values)?;
    check_once(alloc, place, &bound)
}

/// Names, as a pattern binds them.
fn names_bound(alloc: Global, names: &[Name]) -> Result<Vec<BoundVariable>, NoMemory>
    ensures { IfOk result (λ bs. vids_of bs.items ≡ named_vids names.now) }
{
    let mut bound = Vec::new(alloc);
    for i in 0..names.len() {
        let name = names[i];
        bound.push(BoundVariable {
            vid: Vid::Named(name),
            number: 0,
            ty: 0,
        })?;
    }
    Ok(bound)
}

/// Refuses names of which one stands twice.
pub fn check_names(alloc: Global, place: Place, names: &[Name]) -> Result<(), Refused>
    ensures once { IfOk result (λ _. distinct nat_eq names.now ≡ true) }
    ensures refused { IfErr result (λ e. (e ≡ Memory) ⊎ ((e ≡ Broken place) × (distinct nat_eq names.now ≡ false))) }
{
    let bound = names_bound(alloc, names)?;
    check_once(alloc, place, &bound)
}
