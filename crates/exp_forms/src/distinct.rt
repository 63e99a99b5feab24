// Identifiers that are bound once.
ghost use Rattle.std.specs.Prelude.{◌≡◌, ◌⊎◌, true, false, IfOk, IfErr};
ghost use Rattle.core_rules.specs.Restrictions.{distinct};
ghost use Rattle.core_rules.specs.Words.{same_vid};
ghost use Rattle.elab_types.specs.declared.refused.Refused.TheVariants.{Broken, Memory};
ghost use Rattle.exp_forms.specs.Rules.{vids_of};

use elab_types::refused::Refused;
use mlc_base::memory::NoMemory;
use mlc_base::place::Place;
use pat_elab::bound::BoundVariable;
use std::alloc::Global;
use vid_scope::vids::VidScope;

/// Whether no identifier is bound twice.
fn are_once(alloc: Global, bound: &[BoundVariable]) -> Result<bool, NoMemory>
    ensures { IfOk result (λ once. once ≡ distinct same_vid (vids_of bound.now)) }
{
    let mut seen = VidScope::new(alloc);
    let mut i = bound.len();
    while i > 0 {
        i -= 1;
        let vid = &bound[i].vid;
        if seen.find(*vid).is_some() {
            return Ok(false);
        }
        seen.bind(*vid, true)?;
    }
    Ok(true)
}

/// Refuses identifiers of which one is bound twice.
pub fn check_once(alloc: Global, place: Place, bound: &[BoundVariable]) -> Result<(), Refused>
    ensures once { IfOk result (λ _. distinct same_vid (vids_of bound.now) ≡ true) }
    ensures refused { IfErr result (λ e. (e ≡ Memory) ⊎ ((e ≡ Broken place) × (distinct same_vid (vids_of bound.now) ≡ false))) }
{
    let once = are_once(alloc, bound)?;
    if !once {
        return Err(Refused::Broken(place));
    }
    Ok(())
}
