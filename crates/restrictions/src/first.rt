// The first place of a declaration that is broken.
ghost use Rattle.std.specs.Prelude.{◌≡◌, [], map, IfNone, IfOk, IfSome};
ghost use Rattle.std.specs.List.{Contains};
ghost use Rattle.sml_tree.specs.BareTree.{dec, no_decs};
ghost use Rattle.sml_tree.specs.TreeOf.{dec_of, decs_of};
ghost use Rattle.core_rules.specs.Restrictions.{broken_in};

use crate::exps::of_dec;
use crate::walk::Walk;
use mlc_base::memory::NoMemory;
use mlc_base::place::Place;
use scoped_map::scoped::Scoped;
use sml_tree::tree::Dec;
use std::alloc::Global;

/// The first of places that were found.
fn first_of(found: &[Place]) -> Option<Place>
    ensures none { IfNone result (found.now ≡ []) }
    ensures some { IfSome result (Contains found.now) }
{
    if found.len() == 0 {
        return None;
    }
    Some(found[0])
}

/// The first place of a phrase in a declaration that breaks a syntactic restriction.
pub fn broken_in_dec(alloc: Global, declaration: &Dec) -> Result<Option<Place>, NoMemory>
    // None only where nothing is broken.
    ensures none { IfOk result (λ o. IfNone o (broken_in (dec (dec_of declaration.now) no_decs) ≡ [])) }
    // A place that is given is one of those.
    ensures some { IfOk result (λ o. IfSome o (λ p. Contains (broken_in (dec (dec_of declaration.now) no_decs)) p)) }
{
    let mut walk = Walk {
        around: Scoped::new(alloc),
        found: Vec::new(alloc),
    };
    of_dec(alloc, declaration, &mut walk)?;
    Ok(first_of(&walk.found))
}

/// The same of declarations: of the first of them in which something is broken.
pub fn first_broken(alloc: Global, declarations: &[Dec]) -> Result<Option<Place>, NoMemory>
    ensures none { IfOk result (λ o. IfNone o (broken_in (decs_of (map dec_of declarations.now)) ≡ [])) }
    ensures some { IfOk result (λ o. IfSome o (λ p. Contains (broken_in (decs_of (map dec_of declarations.now))) p)) }
{
    for i in 0..declarations.len() {
        let broken = broken_in_dec(alloc, &declarations[i])?;
        if broken.is_some() {
            return Ok(broken);
        }
    }
    Ok(None)
}
