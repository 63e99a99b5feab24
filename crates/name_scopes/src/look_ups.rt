// Whether identifiers are bound.
ghost use Rattle.core_rules.specs.Match.{is_variable};
ghost use Rattle.core_rules.specs.Values.{Env, along, long_value_in, structure_in, tycon_in};
ghost use Rattle.sml_tree.specs.Derived.{abbreviation, short};
ghost use Rattle.sml_tree.specs.TreeOf.{long_id_of, long_vid_of};
ghost use Rattle.std.specs.Prelude.{IsTrue, List, None, is_some, option_and_then, option_map, true, ◌≡◌};
ghost use Rattle.name_scopes.specs.Covering.{Covers, StructureFits};
ghost use Rattle.name_scopes.specs.Entries.{member_entries};
ghost use Rattle.name_scopes.specs.Placed.{Asks};
ghost use Rattle.name_scopes.specs.Scopes.{value_found};
ghost use Rattle.name_scopes.specs.Types.{AreNamed};
ghost use Rattle.name_scopes.specs.declared.sought.What.TheVariants.{Unbound};
ghost use Rattle.name_scopes.specs.Covering.{is_written as is_source};
ghost use Rattle.sml_tree.specs.BareTree.{TypeBind as BareTypeBind};

use crate::basis::has_member;
use crate::bound::Members;
use crate::scope::Scope;
use crate::sought::{Sought, What};
use mlc_base::place::Place;
use scoped_map::scoped::Scoped;
use sml_tree::ident::{LongId, LongVid, Vid};

/// Whether one that isn't bound is looked for, at this place.
pub fn is_at(place: Place, sought: &Sought) -> bool
    ensures { IsTrue result → Asks sought.now Unbound place }
{
    match sought.what {
        What::Unbound => place == sought.place,
        What::Twice => false,
    }
}

/// Whether a program can name an identifier.
pub fn is_written(vid: &Vid) -> bool
    ensures { result ≡ is_source vid.now }
{
    match vid {
        Vid::Fresh(_) => false,
        _ => true,
    }
}

/// Whether an identifier is a variable, if it is bound.
pub fn find_value(long: &LongVid, scope: &Scope) -> Option<bool>
    ensures { (e : Env) → Covers scope.now e → is_source long.now.vid ≡ true
        → result ≡ option_map (λ f. is_variable f.status) (long_value_in e (long_vid_of long.now)) }
{
    match long.qualifiers.len() {
        0 => scope.value(long.vid),
        1 => match scope.structure(long.qualifiers[0]) {
            Some(members) => find_member(members, long.vid),
            None => None,
        },
        _ => None,
    }
}

/// What structures have are variables.
fn find_member(members: Members, vid: Vid) -> Option<bool>
    ensures { result ≡ value_found (member_entries members) vid }
{
    if has_member(members, vid) {
        Some(true)
    } else {
        None
    }
}

pub fn is_unbound_value(long: &LongVid, scope: &Scope) -> bool
    ensures { IsTrue result → (e : Env) → Covers scope.now e → long_value_in e (long_vid_of long.now) ≡ None }
{
    is_written(&long.vid) && find_value(long, scope).is_none()
}

/// The same of one without qualifiers.
pub fn is_unbound_vid(vid: Vid, scope: &Scope) -> bool
    ensures { IsTrue result → (e : Env) → Covers scope.now e → long_value_in e (short vid) ≡ None }
{
    is_written(&vid) && scope.value(vid).is_none()
}

/// No structure has types.
pub fn is_unbound_tycon(long: &LongId, scope: &Scope) -> bool
    ensures { IsTrue result → (e : Env) → Covers scope.now e
        → option_and_then (λ d. tycon_in d long.now.id) (along e long.now.qualifiers.items) ≡ None }
{
    long.qualifiers.len() > 0 || !scope.has_tycon(long.id)
}

/// What a structure has, if it is bound. None has structures.
pub fn find_structure(long: &LongId, scope: &Scope) -> Option<Members>
    ensures { (e : Env) → Covers scope.now e
        → StructureFits result (option_and_then (λ d. structure_in d long.now.id) (along e long.now.qualifiers.items)) }
{
    if long.qualifiers.len() == 0 {
        scope.structure(long.id)
    } else {
        None
    }
}

/// Whether a type constructor is one of these abbreviations.
pub fn is_abbreviation(long: &LongId, within: &Scoped<usize>) -> bool
    ensures { (bs : List BareTypeBind) → AreNamed bs within.now → result ≡ is_some (abbreviation bs (long_id_of long.now)) }
{
    long.qualifiers.len() == 0 && within.find(long.id.number() as usize).is_some()
}
