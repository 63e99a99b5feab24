// Causes, made certain.
ghost use Rattle.std.specs.Prelude.{◌≡◌, ◌++◌, IfOk, IsTrue, List, map};
ghost use Rattle.std.specs.List.{Contains};
ghost use Rattle.sml_tree.specs.BareTree.{Decs};
ghost use Rattle.sml_tree.specs.TreeOf.{dec_of, decs_of};
ghost use Rattle.mlb_reader.specs.PartOf.{part_of};
ghost use Rattle.core_rules.specs.Project.{Part as CorePart};
ghost use Rattle.core_rules.specs.Restrictions.{broken_in};
ghost use Rattle.core_rules.specs.Values.{nothing, Env};
ghost use Rattle.name_scopes.specs.Covering.{Covers};
ghost use Rattle.scope_walks.specs.Projects.{env_behind};
ghost use Rattle.refusal_causes.specs.Causes.{part_of_core, Becomes, IsBrokenAt, IsCertain, IsFoundAt, IsUnboundAt};

use elab_types::refused::Refused as Cause;
use mlb_reader::project::Part;
use mlc_base::memory::NoMemory;
use mlc_base::place::Place;
use name_scopes::scope::Scope;
use name_scopes::sought::{Sought, What};
use pat_elab::stopped::Stopped;
use restrictions::first::first_broken;
use scope_walks::exps::in_decs;
use scope_walks::project::standard_scope;
use sml_tree::tree::Dec;
use std::alloc::Global;

/// Looks through parts behind the standard basis, up to modules.
fn in_parts(
    alloc: Global,
    sought: &Sought,
    parts: &[Part],
    scope: &mut Scope,
) -> Result<bool, NoMemory>
    ensures { IfOk result (λ found. IsTrue found → (prelude : Decs) (before : List CorePart) (e : Env) → e ≡ env_behind prelude nothing before
        → Covers scope.old e → IsFoundAt sought.now prelude (map part_of_core before ++ map part_of parts.now)) }
{
    for i in 0..parts.len() {
        match &parts[i] {
            Part::StandardBasis => return Ok(false),
            Part::Cut(decs, _) => return in_decs(alloc, sought, decs, scope),
            Part::Source(decs) => {
                if in_decs(alloc, sought, decs, scope)? {
                    return Ok(true);
                }
            }
        }
    }
    Ok(false)
}

/// Whether a project has what is looked for, over the prelude.
fn is_found(
    alloc: Global,
    sought: &Sought,
    prelude: &[Dec],
    parts: &[Part],
) -> Result<bool, NoMemory>
    ensures { IfOk result (λ found. IsTrue found → IsFoundAt sought.now (decs_of (map dec_of prelude.now)) (map part_of parts.now)) }
{
    if parts.len() == 0 {
        return Ok(false);
    }
    match &parts[0] {
        Part::StandardBasis => match standard_scope(alloc, sought.place, prelude)? {
            Some(mut scope) => in_parts(alloc, sought, &parts[1..], &mut scope),
            None => Ok(false),
        },
        _ => Ok(false),
    }
}

fn is_unbound(
    alloc: Global,
    place: Place,
    prelude: &[Dec],
    parts: &[Part],
) -> Result<bool, NoMemory>
    ensures { IfOk result (λ found. IsTrue found → IsUnboundAt (decs_of (map dec_of prelude.now)) (map part_of parts.now) place) }
{
    let sought = Sought {
        what: What::Unbound,
        place,
    };
    is_found(alloc, &sought, prelude, parts)
}

/// Whether the first phrase of these that breaks a syntactic restriction stands at a place.
fn breaks_first(alloc: Global, place: Place, decs: &[Dec]) -> Result<bool, NoMemory>
    ensures { IfOk result (λ found. IsTrue found → Contains (broken_in (decs_of (map dec_of decs.now))) place) }
{
    match first_broken(alloc, decs)? {
        Some(broken) => Ok(broken == place),
        None => Ok(false),
    }
}

/// The same of one of the sources.
fn breaks(alloc: Global, place: Place, parts: &[Part]) -> Result<bool, NoMemory>
    ensures { IfOk result (λ found. IsTrue found → (prelude : Decs) → IsBrokenAt prelude (map part_of parts.now) place) }
{
    for i in 0..parts.len() {
        match &parts[i] {
            Part::StandardBasis => {}
            Part::Cut(decs, _) => return breaks_first(alloc, place, decs),
            Part::Source(decs) => {
                if breaks_first(alloc, place, decs)? {
                    return Ok(true);
                }
            }
        }
    }
    Ok(false)
}

fn is_broken(alloc: Global, place: Place, prelude: &[Dec], parts: &[Part]) -> Result<bool, NoMemory>
    ensures { IfOk result (λ found. IsTrue found → IsBrokenAt (decs_of (map dec_of prelude.now)) (map part_of parts.now) place) }
{
    if breaks(alloc, place, parts)? {
        return Ok(true);
    }
    let sought = Sought {
        what: What::Twice,
        place,
    };
    is_found(alloc, &sought, prelude, parts)
}

/// What elaboration answered, made certain: a cause stays where it is so, and becomes elsewhere that there is no typing, at the place `otherwise`. Known to come
/// to that are an unbound type constructor in an argument of an abbreviation of a `withtype`, and a type variable that nothing scopes.
pub fn certain(
    alloc: Global,
    prelude: &[Dec],
    parts: &[Part],
    stopped: Stopped,
    otherwise: Place,
) -> Result<Stopped, NoMemory>
    ensures certain { IfOk result (λ answer. IsCertain (decs_of (map dec_of prelude.now)) (map part_of parts.now) answer) }
    ensures becomes { IfOk result (λ answer. Becomes otherwise stopped answer) }
{
    match stopped {
        Stopped::Refuses(Cause::Unbound(place)) => {
            if is_unbound(alloc, place, prelude, parts)? {
                Ok(Stopped::Refuses(Cause::Unbound(place)))
            } else {
                Ok(Stopped::Refuses(Cause::Mistyped(otherwise)))
            }
        }
        Stopped::Refuses(Cause::Broken(place)) => {
            if is_broken(alloc, place, prelude, parts)? {
                Ok(Stopped::Refuses(Cause::Broken(place)))
            } else {
                Ok(Stopped::Refuses(Cause::Mistyped(otherwise)))
            }
        }
        other => Ok(other),
    }
}
