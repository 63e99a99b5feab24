// The program of a project's parts.

ghost use Rattle.std.specs.Prelude.{◌≡◌, ◌∷◌, ◌++◌, [], List, map, None, IfOk};
ghost use Rattle.sml_tree.specs.BareTree.{Decs};
ghost use Rattle.sml_tree.specs.TreeOf.{dec_of, decs_of};
ghost use Rattle.mlb_reader.specs.Parts.{Part as Told};
ghost use Rattle.core_rules.specs.Project.{Part as CorePart, source as core_source};
ghost use Rattle.core_rules.specs.Restrictions.{broken_in};
ghost use Rattle.mlb_reader.specs.PartOf.{part_of};
ghost use Rattle.mlb_reader.specs.declared.project.Part.{Part as Read};
ghost use Rattle.mlb_reader.specs.declared.project.Part.TheVariants as read;
ghost use Rattle.back_end.specs.of_match_pass.Typed.{IsWellTyped};
ghost use Rattle.project_elab.specs.Elaborated.{HasElaborated, StandsIn};
ghost use Rattle.mlc_driver.specs.Parts.{HasParts, IsProgramOfParts};

use elab_types::refused::Refused as Cause;
use mlb_reader::project::Part;
use mlc_base::place::Place;
use pat_elab::stopped::Stopped;
use project_elab::ir_prog::program::Program;
use project_elab::project::{Elaborating, begin};
use restrictions::first::first_broken;
use sml_tree::tree::Dec;
use std::alloc::Global;

/// Where a declaration begins.
fn declaration_place(declaration: &Dec) -> Place {
    match declaration {
        Dec::Val(place, _, _, _) => *place,
        Dec::Fun(place, _, _) => *place,
        Dec::Abbreviation(place, _) => *place,
        Dec::Datatype(place, _) => *place,
        Dec::Withtype(place, _, _) => *place,
        Dec::Replicate(place, _, _) => *place,
        Dec::Exception(place, _) => *place,
        Dec::Local(place, _, _) => *place,
        Dec::Open(place, _) => *place,
        Dec::Declarations(place, _) => *place,
    }
}

/// Where the first one of declarations begins, and else this place.
fn first_place(declarations: &[Dec], otherwise: Place) -> Place {
    match declarations.first() {
        Some(declaration) => declaration_place(declaration),
        None => otherwise,
    }
}

/// Where the last of the declarations begins that begin at this place or before it.
fn holding(declarations: &[Dec], place: Place) -> Place {
    let mut holds = place;
    for declaration in declarations {
        let begins = declaration_place(declaration);
        if begins.file == place.file && begins.byte <= place.byte {
            holds = begins;
        }
    }
    holds
}

/// The pattern of a `val` that begins at this place, where it has one alone, and else the place.
fn pattern_place(declarations: &[Dec], place: Place) -> Place {
    for declaration in declarations {
        match declaration {
            Dec::Val(begins, _, binds, recs)
                if *begins == place && binds.len() == 1 && recs.is_empty() => {
                return binds[0].place;
            }
            _ => {}
        }
    }
    place
}

/// Want of a typing, and a type that is too large, are told at the declaration that holds the phrase; that no typing is principal, where the run begins; what
/// binds an identifier twice, at the smallest phrase.
fn at_declaration(declarations: &[Dec], stopped: Stopped) -> Stopped {
    match stopped {
        Stopped::Refuses(Cause::Broken(place)) => {
            Stopped::Refuses(Cause::Broken(pattern_place(declarations, place)))
        }
        Stopped::Refuses(Cause::Mistyped(place)) => {
            Stopped::Refuses(Cause::Mistyped(holding(declarations, place)))
        }
        Stopped::Refuses(Cause::Large(place)) => {
            Stopped::Refuses(Cause::Large(holding(declarations, place)))
        }
        Stopped::NotPrincipal(place) => Stopped::NotPrincipal(first_place(declarations, place)),
        other => other,
    }
}

/// Where the declaration begins that holds a place, at the top of one of the parts.
fn holding_in(parts: &[Part], place: Place) -> Place {
    let mut holds = place;
    for part in parts {
        match part {
            Part::StandardBasis => {}
            Part::Source(declarations) => holds = holding(declarations, holds),
            Part::Cut(declarations, _) => holds = holding(declarations, holds),
        }
    }
    holds
}

/// Where the declaration begins, at the top of one of the parts, that holds an identifier that isn't bound, or what breaks a restriction.
pub fn top_declaration(parts: &[Part], stopped: Stopped) -> Place {
    match stopped {
        Stopped::Refuses(Cause::Unbound(place)) => holding_in(parts, place),
        Stopped::Refuses(Cause::Broken(place)) => holding_in(parts, place),
        _ => Place { file: 0, byte: 0 },
    }
}

/// Declarations more, and whether all that they bring is settled once what they leave open is closed.
fn elaborate_declarations(
    alloc: Global,
    elaborating: &mut Elaborating,
    declarations: &[Dec],
) -> Result<bool, Stopped>
    requires { StandsIn elaborating.old.state elaborating.old.context }
    ensures { IfOk result (λ _. (prelude : Decs) (parts : List CorePart) → HasElaborated prelude parts elaborating.old
        → HasElaborated prelude (parts ++ core_source (decs_of (map dec_of declarations.now)) ∷ []) elaborating.new) }
{
    let place = first_place(declarations, Place { file: 1, byte: 0 });
    match elaborating.source(alloc, place, declarations) {
        Ok(settled) => Ok(settled),
        Err(stopped) => Err(at_declaration(declarations, stopped)),
    }
}

/// How many declarations stand before the one that holds a place.
fn count_before(declarations: &[Dec], place: Place) -> usize {
    let mut count = 0;
    for i in 0..declarations.len() {
        if declaration_place(&declarations[i]).byte <= place.byte {
            count = i;
        }
    }
    count
}

/// One source more: what isn't settled at its end has no principal typing. A restriction that a declaration breaks is told where those before it elaborate.
fn elaborate_source(
    alloc: Global,
    elaborating: &mut Elaborating,
    declarations: &[Dec],
) -> Result<(), Stopped>
    requires { StandsIn elaborating.old.state elaborating.old.context }
    ensures lawful { IfOk result (λ _. broken_in (decs_of (map dec_of declarations.now)) ≡ []) }
    ensures elaborated { IfOk result (λ _. (prelude : Decs) (parts : List CorePart) → HasElaborated prelude parts elaborating.old
        → HasElaborated prelude (parts ++ core_source (decs_of (map dec_of declarations.now)) ∷ []) elaborating.new) }
{
    match first_broken(alloc, declarations)? {
        None => {
            if elaborate_declarations(alloc, elaborating, declarations)? {
                Ok(())
            } else {
                Err(Stopped::NotPrincipal(first_place(declarations, Place { file: 1, byte: 0 })))
            }
        }
        Some(place) => {
            let count = count_before(declarations, place);
            if count < declarations.len() {
                elaborate_declarations(alloc, elaborating, &declarations[..count])?;
            }
            Err(Stopped::Refuses(Cause::Broken(place)))
        }
    }
}

/// Of parts that don't begin with the standard basis, where they begin.
fn before_basis(parts: &[Part]) -> Option<Place>
    ensures { result ≡ None → (rest : List Read) × (parts.now ≡ read.StandardBasis ∷ rest) }
{
    match parts.first() {
        Some(Part::StandardBasis) => None,
        Some(Part::Source(declarations)) => Some(first_place(
            declarations,
            Place { file: 1, byte: 0 },
        )),
        Some(Part::Cut(declarations, place)) => Some(first_place(declarations, *place)),
        None => Some(Place { file: 0, byte: 0 }),
    }
}

/// One part more. The standard basis comes once, and modules aren't compiled yet.
fn elaborate_part(alloc: Global, elaborating: &mut Elaborating, part: &Part) -> Result<(), Stopped>
    requires { StandsIn elaborating.old.state elaborating.old.context }
    ensures { IfOk result (λ _. (prelude : Decs) (parts : List Told) → HasParts prelude parts elaborating.old
        → HasParts prelude (parts ++ part_of part.now ∷ []) elaborating.new) }
{
    match part {
        Part::StandardBasis => Err(Stopped::Foreign(Place { file: 0, byte: 0 })),
        Part::Source(declarations) => elaborate_source(alloc, elaborating, declarations),
        Part::Cut(declarations, place) => {
            elaborate_source(alloc, elaborating, declarations)?;
            Err(Stopped::Foreign(*place))
        }
    }
}

/// A project's parts, over the prelude.
#[tactic(auto, using(crate::proofs::Joining::basis_joins))]
fn elaborate_parts(alloc: Global, prelude: &[Dec], parts: &[Part]) -> Result<Elaborating, Stopped>
    ensures { IfOk result (λ e. HasParts (decs_of (map dec_of prelude.now)) (map part_of parts.now) e) }
{
    if let Some(place) = before_basis(parts) {
        return Err(Stopped::Foreign(place));
    }
    let mut elaborating = begin(alloc, prelude)?;
    for i in 1..parts.len() {
        elaborate_part(alloc, &mut elaborating, &parts[i])?;
    }
    Ok(elaborating)
}

/// Where the last one of the parts begins.
fn last_place(parts: &[Part]) -> Place {
    match parts.last() {
        Some(Part::Source(declarations)) => {
            first_place(declarations, Place { file: 1, byte: 0 })
        }
        Some(Part::Cut(declarations, place)) => first_place(declarations, *place),
        _ => Place { file: 0, byte: 0 },
    }
}

/// The program of a project's parts, over the prelude.
pub fn elaborate(alloc: Global, prelude: &[Dec], parts: &[Part]) -> Result<Program, Stopped>
    ensures program { IfOk result (λ p. IsProgramOfParts (decs_of (map dec_of prelude.now)) (map part_of parts.now) p) }
    ensures well_typed { IfOk result (λ p. IsWellTyped p) }
{
    let mut elaborating = elaborate_parts(alloc, prelude, parts)?;
    let program = elaborating.finish(alloc, last_place(parts))?;
    Ok(program)
}
