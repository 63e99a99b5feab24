// What clauses begin with.

ghost use Rattle.std.specs.Prelude.{◌≡◌, ◌<◌, length, map, true, false, IfOk, IfErr, MatchResult};
ghost use Rattle.sml_tree.specs.Derived.{with_result};
ghost use Rattle.sml_tree.specs.ReadTree as read;
ghost use Rattle.sml_tree.specs.ReadTree.{head_vid, head_count};
ghost use Rattle.sml_tree.specs.TreeOf.{pat_of, exp_of, clause_of, some_ty_of};
ghost use Rattle.sml_grammar.specs.Expressions.{agrees};
ghost use Rattle.phrase_base.specs.Gives.{Gives};
ghost use Rattle.phrase_base.specs.Left.{left};
ghost use Rattle.phrase_base.specs.declared.stop.Stop.TheVariants.{Bad};
ghost use Rattle.sml_phrases.specs.DeclarationsRead.{IsHeading, read_heading, shape_from};

use crate::heads::{Head, read_head};
use crate::nodes::clause;
use crate::types::maybe_ty;
use mlc_base::make::with;
use mlc_base::memory::NoMemory;
use mlc_base::place::Place;
use mlc_names::token::{Reserved, Token};
use phrase_base::got::Got;
use phrase_base::source::Source;
use phrase_base::stop::Stop;
use sml_tree::derive::with_result;
use sml_tree::fixity::{Fixities, same_vid};
use sml_tree::ident::Vid;
use sml_tree::tree::{Clause, Exp, Pat, Ty};
use std::alloc::Global;

/// Where a function's first clause begins, and what all its clauses have: its name, and a number of patterns.
#[derive(Clone, Copy, PartialEq, Eq, Debug)]
pub struct Shape {
    pub place: Place,
    pub vid_place: Place,
    pub vid: Vid,
    pub count: usize,
}

/// A clause up to its `=`.
#[derive(Drop)]
pub struct Heading {
    pub shape: Shape,
    pub pats: Vec<Pat>,
    pub ty: Option<Ty>,
}

/// Whether a clause may follow those of this shape.
fn agrees(shape: Option<Shape>, vid: &Vid, count: usize) -> bool
    ensures { (h : read.Head) → vid.now ≡ head_vid h → count ≡ head_count h → result ≡ agrees (shape_from shape) h }
{
    match shape {
        Some(first) => same_vid(vid, &first.vid) && count == first.count,
        None => true,
    }
}

/// Refuses a clause that may not follow those of this shape.
fn agreeing(shape: Option<Shape>, vid: &Vid, count: usize, tokens: &[Token]) -> Result<(), Stop>
    ensures agrees { (h : read.Head) → vid.now ≡ head_vid h → count ≡ head_count h
        → MatchResult result (λ _. agrees (shape_from shape) h ≡ true) (λ e. agrees (shape_from shape) h ≡ false) }
    ensures stop { IfErr result (λ e. e ≡ Bad (length tokens.now)) }
{
    if agrees(shape, vid, count) {
        Ok(())
    } else {
        Err(Stop::Bad(tokens.len()))
    }
}

/// A clause up to its `=`, after clauses of this shape.
pub fn read_heading<'a>(
    alloc: Global,
    source: &Source,
    fix: &Fixities,
    n: u32,
    shape: Option<Shape>,
    tokens: &'a [Token],
) -> Result<Got<'a, Heading>, Stop>
    requires { n < 1000 }
    ensures gives { Gives (λ x r. IsHeading shape source.now n (left source.now tokens.now) x.it x.depth x.rest.now r)
        result (read_heading n fix.now (shape_from shape) (left source.now tokens.now)) }
{
    let Got {
        it: Head {
            place,
            vid_place,
            vid,
            pats,
        },
        depth: head_depth,
        rest: after_head,
    } = read_head(alloc, source, fix, n, tokens)?;
    let count = pats.as_slice().len();
    let (agreed, _agrees) = with(pats, agreeing(shape, &vid, count, after_head))?;
    let (pats, ty) = with(
        agreed,
        maybe_ty(alloc, source, n, Reserved::Colon, after_head),
    )?;
    Ok(Got {
        it: Heading {
            shape: Shape {
                place,
                vid_place,
                vid,
                count,
            },
            pats,
            ty: ty.it,
        },
        depth: head_depth.max(ty.depth),
        rest: ty.rest,
    })
}

/// A clause of a heading and an expression at a place.
pub fn clause_from(
    alloc: Global,
    heading: Heading,
    place: Place,
    exp: Exp,
) -> Result<Clause, NoMemory>
    ensures { IfOk result (λ c. clause_of c
        ≡ record { place = heading.shape.place; pats = map pat_of heading.pats.items; body = with_result place (exp_of exp) (some_ty_of heading.ty) }) }
{
    let (pats, body) = with(heading.pats, with_result(alloc, place, exp, heading.ty))?;
    Ok(clause(heading.shape.place, pats, body))
}
