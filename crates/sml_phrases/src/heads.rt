// Heads of clauses.

ghost use Rattle.std.specs.Prelude.{◌≡◌, ℕ, ◌<◌, ◌≤◌, ◌+◌, ◌-◌, ◌∷◌, [], length, map, List, Option, Some, None, MatchOption, MatchResult};
ghost use Rattle.mlc_names.specs.declared.token.Reserved.TheVariants.{LeftParen, RightParen};
ghost use Rattle.sml_tree.specs.Terminal.{Terminal};
ghost use Rattle.sml_tree.specs.ReadTree as read;
ghost use Rattle.sml_tree.specs.Bare as bare;
ghost use Rattle.sml_tree.specs.Derived.{tuple_pat};
ghost use Rattle.sml_tree.specs.Depth.{depth_pat};
ghost use Rattle.sml_tree.specs.Bare.{bare_pat};
ghost use Rattle.sml_tree.specs.TreeOf.{pat_of};
ghost use Rattle.sml_grammar.specs.Answer.{Read, ok};
ghost use Rattle.sml_grammar.specs.Terminals.{no_state, place_at, after_word, infix_vid, taken};
ghost use Rattle.sml_grammar.specs.Patterns.{read_atpat, read_atpats, read_head, infix_rest, prefix_rest, bracket_rest, vid_head, bracketed, Bracketed};
ghost use Rattle.phrase_base.specs.Gives.{Gives, Gave};
ghost use Rattle.phrase_base.specs.Left.{left};
ghost use Rattle.sml_phrases.specs.PatternsRead.{IsPatAt, IsPats};
ghost use Rattle.sml_phrases.specs.HeadsRead.{IsHead, IsPair, NoPattern};
ghost use Rattle.phrase_base.specs.declared.stop.Stop.TheVariants.{Memory};

use crate::patterns::{begins_pat, read_atpat};
use crate::vids::{binds_vid, joint_at, vid_place};
use mlc_base::make::{one, two, with};
use mlc_base::place::Place;
use mlc_names::names::Name;
use mlc_names::token::{Reserved, Token};
use phrase_base::got::{Got, discard, pushed};
use phrase_base::source::Source;
use phrase_base::stop::Stop;
use phrase_base::tokens::{after_word, place_at};
use sml_tree::fixity::Fixities;
use sml_tree::ident::{LongVid, Vid};
use sml_tree::tree::Pat;
use std::alloc::Global;

/// The head of a clause of a function: its name and its patterns.
#[derive(Drop)]
pub struct Head {
    pub place: Place,
    pub vid_place: Place,
    pub vid: Vid,
    pub pats: Vec<Pat>,
}

/// Two atomic patterns and the infix identifier between them.
#[derive(Drop)]
struct Pair {
    left: Pat,
    vid_place: Place,
    vid: Name,
    right: Pat,
}

/// The head of a clause, whose patterns are at most `n` deep.
pub fn read_head<'a>(
    alloc: Global,
    source: &Source,
    fix: &Fixities,
    n: u32,
    tokens: &'a [Token],
) -> Result<Got<'a, Head>, Stop>
    requires { n < 1000 }
    ensures gives { Gives (λ x r. IsHead source.now n (left source.now tokens.now) x.it x.depth x.rest.now r)
        result (read_head n fix.now (left source.now tokens.now)) }
{
    let place = place_at(source, tokens);
    if let Some((vid, after)) = binds_vid(source, fix, tokens) {
        let name_place = vid_place(source, tokens);
        return named_head(alloc, source, fix, n, place, name_place, vid, after);
    }
    let Got { it, depth, rest } = read_atpat(alloc, source, fix, n, tokens)?;
    if let Some(found) = joint_at(source, fix, rest) {
        let name_place = place_at(source, rest);
        return infix_head(
            alloc, source, fix, n, place, it, depth, name_place, found.0, found.1,
        );
    }
    discard(it);
    match bracketed(alloc, source, fix, n, tokens)? {
        Some(pair) => bracket_head(alloc, source, fix, n, place, pair, depth, rest),
        None => Err(Stop::Bad(rest.len())),
    }
}

/// A head that begins with an identifier, after it.
fn named_head<'a>(
    alloc: Global,
    source: &Source,
    fix: &Fixities,
    n: u32,
    place: Place,
    name_place: Place,
    vid: Vid,
    tokens: &'a [Token],
) -> Result<Got<'a, Head>, Stop>
    requires { n < 1000 }
    ensures gives { (i : List Terminal) (q : ℕ) → place ≡ bare.at source.now.file (place_at i) → name_place ≡ bare.at source.now.file q
        → length (left source.now tokens.now) < length i
        → Gives (λ x r. IsHead source.now n i x.it x.depth x.rest.now r)
        result (vid_head n fix.now (place_at i) (record { place = q; it = vid }) (left source.now tokens.now)) }
{
    match joint_at(source, fix, tokens) {
        Some(found) => {
            if n < 1 {
                return Err(Stop::Deep(tokens.len()));
            }
            let variable = Pat::Vid(
                name_place,
                LongVid {
                    qualifiers: Vec::new(alloc),
                    vid,
                },
            );
            infix_head(
                alloc,
                source,
                fix,
                n,
                place,
                variable,
                1,
                place_at(source, tokens),
                found.0,
                found.1,
            )
        }
        None => prefix_head(alloc, source, fix, n, place, name_place, vid, tokens),
    }
}

/// `vid atpat .. atpat`, after the identifier.
fn prefix_head<'a>(
    alloc: Global,
    source: &Source,
    fix: &Fixities,
    n: u32,
    place: Place,
    name_place: Place,
    vid: Vid,
    tokens: &'a [Token],
) -> Result<Got<'a, Head>, Stop>
    requires { n < 1000 }
    ensures gives { (i : List Terminal) (q : ℕ) → place ≡ bare.at source.now.file (place_at i) → name_place ≡ bare.at source.now.file q
        → length (left source.now tokens.now) < length i
        → Gives (λ x r. IsHead source.now n i x.it x.depth x.rest.now r)
        result (prefix_rest n fix.now (place_at i) (record { place = q; it = vid }) (left source.now tokens.now)) }
{
    let Got {
        it: first,
        depth,
        rest: after,
    } = read_atpat(alloc, source, fix, n, tokens)?;
    let front = one(alloc, first)?;
    let Got {
        it: pats,
        depth: deepest,
        rest,
    } = more_atpats(alloc, source, fix, n, front, depth, after)?;
    Ok(Got {
        it: Head {
            place,
            vid_place: name_place,
            vid,
            pats,
        },
        depth: deepest,
        rest,
    })
}

/// `atpat vid atpat`, after the identifier.
fn infix_head<'a>(
    alloc: Global,
    source: &Source,
    fix: &Fixities,
    n: u32,
    place: Place,
    first: Pat,
    depth: u32,
    name_place: Place,
    name: Name,
    tokens: &'a [Token],
) -> Result<Got<'a, Head>, Stop>
    requires { n < 1000 }
    ensures gives { (i : List Terminal) (a : read.Pat) (p : ℕ) → place ≡ bare.at source.now.file (place_at i) → name_place ≡ bare.at source.now.file p
        → pat_of first ≡ bare_pat source.now.file a → depth ≡ depth_pat a → read.pat_place a ≡ place_at i → depth ≤ n
        → length (left source.now tokens.now) < length i
        → Gives (λ x r. IsHead source.now n i x.it x.depth x.rest.now r)
        result (infix_rest n fix.now a (record { place = p; it = name }) (left source.now tokens.now)) }
{
    let (first, second) = with(first, read_atpat(alloc, source, fix, n, tokens))?;
    let (second_depth, rest) = (second.depth, second.rest);
    let pats = pair_only(alloc, place, first, second.it)?;
    Ok(Got {
        it: Head {
            place,
            vid_place: name_place,
            vid: Vid::Named(name),
            pats,
        },
        depth: depth.max(second_depth),
        rest,
    })
}

/// The pair of two patterns.
fn pair_only(alloc: Global, place: Place, first: Pat, second: Pat) -> Result<Vec<Pat>, Stop>
    ensures { MatchResult result (λ v. map pat_of v.items ≡ tuple_pat place (pat_of first ∷ pat_of second ∷ []) ∷ []) (λ e. e ≡ Memory) }
{
    let pair = two(alloc, first, second)?;
    Ok(one(alloc, Pat::Tuple(place, pair))?)
}

/// `(atpat vid atpat) atpat .. atpat`, after the bracket that ends.
fn bracket_head<'a>(
    alloc: Global,
    source: &Source,
    fix: &Fixities,
    n: u32,
    place: Place,
    pair: Pair,
    depth: u32,
    tokens: &'a [Token],
) -> Result<Got<'a, Head>, Stop>
    requires room { n < 1000 }
    requires fits { depth ≤ n }
    ensures gives { (i : List Terminal) (b : Bracketed) → place ≡ bare.at source.now.file (place_at i) → IsPair source.now pair i depth b
        → length (left source.now tokens.now) < length i
        → Gives (λ x r. IsHead source.now n i x.it x.depth x.rest.now r) result (bracket_rest n fix.now (left source.now tokens.now) (Some b)) }
{
    let Pair {
        left: first,
        vid_place: name_place,
        vid,
        right: second,
    } = pair;
    let front = pair_only(alloc, place, first, second)?;
    let Got {
        it: pats,
        depth: deepest,
        rest,
    } = more_atpats(alloc, source, fix, n, front, depth, tokens)?;
    Ok(Got {
        it: Head {
            place,
            vid_place: name_place,
            vid: Vid::Named(vid),
            pats,
        },
        depth: deepest,
        rest,
    })
}

/// Atomic patterns after each other, after those of `front`.
pub fn more_atpats<'a>(
    alloc: Global,
    source: &Source,
    fix: &Fixities,
    n: u32,
    front: Vec<Pat>,
    depth: u32,
    tokens: &'a [Token],
) -> Result<Got<'a, Vec<Pat>>, Stop>
    requires room { n < 1000 }
    requires fits { depth ≤ n }
    ensures gives { Gives (λ x r. IsPats source.now n (left source.now tokens.now) front.items depth x.it.items x.depth x.rest.now r)
        result (read_atpats n fix.now (left source.now tokens.now)) }
{
    let mut all = front;
    let mut deepest = depth;
    let mut rest = tokens;
    'patterns: while begins_pat(source, fix, rest) {
        let (others, pat) = with(all, read_atpat(alloc, source, fix, n, rest))?;
        deepest = pat.depth.max(deepest);
        rest = pat.rest;
        all = pushed(others, pat.it)?;
    }
    Ok(Got {
        it: all,
        depth: deepest,
        rest,
    })
}

/// An atomic pattern, where one is there that isn't too deep.
fn maybe_atpat<'a>(
    alloc: Global,
    source: &Source,
    fix: &Fixities,
    n: u32,
    tokens: &'a [Token],
) -> Result<Option<Got<'a, Pat>>, Stop>
    requires { n < 1000 }
    ensures { MatchResult result (λ found. MatchOption found (NoPattern (read_atpat n fix.now (left source.now tokens.now)))
        (λ x. Gave (λ x r. IsPatAt source.now fix.now 1000 n (left source.now tokens.now) x.it x.depth x.rest.now r) x
        (read_atpat n fix.now (left source.now tokens.now)))) (λ e. e ≡ Memory) }
{
    match read_atpat(alloc, source, fix, n, tokens) {
        Ok(got) => Ok(Some(got)),
        Err(stop) => match stop {
            Stop::Memory => Err(Stop::Memory),
            Stop::Bad(_) => Ok(None),
            Stop::Deep(_) => Ok(None),
        },
    }
}

/// What is in the brackets of `(atpat vid atpat)`, where such a pattern was read here.
fn bracketed(
    alloc: Global,
    source: &Source,
    fix: &Fixities,
    n: u32,
    tokens: &[Token],
) -> Result<Option<Pair>, Stop>
    requires { n < 1000 }
    ensures { (y : Read read.Pat) → read_atpat n fix.now (left source.now tokens.now) ≡ ok y
        → MatchResult result (λ found. MatchOption found (bracketed y.tree ≡ None)
        (λ pair. (b : Bracketed) × (bracketed y.tree ≡ Some b) × IsPair source.now pair (left source.now tokens.now) (depth_pat y.tree) b))
        (λ e. e ≡ Memory) }
{
    if n < 2 {
        return Ok(None);
    }
    let Some(inner) = after_word(source, Reserved::LeftParen, tokens) else {
        return Ok(None)
    };
    match maybe_atpat(alloc, source, fix, n - 2, inner)? {
        Some(first) => after_first(alloc, source, fix, n, first.it, first.rest),
        None => Ok(None),
    }
}

/// What is in the brackets, after its first atomic pattern.
fn after_first(
    alloc: Global,
    source: &Source,
    fix: &Fixities,
    n: u32,
    pat: Pat,
    tokens: &[Token],
) -> Result<Option<Pair>, Stop>
    requires room { n < 1000 }
    requires two { 2 ≤ n }
    ensures { (i m : List Terminal) (y one : Read read.Pat) → read_atpat n fix.now i ≡ ok y → after_word LeftParen i ≡ Some m
        → read_atpat (n - 2) fix.now m ≡ ok one → pat_of pat ≡ bare_pat source.now.file one.tree → left source.now tokens.now ≡ one.rest
        → MatchResult result (λ found. MatchOption found (bracketed y.tree ≡ None)
        (λ pair. (b : Bracketed) × (bracketed y.tree ≡ Some b) × IsPair source.now pair i (depth_pat y.tree) b)) (λ e. e ≡ Memory) }
{
    match joint_at(source, fix, tokens) {
        Some(found) => {
            let (first, second) = with(pat, maybe_atpat(alloc, source, fix, n - 2, found.1))?;
            match second {
                Some(got) => Ok(paired(
                    source,
                    first,
                    place_at(source, tokens),
                    found.0,
                    got.it,
                    got.rest,
                )),
                None => Ok(None),
            }
        }
        None => Ok(None),
    }
}

/// The pair of two patterns, where a bracket closes it.
fn paired(
    source: &Source,
    first: Pat,
    vid_place: Place,
    vid: Name,
    second: Pat,
    tokens: &[Token],
) -> Option<Pair>
    ensures { MatchOption (after_word RightParen (left source.now tokens.now)) (result ≡ None)
        (λ o. result ≡ Some (record { left = first; vid_place = vid_place; vid = vid; right = second })) }
{
    match after_word(source, Reserved::RightParen, tokens) {
        Some(_) => Some(Pair {
            left: first,
            vid_place,
            vid,
            right: second,
        }),
        None => None,
    }
}
