// Patterns.

ghost use Rattle.std.specs.Prelude.{◌≡◌, ℕ, ◌<◌, ◌≤◌, ◌+◌, ◌∷◌, [], length, map, List, Option, Some, None, IfOk, MatchOption, MatchResult};
ghost use Rattle.mlc_names.specs.declared.token.Reserved.TheVariants.{Colon, RightParen};
ghost use Rattle.sml_tree.specs.Terminal.{Terminal};
ghost use Rattle.sml_tree.specs.ReadTree as read;
ghost use Rattle.sml_tree.specs.ReadTree.{pat_place};
ghost use Rattle.sml_tree.specs.Bare as bare;
ghost use Rattle.sml_tree.specs.BareTree as tree;
ghost use Rattle.sml_tree.specs.Bare.{bare_pat, bare_some, bare_ty};
ghost use Rattle.sml_tree.specs.Derived as derived;
ghost use Rattle.sml_tree.specs.Depth.{depth_pat, depth_some, depth_ty};
ghost use Rattle.sml_tree.specs.Levels.{pat_level, vid_level, vid_right};
ghost use Rattle.sml_tree.specs.TreeOf.{pat_of, pat_part_of, ty_of, some_ty_of, long_vid_of};
ghost use Rattle.sml_tree.specs.declared.ident.Vid.TheVariants.{Named};
ghost use Rattle.sml_tree.specs.Fixity.{fix_of};
ghost use Rattle.sml_grammar.specs.Answer.{Read, then_read, whole};
ghost use Rattle.sml_grammar.specs.Terminals.{NoState, no_state, place_at, after_word, binds_vid, infix_vid, taken, word_then};
ghost use Rattle.sml_grammar.specs.Answer as answer;
ghost use Rattle.sml_grammar.specs.Patterns.{PatReader, read_pats, begins_pat, at_pat, pat_start, brace_pat, bracket_pat, paren_pat_rest, paren_pat_in, pat_commas_turn, pat_row_turn, field, punned_field, pun, label_equals, pat_first, plain_form, vid_form, typed_form, typed_or_as, pat_suffix, pat_form, whole_pat_parts, atpats_turn};
ghost use Rattle.phrase_base.specs.Gives.{Gives};
ghost use Rattle.phrase_base.specs.Left.{left};
ghost use Rattle.sml_phrases.specs.VidPlace.{vid_place};
ghost use Rattle.phrase_base.specs.declared.stop.Stop.TheVariants.{Memory};
ghost use Rattle.sml_phrases.specs.PatternsRead.{IsPat, IsPatAt, IsPats, IsPatParts, IsPatField, IsPatRow, plain_pat_start, Suffixed, suffix_level, suffix_least, suffix_read, begins_other, begins_named};

use crate::ties::high_enough;
use crate::types::{maybe_ty, read_ty};
use crate::vids::{
    binds_vid, constant_at, infix_level, infix_vid, joint_at, names_vid, plain_vid, vid_level,
    vid_place, vid_right,
};
use mlc_base::make::{boxed, one, with};
use mlc_base::memory::NoMemory;
use mlc_base::place::Place;
use mlc_names::label::Label;
use mlc_names::names::Name;
use mlc_names::token::{Reserved, Token, TokenKind};
use phrase_base::got::{Got, pushed};
use phrase_base::source::Source;
use phrase_base::stop::Stop;
use phrase_base::tokens::{after_word, label_at, past, place_at, room};
use sml_tree::fixity::{Fixities, Infix};
use sml_tree::ident::{LongVid, Vid};
use sml_tree::tree::{Pat, PatField, PatPart, Ty};
use std::alloc::Global;

/// What goes on with a pattern.
#[derive(Clone, Copy, PartialEq, Eq, Debug)]
pub enum Suffix {
    Colon,
    Joint(Name, Infix),
}

/// The fields of a record pattern, and whether `...` ends them.
#[derive(Drop)]
pub struct PatRow {
    pub fields: Vec<PatField>,
    pub dots: bool,
}

/// The suffix that stands first.
fn suffix_at<'a>(
    source: &Source,
    fix: &Fixities,
    tokens: &'a [Token],
) -> Option<(Suffix, &'a [Token])>
    ensures none { MatchOption result (infix_vid fix.now (left source.now tokens.now) ≡ None)
        (λ x. Suffixed fix.now (left source.now tokens.now) x.0 (left source.now x.1.now)) }
    ensures no_colon { MatchOption result (after_word Colon (left source.now tokens.now) ≡ None)
        (λ x. length (left source.now x.1.now) < length (left source.now tokens.now)) }
{
    if let Some((name, how, rest)) = infix_vid(source, fix, tokens) {
        return Some((Suffix::Joint(name, how), rest));
    }
    match after_word(source, Reserved::Colon, tokens) {
        Some(rest) => Some((Suffix::Colon, rest)),
        None => None,
    }
}

/// The level of the pattern that a suffix makes.
fn suffix_level(suffix: &Suffix) -> u32
    ensures { result ≡ suffix_level suffix.now }
{
    match suffix {
        Suffix::Colon => 5,
        Suffix::Joint(_, how) => infix_level(*how),
    }
}

/// The least level of a pattern that it may follow.
fn suffix_least(suffix: &Suffix) -> u32
    ensures { result ≡ suffix_least suffix.now }
{
    match suffix {
        Suffix::Colon => 5,
        Suffix::Joint(_, how) => infix_level(*how) + 1,
    }
}

/// Whether what `op` may stand before begins with these tokens.
fn begins_named(source: &Source, tokens: &[Token]) -> bool
    ensures { result ≡ begins_named (left source.now tokens.now) }
{
    match tokens {
        [first, ..] => match &first.kind {
            TokenKind::Ident(_) => true,
            TokenKind::Symbol(_) => true,
            TokenKind::LongIdent(_, _) => true,
            TokenKind::LongSymbol(_, _) => true,
            TokenKind::Reserved(Reserved::Equals) => true,
            _ => false,
        },
        [] => false,
    }
}

/// Whether a pattern begins with these tokens, other than by `op` or an identifier without a qualifier.
fn begins_other(source: &Source, tokens: &[Token]) -> bool
    ensures { result ≡ begins_other (left source.now tokens.now) }
{
    match tokens {
        [first, ..] => match &first.kind {
            TokenKind::Reserved(Reserved::Underscore) => true,
            TokenKind::Reserved(Reserved::LeftBrace) => true,
            TokenKind::Reserved(Reserved::LeftParen) => true,
            TokenKind::Reserved(Reserved::LeftBracket) => true,
            TokenKind::Int { value: _, plain: _ } => true,
            TokenKind::Word(_) => true,
            TokenKind::Char(_) => true,
            TokenKind::Str(_) => true,
            TokenKind::LongIdent(_, _) => true,
            TokenKind::LongSymbol(_, _) => true,
            _ => false,
        },
        [] => false,
    }
}

/// Whether a pattern begins with these tokens.
pub fn begins_pat(source: &Source, fix: &Fixities, tokens: &[Token]) -> bool
    ensures { result ≡ begins_pat fix.now (left source.now tokens.now) }
{
    if let Some(rest) = after_word(source, Reserved::Op, tokens) {
        return begins_named(source, rest);
    }
    match plain_vid(source, fix, tokens) {
        Some(_) => true,
        None => begins_other(source, tokens),
    }
}

/// A label and the `=` after it.
fn label_equals<'a>(source: &Source, tokens: &'a [Token]) -> Option<(Label, &'a [Token])>
    ensures { MatchOption result (label_equals (left source.now tokens.now) ≡ None)
        (λ x. label_equals (left source.now tokens.now) ≡ taken x.0 (left source.now x.1.now)) }
{
    match label_at(source, tokens) {
        Some((label, after)) => match after_word(source, Reserved::Equals, after) {
            Some(rest) => Some((label, rest)),
            None => None,
        },
        None => None,
    }
}

/// A pattern of a level of at least `level`, at most `n` deep.
#[cycle(pats)]
pub fn read_pat<'a>(
    alloc: Global,
    source: &Source,
    fix: &Fixities,
    n: u32,
    level: u32,
    tokens: &'a [Token],
) -> Result<Got<'a, Pat>, Stop>
    requires { n < 1000 }
    ensures gives { Gives (λ x r. IsPat source.now n (left source.now tokens.now) x.it x.depth x.rest.now r)
        result ((read_pats n).pat fix.now level (left source.now tokens.now)) }
{
    if n == 0 {
        if begins_pat(source, fix, tokens) {
            return Err(Stop::Deep(tokens.len()));
        }
        return Err(Stop::Bad(tokens.len()));
    }
    if level > 0 {
        return plain_form(alloc, source, fix, n - 1, level, tokens);
    }
    match binds_vid(source, fix, tokens) {
        Some((vid, after)) => vid_form(alloc, source, fix, n - 1, vid, tokens, after),
        None => plain_form(alloc, source, fix, n - 1, level, tokens),
    }
}

/// A pattern that begins with an identifier, which `after` follows.
#[cycle(pats)]
fn vid_form<'a>(
    alloc: Global,
    source: &Source,
    fix: &Fixities,
    n: u32,
    vid: Vid,
    tokens: &'a [Token],
    after: &'a [Token],
) -> Result<Got<'a, Pat>, Stop>
    requires room { n < 1000 }
    requires shorter { length (left source.now after.now) < length (left source.now tokens.now) }
    ensures gives { Gives (λ x r. IsPat source.now (n + 1) (left source.now tokens.now) x.it x.depth x.rest.now r)
        result (vid_form (read_pats n) n fix.now (left source.now tokens.now) (record { place = vid_place (left source.now tokens.now); it = vid })
        (left source.now after.now)) }
{
    let name_place = vid_place(source, tokens);
    if let Some(rest) = after_word(source, Reserved::As, after) {
        return as_form(alloc, source, fix, n, name_place, vid, None, 0, rest);
    }
    if let Some(rest) = after_word(source, Reserved::Colon, after) {
        let place = place_at(source, tokens);
        return typed_form(alloc, source, fix, n, place, name_place, vid, rest);
    }
    plain_form(alloc, source, fix, n, 0, tokens)
}

/// `vid [: ty] as pat`
fn layered(alloc: Global, place: Place, vid: Vid, ty: Option<Ty>, pat: Pat) -> Result<Pat, NoMemory>
    ensures { IfOk result (λ made. pat_of made ≡ tree.as_pat place vid (some_ty_of ty) (pat_of pat)) }
{
    let (ty, pat) = with(ty, boxed(alloc, pat))?;
    Ok(Pat::As(place, vid, ty, pat))
}

/// The pattern after `vid [: ty] as`, where the identifier stands at `place`.
#[cycle(pats)]
fn as_form<'a>(
    alloc: Global,
    source: &Source,
    fix: &Fixities,
    n: u32,
    place: Place,
    vid: Vid,
    ty: Option<Ty>,
    ty_depth: u32,
    tokens: &'a [Token],
) -> Result<Got<'a, Pat>, Stop>
    requires room { n < 1000 }
    requires fits { ty_depth ≤ n }
    ensures gives { (i : List Terminal) (q : ℕ) (t : Option read.Ty) → place ≡ bare.at source.now.file q → some_ty_of ty ≡ bare_some source.now.file t
        → ty_depth ≡ depth_some t → length (left source.now tokens.now) < length i
        → Gives (λ x r. IsPat source.now (n + 1) i x.it x.depth x.rest.now r)
        result (then_read ((read_pats n).pat fix.now 0 (left source.now tokens.now))
        (λ a o. answer.read (read.as_pat (place_at i) (record { place = q; it = vid }) t a) o)) }
{
    let (ty, pat) = with(ty, read_pat(alloc, source, fix, n, 0, tokens))?;
    Ok(Got {
        it: layered(alloc, place, vid, ty, pat.it)?,
        depth: ty_depth.max(pat.depth) + 1,
        rest: pat.rest,
    })
}

/// `pat : ty`
fn typed(alloc: Global, place: Place, pat: Pat, ty: Ty) -> Result<Pat, NoMemory>
    ensures { IfOk result (λ made. pat_of made ≡ tree.typed_pat place (pat_of pat) (ty_of ty)) }
{
    let (ty, pat) = with(ty, boxed(alloc, pat))?;
    Ok(Pat::Typed(place, pat, ty))
}

/// The pattern after `vid :`.
#[cycle(pats)]
fn typed_form<'a>(
    alloc: Global,
    source: &Source,
    fix: &Fixities,
    n: u32,
    place: Place,
    name_place: Place,
    vid: Vid,
    tokens: &'a [Token],
) -> Result<Got<'a, Pat>, Stop>
    requires { n < 1000 }
    ensures gives { (i : List Terminal) (q : ℕ) → place ≡ bare.at source.now.file (place_at i) → name_place ≡ bare.at source.now.file q
        → length (left source.now tokens.now) < length i
        → Gives (λ x r. IsPat source.now (n + 1) i x.it x.depth x.rest.now r)
        result (typed_form (read_pats n) n fix.now (place_at i) (record { place = q; it = vid }) (left source.now tokens.now)) }
{
    if n == 0 {
        return Err(Stop::Deep(tokens.len()));
    }
    let Got {
        it: ty,
        depth: ty_depth,
        rest: after,
    } = read_ty(alloc, source, n, 0, tokens)?;
    if let Some(more) = after_word(source, Reserved::As, after) {
        return as_form(
            alloc,
            source,
            fix,
            n,
            name_place,
            vid,
            Some(ty),
            ty_depth,
            more,
        );
    }
    let variable = Pat::Vid(
        name_place,
        LongVid {
            qualifiers: Vec::new(alloc),
            vid,
        },
    );
    let first = typed(alloc, place, variable, ty)?;
    suffixes(
        alloc,
        source,
        fix,
        n,
        0,
        place,
        first,
        ty_depth.max(1) + 1,
        5,
        after,
    )
}

/// A pattern that isn't `vid [: ty] as pat`.
#[cycle(pats)]
fn plain_form<'a>(
    alloc: Global,
    source: &Source,
    fix: &Fixities,
    n: u32,
    level: u32,
    tokens: &'a [Token],
) -> Result<Got<'a, Pat>, Stop>
    requires { n < 1000 }
    ensures gives { Gives (λ x r. IsPat source.now (n + 1) (left source.now tokens.now) x.it x.depth x.rest.now r)
        result (plain_form (read_pats n) n fix.now level (left source.now tokens.now)) }
{
    let place = place_at(source, tokens);
    let Got { it, depth, rest } = first_pat(alloc, source, fix, n, tokens)?;
    suffixes(alloc, source, fix, n, level, place, it, depth, 1000, rest)
}

/// A constructor and its argument.
fn applied(
    alloc: Global,
    place: Place,
    name_place: Place,
    long: LongVid,
    argument: Pat,
) -> Result<Pat, NoMemory>
    ensures { IfOk result (λ made. pat_of made ≡ tree.con_pat place name_place (long_vid_of long) (pat_of argument)) }
{
    let (long, argument) = with(long, boxed(alloc, argument))?;
    Ok(Pat::Con(place, name_place, long, argument))
}

/// A constructor and its argument, or an atomic pattern.
#[cycle(pats)]
fn first_pat<'a>(
    alloc: Global,
    source: &Source,
    fix: &Fixities,
    n: u32,
    tokens: &'a [Token],
) -> Result<Got<'a, Pat>, Stop>
    requires { n < 1000 }
    ensures gives { Gives (λ x r. IsPatAt source.now fix.now 1000 (n + 1) (left source.now tokens.now) x.it x.depth x.rest.now r)
        result (pat_first (read_pats n) n fix.now (left source.now tokens.now)) }
{
    let name_place = vid_place(source, tokens);
    match names_vid(alloc, source, fix, tokens)? {
        Some((long, after)) => {
            if begins_pat(source, fix, after) {
                let (con, argument) = with(long, read_atpat(alloc, source, fix, n, after))?;
                return Ok(Got {
                    it: applied(
                        alloc,
                        place_at(source, tokens),
                        name_place,
                        con,
                        argument.it,
                    )?,
                    depth: argument.depth + 1,
                    rest: argument.rest,
                });
            }
            Ok(Got {
                it: Pat::Vid(name_place, long),
                depth: 1,
                rest: after,
            })
        }
        None => atomic_pat(alloc, source, fix, n, tokens),
    }
}

/// An atomic pattern, at most `n` deep.
#[cycle(pats)]
pub fn read_atpat<'a>(
    alloc: Global,
    source: &Source,
    fix: &Fixities,
    n: u32,
    tokens: &'a [Token],
) -> Result<Got<'a, Pat>, Stop>
    requires { n < 1000 }
    ensures gives { Gives (λ x r. IsPatAt source.now fix.now 1000 n (left source.now tokens.now) x.it x.depth x.rest.now r)
        result ((read_pats n).atpat fix.now (left source.now tokens.now)) }
{
    if n == 0 {
        if begins_pat(source, fix, tokens) {
            return Err(Stop::Deep(tokens.len()));
        }
        return Err(Stop::Bad(tokens.len()));
    }
    atomic_pat(alloc, source, fix, n - 1, tokens)
}

#[cycle(pats)]
fn atomic_pat<'a>(
    alloc: Global,
    source: &Source,
    fix: &Fixities,
    n: u32,
    tokens: &'a [Token],
) -> Result<Got<'a, Pat>, Stop>
    requires { n < 1000 }
    ensures gives { Gives (λ x r. IsPatAt source.now fix.now 1000 (n + 1) (left source.now tokens.now) x.it x.depth x.rest.now r)
        result (at_pat n (read_pats n).pat fix.now (pat_start fix.now (left source.now tokens.now))) }
{
    let place = place_at(source, tokens);
    if let Some(rest) = after_word(source, Reserved::LeftBrace, tokens) {
        return brace_pat(alloc, source, fix, n, place, rest);
    }
    if let Some(rest) = after_word(source, Reserved::LeftParen, tokens) {
        return paren_pat(alloc, source, fix, n, place, rest);
    }
    if let Some(rest) = after_word(source, Reserved::LeftBracket, tokens) {
        return bracket_pat(alloc, source, fix, n, place, rest);
    }
    plain_atpat(alloc, source, fix, tokens)
}

/// An atomic pattern without brackets.
fn plain_atpat<'a>(
    alloc: Global,
    source: &Source,
    fix: &Fixities,
    tokens: &'a [Token],
) -> Result<Got<'a, Pat>, Stop>
    ensures gives { (n : ℕ) (self : PatReader) → Gives (λ x r. IsPatAt source.now fix.now 1000 1 (left source.now tokens.now) x.it x.depth x.rest.now r)
        result (at_pat n self fix.now (plain_pat_start fix.now (left source.now tokens.now))) }
{
    let place = place_at(source, tokens);
    if let Some(rest) = after_word(source, Reserved::Underscore, tokens) {
        return Ok(Got {
            it: Pat::Wild(place),
            depth: 1,
            rest,
        });
    }
    if let Some((constant, rest)) = constant_at(alloc, source, tokens)? {
        return Ok(Got {
            it: Pat::Constant(place, constant),
            depth: 1,
            rest,
        });
    }
    match names_vid(alloc, source, fix, tokens)? {
        Some((long, rest)) => Ok(Got {
            it: Pat::Vid(vid_place(source, tokens), long),
            depth: 1,
            rest,
        }),
        None => Err(Stop::Bad(tokens.len())),
    }
}

/// A record pattern, after its `{`.
#[cycle(pats)]
fn brace_pat<'a>(
    alloc: Global,
    source: &Source,
    fix: &Fixities,
    n: u32,
    place: Place,
    tokens: &'a [Token],
) -> Result<Got<'a, Pat>, Stop>
    requires { n < 1000 }
    ensures gives { (i : List Terminal) → place ≡ bare.at source.now.file (place_at i) → length (left source.now tokens.now) < length i
        → Gives (λ x r. IsPatAt source.now fix.now 1000 (n + 1) i x.it x.depth x.rest.now r)
        result (brace_pat n (read_pats n).pat fix.now (place_at i) (left source.now tokens.now)) }
{
    if let Some(rest) = after_word(source, Reserved::RightBrace, tokens) {
        return Ok(Got {
            it: Pat::Record(place, Vec::new(alloc), false),
            depth: 1,
            rest,
        });
    }
    let Got {
        it: row,
        depth,
        rest: after,
    } = pat_row(alloc, source, fix, n, tokens)?;
    let (whole, rest) = with(row, past(source, Reserved::RightBrace, after))?;
    Ok(Got {
        it: Pat::Record(place, whole.fields, whole.dots),
        depth: depth + 1,
        rest,
    })
}

/// The fields of a record pattern.
#[cycle(pats)]
fn pat_row<'a>(
    alloc: Global,
    source: &Source,
    fix: &Fixities,
    n: u32,
    tokens: &'a [Token],
) -> Result<Got<'a, PatRow>, Stop>
    requires { n < 1000 }
    ensures gives { Gives (λ x r. IsPatRow source.now n (left source.now tokens.now) x.it.fields.items x.it.dots x.depth x.rest.now r)
        result (whole (pat_row_turn n (read_pats n).pat fix.now) no_state (left source.now tokens.now)) }
{
    let mut fields = Vec::new(alloc);
    let mut deepest = 0;
    let mut rest = tokens;
    'fields: loop {
        if let Some(end) = after_word(source, Reserved::Dots, rest) {
            return Ok(Got {
                it: PatRow { fields, dots: true },
                depth: deepest,
                rest: end,
            });
        }
        let (front, field) = with(fields, pat_field(alloc, source, fix, n, rest))?;
        let after = field.rest;
        deepest = field.depth.max(deepest);
        fields = pushed(front, field.it)?;
        let Some(next) = after_word(source, Reserved::Comma, after) else {
            return Ok(Got {
                it: PatRow {
                    fields,
                    dots: false,
                },
                depth: deepest,
                rest: after,
            })
        };
        rest = next;
    }
}

/// A field of a record pattern.
#[cycle(pats)]
fn pat_field<'a>(
    alloc: Global,
    source: &Source,
    fix: &Fixities,
    n: u32,
    tokens: &'a [Token],
) -> Result<Got<'a, PatField>, Stop>
    requires { n < 1000 }
    ensures gives { Gives (λ x r. IsPatField source.now n (left source.now tokens.now) x.it x.depth x.rest.now r)
        result (field n (read_pats n).pat fix.now (left source.now tokens.now)) }
{
    if let Some((label, rest)) = label_equals(source, tokens) {
        let Got {
            it,
            depth,
            rest: after,
        } = read_pat(alloc, source, fix, n, 0, rest)?;
        return Ok(Got {
            it: PatField { label, pat: it },
            depth,
            rest: after,
        });
    }
    punned_field(alloc, source, fix, n, tokens)
}

/// A field whose identifier is its label.
#[cycle(pats)]
fn punned_field<'a>(
    alloc: Global,
    source: &Source,
    fix: &Fixities,
    n: u32,
    tokens: &'a [Token],
) -> Result<Got<'a, PatField>, Stop>
    requires { n < 1000 }
    ensures gives { Gives (λ x r. IsPatField source.now n (left source.now tokens.now) x.it x.depth x.rest.now r)
        result (punned_field n (read_pats n).pat fix.now (left source.now tokens.now)) }
{
    let place = place_at(source, tokens);
    let Some((name, after_name)) = plain_vid(source, fix, tokens) else {
        return Err(Stop::Bad(tokens.len()))
    };
    let Got {
        it: ty,
        depth: ty_depth,
        rest: after_ty,
    } = maybe_ty(alloc, source, n, Reserved::Colon, after_name)?;
    match after_word(source, Reserved::As, after_ty) {
        Some(more) => {
            let (before, got) = with(ty, read_pat(alloc, source, fix, n, 0, more))?;
            let pat = layered(alloc, place, Vid::Named(name), before, got.it)?;
            Ok(Got {
                it: PatField {
                    label: Label::Word(name),
                    pat,
                },
                depth: ty_depth.max(got.depth),
                rest: got.rest,
            })
        }
        None => {
            let pat = punned(alloc, place, name, ty)?;
            Ok(Got {
                it: PatField {
                    label: Label::Word(name),
                    pat,
                },
                depth: ty_depth,
                rest: after_ty,
            })
        }
    }
}

/// The pattern of a field `x [: t]`.
fn punned(alloc: Global, place: Place, name: Name, ty: Option<Ty>) -> Result<Pat, NoMemory>
    ensures { IfOk result (λ made. pat_of made ≡ derived.pun place name (some_ty_of ty)) }
{
    let variable = Pat::Vid(
        place,
        LongVid {
            qualifiers: Vec::new(alloc),
            vid: Vid::Named(name),
        },
    );
    match ty {
        None => Ok(variable),
        Some(ty) => typed(alloc, place, variable, ty),
    }
}

/// `()`, a tuple or a pattern in brackets, after the bracket.
#[cycle(pats)]
fn paren_pat<'a>(
    alloc: Global,
    source: &Source,
    fix: &Fixities,
    n: u32,
    place: Place,
    tokens: &'a [Token],
) -> Result<Got<'a, Pat>, Stop>
    requires { n < 1000 }
    ensures gives { (i : List Terminal) → place ≡ bare.at source.now.file (place_at i) → length (left source.now tokens.now) < length i
        → Gives (λ x r. IsPatAt source.now fix.now 1000 (n + 1) i x.it x.depth x.rest.now r)
        result (paren_pat_in (read_pats n).pat fix.now (place_at i) (left source.now tokens.now)) }
{
    if let Some(rest) = after_word(source, Reserved::RightParen, tokens) {
        return Ok(Got {
            it: Pat::Tuple(place, Vec::new(alloc)),
            depth: 1,
            rest,
        });
    }
    let Got {
        it,
        depth,
        rest: after,
    } = read_pat(alloc, source, fix, n, 0, tokens)?;
    if let Some(more) = after_word(source, Reserved::Comma, after) {
        return tuple_pat(alloc, source, fix, n, place, it, depth, more);
    }
    let (inside, rest) = with(it, past(source, Reserved::RightParen, after))?;
    Ok(Got {
        it: inside,
        depth: depth + 1,
        rest,
    })
}

/// A tuple, after its first pattern and the comma.
#[cycle(pats)]
fn tuple_pat<'a>(
    alloc: Global,
    source: &Source,
    fix: &Fixities,
    n: u32,
    place: Place,
    first: Pat,
    depth: u32,
    tokens: &'a [Token],
) -> Result<Got<'a, Pat>, Stop>
    requires room { n < 1000 }
    requires fits { depth ≤ n }
    ensures gives { (i : List Terminal) (a : read.Pat) → place ≡ bare.at source.now.file (place_at i) → pat_of first ≡ bare_pat source.now.file a
        → depth ≡ depth_pat a → length (left source.now tokens.now) < length i
        → Gives (λ x r. IsPatAt source.now fix.now 1000 (n + 1) i x.it x.depth x.rest.now r)
        result (then_read (whole (pat_commas_turn (read_pats n).pat fix.now) no_state (left source.now tokens.now))
        (λ as_ k. word_then RightParen (λ o. answer.read (read.tuple_pat (place_at i) (read.pat a as_)) o) k)) }
{
    let front = one(alloc, first)?;
    let Got {
        it,
        depth: deepest,
        rest: after,
    } = more_pats(alloc, source, fix, n, front, depth, tokens)?;
    let (all, rest) = with(it, past(source, Reserved::RightParen, after))?;
    Ok(Got {
        it: Pat::Tuple(place, all),
        depth: deepest + 1,
        rest,
    })
}

/// A list, after its `[`.
#[cycle(pats)]
fn bracket_pat<'a>(
    alloc: Global,
    source: &Source,
    fix: &Fixities,
    n: u32,
    place: Place,
    tokens: &'a [Token],
) -> Result<Got<'a, Pat>, Stop>
    requires { n < 1000 }
    ensures gives { (i : List Terminal) → place ≡ bare.at source.now.file (place_at i) → length (left source.now tokens.now) < length i
        → Gives (λ x r. IsPatAt source.now fix.now 1000 (n + 1) i x.it x.depth x.rest.now r)
        result (bracket_pat (read_pats n).pat fix.now (place_at i) (left source.now tokens.now)) }
{
    if let Some(rest) = after_word(source, Reserved::RightBracket, tokens) {
        return Ok(Got {
            it: Pat::List(place, Vec::new(alloc)),
            depth: 1,
            rest,
        });
    }
    let Got {
        it,
        depth,
        rest: after,
    } = more_pats(alloc, source, fix, n, Vec::new(alloc), 0, tokens)?;
    let (all, rest) = with(it, past(source, Reserved::RightBracket, after))?;
    Ok(Got {
        it: Pat::List(place, all),
        depth: depth + 1,
        rest,
    })
}

/// Patterns with commas between them, after those of `front`.
#[cycle(pats)]
fn more_pats<'a>(
    alloc: Global,
    source: &Source,
    fix: &Fixities,
    n: u32,
    front: Vec<Pat>,
    depth: u32,
    tokens: &'a [Token],
) -> Result<Got<'a, Vec<Pat>>, Stop>
    requires room { n < 1000 }
    requires fits { depth ≤ n }
    ensures gives { Gives (λ x r. IsPats source.now n (left source.now tokens.now) front.items depth x.it.items x.depth x.rest.now r)
        result (whole (pat_commas_turn (read_pats n).pat fix.now) no_state (left source.now tokens.now)) }
{
    let mut all = front;
    let mut deepest = depth;
    let mut rest = tokens;
    'patterns: loop {
        let (others, pat) = with(all, read_pat(alloc, source, fix, n, 0, rest))?;
        let after = pat.rest;
        deepest = pat.depth.max(deepest);
        all = pushed(others, pat.it)?;
        let Some(next) = after_word(source, Reserved::Comma, after) else {
            return Ok(Got {
                it: all,
                depth: deepest,
                rest: after,
            })
        };
        rest = next;
    }
}

/// What follows the pattern `first`, of this depth and level, in a pattern of a level of at least `least`.
#[cycle(pats)]
fn suffixes<'a>(
    alloc: Global,
    source: &Source,
    fix: &Fixities,
    n: u32,
    least: u32,
    place: Place,
    first: Pat,
    depth: u32,
    level: u32,
    tokens: &'a [Token],
) -> Result<Got<'a, Pat>, Stop>
    requires { n < 1000 }
    ensures gives { (i : List Terminal) (a : Read read.Pat) → place ≡ bare.at source.now.file (place_at i)
        → IsPatAt source.now fix.now level (n + 1) i first depth tokens.now a
        → Gives (λ x r. IsPat source.now (n + 1) i x.it x.depth x.rest.now r) result (pat_suffix (read_pats n).pat n fix.now least a.tree a.rest) }
{
    let mut pat = first;
    let mut deep = depth;
    let mut high = level;
    let mut rest = tokens;
    'suffixes: loop {
        let Some((suffix, more)) = suffix_at(source, fix, rest) else {
            return Ok(Got {
                it: pat,
                depth: deep,
                rest,
            })
        };
        let tie = suffix_level(&suffix);
        if least > tie {
            return Ok(Got {
                it: pat,
                depth: deep,
                rest,
            });
        }
        let (tied, _high) = with(pat, high_enough(high, suffix_least(&suffix), rest))?;
        let (before, _room) = with(tied, room(deep, n, rest))?;
        let joint = place_at(source, rest);
        let Got {
            it,
            depth: next,
            rest: after,
        } = extended(
            alloc, source, fix, n, place, before, deep, joint, &suffix, more,
        )?;
        pat = it;
        deep = next;
        high = tie;
        rest = after;
    }
}

/// A chain of a first operand and those after it.
fn chain(
    alloc: Global,
    place: Place,
    right: bool,
    first: Pat,
    parts: Vec<PatPart>,
) -> Result<Pat, NoMemory>
    ensures { IfOk result (λ made. pat_of made ≡ derived.chain_of derived.join_pats right place (pat_of first) (map pat_part_of parts.items)) }
{
    let (parts, first) = with(parts, boxed(alloc, first))?;
    Ok(Pat::Chain(place, right, first, parts))
}

/// The pattern `first` with what a suffix makes of it, after the suffix.
#[cycle(pats)]
fn extended<'a>(
    alloc: Global,
    source: &Source,
    fix: &Fixities,
    n: u32,
    place: Place,
    first: Pat,
    depth: u32,
    joint: Place,
    suffix: &Suffix,
    tokens: &'a [Token],
) -> Result<Got<'a, Pat>, Stop>
    requires room { n < 1000 }
    requires fits { depth ≤ n }
    ensures gives { (i k : List Terminal) (a : read.Pat) → place ≡ bare.at source.now.file (place_at i) → joint ≡ bare.at source.now.file (place_at k)
        → pat_of first ≡ bare_pat source.now.file a → depth ≡ depth_pat a → pat_place a ≡ place_at i → length (left source.now tokens.now) < length i
        → Suffixed fix.now k suffix.now (left source.now tokens.now)
        → Gives (λ x r. IsPatAt source.now fix.now (suffix_level suffix.now) (n + 1) i x.it x.depth x.rest.now r)
        result (suffix_read (read_pats n).pat n fix.now a (place_at k) suffix.now (left source.now tokens.now)) }
    ensures shorter { IfOk result (λ x. length (left source.now x.rest.now) < length (left source.now tokens.now)) }
{
    match suffix {
        Suffix::Colon => {
            let (first, ty) = with(first, read_ty(alloc, source, n, 0, tokens))?;
            Ok(Got {
                it: typed(alloc, place, first, ty.it)?,
                depth: depth.max(ty.depth) + 1,
                rest: ty.rest,
            })
        }
        Suffix::Joint(name, how) => {
            let (first, parts) = with(
                first,
                pat_parts(alloc, source, fix, n, joint, *name, *how, tokens),
            )?;
            Ok(Got {
                it: chain(alloc, place, how.right, first, parts.it)?,
                depth: depth.max(parts.depth) + 1,
                rest: parts.rest,
            })
        }
    }
}

/// The operands of a chain after the first joint.
#[cycle(pats)]
fn pat_parts<'a>(
    alloc: Global,
    source: &Source,
    fix: &Fixities,
    n: u32,
    joint: Place,
    name: Name,
    how: Infix,
    tokens: &'a [Token],
) -> Result<Got<'a, Vec<PatPart>>, Stop>
    requires { n < 1000 }
    ensures gives { (p : ℕ) → joint ≡ bare.at source.now.file p → fix_of (Named name) fix.now ≡ Some how
        → Gives (λ x r. IsPatParts source.now fix.now n (left source.now tokens.now) name x.it.items x.depth x.rest.now r)
        result (whole_pat_parts (read_pats n).pat fix.now (record { place = p; it = name }) (left source.now tokens.now)) }
    ensures fits { IfOk result (λ x. x.depth ≤ n) }
    ensures shorter { IfOk result (λ x. length (left source.now x.rest.now) < length (left source.now tokens.now)) }
{
    let level = infix_level(how);
    let mut all = Vec::new(alloc);
    let mut deepest = 0;
    let mut vid_place = joint;
    let mut vid = name;
    let mut rest = tokens;
    'parts: loop {
        let place = place_at(source, rest);
        let (front, pat) = with(all, read_pat(alloc, source, fix, n, level + 1, rest))?;
        let after = pat.rest;
        deepest = pat.depth.max(deepest);
        let part = PatPart {
            vid_place,
            vid: Vid::Named(vid),
            place,
            pat: pat.it,
        };
        all = pushed(front, part)?;
        let Some(found) = joint_at(source, fix, after) else {
            return Ok(Got {
                it: all,
                depth: deepest,
                rest: after,
            })
        };
        let next_level = vid_level(fix, found.0);
        let next_right = vid_right(fix, found.0);
        if next_level != level {
            return Ok(Got {
                it: all,
                depth: deepest,
                rest: after,
            });
        }
        if next_right != how.right {
            return Err(Stop::Bad(after.len()));
        }
        let next_place = place_at(source, after);
        vid_place = next_place;
        vid = found.0;
        rest = found.1;
    }
}
