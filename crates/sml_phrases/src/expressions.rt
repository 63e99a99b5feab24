// Expressions.

ghost use Rattle.std.specs.Prelude.{◌≡◌, ◌<◌, ◌≤◌, ◌+◌, ℕ, true, length, map, Some, None, MatchOption, MatchResult};
ghost use Rattle.sml_tree.specs.Terminal.{Terminal};
ghost use Rattle.sml_tree.specs.ReadTree as read;
ghost use Rattle.sml_tree.specs.ReadTree.{exp_place};
ghost use Rattle.sml_tree.specs.Bare.{at, bare_exp, exp_list, operands, joint_of};
ghost use Rattle.sml_tree.specs.Depth.{depth, depth_exps, depth_parts, depth_rules, depth_exp_fields};
ghost use Rattle.sml_tree.specs.TreeOf.{exp_of, part_of, rule_of, exp_field_of};
ghost use Rattle.sml_grammar.specs.Answer.{Answer, whole, then_read};
ghost use Rattle.sml_grammar.specs.Terminals.{no_state, place_at, tail, word_then};
ghost use Rattle.sml_grammar.specs.Expressions.{readers, start_of, keyword_form, if_rest, application, atoms_turn, begins_atom, brace_exp, paren_in, bracket_exp, let_exp, read_match, whole_parts, case_rest};
ghost use Rattle.phrase_base.specs.Gives.{Gives};
ghost use Rattle.phrase_base.specs.Left.{left};
ghost use Rattle.sml_phrases.specs.ExpressionsRead.{IsExp, IsAtom, IsLarger, IsList, closed_exps, closed_rows, field_list, rule_list};
ghost use Rattle.sml_phrases.specs.Ties.{joint_from, tie_level, tie_rest, FromFile};

use crate::atoms::{begins_atom, is_keyword, leaf_atom, no_atom_room, no_room};
use crate::declarations::read_decs;
use crate::nodes::{
    applied, chain, field, handler, lambda, list, part, raised, record_of, rule, tuple_from,
    tuple_of, typed,
};
use crate::patterns::read_pat;
use crate::ties::{
    Tie, high_enough, joint_level, joint_right, next_joint, tie_at, tie_least, tie_level,
};
use crate::types::read_ty;
use mlc_base::make::with;
use mlc_base::place::Place;
use mlc_names::token::{Reserved, Token};
use phrase_base::got::{Got, pushed};
use phrase_base::source::Source;
use phrase_base::stop::Stop;
use phrase_base::tokens::{after_word, label_at, past, place_at, room, tail, word_at};
use sml_tree::derive;
use sml_tree::fixity::Fixities;
use sml_tree::tree::{Exp, ExpField, Joint, Part, Rule};
use std::alloc::Global;

/// An expression of a level of at least `level`, at most `n` deep.
#[cycle(expressions)]
pub fn read_exp<'a>(
    alloc: Global,
    source: &Source,
    fix: &Fixities,
    n: u32,
    level: u32,
    tokens: &'a [Token],
) -> Result<Got<'a, Exp>, Stop>
    requires { n < 1000 }
    ensures gives { Gives (λ x r. IsExp source.now n (left source.now tokens.now) x.it x.depth x.rest.now r)
        result ((readers n).exp fix.now level (left source.now tokens.now)) }
{
    if n == 0 {
        return Err(no_room(source, fix, level, tokens));
    }
    if is_keyword(source, tokens) {
        if level > 4 {
            return Err(Stop::Bad(tokens.len()));
        }
        return keyword_form(alloc, source, fix, n - 1, tokens);
    }
    let place = place_at(source, tokens);
    let first = application(alloc, source, fix, n - 1, tokens)?;
    let mut exp = first.it;
    let mut depth = first.depth;
    let mut high = 1000;
    let mut rest = first.rest;
    'suffixes: while let Some((tie, after)) = tie_at(source, fix, rest) {
        let next = tie_level(fix, &tie);
        if level > next {
            return Ok(Got {
                it: exp,
                depth,
                rest,
            });
        }
        let (tied, _high) = with(exp, high_enough(high, tie_least(fix, &tie), rest))?;
        let (before, _room) = with(tied, room(depth, n - 1, rest))?;
        let larger = go_on(alloc, source, fix, n - 1, &tie, place, before, depth, after)?;
        exp = larger.it;
        depth = larger.depth;
        high = next;
        rest = larger.rest;
    }
    Ok(Got {
        it: exp,
        depth,
        rest,
    })
}

/// A form that begins with a keyword.
#[cycle(expressions)]
#[tactic(auto, using(crate::proofs::ExpLemmas::rules_all))]
fn keyword_form<'a>(
    alloc: Global,
    source: &Source,
    fix: &Fixities,
    n: u32,
    tokens: &'a [Token],
) -> Result<Got<'a, Exp>, Stop>
    requires { n < 999 }
    ensures gives { Gives (λ x r. IsExp source.now (n + 1) (left source.now tokens.now) x.it x.depth x.rest.now r)
        result (keyword_form n (readers n).exp fix.now (start_of (left source.now tokens.now))) }
{
    let place = place_at(source, tokens);
    let inner = tail(source, tokens);
    match word_at(source, tokens) {
        Some(Reserved::Raise) => {
            let exp = read_exp(alloc, source, fix, n, 0, inner)?;
            Ok(Got {
                it: raised(alloc, place, exp.it)?,
                depth: exp.depth + 1,
                rest: exp.rest,
            })
        }
        Some(Reserved::If) => conditional(alloc, source, fix, n, tokens),
        Some(Reserved::While) => {
            let test = read_exp(alloc, source, fix, n, 0, inner)?;
            let rest = test.rest;
            let (condition, body) = with(
                test,
                read_after(alloc, source, fix, n, Reserved::Do, rest),
            )?;
            let depth = condition.depth.max(body.depth) + 1;
            Ok(Got {
                it: derive::while_loop(alloc, place, condition.it, body.it)?,
                depth,
                rest: body.rest,
            })
        }
        Some(Reserved::Case) => case(alloc, source, fix, n, tokens),
        Some(Reserved::Fn) => {
            let rules = read_match(alloc, source, fix, n, inner)?;
            Ok(Got {
                it: lambda(place, rules.it),
                depth: rules.depth + 1,
                rest: rules.rest,
            })
        }
        _ => Err(Stop::Bad(tokens.len())),
    }
}

/// `if a then b else c`
#[cycle(expressions)]
fn conditional<'a>(
    alloc: Global,
    source: &Source,
    fix: &Fixities,
    n: u32,
    tokens: &'a [Token],
) -> Result<Got<'a, Exp>, Stop>
    requires { n < 999 }
    ensures gives { Gives (λ x r. IsExp source.now (n + 1) (left source.now tokens.now) x.it x.depth x.rest.now r) result
        (then_read ((readers n).exp fix.now 0 (tail (left source.now tokens.now))) (if_rest (readers n).exp fix.now (place_at (left source.now tokens.now)))) }
{
    let test = read_exp(alloc, source, fix, n, 0, tail(source, tokens))?;
    let rest = test.rest;
    let (condition, yes) = with(
        test,
        read_after(alloc, source, fix, n, Reserved::Then, rest),
    )?;
    let rest = yes.rest;
    let (both, no) = with(
        (condition, yes),
        read_after(alloc, source, fix, n, Reserved::Else, rest),
    )?;
    let (condition, yes) = both;
    let depth = condition.depth.max(yes.depth.max(no.depth)) + 1;
    let rest = no.rest;
    let it = derive::conditional(alloc, place_at(source, tokens), condition.it, yes.it, no.it)?;
    Ok(Got { it, depth, rest })
}

/// `case e of m`
#[cycle(expressions)]
#[tactic(auto, using(crate::proofs::ExpLemmas::rules_all))]
fn case<'a>(
    alloc: Global,
    source: &Source,
    fix: &Fixities,
    n: u32,
    tokens: &'a [Token],
) -> Result<Got<'a, Exp>, Stop>
    requires { n < 999 }
    ensures gives { Gives (λ x r. IsExp source.now (n + 1) (left source.now tokens.now) x.it x.depth x.rest.now r) result
        (then_read ((readers n).exp fix.now 0 (tail (left source.now tokens.now)))
        (case_rest n (readers n).exp fix.now (place_at (left source.now tokens.now)))) }
{
    let exp = read_exp(alloc, source, fix, n, 0, tail(source, tokens))?;
    let rest = exp.rest;
    let (subject, after) = with(exp, past(source, Reserved::Of, rest))?;
    let (matched, rules) = with(subject, read_match(alloc, source, fix, n, after))?;
    let depth = matched.depth.max(rules.depth) + 1;
    let rest = rules.rest;
    let it = derive::case(alloc, place_at(source, tokens), matched.it, rules.it)?;
    Ok(Got { it, depth, rest })
}

/// An expression after a word.
#[cycle(expressions)]
pub fn read_after<'a>(
    alloc: Global,
    source: &Source,
    fix: &Fixities,
    n: u32,
    word: Reserved,
    tokens: &'a [Token],
) -> Result<Got<'a, Exp>, Stop>
    requires { n < 1000 }
    ensures gives { Gives (λ x r. IsExp source.now n (tail (left source.now tokens.now)) x.it x.depth x.rest.now r)
        result (word_then word ((readers n).exp fix.now 0) (left source.now tokens.now)) }
{
    match after_word(source, word, tokens) {
        Some(after) => read_exp(alloc, source, fix, n, 0, after),
        None => Err(Stop::Bad(tokens.len())),
    }
}

/// An atomic expression, or an application of one.
#[cycle(expressions)]
fn application<'a>(
    alloc: Global,
    source: &Source,
    fix: &Fixities,
    n: u32,
    tokens: &'a [Token],
) -> Result<Got<'a, Exp>, Stop>
    requires { n < 999 }
    ensures gives { Gives (λ x r. IsAtom fix.now source.now (n + 1) (left source.now tokens.now) x.it x.depth x.rest.now r)
        result (application (readers n) n fix.now (left source.now tokens.now)) }
{
    let place = place_at(source, tokens);
    let first = read_atom(alloc, source, fix, n + 1, tokens)?;
    let (below, rest) = (first.depth, first.rest);
    if !begins_atom(source, fix, rest) {
        return Ok(first);
    }
    let (operator, _room) = with(first, room(below, n, rest))?;
    let (function, arguments) = with(operator, read_atoms(alloc, source, fix, n, rest))?;
    Ok(Got {
        it: applied(alloc, place, function.it, arguments.it)?,
        depth: below.max(arguments.depth) + 1,
        rest: arguments.rest,
    })
}

/// Atomic expressions, where one begins.
#[cycle(expressions)]
fn read_atoms<'a>(
    alloc: Global,
    source: &Source,
    fix: &Fixities,
    n: u32,
    tokens: &'a [Token],
) -> Result<Got<'a, Vec<Exp>>, Stop>
    requires room { n < 999 }
    requires begins { begins_atom fix.now (left source.now tokens.now) ≡ true }
    ensures gives { Gives (λ x r. IsList (exp_list source.now.file) depth_exps source.now n (left source.now tokens.now)
        (map exp_of x.it.items) x.depth x.rest.now r)
        result (whole (atoms_turn (readers n).atom fix.now) no_state (left source.now tokens.now)) }
{
    let mut all = Vec::new(alloc);
    let mut deepest = 0;
    let mut rest = tokens;
    'atoms: loop {
        let (front, atom) = with(all, read_atom(alloc, source, fix, n, rest))?;
        deepest = atom.depth.max(deepest);
        rest = atom.rest;
        all = pushed(front, atom.it)?;
        if !begins_atom(source, fix, rest) {
            return Ok(Got {
                it: all,
                depth: deepest,
                rest,
            });
        }
    }
}

/// An atomic expression.
#[cycle(expressions)]
fn read_atom<'a>(
    alloc: Global,
    source: &Source,
    fix: &Fixities,
    n: u32,
    tokens: &'a [Token],
) -> Result<Got<'a, Exp>, Stop>
    requires { n < 1000 }
    ensures gives { Gives (λ x r. IsAtom fix.now source.now n (left source.now tokens.now) x.it x.depth x.rest.now r)
        result ((readers n).atom fix.now (left source.now tokens.now)) }
{
    if n == 0 {
        return Err(no_atom_room(source, fix, tokens));
    }
    if let Some(_) = after_word(source, Reserved::LeftBrace, tokens) {
        return in_braces(alloc, source, fix, n - 1, tokens);
    }
    if let Some(_) = after_word(source, Reserved::LeftParen, tokens) {
        return in_parens(alloc, source, fix, n - 1, tokens);
    }
    if let Some(_) = after_word(source, Reserved::LeftBracket, tokens) {
        return in_brackets(alloc, source, fix, n - 1, tokens);
    }
    if let Some(_) = after_word(source, Reserved::Let, tokens) {
        return read_let(alloc, source, fix, n - 1, tokens);
    }
    leaf_atom(alloc, source, fix, tokens)
}

/// `{lab = e, ..}`
#[cycle(expressions)]
fn in_braces<'a>(
    alloc: Global,
    source: &Source,
    fix: &Fixities,
    n: u32,
    tokens: &'a [Token],
) -> Result<Got<'a, Exp>, Stop>
    requires { n < 999 }
    ensures gives { Gives (λ x r. IsAtom fix.now source.now (n + 1) (left source.now tokens.now) x.it x.depth x.rest.now r) result
        (brace_exp (readers n).exp fix.now (place_at (left source.now tokens.now)) (tail (left source.now tokens.now))) }
{
    let place = place_at(source, tokens);
    let inner = tail(source, tokens);
    if let Some(rest) = after_word(source, Reserved::RightBrace, inner) {
        return Ok(Got {
            it: record_of(place, Vec::new(alloc)),
            depth: 1,
            rest,
        });
    }
    let fields = read_rows(alloc, source, fix, n, inner)?;
    Ok(Got {
        it: record_of(place, fields.it),
        depth: fields.depth + 1,
        rest: fields.rest,
    })
}

/// Fields, and the brace that closes them.
#[cycle(expressions)]
fn read_rows<'a>(
    alloc: Global,
    source: &Source,
    fix: &Fixities,
    n: u32,
    tokens: &'a [Token],
) -> Result<Got<'a, Vec<ExpField>>, Stop>
    requires { n < 999 }
    ensures gives { Gives (λ x r. IsList (field_list source.now.file) depth_exp_fields source.now n (left source.now tokens.now)
        (map exp_field_of x.it.items) x.depth x.rest.now r)
        result (closed_rows (readers n).exp fix.now (left source.now tokens.now)) }
{
    let mut all = Vec::new(alloc);
    let mut deepest = 0;
    let mut rest = tokens;
    'fields: loop {
        let Some((label, value)) = label_at(source, rest) else {
            return Err(Stop::Bad(rest.len()))
        };
        let (front, exp) = with(
            all,
            read_after(alloc, source, fix, n, Reserved::Equals, value),
        )?;
        let after = exp.rest;
        deepest = exp.depth.max(deepest);
        all = pushed(front, field(label, exp.it))?;
        match after_word(source, Reserved::Comma, after) {
            Some(next) => rest = next,
            None => {
                let (it, rest) = with(all, past(source, Reserved::RightBrace, after))?;
                return Ok(Got {
                    it,
                    depth: deepest,
                    rest,
                });
            }
        }
    }
}

/// `()`, `(e)`, `(e1, .., en)` or `(e1; ..; en)`
#[cycle(expressions)]
fn in_parens<'a>(
    alloc: Global,
    source: &Source,
    fix: &Fixities,
    n: u32,
    tokens: &'a [Token],
) -> Result<Got<'a, Exp>, Stop>
    requires { n < 999 }
    ensures gives { Gives (λ x r. IsAtom fix.now source.now (n + 1) (left source.now tokens.now) x.it x.depth x.rest.now r) result
        (paren_in (readers n).exp fix.now (place_at (left source.now tokens.now)) (tail (left source.now tokens.now))) }
{
    let place = place_at(source, tokens);
    let inner = tail(source, tokens);
    if let Some(rest) = after_word(source, Reserved::RightParen, inner) {
        return Ok(Got {
            it: tuple_of(place, Vec::new(alloc)),
            depth: 1,
            rest,
        });
    }
    let first = read_exp(alloc, source, fix, n, 0, inner)?;
    let rest = first.rest;
    if let Some(after) = after_word(source, Reserved::Comma, rest) {
        let (front, exps) = with(
            first,
            read_exps(
                alloc,
                source,
                fix,
                n,
                Reserved::Comma,
                Reserved::RightParen,
                after,
            ),
        )?;
        return Ok(Got {
            it: tuple_from(place, front.it, exps.it)?,
            depth: front.depth.max(exps.depth) + 1,
            rest: exps.rest,
        });
    }
    if let Some(after) = after_word(source, Reserved::Semicolon, rest) {
        let (start, exps) = with(
            first,
            read_exps(
                alloc,
                source,
                fix,
                n,
                Reserved::Semicolon,
                Reserved::RightParen,
                after,
            ),
        )?;
        return Ok(Got {
            it: derive::sequence(alloc, place, start.it, exps.it)?,
            depth: start.depth.max(exps.depth) + 1,
            rest: exps.rest,
        });
    }
    let (inside, after) = with(first, past(source, Reserved::RightParen, rest))?;
    Ok(Got {
        it: inside.it,
        depth: inside.depth + 1,
        rest: after,
    })
}

/// `[e1, .., en]`
#[cycle(expressions)]
fn in_brackets<'a>(
    alloc: Global,
    source: &Source,
    fix: &Fixities,
    n: u32,
    tokens: &'a [Token],
) -> Result<Got<'a, Exp>, Stop>
    requires { n < 999 }
    ensures gives { Gives (λ x r. IsAtom fix.now source.now (n + 1) (left source.now tokens.now) x.it x.depth x.rest.now r) result
        (bracket_exp (readers n).exp fix.now (place_at (left source.now tokens.now)) (tail (left source.now tokens.now))) }
{
    let place = place_at(source, tokens);
    let inner = tail(source, tokens);
    if let Some(rest) = after_word(source, Reserved::RightBracket, inner) {
        return Ok(Got {
            it: list(place, Vec::new(alloc)),
            depth: 1,
            rest,
        });
    }
    let exps = read_exps(
        alloc,
        source,
        fix,
        n,
        Reserved::Comma,
        Reserved::RightBracket,
        inner,
    )?;
    Ok(Got {
        it: list(place, exps.it),
        depth: exps.depth + 1,
        rest: exps.rest,
    })
}

/// `let d in e1; ..; en end`
#[cycle(expressions)]
#[tactic(auto, using(crate::proofs::ExpLemmas::decs_all))]
fn read_let<'a>(
    alloc: Global,
    source: &Source,
    fix: &Fixities,
    n: u32,
    tokens: &'a [Token],
) -> Result<Got<'a, Exp>, Stop>
    requires { n < 999 }
    ensures gives { Gives (λ x r. IsAtom fix.now source.now (n + 1) (left source.now tokens.now) x.it x.depth x.rest.now r) result
        (let_exp (readers n) fix.now (place_at (left source.now tokens.now)) (tail (left source.now tokens.now))) }
{
    let mut inner = fix.copy(alloc)?;
    let decs = read_decs(alloc, source, &mut inner, n, tail(source, tokens))?;
    let Some(after) = after_word(source, Reserved::In, decs.rest) else {
        return Err(Stop::Bad(decs.rest.len()))
    };
    let mut body = read_exps(
        alloc,
        source,
        &inner,
        n,
        Reserved::Semicolon,
        Reserved::End,
        after,
    )?;
    let first = body.it.remove(0);
    let it = derive::let_in(alloc, place_at(source, tokens), decs.it, first, body.it)?;
    Ok(Got {
        it,
        depth: decs.depth.max(body.depth) + 1,
        rest: body.rest,
    })
}

/// Expressions that a word parts, and the word that closes them.
#[cycle(expressions)]
fn read_exps<'a>(
    alloc: Global,
    source: &Source,
    fix: &Fixities,
    n: u32,
    word: Reserved,
    closing: Reserved,
    tokens: &'a [Token],
) -> Result<Got<'a, Vec<Exp>>, Stop>
    requires { n < 999 }
    ensures gives { Gives (λ x r. IsList (exp_list source.now.file) depth_exps source.now n (left source.now tokens.now)
        (map exp_of x.it.items) x.depth x.rest.now r)
        result (closed_exps word closing (readers n).exp fix.now (left source.now tokens.now)) }
{
    let mut all = Vec::new(alloc);
    let mut deepest = 0;
    let mut rest = tokens;
    'exps: loop {
        let (front, exp) = with(all, read_exp(alloc, source, fix, n, 0, rest))?;
        let after = exp.rest;
        deepest = exp.depth.max(deepest);
        all = pushed(front, exp.it)?;
        match after_word(source, word, after) {
            Some(next) => rest = next,
            None => {
                let (it, rest) = with(all, past(source, closing, after))?;
                return Ok(Got {
                    it,
                    depth: deepest,
                    rest,
                });
            }
        }
    }
}

/// A match.
#[cycle(expressions)]
fn read_match<'a>(
    alloc: Global,
    source: &Source,
    fix: &Fixities,
    n: u32,
    tokens: &'a [Token],
) -> Result<Got<'a, Vec<Rule>>, Stop>
    requires { n < 999 }
    ensures gives { Gives (λ x r. IsList (rule_list source.now.file) depth_rules source.now n (left source.now tokens.now)
        (map rule_of x.it.items) x.depth x.rest.now r)
        result (read_match n (readers n).exp fix.now (left source.now tokens.now)) }
{
    let mut all = Vec::new(alloc);
    let mut deepest = 0;
    let mut rest = tokens;
    'rules: loop {
        let place = place_at(source, rest);
        let (front, pat) = with(all, read_pat(alloc, source, fix, n, 0, rest))?;
        let after_pat = pat.rest;
        let (parts, exp) = with(
            (front, pat),
            read_after(alloc, source, fix, n, Reserved::DoubleArrow, after_pat),
        )?;
        let (front, pat) = parts;
        let after = exp.rest;
        deepest = pat.depth.max(exp.depth).max(deepest);
        all = pushed(front, rule(place, pat.it, exp.it))?;
        let Some(next) = after_word(source, Reserved::Bar, after) else {
            return Ok(Got {
                it: all,
                depth: deepest,
                rest: after,
            })
        };
        rest = next;
    }
}

/// The operands of a chain, after its first joint.
#[cycle(expressions)]
fn read_parts<'a>(
    alloc: Global,
    source: &Source,
    fix: &Fixities,
    n: u32,
    first: &Joint,
    tokens: &'a [Token],
) -> Result<Got<'a, Vec<Part>>, Stop>
    requires room { n < 999 }
    requires place { joint_of source.now.file (joint_from first.now) ≡ first.now }
    ensures gives { Gives (λ x r. IsList (operands source.now.file) depth_parts source.now n (left source.now tokens.now)
        (map part_of x.it.items) x.depth x.rest.now r)
        result (whole_parts (readers n).exp fix.now (joint_from first.now) (left source.now tokens.now)) }
{
    let level = joint_level(fix, first);
    let right = joint_right(fix, first);
    let mut all = Vec::new(alloc);
    let mut deepest = 0;
    let mut joint = *first;
    let mut rest = tokens;
    'parts: loop {
        let place = place_at(source, rest);
        let (front, exp) = with(all, read_exp(alloc, source, fix, n, level + 1, rest))?;
        let after = exp.rest;
        deepest = exp.depth.max(deepest);
        let longer = pushed(front, part(joint, place, exp.it))?;
        let (grown, found) = with(longer, next_joint(source, fix, level, right, after))?;
        all = grown;
        let Some(next) = found else {
            return Ok(Got {
                it: all,
                depth: deepest,
                rest: after,
            })
        };
        joint = next;
        rest = tail(source, after);
    }
}

/// An expression after a tie, and what it makes of the expression before.
#[cycle(expressions)]
fn go_on<'a>(
    alloc: Global,
    source: &Source,
    fix: &Fixities,
    n: u32,
    tie: &Tie,
    place: Place,
    before: Exp,
    below: u32,
    tokens: &'a [Token],
) -> Result<Got<'a, Exp>, Stop>
    requires room { n < 999 }
    requires fits { below ≤ n }
    requires place { FromFile source.now.file tie.now }
    ensures gives { (a : read.Exp) → exp_of before ≡ bare_exp source.now.file a → below ≡ depth a → place ≡ at source.now.file (exp_place a) →
        Gives (λ x r. IsLarger fix.now source.now (n + 1) (left source.now tokens.now) (exp_place a) (tie_level fix.now tie.now) x.it x.depth x.rest.now r)
        result (tie_rest (readers n).exp n fix.now a tie.now (left source.now tokens.now)) }
{
    match tie {
        Tie::Joint(joint) => {
            let (before, parts) = with(before, read_parts(alloc, source, fix, n, joint, tokens))?;
            let it = chain(alloc, place, joint_right(fix, joint), before, parts.it)?;
            Ok(Got {
                it,
                depth: below.max(parts.depth) + 1,
                rest: parts.rest,
            })
        }
        Tie::Mark => {
            let (before, ty) = with(before, read_ty(alloc, source, n, 0, tokens))?;
            Ok(Got {
                it: typed(alloc, place, before, ty.it)?,
                depth: below.max(ty.depth) + 1,
                rest: ty.rest,
            })
        }
        Tie::Handle => {
            let (before, rules) = with(before, read_match(alloc, source, fix, n, tokens))?;
            Ok(Got {
                it: handler(alloc, place, before, rules.it)?,
                depth: below.max(rules.depth) + 1,
                rest: rules.rest,
            })
        }
    }
}
