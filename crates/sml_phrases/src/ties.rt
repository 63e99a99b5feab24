// What may follow an expression and make it part of a larger one.

ghost use Rattle.std.specs.Prelude.{◌≡◌, ◌≤◌, ◌<◌, ⊤, length, false, true, Some, None, IfErr, MatchOption, MatchResult};
ghost use Rattle.sml_tree.specs.Fixity.{fix_of};
ghost use Rattle.sml_tree.specs.Levels.{joint_level, joint_right};
ghost use Rattle.sml_tree.specs.Bare.{joint_of};
ghost use Rattle.sml_grammar.specs.Expressions.{next_of, nothing};
ghost use Rattle.sml_grammar.specs.Terminals.{tail};
ghost use Rattle.phrase_base.specs.Left.{left};
ghost use Rattle.phrase_base.specs.declared.stop.Stop.TheVariants.{Bad};
ghost use Rattle.sml_phrases.specs.Ties.{joint_from, next_from, FromFile, tie_level, tie_least, PartEnds, PartGoes, PartFails};

use mlc_base::place::Place;
use mlc_names::token::{Reserved, Token, TokenKind};
use phrase_base::source::Source;
use phrase_base::stop::Stop;
use sml_tree::fixity::Fixities;
use sml_tree::ident::Vid;
use sml_tree::tree::Joint;

/// What stands between two parts of an expression.
#[derive(Clone, Copy, PartialEq, Eq, Debug)]
pub enum Tie {
    Joint(Joint),
    /// `:`
    Mark,
    Handle,
}

/// Whether an identifier is infix.
pub fn is_infix(fix: &Fixities, vid: &Vid) -> bool
    ensures { MatchOption (fix_of vid.now fix.now) (result ≡ false) (λ d. result ≡ true) }
{
    fix.of(vid).is_some()
}

/// What follows an expression and may make it part of a larger one.
pub fn tie_at<'a>(
    source: &Source,
    fix: &Fixities,
    tokens: &'a [Token],
) -> Option<(Tie, &'a [Token])>
    ensures next { MatchOption result (next_of fix.now (left source.now tokens.now) ≡ nothing)
        (λ x. next_of fix.now (left source.now tokens.now) ≡ next_from x.0 (left source.now x.1.now)) }
    ensures rest { MatchOption result ⊤ (λ x. left source.now x.1.now ≡ tail (left source.now tokens.now)) }
    ensures place { MatchOption result ⊤ (λ x. FromFile source.now.file x.0) }
    ensures shorter { MatchOption result ⊤ (λ x. length (left source.now x.1.now) < length (left source.now tokens.now)) }
{
    let [first, rest @ ..] = tokens else {
        return None
    };
    let place = Place {
        file: source.file,
        byte: first.span.first,
    };
    let vid = match &first.kind {
        TokenKind::Reserved(Reserved::Colon) => return Some((Tie::Mark, rest)),
        TokenKind::Reserved(Reserved::Handle) => return Some((Tie::Handle, rest)),
        TokenKind::Reserved(Reserved::Andalso) => return Some((Tie::Joint(Joint::AndAlso), rest)),
        TokenKind::Reserved(Reserved::Orelse) => return Some((Tie::Joint(Joint::OrElse), rest)),
        TokenKind::Reserved(Reserved::Equals) => Vid::Equals,
        TokenKind::Ident(name) => Vid::Named(*name),
        TokenKind::Symbol(name) => Vid::Named(*name),
        _ => return None,
    };
    if is_infix(fix, &vid) {
        Some((Tie::Joint(Joint::Infix(place, vid)), rest))
    } else {
        None
    }
}

/// The level of the chains that a joint makes.
pub fn joint_level(fix: &Fixities, joint: &Joint) -> u32
    ensures level { result ≡ joint_level fix.now (joint_from joint.now) }
    ensures low { result ≤ 17 }
{
    match joint {
        Joint::AndAlso => 3,
        Joint::OrElse => 1,
        Joint::Infix(_, vid) => match fix.of(vid) {
            Some(infix) => 8 + u32::from(infix.precedence.min(9)),
            None => 8,
        },
    }
}

/// Whether the chains that a joint makes associate to the right.
pub fn joint_right(fix: &Fixities, joint: &Joint) -> bool
    ensures { result ≡ joint_right fix.now (joint_from joint.now) }
{
    match joint {
        Joint::AndAlso => true,
        Joint::OrElse => true,
        Joint::Infix(_, vid) => match fix.of(vid) {
            Some(infix) => infix.right,
            None => false,
        },
    }
}

/// The level of what a tie makes.
pub fn tie_level(fix: &Fixities, tie: &Tie) -> u32
    ensures level { result ≡ tie_level fix.now tie.now }
    ensures low { result ≤ 17 }
{
    match tie {
        Tie::Joint(joint) => joint_level(fix, joint),
        Tie::Mark => 5,
        Tie::Handle => 0,
    }
}

/// The level that the expression before a tie has to have.
pub fn tie_least(fix: &Fixities, tie: &Tie) -> u32
    ensures { result ≡ tie_least fix.now tie.now }
{
    match tie {
        Tie::Joint(joint) => joint_level(fix, joint) + 1,
        Tie::Mark => 5,
        Tie::Handle => 0,
    }
}

/// Refuses an expression of level `high` before a tie that wants one of level `least`.
pub fn high_enough(high: u32, least: u32, tokens: &[Token]) -> Result<(), Stop>
    ensures high { MatchResult result (λ _. least ≤ high) (λ e. high < least) }
    ensures stop { IfErr result (λ e. e ≡ Bad (length tokens.now)) }
{
    if high < least {
        return Err(Stop::Bad(tokens.len()));
    }
    Ok(())
}

/// The joint after an operand of a chain, where the chain goes on.
pub fn next_joint(
    source: &Source,
    fix: &Fixities,
    level: u32,
    right: bool,
    tokens: &[Token],
) -> Result<Option<Joint>, Stop>
    ensures next { MatchResult result
        (λ found. MatchOption found (PartEnds fix.now level right (left source.now tokens.now))
        (λ joint. PartGoes fix.now level right (left source.now tokens.now) joint (tail (left source.now tokens.now))))
        (λ e. PartFails fix.now level right (left source.now tokens.now) e) }
    ensures place { MatchResult result (λ found. MatchOption found ⊤ (λ joint. joint_of source.now.file (joint_from joint) ≡ joint)) (λ e. ⊤) }
    ensures shorter { MatchResult result (λ found. MatchOption found ⊤
        (λ joint. length (tail (left source.now tokens.now)) < length (left source.now tokens.now))) (λ e. ⊤) }
{
    let Some((tie, _after)) = tie_at(source, fix, tokens) else {
        return Ok(None)
    };
    match tie {
        Tie::Joint(joint) => {
            if joint_level(fix, &joint) != level {
                return Ok(None);
            }
            if joint_right(fix, &joint) != right {
                return Err(Stop::Bad(tokens.len()));
            }
            Ok(Some(joint))
        }
        Tie::Mark => Ok(None),
        Tie::Handle => Ok(None),
    }
}
