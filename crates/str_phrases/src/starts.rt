// What structures and declarations begin with.

ghost use Rattle.std.specs.Prelude.{◌≡◌, Some, None, MatchOption};
ghost use Rattle.sml_grammar.specs.Answer.{deep_if};
ghost use Rattle.sml_grammar.specs.Terminals.{place_at};
ghost use Rattle.module_tree.specs.ReadModules.{StrExp};
ghost use Rattle.module_grammar.specs.Structures.{begins_str, str_start, begins_str_dec};
ghost use Rattle.phrase_base.specs.Gives.{Fails};
ghost use Rattle.phrase_base.specs.Left.{left};

use mlc_names::token::{Reserved, Token, TokenKind};
use phrase_base::source::Source;
use phrase_base::stop::Stop;
use phrase_base::tokens::word_at;

/// Whether a structure begins with these tokens.
pub fn begins_str(source: &Source, tokens: &[Token]) -> bool
    ensures { result ≡ begins_str (str_start (left source.now tokens.now)) }
{
    match tokens {
        [first, ..] => match &first.kind {
            TokenKind::Reserved(Reserved::Struct) => true,
            TokenKind::Reserved(Reserved::Let) => true,
            TokenKind::Ident(_) => true,
            TokenKind::LongIdent(_, _) => true,
            _ => false,
        },
        [] => false,
    }
}

/// Why no structure is read where there is no room for one.
pub fn no_str_room(source: &Source, tokens: &[Token]) -> Stop
    ensures { Fails result (deep_if {A = StrExp} (begins_str (str_start (left source.now tokens.now)))) }
{
    if begins_str(source, tokens) {
        Stop::Deep(tokens.len())
    } else {
        Stop::Bad(tokens.len())
    }
}

/// Whether a declaration of structures or of the core begins with these tokens.
pub fn begins_str_dec(source: &Source, tokens: &[Token]) -> bool
    ensures { result ≡ begins_str_dec (left source.now tokens.now) }
{
    match word_at(source, tokens) {
        Some(Reserved::Structure) => true,
        Some(Reserved::Val) => true,
        Some(Reserved::Fun) => true,
        Some(Reserved::TypeWord) => true,
        Some(Reserved::Datatype) => true,
        Some(Reserved::Exception) => true,
        Some(Reserved::Local) => true,
        Some(Reserved::Open) => true,
        Some(Reserved::Infix) => true,
        Some(Reserved::Infixr) => true,
        Some(Reserved::Nonfix) => true,
        _ => false,
    }
}
