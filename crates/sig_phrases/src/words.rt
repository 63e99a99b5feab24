// What a specification or a signature begins with.

ghost use Rattle.std.specs.Prelude.{◌≡◌, MatchOption};
ghost use Rattle.sml_grammar.specs.Answer.{deep_if};
ghost use Rattle.sml_grammar.specs.Terminals.{place_at, tail};
ghost use Rattle.module_tree.specs.ReadModules.{SigExp};
ghost use Rattle.module_grammar.specs.Signatures.{spec_start, no_spec, begins_sig, sig_start_of};
ghost use Rattle.phrase_base.specs.Gives.{Fails};
ghost use Rattle.phrase_base.specs.Left.{left};
ghost use Rattle.sig_phrases.specs.SigsRead.{starts};

use mlc_names::token::{Reserved, Token, TokenKind};
use phrase_base::source::Source;
use phrase_base::stop::Stop;
use phrase_base::tokens::word_at;

/// The first word of a specification.
#[derive(Clone, Copy, PartialEq, Eq, Debug)]
pub enum SpecWord {
    Val,
    Type,
    Eqtype,
    Datatype,
    Exception,
    Structure,
    Include,
    Sharing,
}

/// The word that stands first, where it begins a specification.
pub fn spec_word(source: &Source, tokens: &[Token]) -> Option<SpecWord>
    ensures { MatchOption result (spec_start (left source.now tokens.now) ≡ no_spec)
        (λ word. spec_start (left source.now tokens.now) ≡ starts word (place_at (left source.now tokens.now)) (tail (left source.now tokens.now))) }
{
    match word_at(source, tokens) {
        Some(Reserved::Val) => Some(SpecWord::Val),
        Some(Reserved::TypeWord) => Some(SpecWord::Type),
        Some(Reserved::Eqtype) => Some(SpecWord::Eqtype),
        Some(Reserved::Datatype) => Some(SpecWord::Datatype),
        Some(Reserved::Exception) => Some(SpecWord::Exception),
        Some(Reserved::Structure) => Some(SpecWord::Structure),
        Some(Reserved::Include) => Some(SpecWord::Include),
        Some(Reserved::Sharing) => Some(SpecWord::Sharing),
        _ => None,
    }
}

/// Whether a signature begins with these tokens.
fn begins_sig(source: &Source, tokens: &[Token]) -> bool
    ensures { result ≡ begins_sig (sig_start_of (left source.now tokens.now)) }
{
    match tokens {
        [first, ..] => match &first.kind {
            TokenKind::Reserved(Reserved::Sig) => true,
            TokenKind::Ident(_) => true,
            _ => false,
        },
        [] => false,
    }
}

/// Why no signature is read where there is no room for one.
pub fn no_sig_room(source: &Source, tokens: &[Token]) -> Stop
    ensures { Fails result (deep_if {A = SigExp} (begins_sig (sig_start_of (left source.now tokens.now)))) }
{
    if begins_sig(source, tokens) {
        Stop::Deep(tokens.len())
    } else {
        Stop::Bad(tokens.len())
    }
}
