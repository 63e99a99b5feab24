// Identifiers of modules.

ghost use Rattle.std.specs.Prelude.{◌≡◌, Some, None, MatchOption};
ghost use Rattle.sml_grammar.specs.Terminals.{place_at, first_as, taken};
ghost use Rattle.module_grammar.specs.Signatures.{as_module_id};
ghost use Rattle.phrase_base.specs.Left.{left};

use mlc_names::names::Name;
use mlc_names::token::{Token, TokenKind};
use phrase_base::source::Source;

/// The identifier of a structure, signature or functor that stands first.
pub fn module_id_at<'a>(source: &Source, tokens: &'a [Token]) -> Option<(Name, &'a [Token])>
    ensures { MatchOption result (first_as as_module_id (left source.now tokens.now) ≡ None)
        (λ x. first_as as_module_id (left source.now tokens.now)
        ≡ taken (record { place = place_at (left source.now tokens.now); it = x.0 }) (left source.now x.1.now)) }
{
    match tokens {
        [first, rest @ ..] => match &first.kind {
            TokenKind::Ident(name) => Some((*name, rest)),
            _ => None,
        },
        [] => None,
    }
}
