// What reads the core.

ghost use Rattle.std.specs.Prelude.{◌≡◌, ◌<◌, ℕ, map};
ghost use Rattle.sml_tree.specs.BareTree as bare;
ghost use Rattle.sml_tree.specs.TreeOf.{decs_of};
ghost use Rattle.sml_grammar.specs.Expressions.{readers, dec_by, dec_start};
ghost use Rattle.phrase_base.specs.Gives.{Gives};
ghost use Rattle.phrase_base.specs.Left.{left};
ghost use Rattle.str_phrases.specs.CoreRead.{IsCoreDec, IsIt, inner_core};

use mlc_base::place::Place;
use mlc_names::names::Name;
use mlc_names::token::Token;
use phrase_base::got::Got;
use phrase_base::source::Source;
use phrase_base::stop::Stop;
use phrase_base::types::TypeReader;
use sml_tree::fixity::Fixities;
use std::alloc::Global;

/// A reader of the core, whose functions answer as the reading functions do.
pub trait CoreReader: TypeReader {
    /// A declaration of the core.
    type Dec: Drop;

    /// What a declaration stands for.
    ghost dec_of: { Self.Dec → bare.Dec };

    /// A declaration, at most `n` deep, and what it does to the fixities in force: none where it leaves nothing.
    fn read_dec<'a>(
        alloc: Global,
        source: &Source,
        fix: &mut Fixities,
        n: u32,
        tokens: &'a [Token],
    ) -> Result<Got<'a, Option<Self::Dec>>, Stop>
        requires { n < 1000 }
        ensures gives { Gives (λ x r. IsCoreDec dec_of fix.old fix.new source.now n (left source.now tokens.now) x.it x.depth x.rest.now r)
            result (dec_by n (readers n).exp (inner_core n) fix.old (dec_start (left source.now tokens.now))) };

    /// An expression, at most `n` deep, as a declaration that binds it to the identifier `it`.
    fn read_it<'a>(
        alloc: Global,
        source: &Source,
        fix: &Fixities,
        it: Name,
        n: u32,
        tokens: &'a [Token],
    ) -> Result<Got<'a, Self::Dec>, Stop>
        requires { n < 1000 }
        ensures gives { Gives (λ x r. IsIt dec_of it source.now n (left source.now tokens.now) x.it x.depth x.rest.now r)
            result ((readers n).exp fix.now 0 (left source.now tokens.now)) };

    /// `local .. in .. end`, of declarations of the core.
    fn local(place: Place, first: Vec<Self::Dec>, second: Vec<Self::Dec>) -> Self::Dec
        ensures made { dec_of result ≡ bare.local_dec place (decs_of (map dec_of first.items)) (decs_of (map dec_of second.items)) };
}
