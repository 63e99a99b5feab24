// Lists of identifiers after `include`.

ghost use Rattle.std.specs.Prelude.{◌≡◌, ℕ};
ghost use Rattle.sml_tree.specs.Bare.{at};
ghost use Rattle.module_grammar.specs.Signatures.{two_ids};
ghost use Rattle.phrase_base.specs.Gives.{Gives};
ghost use Rattle.phrase_base.specs.Left.{left};
ghost use Rattle.spec_phrases.specs.FormsRead.{IsSpec};
ghost use Rattle.sig_phrases.specs.SigsRead.{ids_form};

use mlc_base::place::Place;
use mlc_names::token::Token;
use module_code::nodes;
use module_code::signatures::{IdAt, Spec};
use phrase_base::got::{Got, prefixed};
use phrase_base::source::Source;
use phrase_base::stop::Stop;
use phrase_base::tokens::place_at;
use spec_phrases::ids::module_id_at;
use spec_phrases::lists::read_ids;
use std::alloc::Global;

/// Whether two identifiers stand first.
pub fn two_ids(source: &Source, tokens: &[Token]) -> bool
    ensures { result ≡ two_ids (left source.now tokens.now) }
{
    match module_id_at(source, tokens) {
        Some((_, rest)) => module_id_at(source, rest).is_some(),
        None => false,
    }
}

/// Two identifiers or more, which stand first.
pub fn include_ids<'a>(
    alloc: Global,
    source: &Source,
    n: u32,
    place: Place,
    tokens: &'a [Token],
) -> Result<Got<'a, Spec>, Stop>
    ensures gives { (p : ℕ) → place ≡ at source.now.file p → Gives (λ x r. IsSpec source.now n (left source.now tokens.now) x.it x.depth x.rest.now r)
        result (ids_form n p (left source.now tokens.now)) }
{
    if n == 0 {
        return Err(Stop::Deep(tokens.len()));
    }
    let Some(found) = module_id_at(source, tokens) else {
        return Err(Stop::Bad(tokens.len()))
    };
    let first = IdAt {
        place: place_at(source, tokens),
        id: found.0,
    };
    let Got { it, depth: _, rest } = read_ids(alloc, source, found.1)?;
    let all = prefixed(first, it)?;
    Ok(Got {
        it: nodes::included_ids(place, all),
        depth: 1,
        rest,
    })
}
