// `where type` after a signature.

ghost use Rattle.std.specs.Prelude.{◌≡◌, ◌<◌, ◌+◌, List};
ghost use Rattle.sml_tree.specs.Terminal.{Terminal};
ghost use Rattle.sml_grammar.specs.Answer.{Read, whole};
ghost use Rattle.module_tree.specs.ReadModules as read;
ghost use Rattle.module_grammar.specs.Signatures.{where_suffix};
ghost use Rattle.phrase_base.specs.Gives.{Gives};
ghost use Rattle.phrase_base.specs.Left.{left};
ghost use Rattle.sig_phrases.specs.SigsRead.{IsSig};

use mlc_base::make::with;
use mlc_names::token::{Reserved, Token};
use module_code::nodes;
use module_code::signatures::SigExp;
use phrase_base::got::Got;
use phrase_base::source::Source;
use phrase_base::stop::Stop;
use phrase_base::tokens::{after_word, room};
use phrase_base::types::TypeReader;
use spec_phrases::lists::read_wheres;
use std::alloc::Global;

/// A signature with each `where type` that follows it.
pub fn with_wheres<'a, R: TypeReader>(
    alloc: Global,
    source: &Source,
    n: u32,
    first: SigExp,
    depth: u32,
    tokens: &'a [Token],
) -> Result<Got<'a, SigExp>, Stop>
    requires { n < 1000 }
    ensures gives { (i : List Terminal) (a : Read read.SigExp) → IsSig source.now (n + 1) i first depth tokens.now a
        → Gives (λ x r. IsSig source.now (n + 1) i x.it x.depth x.rest.now r) result (whole (where_suffix n) a.tree a.rest) }
{
    let mut sig = first;
    let mut deep = depth;
    let mut rest = tokens;
    'suffixes: loop {
        let Some(after) = after_word(source, Reserved::Where, rest) else {
            return Ok(Got {
                it: sig,
                depth: deep,
                rest,
            })
        };
        let (before, _room) = with(sig, room(deep, n, rest))?;
        let (under, got) = with(before, read_wheres::<R>(alloc, source, n, after))?;
        let below = deep.max(got.depth);
        rest = got.rest;
        sig = nodes::with_types(alloc, under, got.it)?;
        deep = below + 1;
    }
}
