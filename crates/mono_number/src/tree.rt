// Copies as a tree with numbers.
ghost use Rattle.std.specs.Prelude.{◌≡◌, nat_eq, ℕ, List, [], map, IfOk};
ghost use Rattle.indexmap.specs.IndexMap.{get};
ghost use Rattle.ty_core.specs.Types.{Typ};
ghost use Rattle.ir_plain.specs.Tree as clean;
ghost use Rattle.ir_mono.specs.Types as table;
ghost use Rattle.monomorphise.specs.Monomorphise.{Named};
ghost use Rattle.monomorphise.specs.Number.{none_given, number};
ghost use Rattle.mono_bound.specs.Reads.{mono_of};
ghost use Rattle.mono_read.specs.of_mono_words.Words.{spell};
ghost use Rattle.mono_read.specs.of_mono_state.Seen.{Held, sign_of};
ghost use Rattle.mono_number.specs.Moves.{Texts, AreNumbers};

use crate::steps::number_words;
use indexmap::IndexMap;
use mlc_base::memory::NoMemory;
use mono_read::mono_state::word::Word;
use mono_read::read::read;
use plain_tree::tree::Exp;
use std::alloc::Global;

/// The tree that the words of copies spell, in the order of the text, with numbers for copies and for types. The first `limit` copies have names of their own;
/// types have the numbers that are known. Err for want of memory or of numbers, or where a copy or a type has none.
pub fn numbered_tree(
    alloc: Global,
    words: &[Word],
    limit: usize,
    known: &IndexMap<usize, usize>,
) -> Result<Exp, NoMemory>
    ensures { IfOk result (λ made. (types : List table.Row) (index : Typ → ℕ) (strings : Texts) (H : Held) (e : clean.Exp Named)
        → AreNumbers limit (get nat_eq known.now) H index → map (sign_of strings H) words.now ≡ spell e []
        → mono_of types strings made ≡ number types index none_given 0 e) }
{
    let numbered = number_words(alloc, words, limit, known)?;
    read(alloc, &numbered)
}
