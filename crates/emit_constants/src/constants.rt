// The constant words, and where they stand.

ghost use Rattle.std.specs.Prelude.{◌≡◌, ℕ, suc, ◌+◌, ◌*◌, List, ◌∷◌, ◌++◌, length, map, IfOk, OnOk, get_or};
ghost use Rattle.first_tables.specs.TablesOf.{items_of, tables_of};
ghost use Rattle.ir_ssa.specs.Tree.{Program};
ghost use Rattle.machine_code.specs.Rows.{Rows};
ghost use Rattle.machine_code.specs.Image.{constants_of, initial_at, names_at, packet_words, packets_at, place_of, text_place, text_word, text_words};

use emit_code::fault::EmitFault;
use emit_code::put::{sum, word};
use first_tables::tables::Tables;
use mlc_names::names::Name;
use std::alloc::Global;

/// The constant words; the addresses of strings and of identifiers' texts, and of the first exceptions' names and packets.
#[derive(Drop)]
pub struct Constants {
    pub words: Vec<u32>,
    pub texts: Vec<u32>,
    pub names: Vec<u32>,
    pub initial: u32,
    pub packets: u32,
}

/// A text's length and bytes.
fn put_bytes(words: &mut Vec<u32>, text: &[u8]) -> Result<(), EmitFault>
    ensures { OnOk result (words.new.items ≡ words.old.items ++ length text.now ∷ text.now) }
{
    words.push(word(text.len())?)?;
    for byte in text {
        words.push(u32::from(*byte))?;
    }
    Ok(())
}

/// A text; its address. The word 0 is the empty text.
fn put_text(words: &mut Vec<u32>, text: &[u8]) -> Result<u32, EmitFault>
    ensures words { OnOk result (words.new.items ≡ words.old.items ++ text_word text.now) }
    ensures place { IfOk result (λ place. place ≡ place_of (length words.old.items) text.now) }
{
    if text.is_empty() {
        return Ok(0);
    }
    let first = word(words.len())?;
    put_bytes(words, text)?;
    Ok(first)
}

/// Texts, one behind the other; their addresses.
fn put_texts(alloc: Global, words: &mut Vec<u32>, texts: &[Vec<u8>]) -> Result<Vec<u32>, EmitFault>
    ensures words { OnOk result (words.new.items ≡ words.old.items ++ text_words (map items_of texts.now)) }
    ensures places { IfOk result (λ places. (t : ℕ) →
        get_or places.items t 0 ≡ text_place (length words.old.items) (map items_of texts.now) t) }
{
    let mut places = Vec::new(alloc);
    for i in 0..texts.len() {
        places.push(put_text(words, &texts[i])?)?;
    }
    Ok(places)
}

/// The address of an identifier's text.
fn text_at(names: &[u32], name: Name) -> u32
    ensures { result ≡ get_or names.now name 0 }
{
    match names.get(name.number() as usize) {
        Some(text) => *text,
        None => 0,
    }
}

/// The names of exceptions: for each the address of its text.
fn put_names(words: &mut Vec<u32>, names: &[u32], exceptions: &[Name]) -> Result<(), EmitFault>
    ensures { OnOk result (words.new.items ≡ words.old.items ++ map (λ n. get_or names.now n 0) exceptions.now) }
{
    for name in exceptions {
        words.push(text_at(names, *name))?;
    }
    Ok(())
}

/// So many packets, with unit, of names from this address on.
fn put_packets(words: &mut Vec<u32>, first: u32, count: usize) -> Result<(), EmitFault>
    ensures { OnOk result (words.new.items ≡ words.old.items ++ packet_words first count) }
{
    let mut name = first;
    let mut left = count;
    while left > 0 {
        words.push(name)?;
        words.push(0)?;
        name = sum(name, 1)?;
        left -= 1;
    }
    Ok(())
}

/// The constants of a program with these tables, whose identifiers are written so.
pub fn place_constants(
    alloc: Global,
    tables: &Tables,
    identifiers: &[Vec<u8>],
) -> Result<Constants, EmitFault>
    ensures words { IfOk result (λ made. (rows : Rows) (p : Program) → p.tables ≡ tables_of tables.now →
        made.words.items ≡ constants_of rows (map items_of identifiers.now) p) }
    ensures texts { IfOk result (λ made. (i : ℕ) → get_or made.texts.items i 0 ≡ text_place 2 (map items_of tables.now.strings.items) i) }
    ensures names { IfOk result (λ made. (rows : Rows) (p : Program) → p.tables ≡ tables_of tables.now → (i : ℕ) →
        get_or made.names.items i 0
        ≡ text_place (names_at rows (map items_of identifiers.now) p) (map items_of identifiers.now) i) }
    ensures initial { IfOk result (λ made. (rows : Rows) (p : Program) → p.tables ≡ tables_of tables.now →
        made.initial ≡ initial_at rows (map items_of identifiers.now) p) }
    ensures packets { IfOk result (λ made. (rows : Rows) (p : Program) → p.tables ≡ tables_of tables.now →
        made.packets ≡ packets_at rows (map items_of identifiers.now) p) }
{
    let mut words = Vec::new(alloc);
    words.push(0)?;
    words.push(1)?;
    let texts = put_texts(alloc, &mut words, &tables.strings)?;
    let names = put_texts(alloc, &mut words, identifiers)?;
    let initial = word(words.len())?;
    put_names(&mut words, &names, &tables.initial)?;
    let packets = word(words.len())?;
    put_packets(&mut words, initial, tables.initial.len())?;
    Ok(Constants {
        words,
        texts,
        names,
        initial,
        packets,
    })
}
