// The arguments of a primitive, by their kinds.

ghost use Rattle.std.specs.Prelude.{◌≡◌, option_map};
ghost use Rattle.mlc_prims.specs.LitOf.{lit_of, lits_of, int_in, word_in, char_in, string_in, truth_in, one_in, ints_in, words_in, strings_in, as_ints, as_words, as_strings};

use crate::lit::Lit;

/// Two integers.
#[derive(Clone, Copy)]
pub struct IntPair {
    pub left: i32,
    pub right: i32,
}

/// Two words.
#[derive(Clone, Copy)]
pub struct WordPair {
    pub left: u32,
    pub right: u32,
}

/// Two strings.
#[derive(Clone, Copy)]
pub struct StringPair<'a> {
    pub left: &'a [u8],
    pub right: &'a [u8],
}

pub(crate) fn int(lit: &Lit) -> Option<i32>
    ensures { result ≡ int_in (lit_of lit.now) }
{
    match lit {
        Lit::Int(value) => Some(*value),
        _ => None,
    }
}

pub(crate) fn word(lit: &Lit) -> Option<u32>
    ensures { result ≡ word_in (lit_of lit.now) }
{
    match lit {
        Lit::Word(value) => Some(*value),
        _ => None,
    }
}

pub(crate) fn character(lit: &Lit) -> Option<u8>
    ensures { result ≡ char_in (lit_of lit.now) }
{
    match lit {
        Lit::Char(value) => Some(*value),
        _ => None,
    }
}

pub(crate) fn truth(lit: &Lit) -> Option<bool>
    ensures { result ≡ truth_in (lit_of lit.now) }
{
    match lit {
        Lit::Truth(value) => Some(*value),
        _ => None,
    }
}

pub(crate) fn string(lit: &Lit) -> Option<&[u8]>
    ensures { option_map (λ s. s.now) result ≡ string_in (lit_of lit.now) }
{
    match lit {
        Lit::Str(value) => Some(value),
        _ => None,
    }
}

/// The one argument.
pub(crate) fn only(args: &[Lit]) -> Option<&Lit>
    ensures { option_map (λ l. lit_of l.now) result ≡ one_in Some (lits_of args.now) }
{
    if args.len() == 1 {
        Some(&args[0])
    } else {
        None
    }
}

pub(crate) fn ints(args: &[Lit]) -> Option<IntPair>
    ensures { as_ints result ≡ ints_in (lits_of args.now) }
{
    if args.len() != 2 {
        return None;
    }
    match (int(&args[0]), int(&args[1])) {
        (Some(left), Some(right)) => Some(IntPair { left, right }),
        _ => None,
    }
}

pub(crate) fn words(args: &[Lit]) -> Option<WordPair>
    ensures { as_words result ≡ words_in (lits_of args.now) }
{
    if args.len() != 2 {
        return None;
    }
    match (word(&args[0]), word(&args[1])) {
        (Some(left), Some(right)) => Some(WordPair { left, right }),
        _ => None,
    }
}

pub(crate) fn strings(args: &[Lit]) -> Option<StringPair>
    ensures { as_strings result ≡ strings_in (lits_of args.now) }
{
    if args.len() != 2 {
        return None;
    }
    match (string(&args[0]), string(&args[1])) {
        (Some(left), Some(right)) => Some(StringPair { left, right }),
        _ => None,
    }
}
