// The fixities that the path of the standard basis puts in force.

ghost use Rattle.std.specs.Prelude.{◌≡◌, ◌++◌, ◌∷◌, [], true, false, IfOk, OnOk};
ghost use Rattle.mlc_names.specs.StandardWords.{word_cons, word_plus, word_minus, word_times, word_div, word_mod, word_less_than, word_at_most, word_greater_than, word_at_least, word_assign, word_divide, word_not_equal, word_append, word_concatenate, word_compose};
ghost use Rattle.mlb_reader.specs.Basis.{standard_fixities};
ghost use Rattle.mlb_reader.specs.BasisOf.{directives_of};

use mlc_base::memory::NoMemory;
use mlc_names::names::Name;
use mlc_names::words;
use sml_tree::fixity::{Fixities, Infix};
use sml_tree::ident::Vid;
use std::alloc::Global;

/// An identifier of this precedence that associates to the left.
fn left(precedence: u8) -> Infix
    ensures { result ≡ record { precedence = precedence; right = false } }
{
    Infix {
        precedence,
        right: false,
    }
}

/// An identifier of this precedence that associates to the right.
fn right(precedence: u8) -> Infix
    ensures { result ≡ record { precedence = precedence; right = true } }
{
    Infix {
        precedence,
        right: true,
    }
}

fn assignments() -> [Name; 2]
    ensures { result ≡ word_assign ∷ word_compose ∷ [] }
{
    [
        Name::standard(words::ASSIGN),
        Name::standard(words::COMPOSE),
    ]
}

fn comparisons() -> [Name; 5]
    ensures { result ≡ word_not_equal ∷ word_greater_than ∷ word_at_least ∷ word_less_than ∷ word_at_most ∷ [] }
{
    [
        Name::standard(words::NOT_EQUAL),
        Name::standard(words::GREATER_THAN),
        Name::standard(words::AT_LEAST),
        Name::standard(words::LESS_THAN),
        Name::standard(words::AT_MOST),
    ]
}

fn joins() -> [Name; 2]
    ensures { result ≡ word_cons ∷ word_append ∷ [] }
{
    [Name::standard(words::CONS), Name::standard(words::APPEND)]
}

fn sums() -> [Name; 3]
    ensures { result ≡ word_plus ∷ word_minus ∷ word_concatenate ∷ [] }
{
    [
        Name::standard(words::PLUS),
        Name::standard(words::MINUS),
        Name::standard(words::CONCATENATE),
    ]
}

fn products() -> [Name; 4]
    ensures { result ≡ word_times ∷ word_divide ∷ word_div ∷ word_mod ∷ [] }
{
    [
        Name::standard(words::TIMES),
        Name::standard(words::DIVIDE),
        Name::standard(words::DIV),
        Name::standard(words::MOD),
    ]
}

/// Makes these words infix, so that the first one is the newest.
fn put_words(fixities: &mut Fixities, status: Infix, words: &[Name]) -> Result<(), NoMemory>
    ensures { OnOk result (fixities.new ≡ directives_of status words.now ++ fixities.old) }
{
    let mut left = words.len();
    'words: while left > 0 {
        left -= 1;
        fixities.put(Some(status), Vid::Named(words[left]))?;
    }
    Ok(())
}

/// The directives of the standard basis.
pub fn standard_fixities(alloc: Global) -> Result<Fixities, NoMemory>
    ensures { IfOk result (λ fixities. fixities ≡ standard_fixities) }
{
    let mut fixities = Fixities::new(alloc);
    put_words(&mut fixities, left(0), &[Name::standard(words::BEFORE)])?;
    put_words(&mut fixities, left(3), &assignments())?;
    put_words(&mut fixities, left(4), &comparisons())?;
    put_words(&mut fixities, right(5), &joins())?;
    put_words(&mut fixities, left(6), &sums())?;
    put_words(&mut fixities, left(7), &products())?;
    fixities.put(Some(left(4)), Vid::Equals)?;
    Ok(fixities)
}
