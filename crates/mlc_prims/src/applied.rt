// What a primitive does.

ghost use Rattle.std.specs.Prelude.{◌≡◌, Option};
ghost use Rattle.mlc_prims.specs.LitOf.{int, word, char, truth};
ghost use Rattle.mlc_prims.specs.PrimOf.{exact, made, raised, Meets};

use crate::lit::Lit;
use crate::prim::PrimExn;

/// What a primitive does.
#[derive(Debug, Drop)]
pub enum Applied {
    Made(Lit),
    Raises(PrimExn),
    Memory,
}

pub(crate) fn made_int(value: i32) -> Applied
    ensures { Meets result (made (int value)) }
{
    Applied::Made(Lit::Int(value))
}

pub(crate) fn made_word(value: u32) -> Applied
    ensures { Meets result (made (word value)) }
{
    Applied::Made(Lit::Word(value))
}

pub(crate) fn made_char(value: u8) -> Applied
    ensures { Meets result (made (char value)) }
{
    Applied::Made(Lit::Char(value))
}

pub(crate) fn made_truth(value: bool) -> Applied
    ensures { Meets result (made (truth value)) }
{
    Applied::Made(Lit::Truth(value))
}

/// The integer, or Overflow where there is none of 32 bits.
pub(crate) fn exact_int(value: Option<i32>) -> Applied
    ensures { Meets result (exact value) }
{
    match value {
        None => Applied::Raises(PrimExn::Overflow),
        Some(value) => Applied::Made(Lit::Int(value)),
    }
}
