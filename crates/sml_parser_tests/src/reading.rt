// Texts as they are read by the tests.

ghost use Rattle.std.specs.Prelude.{◌<◌, ◌^◌, ◌+◌, length};

use mlc_base::memory::NoMemory;
use mlc_faults::refused::Refused;
use mlc_names::names::Names;
use phrase_base::source::Source;
use sml_lexer::lex::lex;
use sml_parser::read::{Core, read_core};
use sml_tree::fixity::Fixities;
use std::alloc::Global;

// The fixities of the standard basis but that of `=`, which no directive gives.
static STANDARD: &[u8] =
    b"infix 7 * / div mod infix 6 + - ^ infixr 5 :: @ infix 4 <> > >= < <= infix 3 := o infix 0 before";

pub fn read_under(
    alloc: Global,
    names: &mut Names,
    fix: &Fixities,
    text: &[u8],
) -> Result<Core, Refused>
    requires { length text.now + 1 < 2 ^ 32 }
{
    let star = names.intern(alloc, b"*")?;
    let tokens = lex(alloc, names, 7, text)?;
    let source = Source { file: 7, star };
    read_core(alloc, &source, text.len() as u32, &tokens, fix)
}

pub fn read(alloc: Global, text: &[u8]) -> Result<Core, Refused>
    requires { length text.now + 1 < 2 ^ 32 }
{
    let mut names = Names::new(alloc)?;
    let none = Fixities::new(alloc);
    let standard = read_under(alloc, &mut names, &none, STANDARD)?;
    read_under(alloc, &mut names, &standard.fix, text)
}

// How many declarations a text has, or its refusal.
pub fn shown(alloc: Global, text: &[u8]) -> Result<String, NoMemory>
    requires { length text.now + 1 < 2 ^ 32 }
{
    match read(alloc, text) {
        Ok(core) => {
            let count = core.decs.len();
            Ok(format!(in alloc; "{count}")?)
        }
        Err(Refused::Fault(fault)) => {
            let (code, byte) = (fault.code.number(), fault.place.byte);
            Ok(format!(in alloc; "E{code} at {byte}")?)
        }
        Err(Refused::Memory) => Err(NoMemory),
    }
}
