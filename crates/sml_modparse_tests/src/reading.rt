// Texts as they are read by the tests.

ghost use Rattle.std.specs.Prelude.{◌<◌, ◌^◌, ◌+◌, length};

use mlc_base::memory::NoMemory;
use mlc_faults::refused::Refused;
use mlc_names::names::Names;
use module_code::sources::Top;
use module_code::structures::StrDec;
use phrase_base::source::Source;
use sml_lexer::lex::lex;
use sml_modparse::read::{Program, read_program};
use sml_tree::fixity::Fixities;
use sml_tree::tree::Dec;
use std::alloc::Global;

// The fixities of the standard basis but that of `=`, which no directive gives.
static STANDARD: &[u8] =
    b"infix 7 * / div mod infix 6 + - ^ infixr 5 :: @ infix 4 <> > >= < <= infix 3 := o infix 0 before";

fn read_under(
    alloc: Global,
    names: &mut Names,
    fix: &Fixities,
    text: &[u8],
) -> Result<Program, Refused>
    requires { length text.now + 1 < 2 ^ 32 }
{
    let star = names.intern(alloc, b"*")?;
    let it = names.intern(alloc, b"it")?;
    let tokens = lex(alloc, names, 7, text)?;
    let source = Source { file: 7, star };
    read_program(alloc, &source, text.len() as u32, &tokens, it, fix)
}

pub fn read(alloc: Global, text: &[u8]) -> Result<Program, Refused>
    requires { length text.now + 1 < 2 ^ 32 }
{
    let mut names = Names::new(alloc)?;
    let none = Fixities::new(alloc);
    let standard = read_under(alloc, &mut names, &none, STANDARD)?;
    read_under(alloc, &mut names, &standard.fix, text)
}

// A letter for each kind of top.
fn letter(top: &Top<Dec>) -> &'static str {
    match top {
        Top::Dec(dec) => match dec {
            StrDec::Core(_) => "c",
            StrDec::Structure(_, _) => "s",
            StrDec::Local(_, _, _) => "l",
        },
        Top::Signature(_, _) => "g",
        Top::Functor(_, _) => "f",
    }
}

fn letters(alloc: Global, tops: &[Top<Dec>]) -> Result<String, NoMemory> {
    let mut text = String::new(alloc);
    for top in tops {
        text.push_str(letter(top))?;
    }
    Ok(text)
}

// The kinds of a text's tops, or its refusal.
pub fn shown(alloc: Global, text: &[u8]) -> Result<String, NoMemory>
    requires { length text.now + 1 < 2 ^ 32 }
{
    match read(alloc, text) {
        Ok(program) => letters(alloc, program.tops.as_slice()),
        Err(Refused::Fault(fault)) => {
            let (code, byte) = (fault.code.number(), fault.place.byte);
            Ok(format!(in alloc; "E{code} at {byte}")?)
        }
        Err(Refused::Memory) => Err(NoMemory),
    }
}
