// The restrictions of sources.

use mlc_base::memory::NoMemory;
use mlc_base::place::Place;
use mlc_names::names::Names;
use phrase_base::source::Source;
use restrictions::first::first_broken;
use sml_lexer::lex::lex;
use sml_parser::read::{Core, read_core};
use sml_tree::fixity::{Fixities, Infix};
use sml_tree::ident::Vid;
use std::alloc::Global;
use std::process::Abort;

/// The bytes that a source may have.
const LONGEST: usize = 100_000;

/// The fixities of the initial basis.
const STANDARD: &[u8] =
    b"infix 7 * / div mod infix 6 + - ^ infixr 5 :: @ infix 4 <> > >= < <= infix 3 := o infix 0 before";

/// Declarations and the fixities behind them, where the text has them.
fn read_under(
    alloc: Global,
    names: &mut Names,
    fix: &Fixities,
    text: &[u8],
) -> Result<Core, NoMemory> {
    let star = names.intern(alloc, b"*")?;
    if text.len() > LONGEST {
        return Err(NoMemory);
    }
    let Ok(tokens) = lex(alloc, names, 7, text) else {
        return Err(NoMemory);
    };
    let source = Source { file: 7, star };
    let Ok(core) = read_core(alloc, &source, text.len() as u32, &tokens, fix) else {
        return Err(NoMemory);
    };
    Ok(core)
}

fn read(alloc: Global, names: &mut Names, text: &[u8]) -> Result<Core, NoMemory> {
    let none = Fixities::new(alloc);
    let standard = read_under(alloc, names, &none, STANDARD)?;
    let mut fix = standard.fix;
    fix.put(
        Some(Infix {
            precedence: 4,
            right: false,
        }),
        Vid::Equals,
    )?;
    read_under(alloc, names, &fix, text)
}

/// The first place that is broken in a source.
pub fn broken(alloc: Global, text: &str) -> Result<Option<Place>, NoMemory> {
    let mut names = Names::new(alloc)?;
    let core = read(alloc, &mut names, text.as_bytes())?;
    first_broken(alloc, &core.decs)
}

/// A source is broken at this byte first, or nowhere.
pub fn is_broken(
    rt: &impl Abort,
    alloc: Global,
    text: &str,
    byte: Option<u32>,
) -> Result<(), NoMemory> {
    let place = match byte {
        Some(byte) => Some(Place { file: 7, byte }),
        None => None,
    };
    let found = broken(alloc, text)?;
    assert_eq!(rt; found, place, "of {text}");
    Ok(())
}
