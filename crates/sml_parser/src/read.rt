// The declarations of a file.

ghost use Rattle.std.specs.Prelude.{◌≡◌, None, IfOk};
ghost use Rattle.sml_lexer.specs.Lexes.{IfFault};
ghost use Rattle.sml_parser.specs.Core.{IsCore, Cause, IsStop};
ghost use Rattle.phrase_base.specs.Left.{left};

use mlc_base::place::Place;
use mlc_faults::code::Code;
use mlc_faults::fault::Fault;
use mlc_faults::refused::Refused;
use mlc_names::token::{Token, Tokens};
use phrase_base::source::Source;
use phrase_base::stop::Stop;
use sml_grammar::law;
use sml_phrases::declarations::read_decs;
use sml_tree::fixity::Fixities;
use sml_tree::tree::Dec;
use std::alloc::Global;

/// How deep the phrases of a file may be nested.
const DEEPEST: u32 = 400;

/// The declarations of a file, and the fixities after them.
#[derive(Drop)]
pub struct Core {
    pub decs: Vec<Dec>,
    pub fix: Fixities,
}

/// Where the token begins from which `left` tokens are left, or the file's end.
fn stop_place(source: &Source, end: u32, tokens: &[Token], left: usize) -> Place
    ensures { IsStop source.now end tokens.now result }
{
    let index = tokens.len().saturating_sub(left);
    if index < tokens.len() {
        Place {
            file: source.file,
            byte: tokens[index].span.first,
        }
    } else {
        Place {
            file: source.file,
            byte: end,
        }
    }
}

/// The refusal for this cause, where `left` tokens are left.
fn fault_at(source: &Source, end: u32, tokens: &[Token], code: Code, left: usize) -> Fault
    ensures code { result.code ≡ code }
    ensures place { IsStop source.now end tokens.now result.place }
    ensures unnamed { result.name ≡ None }
{
    Fault {
        code,
        place: stop_place(source, end, tokens, left),
        name: None,
    }
}

/// Reads the tokens of a file, which ends before byte `end`, under these fixities.
pub fn read_core(
    alloc: Global,
    source: &Source,
    end: u32,
    tokens: &Tokens,
    fix: &Fixities,
) -> Result<Core, Refused>
    ensures read { IfOk result (λ core. IsCore fix.now source.now tokens.now core.decs.items core.fix) }
    ensures cause { IfFault result (λ fault. Cause fix.now (left source.now tokens.now) fault.code) }
    ensures place { IfFault result (λ fault. IsStop source.now end tokens.now fault.place) }
    ensures unnamed { IfFault result (λ fault. fault.name ≡ None) }
{
    law::reads_exactly();
    let tokens = tokens.as_slice();
    let mut after = fix.copy(alloc)?;
    let fault = match read_decs(alloc, source, &mut after, DEEPEST, tokens) {
        Ok(got) => match got.rest {
            [] => {
                return Ok(Core {
                    decs: got.it,
                    fix: after,
                });
            }
            [..] => fault_at(source, end, tokens, Code::Syntax, got.rest.len()),
        },
        Err(Stop::Bad(left)) => fault_at(source, end, tokens, Code::Syntax, left),
        Err(Stop::Deep(left)) => fault_at(source, end, tokens, Code::TooDeep, left),
        Err(Stop::Memory) => return Err(Refused::Memory),
    };
    Err(Refused::Fault(fault))
}
