// The program that a source holds.

ghost use Rattle.std.specs.Prelude.{◌≡◌, None, IfOk};
ghost use Rattle.sml_lexer.specs.Lexes.{IfFault};
ghost use Rattle.sml_parser.specs.Core.{IsStop};
ghost use Rattle.phrase_base.specs.Left.{left};
ghost use Rattle.sml_modparse.specs.Programs.{IsProgram, Cause};

use crate::core_parser::CoreParser;
use mlc_base::place::Place;
use mlc_faults::code::Code;
use mlc_faults::fault::Fault;
use mlc_faults::refused::Refused;
use mlc_names::names::Name;
use mlc_names::token::{Token, Tokens};
use module_code::sources::Top;
use module_grammar::law;
use phrase_base::source::Source;
use phrase_base::stop::Stop;
use sml_tree::fixity::Fixities;
use sml_tree::tree::Dec;
use std::alloc::Global;
use top_phrases::tops::read_tops;

/// How deep the phrases of a source may be nested.
const DEEPEST: u32 = 400;

/// What a source holds, and the fixities after it.
#[derive(Drop)]
pub struct Program {
    pub tops: Vec<Top<Dec>>,
    pub fix: Fixities,
}

/// Where the token begins from which `left` tokens are left, or the file's end.
fn stop_place(source: &Source, end: u32, tokens: &[Token], left: usize) -> Place
    ensures { IsStop source.now end tokens.now result }
{
    let index = tokens.len().saturating_sub(left);
    if index < tokens.len() {
        Place {
            file: source.file,
            byte: tokens[index].span.first,
        }
    } else {
        Place {
            file: source.file,
            byte: end,
        }
    }
}

/// The refusal for this cause, where `left` tokens are left.
fn fault_at(source: &Source, end: u32, tokens: &[Token], code: Code, left: usize) -> Fault
    ensures code { result.code ≡ code }
    ensures place { IsStop source.now end tokens.now result.place }
    ensures unnamed { result.name ≡ None }
{
    Fault {
        code,
        place: stop_place(source, end, tokens, left),
        name: None,
    }
}

/// Reads the tokens of a source, which ends before byte `end`, under these fixities. An expression at its top is bound to the identifier `it`.
pub fn read_program(
    alloc: Global,
    source: &Source,
    end: u32,
    tokens: &Tokens,
    it: Name,
    fix: &Fixities,
) -> Result<Program, Refused>
    ensures read { IfOk result (λ program. IsProgram it fix.now source.now tokens.now program.tops.items program.fix) }
    ensures cause { IfFault result (λ fault. Cause fix.now (left source.now tokens.now) fault.code) }
    ensures place { IfFault result (λ fault. IsStop source.now end tokens.now fault.place) }
    ensures unnamed { IfFault result (λ fault. fault.name ≡ None) }
{
    law::reads_sources();
    let tokens = tokens.as_slice();
    let mut after = fix.copy(alloc)?;
    let fault = match read_tops::<CoreParser>(alloc, source, it, &mut after, DEEPEST, tokens) {
        Ok(tops) => {
            return Ok(Program { tops, fix: after });
        }
        Err(Stop::Bad(left)) => fault_at(source, end, tokens, Code::Syntax, left),
        Err(Stop::Deep(left)) => fault_at(source, end, tokens, Code::TooDeep, left),
        Err(Stop::Memory) => return Err(Refused::Memory),
    };
    Err(Refused::Fault(fault))
}
