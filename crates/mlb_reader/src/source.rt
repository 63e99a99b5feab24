// Sources.

ghost use Rattle.std.specs.Prelude.{◌≡◌, ◌≤◌, ◌∷◌, [], length, None, IfOk};
ghost use Rattle.sml_lexer.specs.Lexes.{IfFault};
ghost use Rattle.sml_lexer.specs.NameTable.{Keeps};
ghost use Rattle.mlb_reader.specs.Table.{IsTable};
ghost use Rattle.mlb_reader.specs.Broken.{IsBad};
ghost use Rattle.mlb_reader.specs.Loading.{IsPlaceOf};
ghost use Rattle.mlb_reader.specs.PartOf.{part_of};
ghost use Rattle.mlb_reader.specs.Project.{IsSource, most_bytes};
ghost use Rattle.mlb_reader.specs.Within.{AllPlacedIn, HoldsAll};

use crate::project::Part;
use crate::tops::part_of_tops;
use mlc_faults::refused::Refused;
use mlc_names::names::{Name, Names};
use mlc_names::words;
use phrase_base::source::Source;
use sml_lexer::lex::lex;
use sml_modparse::read::read_program;
use sml_tree::fixity::Fixities;
use std::alloc::Global;

/// The part of a project that the source of this number is, under these fixities; those after it are in force then.
pub fn read_source(
    alloc: Global,
    names: &mut Names,
    file: u32,
    bytes: &[u8],
    fixities: &mut Fixities,
) -> Result<Part, Refused>
    requires small { length bytes.now ≤ most_bytes }
    requires table { IsTable names.old }
    ensures kept { Keeps names.old names.new }
    ensures source { IfOk result (λ part. IsSource names.old file fixities.old bytes.now (part_of part) names.new fixities.new) }
    ensures held { IfOk result (λ part. HoldsAll (length names.new) (part_of part ∷ [])) }
    ensures placed { IfOk result (λ part. AllPlacedIn (IsPlaceOf file (length bytes.now)) (part_of part ∷ [])) }
    ensures bad { IfFault result (λ fault. IsBad names.old file fixities.old bytes.now fault) }
    ensures file { IfFault result (λ fault. fault.place.file ≡ file) }
    ensures byte { IfFault result (λ fault. fault.place.byte ≤ length bytes.now) }
    ensures unnamed { IfFault result (λ fault. fault.name ≡ None) }
{
    match lex(alloc, names, file, bytes) {
        Err(refused) => Err(refused),
        Ok(tokens) => {
            let star = Name::standard(words::TIMES);
            let it = Name::standard(words::IT);
            let source = Source { file, star };
            let end = bytes.len() as u32;
            match read_program(alloc, &source, end, &tokens, it, fixities) {
                Err(refused) => Err(refused),
                Ok(program) => {
                    *fixities = program.fix;
                    Ok(part_of_tops(alloc, program.tops)?)
                }
            }
        }
    }
}
