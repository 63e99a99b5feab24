// A program by given sets, and what its conversion keeps.
ghost use Rattle.std.specs.Prelude.{◌≡◌, ◌∷◌, ◌++◌, ◌+◌, ◌*◌, ◌≤◌, [], ℕ, map, true, IfOk, IfErr};
ghost use Rattle.std.specs.List.{concat};
ghost use Rattle.mlc_runs.specs.Passes.{BringsNone, initial_exceptions};
ghost use Rattle.mlc_runs.specs.declared.pass.PassFault.TheVariants.{Memory};
ghost use Rattle.match_compile.specs.Exceptions.{tests_made};
ghost use Rattle.mono_form.specs.Parts.{HasParts};
ghost use Rattle.ir_mono.specs.Mono.{meaning as meant_before};
ghost use Rattle.ir_first.specs.Meaning.{meaning};
ghost use Rattle.ir_first.specs.Size.{nodes_funs};
ghost use Rattle.ir_first.specs.WellFormed.{IsWellFormed};
ghost use Rattle.mono_bound.specs.Reads.{mono_of};
ghost use Rattle.flow_sets.specs.Flow.{Flow as Sets};
ghost use Rattle.closure_first.specs.of_flow_types.Flows.{Has, IsSolution};
ghost use Rattle.first_tables.specs.TablesOf.{shape_of};
ghost use Rattle.first_tree.specs.Exceptions.{exceptions};
ghost use Rattle.first_form.specs.Programs.{program_of};
ghost use Rattle.closure_convert.specs.Capture.{table_of};
ghost use Rattle.closure_meaning.specs.Convert.{shapes as shapes_of};
ghost use Rattle.closure_sizes.specs.Counts.{nodes, pieces};
ghost use Rattle.closure_first.specs.of_closure_parts.Indexed.{texts_of};
ghost use Rattle.closure_formed.specs.Tables.{AreOrderly};
ghost use Rattle.closure_formed.specs.of_closure_whole.Tags.{stand_once, AreDense};
ghost use Rattle.closure_first.specs.Held.{AreBytes};
ghost use Rattle.closure_first.specs.Made.{converted_by};
ghost use Rattle.closure_pass.specs.Given.{given, texts, IsReady};

use crate::exceptions::conversions_make_no_more;
use closure_first::flow_types::flow::Flow;
use closure_first::held::constants_are_held;
use closure_first::reading::trees_read_same;
use closure_first::shapes::shapes;
use closure_first::texts::texts_are_bytes;
use closure_first::whole::{Rest, converted};
use closure_formed::law::conversions_are_well_formed;
use closure_sizes::law::conversions_are_small;
use first_form::form::First;
use mlc_base::memory::NoMemory;
use mlc_names::names::Name;
use mlc_runs::pass::PassFault;
use mono_types::types::Types;
use plain_tree::tree::Exp;
use std::alloc::Global;

/// What a program has beside its types and its body: the empty string stands behind its strings, for numbers of none.
fn rest_of(
    alloc: Global,
    types: &Types,
    initial: Vec<Name>,
    strings: Vec<Vec<u8>>,
    expansion: usize,
) -> Result<Rest, NoMemory>
    ensures shapes { IfOk result (λ made. map shape_of made.shapes.items ≡ shapes_of types.now) }
    ensures strings { IfOk result (λ made. texts_of made.strings.items ≡ texts_of strings.items ++ [] ∷ []) }
    ensures bytes { IfOk result (λ made. AreBytes (texts_of made.strings.items)) }
    ensures initial { IfOk result (λ made. made.initial.items ≡ initial.items) }
    ensures expansion { IfOk result (λ made. made.expansion ≡ expansion) }
{
    let shapes = shapes(alloc, types)?;
    let mut strings = strings;
    strings.push(Vec::new(alloc))?;
    texts_are_bytes(&strings);
    Ok(Rest {
        initial,
        strings,
        shapes,
        expansion,
    })
}

/// A program that has no function by itself as one without function values, by any sets: of a well formed one, by sets that solve, the outcome is the same at
/// every number of turns; by orderly ones it is well formed; where no function stands twice in them, the tags of each are 0, 1, 2 and so on. Its exceptions are
/// those of the program and of the basis, and it is at most four times as large.
/// None only for want of memory, or where a variable is bound that is visible already, as it is only where one is bound twice.
pub fn convert(
    alloc: Global,
    types: &Types,
    initial: Vec<Name>,
    strings: Vec<Vec<u8>>,
    expansion: usize,
    flow: Flow,
    body: &Exp,
) -> Result<First, PassFault>
    ensures made { IfOk result (λ to. (F : Sets) → Has flow F
        → program_of to ≡ converted_by F (texts (texts_of strings.items)) (given initial.items types.now expansion (texts_of strings.items) body.now)) }
    ensures same { IsReady (given initial.items types.now expansion (texts_of strings.items) body.now)
        → IsSolution flow types.now (mono_of types.now (texts_of strings.items) body.now)
        → IfOk result (λ to. (turns : ℕ) → meaning (program_of to) turns
        ≡ meant_before (given initial.items types.now expansion (texts_of strings.items) body.now) turns) }
    ensures well_formed { IsReady (given initial.items types.now expansion (texts_of strings.items) body.now) → HasParts types.now
        → (F : Sets) → Has flow F → AreOrderly (given initial.items types.now expansion (texts_of strings.items) body.now) F
        → IfOk result (λ to. IsWellFormed (program_of to)) }
    ensures dense { (F : Sets) → Has flow F → stand_once (concat F.sets) ≡ true → IfOk result (λ to. AreDense (program_of to).tables.sets) }
    ensures exceptions { initial.items ≡ initial_exceptions → (F : Sets) → Has flow F
        → IfOk result (λ to. BringsNone (tests_made (mono_of types.now (texts_of strings.items) body.now) []) (exceptions (program_of to))) }
    ensures small { (F : Sets) → Has flow F → IfOk result (λ to. nodes_funs (program_of to).funs
        ≤ 1 + 4 * nodes types.now (mono_of types.now (texts_of strings.items) body.now)
        + 4 * pieces types.now (table_of types.now (mono_of types.now (texts_of strings.items) body.now))
        (mono_of types.now (texts_of strings.items) body.now)) }
    ensures size { IfOk result (λ to. to.expansion ≡ expansion) }
    ensures memory { IfErr result (λ fault. fault ≡ Memory) }
{
    trees_read_same();
    conversions_are_well_formed();
    conversions_make_no_more();
    conversions_are_small();
    constants_are_held(body);
    let rest = rest_of(alloc, types, initial, strings, expansion)?;
    match converted(alloc, types, flow, rest, body) {
        Ok(to) => Ok(to),
        Err(_) => Err(PassFault::Memory),
    }
}
