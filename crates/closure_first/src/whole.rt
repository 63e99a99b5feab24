// Whole programs.
ghost use Rattle.std.specs.Prelude.{◌≡◌, ℕ, List, [], map, IfOk};
ghost use Rattle.flow_sets.specs.Flow.{Flow};
ghost use Rattle.eta_expand.specs.Expand as clean_expand;
ghost use Rattle.mono_bound.specs.Reads.{mono_of};
ghost use Rattle.flow_sets.specs.ByType.{bound};
ghost use Rattle.closure_convert.specs.Scope.{Table};
ghost use Rattle.closure_bodies.specs.of_closure_whole.Rising.{above as above_of};
ghost use Rattle.first_tables.specs.TablesOf.{shape_of, set_of as made_set};
ghost use Rattle.first_tree.specs.TreeOf.{fun_of};
ghost use Rattle.first_form.specs.Programs.{program_of};
ghost use Rattle.closure_bodies.specs.of_flow_types.Flows.{Has, program_with};
ghost use Rattle.closure_meaning.specs.Convert.{Numbering, shapes as shapes_of, set_of, program as program_made};
ghost use Rattle.closure_bodies.specs.of_closure_parts.Indexed.{texts_of};
ghost use Rattle.closure_bodies.specs.of_closure_parts.Settings.{Texts, Holds};
ghost use Rattle.closure_first.specs.Codes.{functions_of};
ghost use Rattle.closure_first.specs.Made.{converted_by};

use crate::above::above;
use crate::program::{functions, sets};
use capture_scope::scope::ScopeFault;
use closure_bodies::closure_parts::setting::Setting;
use closure_bodies::flow_types::flow::Flow as Sets;
use eta_code::expand::expand;
use first_form::form::First;
use first_tables::tables::{Member, Shape, Tables};
use first_tree::tree::Fun;
use mlc_base::memory::NoMemory;
use mlc_names::names::Name;
use mono_types::types::Types;
use plain_tree::tree::Exp;
use std::alloc::Global;

/// What a program has beside its types and its body; the shapes are those of its types.
#[derive(Drop)]
pub struct Rest {
    pub initial: Vec<Name>,
    pub strings: Vec<Vec<u8>>,
    pub shapes: Vec<Shape>,
    pub expansion: usize,
}

/// The functions and the sets of a program.
fn parts(
    alloc: Global,
    types: &Types,
    setting: &Setting,
    body: &Exp,
) -> Result<(Vec<Fun>, Vec<Vec<Member>>), ScopeFault>
    ensures funs { IfOk result (λ made. (strings : Texts) (n : Numbering) (F : Flow) (T : Table) → Holds setting.now types.now strings n F T
        → map fun_of made.0.items ≡ functions_of n types.now F T (mono_of types.now strings body.now)) }
    ensures sets { IfOk result (λ made. (strings : Texts) (n : Numbering) (F : Flow) (T : Table) → Holds setting.now types.now strings n F T
        → map made_set made.1.items ≡ map (set_of n) F.sets) }
{
    let funs = functions(alloc, types, setting, body)?;
    let sets = sets(alloc, setting)?;
    Ok((funs, sets))
}

/// A program that has no function by itself, converted by what the setting holds, whatever sets and captures that are.
pub fn program(
    alloc: Global,
    types: &Types,
    setting: &Setting,
    rest: Rest,
    body: &Exp,
) -> Result<First, ScopeFault>
    requires { map shape_of rest.shapes.items ≡ shapes_of types.now }
    ensures made { IfOk result (λ made. (n : Numbering) (F : Flow) (T : Table) → Holds setting.now types.now (texts_of rest.strings.items) n F T
        → program_of made ≡ program_made n (texts_of rest.strings.items) F T
        (program_with rest.initial.items types.now rest.expansion (mono_of types.now (texts_of rest.strings.items) body.now))) }
    ensures expansion { IfOk result (λ made. made.expansion ≡ rest.expansion) }
{
    let (funs, sets) = parts(alloc, types, setting, body)?;
    Ok(First {
        tables: Tables {
            initial: rest.initial,
            strings: rest.strings,
            types: rest.shapes,
            sets,
        },
        funs,
        expansion: rest.expansion,
    })
}

/// A program that has no function by itself, converted by these sets, and by what its functions capture in the order of binding. Err for want of memory, or
/// where a variable is bound that is visible already, as it is only where one is bound twice.
pub fn converted(
    alloc: Global,
    types: &Types,
    flow: Sets,
    rest: Rest,
    body: &Exp,
) -> Result<First, ScopeFault>
    requires { map shape_of rest.shapes.items ≡ shapes_of types.now }
    ensures made { IfOk result (λ made. (F : Flow) → Has flow F → program_of made ≡ converted_by F (texts_of rest.strings.items)
        (program_with rest.initial.items types.now rest.expansion (mono_of types.now (texts_of rest.strings.items) body.now))) }
    ensures expansion { IfOk result (λ made. made.expansion ≡ rest.expansion) }
{
    let setting = Setting::new(alloc, types, &rest.strings, flow, body)?;
    program(alloc, types, &setting, rest, body)
}

/// A program's body with a function for each function by itself, with new variables above all that the program binds.
pub fn explicit(alloc: Global, types: &Types, body: &Exp) -> Result<Exp, NoMemory>
    ensures { IfOk result (λ made. (strings : Texts) → mono_of types.now strings made
        ≡ clean_expand.expand types.now [] (above_of (bound types.now (mono_of types.now strings body.now))) (mono_of types.now strings body.now)) }
{
    let first = above(alloc, types, body)?;
    expand(alloc, types, first, body)
}
