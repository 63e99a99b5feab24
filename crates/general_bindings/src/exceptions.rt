// New exceptions.
ghost use Rattle.std.specs.Prelude.{◌≡◌, ◌∷◌, suc, IfOk};
ghost use Rattle.std.specs.Option.{option_map};
ghost use Rattle.ir_plain.specs.Tree.{exception_in};
ghost use Rattle.match_compile.specs.Compile.{option_scoped};
ghost use Rattle.pattern_tests.specs.of_match_types.Views.{View, Sees, Keeps};
ghost use Rattle.ty_table.specs.TypeAt.{type_at};
ghost use Rattle.pattern_tests.specs.of_match_steps.Steps.{Puts};
ghost use Rattle.exp_blocks.specs.Giving.{Grows};

use mlc_base::memory::NoMemory;
use mlc_names::names::Name;
use pattern_tests::match_types::types::{fresh, scoped_type};
use pattern_tests::match_types::work::{ValueType, Work};
use plain_tree::tree::Step;
use std::alloc::Global;

/// The type of an exception's argument over the parameters in scope.
fn argument_type(
    alloc: Global,
    work: &mut Work,
    argument: Option<usize>,
) -> Result<Option<usize>, NoMemory>
    ensures is { IfOk result (λ made. (v : View) → Sees work.new v
        → option_map (type_at v.types) made ≡ option_scoped v.scope (option_map v.source.type argument)) }
    ensures next { IfOk result (λ _. work.new.next ≡ work.old.next) }
    ensures keeps { IfOk result (λ _. Keeps work.old work.new) }
{
    match argument {
        Some(t) => {
            let k = scoped_type(alloc, work, ValueType::Source(t))?;
            Ok(Some(k))
        }
        None => Ok(None),
    }
}

/// A new exception, whose variable stays bound.
pub fn push_new_exception(
    alloc: Global,
    work: &mut Work,
    x: usize,
    identifier: Name,
    argument: Option<usize>,
    steps: &mut Vec<Step>,
) -> Result<(), NoMemory>
    ensures grows { IfOk result (λ _. Grows work.old work.new) }
    ensures scope { IfOk result (λ _. work.new.scope ≡ work.old.scope) }
    ensures names { IfOk result (λ _. work.new.names ≡ (x, work.old.next) ∷ work.old.names) }
    ensures next { IfOk result (λ _. work.new.next ≡ suc work.old.next) }
    ensures puts { IfOk result (λ _. Puts work.new steps.old.items steps.new.items
        (λ v rest. exception_in work.old.next identifier (option_scoped v.scope (option_map v.source.type argument)) rest)) }
{
    let argument = argument_type(alloc, work, argument)?;
    let variable = fresh(work)?;
    steps.push(Step::Exception {
        variable,
        identifier,
        argument,
    })?;
    work.names.bind(x, variable)?;
    Ok(())
}
