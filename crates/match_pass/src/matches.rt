// The tests of a rule.
ghost use Rattle.std.specs.Prelude.{IfOk};
ghost use Rattle.match_pass.specs.Going.{Matched};

use general_bindings::match_types::work::{ValueType, Work};
use general_bindings::pattern_tests::patterns::push_tests;
use general_bindings::pattern_tests::spots::bind_spots;
use mlc_base::memory::NoMemory;
use plain_tree::tree::Step;
use prog_tree::tree::Pat;
use std::alloc::Global;

/// The tests of a pattern, whose variables come into scope.
pub fn push_match(
    alloc: Global,
    work: &mut Work,
    pat: &Pat,
    t: ValueType,
    value: usize,
    steps: &mut Vec<Step>,
) -> Result<(), NoMemory>
    ensures { IfOk result (λ _. Matched work.old work.new steps.old.items steps.new.items pat.now t value) }
{
    let mut spots = Vec::new(alloc);
    push_tests(alloc, work, pat, t, value, steps, &mut spots)?;
    bind_spots(&mut work.names, &spots)?;
    Ok(())
}
