// The nodes of patterns.
ghost use Rattle.std.specs.Prelude.{◌≡◌, Bool, IfOk};
ghost use Rattle.ir_poly.specs.Prog.{Pat, PatFields};
ghost use Rattle.ir_poly.specs.ProgMeaning.{size_of};
ghost use Rattle.prog_tree.specs.TreeOf.{Reading};
ghost use Rattle.match_steps.specs.of_match_types.declared.work.Work.{Work};
ghost use Rattle.match_steps.specs.of_match_types.declared.work.ValueType.TheVariants.{Source};
ghost use Rattle.pattern_tests.specs.Tasks.{Done, finished, pat_task};
ghost use Rattle.pattern_tests.specs.Parts.{fields_task, behind, record_pattern, joined, opened, component, first, second, variable_pattern, as_pattern, constant_pattern, con_pattern, exn_pattern};

use crate::made::Made;
use crate::spots::Spot;
use ir_tables::tables::Constant;
use match_steps::match_types::work::{ValueType, Work};
use match_steps::steps::{push_head, push_name, push_select, push_test};
use mlc_base::memory::NoMemory;
use mlc_names::label::Label;
use plain_tree::tree::Case;
use prog_tree::tree::{Exception, Head, Pair};
use std::alloc::Global;

/// A variable is the atom.
pub fn push_spot(x: usize, u: ValueType, atom: usize, made: &mut Made) -> Result<(), NoMemory>
    ensures variable { IfOk result (λ _. (w : Work) → Done w w made.old made.new (pat_task (variable_pattern x) u atom) finished) }
    ensures alias { IfOk result (λ _. (w : Work) (p : Reading → Pat) → Done w w made.old made.new (pat_task (as_pattern x p) u atom) (pat_task p u atom)) }
{
    made.spots.push(Spot {
        variable: x,
        number: atom,
        ty: u,
    })?;
    Ok(())
}

/// The atom is a constant.
pub fn push_constant(
    alloc: Global,
    work: &mut Work,
    constant: Constant,
    u: ValueType,
    atom: usize,
    made: &mut Made,
) -> Result<(), NoMemory>
    ensures { IfOk result (λ _. Done work.old work.new made.old made.new (pat_task (constant_pattern constant) u atom) finished) }
{
    push_test(
        alloc,
        work,
        u,
        atom,
        Case::Constant(constant),
        &mut made.steps,
    )?;
    Ok(())
}

/// The atom is a constructor.
pub fn push_constructor(
    alloc: Global,
    work: &mut Work,
    constructor: usize,
    u: ValueType,
    atom: usize,
    made: &mut Made,
) -> Result<(), NoMemory>
    ensures { IfOk result (λ _. Done work.old work.new made.old made.new (pat_task (con_pattern constructor) u atom) finished) }
{
    push_test(
        alloc,
        work,
        u,
        atom,
        Case::Constructor(constructor),
        &mut made.steps,
    )?;
    Ok(())
}

/// The atom is a packet of an exception.
pub fn push_exception(
    alloc: Global,
    work: &mut Work,
    exception: Exception,
    u: ValueType,
    atom: usize,
    made: &mut Made,
) -> Result<(), NoMemory>
    ensures { IfOk result (λ _. Done work.old work.new made.old made.new (pat_task (exn_pattern exception) u atom) finished) }
{
    let name = push_name(work, exception, &mut made.steps)?;
    push_test(alloc, work, u, atom, Case::Exception(name), &mut made.steps)?;
    Ok(())
}

/// The atom begins with a constructor, a reference or an exception before an argument of type `w`. Gives the argument's variable.
pub fn push_before(
    alloc: Global,
    work: &mut Work,
    head: Head,
    w: usize,
    u: ValueType,
    atom: usize,
    made: &mut Made,
) -> Result<usize, NoMemory>
    ensures { IfOk result (λ a. (p : Reading → Pat) → Done work.old work.new made.old made.new (pat_task (behind head w p) u atom) (pat_task p (Source w) a)) }
{
    let a = push_head(
        alloc,
        work,
        head,
        ValueType::Source(w),
        u,
        atom,
        &mut made.steps,
    )?;
    Ok(a)
}

/// The atom is a record, of so many fields where a number is given.
pub fn push_record(
    alloc: Global,
    work: &mut Work,
    size: Option<usize>,
    u: ValueType,
    atom: usize,
    made: &mut Made,
) -> Result<(), NoMemory>
    ensures { IfOk result (λ _. (further : Bool) (fs : Reading → PatFields) → ((R : Reading) → size_of further (fs R) ≡ size)
        → Done work.old work.new made.old made.new (pat_task (record_pattern further fs) u atom) (fields_task fs u atom)) }
{
    push_test(alloc, work, u, atom, Case::Record(size), &mut made.steps)?;
    Ok(())
}

/// A field of type `w` of the atom. Gives its variable.
pub fn push_component(
    alloc: Global,
    work: &mut Work,
    label: Label,
    u: ValueType,
    atom: usize,
    w: usize,
    made: &mut Made,
) -> Result<usize, NoMemory>
    ensures { IfOk result (λ a. (p : Reading → Pat) → Done work.old work.new made.old made.new (component label u atom w p) (pat_task p (Source w) a)) }
{
    let a = push_select(
        alloc,
        work,
        u,
        atom,
        label,
        ValueType::Source(w),
        &mut made.steps,
    )?;
    Ok(a)
}

/// The atom begins with what joins two patterns. Gives the variable of the pair.
pub fn push_pair(
    alloc: Global,
    work: &mut Work,
    head: Head,
    pair: Pair,
    u: ValueType,
    atom: usize,
    made: &mut Made,
) -> Result<usize, NoMemory>
    ensures { IfOk result (λ a. (p q : Reading → Pat) → Done work.old work.new made.old made.new (pat_task (joined head pair p q) u atom) (opened pair a p q)) }
{
    let a = push_before(alloc, work, head, pair.ty, u, atom, made)?;
    push_record(alloc, work, Some(2), ValueType::Source(pair.ty), a, made)?;
    Ok(a)
}

/// The left component of a pair. Gives its variable.
pub fn push_left_part(
    alloc: Global,
    work: &mut Work,
    pair: Pair,
    atom: usize,
    made: &mut Made,
) -> Result<usize, NoMemory>
    ensures { IfOk result (λ a. (p : Reading → Pat) → Done work.old work.new made.old made.new (first pair atom p) (pat_task p (Source pair.left) a)) }
{
    let a = push_component(
        alloc,
        work,
        Label::Number(1),
        ValueType::Source(pair.ty),
        atom,
        pair.left,
        made,
    )?;
    Ok(a)
}

/// The right component of a pair. Gives its variable.
pub fn push_right_part(
    alloc: Global,
    work: &mut Work,
    pair: Pair,
    atom: usize,
    made: &mut Made,
) -> Result<usize, NoMemory>
    ensures { IfOk result (λ a. (p : Reading → Pat) → Done work.old work.new made.old made.new (second pair atom p) (pat_task p (Source pair.right) a)) }
{
    let a = push_component(
        alloc,
        work,
        Label::Number(2),
        ValueType::Source(pair.ty),
        atom,
        pair.right,
        made,
    )?;
    Ok(a)
}
