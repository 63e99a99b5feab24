// Patterns, node by node, the first first. Fields and chains are loops.
ghost use Rattle.std.specs.Prelude.{◌≡◌, List, ◌∷◌, reverse, IfOk};
ghost use Rattle.ir_poly.specs.Prog.{Pat as Prog};
ghost use Rattle.ir_poly.specs.ProgMeaning.{size_of};
ghost use Rattle.prog_tree.specs.TreeOf.{Reading, pat_of};
ghost use Rattle.prog_tree.specs.declared.tree.PatPart.{PatPart as Part};
ghost use Rattle.match_compile.specs.Compile.{no_spots, past_pat, spots};
ghost use Rattle.match_steps.specs.of_match_types.Views.{View, value_type, Keeps};
ghost use Rattle.match_steps.specs.Steps.{Puts};
ghost use Rattle.pattern_tests.specs.Spots.{spots_onto};
ghost use Rattle.pattern_tests.specs.Tasks.{Done, finished, both, pat_task, pattern, tests_of};
ghost use Rattle.pattern_tests.specs.Parts.{fields_task, field_patterns, second, chained, right_chain, right_rest, left_rest, left_chain, pairs_rest};

use crate::made::Made;
use crate::parts::{
    push_before, push_component, push_constant, push_constructor, push_exception, push_left_part,
    push_pair, push_record, push_right_part, push_spot,
};
use crate::spots::Spot;
use match_steps::match_types::work::{ValueType, Work};
use mlc_base::memory::NoMemory;
use plain_tree::tree::Step;
use prog_tree::tree::{Pat, PatField, PatPart, Side};
use std::alloc::Global;
use std::mem;

/// How many fields a record has, where there are no further ones.
fn size(further: bool, fields: &[PatField]) -> Option<usize>
    ensures { (R : Reading) → size_of further (field_patterns fields.now R) ≡ result }
{
    if further { None } else { Some(fields.len()) }
}

#[cycle(patterns)]
fn push_pat(
    alloc: Global,
    work: &mut Work,
    pat: &Pat,
    u: ValueType,
    atom: usize,
    made: &mut Made,
) -> Result<(), NoMemory>
    ensures { IfOk result (λ _. Done work.old work.new made.old made.new (pat_task (pattern pat.now) u atom) finished) }
{
    match pat {
        Pat::Any => Ok(()),
        Pat::Variable(x) => push_spot(*x, u, atom, made),
        Pat::Constant(constant) => push_constant(alloc, work, *constant, u, atom, made),
        Pat::Constructor(constructor) => push_constructor(alloc, work, *constructor, u, atom, made),
        Pat::Exception(exception) => push_exception(alloc, work, *exception, u, atom, made),
        Pat::Before(head, w, argument) => {
            let a = push_before(alloc, work, *head, *w, u, atom, made)?;
            push_pat(alloc, work, argument, ValueType::Source(*w), a, made)
        }
        Pat::Record(further, fields) => {
            let size = size(*further, fields);
            push_record(alloc, work, size, u, atom, made)?;
            push_fields(alloc, work, fields, u, atom, made)
        }
        Pat::As(x, inner) => {
            push_spot(*x, u, atom, made)?;
            push_pat(alloc, work, inner, u, atom, made)
        }
        Pat::Chain(side, first, parts) => {
            let opened = open_chain(alloc, work, *side, parts, u, atom, made)?;
            push_pat(alloc, work, first, opened.ty, opened.atom, made)?;
            push_parts(alloc, work, parts, opened.pairs, made)
        }
    }
}

#[cycle(patterns)]
fn push_fields(
    alloc: Global,
    work: &mut Work,
    fields: &[PatField],
    u: ValueType,
    atom: usize,
    made: &mut Made,
) -> Result<(), NoMemory>
    ensures { IfOk result (λ _. Done work.old work.new made.old made.new (fields_task (field_patterns fields.now) u atom) finished) }
{
    for i in 0..fields.len() {
        let field = &fields[i];
        let a = push_component(alloc, work, field.label, u, atom, field.ty, made)?;
        push_pat(
            alloc,
            work,
            &field.pat,
            ValueType::Source(field.ty),
            a,
            made,
        )?;
    }
    Ok(())
}

/// The pairs of a chain that are open: of one to the right the first, if it has one; of one to the left all, the outermost first.
#[derive(Drop)]
enum Pairs {
    Right(usize),
    Left(Vec<usize>),
}

/// The first operand of a chain with its type, and the pairs that are open.
#[derive(Drop)]
struct Opened {
    ty: ValueType,
    atom: usize,
    pairs: Pairs,
}

/// Opens the pairs of a chain to the left.
fn open_left(
    alloc: Global,
    work: &mut Work,
    parts: &[PatPart],
    u: ValueType,
    atom: usize,
    made: &mut Made,
) -> Result<Opened, NoMemory>
    ensures { IfOk result (λ o. (p : Reading → Prog) → Done work.old work.new made.old made.new (pat_task (left_chain p parts.now) u atom)
        (both (pat_task p o.ty o.atom) (pairs_rest parts.now o.pairs))) }
{
    let mut pairs = Vec::new(alloc);
    let mut ty = u;
    let mut outer = atom;
    let mut left = parts.len();
    while left > 0 {
        left -= 1;
        let part = &parts[left];
        let joint = push_pair(alloc, work, part.head, part.pair, ty, outer, made)?;
        pairs.push(joint)?;
        outer = push_left_part(alloc, work, part.pair, joint, made)?;
        ty = ValueType::Source(part.pair.left);
    }
    Ok(Opened {
        ty,
        atom: outer,
        pairs: Pairs::Left(pairs),
    })
}

/// Opens the first pair of a chain to the right.
fn open_right(
    alloc: Global,
    work: &mut Work,
    parts: &[PatPart],
    u: ValueType,
    atom: usize,
    made: &mut Made,
) -> Result<Opened, NoMemory>
    ensures { IfOk result (λ o. (p : Reading → Prog) → Done work.old work.new made.old made.new (pat_task (right_chain p parts.now) u atom)
        (both (pat_task p o.ty o.atom) (pairs_rest parts.now o.pairs))) }
{
    if parts.is_empty() {
        return Ok(Opened {
            ty: u,
            atom,
            pairs: Pairs::Right(atom),
        });
    }
    let part = &parts[0];
    let joint = push_pair(alloc, work, part.head, part.pair, u, atom, made)?;
    let first = push_left_part(alloc, work, part.pair, joint, made)?;
    Ok(Opened {
        ty: ValueType::Source(part.pair.left),
        atom: first,
        pairs: Pairs::Right(joint),
    })
}

/// Opens the pairs around the first operand of a chain.
fn open_chain(
    alloc: Global,
    work: &mut Work,
    side: Side,
    parts: &[PatPart],
    u: ValueType,
    atom: usize,
    made: &mut Made,
) -> Result<Opened, NoMemory>
    ensures { IfOk result (λ o. (p : Reading → Prog) → Done work.old work.new made.old made.new (pat_task (chained side p parts.now) u atom)
        (both (pat_task p o.ty o.atom) (pairs_rest parts.now o.pairs))) }
{
    match side {
        Side::Right => open_right(alloc, work, parts, u, atom, made),
        Side::Left => open_left(alloc, work, parts, u, atom, made),
    }
}

/// The second operands of a chain whose pairs are open.
#[cycle(patterns)]
fn push_parts(
    alloc: Global,
    work: &mut Work,
    parts: &[PatPart],
    pairs: Pairs,
    made: &mut Made,
) -> Result<(), NoMemory>
    ensures { IfOk result (λ _. Done work.old work.new made.old made.new (pairs_rest parts.now pairs) finished) }
{
    match pairs {
        Pairs::Right(joint) => push_right(alloc, work, parts, joint, made),
        Pairs::Left(joints) => push_left(alloc, work, parts, joints, made),
    }
}

/// The first pair of a chain to the right is open: its second operand, and the pairs in it.
#[cycle(patterns)]
fn push_right(
    alloc: Global,
    work: &mut Work,
    parts: &[PatPart],
    first: usize,
    made: &mut Made,
) -> Result<(), NoMemory>
    ensures { IfOk result (λ _. Done work.old work.new made.old made.new (right_rest parts.now first) finished) }
{
    if parts.is_empty() {
        return Ok(());
    }
    let last = parts.len() - 1;
    let mut joint = first;
    for i in 0..last {
        joint = push_inner(alloc, work, &parts[i], &parts[i + 1], joint, made)?;
    }
    push_last(alloc, work, &parts[last], joint, made)
}

/// The second operand of a pair that is open, which is a pair: that one is opened. Gives its variable.
#[cycle(patterns)]
fn push_inner(
    alloc: Global,
    work: &mut Work,
    part: &PatPart,
    next: &PatPart,
    joint: usize,
    made: &mut Made,
) -> Result<usize, NoMemory>
    ensures { IfOk result (λ inner. (js : List Part) → Done work.old work.new made.old made.new
        (right_rest (part.now ∷ next.now ∷ js) joint) (right_rest (next.now ∷ js) inner)) }
{
    let u = ValueType::Source(part.pair.right);
    let rest = push_right_part(alloc, work, part.pair, joint, made)?;
    let inner = push_pair(alloc, work, next.head, next.pair, u, rest, made)?;
    let a = push_left_part(alloc, work, next.pair, inner, made)?;
    push_pat(
        alloc,
        work,
        &part.pat,
        ValueType::Source(next.pair.left),
        a,
        made,
    )?;
    Ok(inner)
}

/// The second operand of a pair that is open, where nothing follows in it.
#[cycle(patterns)]
fn push_last(
    alloc: Global,
    work: &mut Work,
    part: &PatPart,
    joint: usize,
    made: &mut Made,
) -> Result<(), NoMemory>
    ensures { IfOk result (λ _. Done work.old work.new made.old made.new (second part.now.pair joint (pattern part.now.pat)) finished) }
{
    let u = ValueType::Source(part.pair.right);
    let a = push_right_part(alloc, work, part.pair, joint, made)?;
    push_pat(alloc, work, &part.pat, u, a, made)
}

/// The second operands of the pairs that are open.
#[cycle(patterns)]
fn push_left(
    alloc: Global,
    work: &mut Work,
    parts: &[PatPart],
    mut pairs: Vec<usize>,
    made: &mut Made,
) -> Result<(), NoMemory>
    ensures { IfOk result (λ _. Done work.old work.new made.old made.new (left_rest parts.now (reverse pairs.items)) finished) }
{
    for i in 0..parts.len() {
        let Some(joint) = pairs.pop() else {
            return Ok(());
        };
        push_last(alloc, work, &parts[i], joint, made)?;
    }
    Ok(())
}

/// The tests of an atom, whose type is `u`, against a pattern, behind the steps that were made before; and where the pattern's variables are.
pub fn push_tests(
    alloc: Global,
    work: &mut Work,
    pat: &Pat,
    u: ValueType,
    atom: usize,
    steps: &mut Vec<Step>,
    found: &mut Vec<Spot>,
) -> Result<(), NoMemory>
    ensures next { IfOk result (λ _. (v : View) → work.new.next ≡ past_pat (pat_of v.source pat.now) work.old.next) }
    ensures keeps { IfOk result (λ _. Keeps work.old work.new) }
    ensures spots { IfOk result (λ _. (v : View) → spots_onto v found.new.items no_spots
        ≡ spots (pat_of v.source pat.now) (value_type v u) work.old.next atom (spots_onto v found.old.items no_spots)) }
    ensures tests { IfOk result (λ _. Puts work.new steps.old.items steps.new.items (tests_of pat.now u work.old.next atom)) }
{
    let mut made = Made {
        steps: mem::replace(steps, Vec::new(alloc)),
        spots: mem::replace(found, Vec::new(alloc)),
    };
    push_pat(alloc, work, pat, u, atom, &mut made)?;
    *steps = made.steps;
    *found = made.spots;
    Ok(())
}
