// Patterns with other numbers for their types: recursion along nesting, loops along fields and operands.
ghost use Rattle.std.specs.Prelude.{◌≡◌, map, IfOk};
ghost use Rattle.prog_tree.specs.TreeOf.{Reading, pat_of, pat_field_of, pat_part_of};
ghost use Rattle.prog_renumber.specs.Renumbered.{renumbered};

use crate::numbers::Numbers;
use mlc_base::make::{both, boxed};
use mlc_base::memory::NoMemory;
use prog_tree::tree::{Pat, PatField, PatPart};
use std::alloc::Global;

/// A pattern with its new numbers.
#[cycle(patterns)]
pub fn pattern(alloc: Global, numbers: &Numbers, pat: &Pat) -> Result<Pat, NoMemory>
    ensures { IfOk result (λ new. (Q : Reading) → pat_of Q new ≡ pat_of (renumbered numbers.now Q) pat.now) }
{
    match pat {
        Pat::Any => Ok(Pat::Any),
        Pat::Variable(variable) => Ok(Pat::Variable(*variable)),
        Pat::Constant(constant) => Ok(Pat::Constant(*constant)),
        Pat::Constructor(constructor) => Ok(Pat::Constructor(*constructor)),
        Pat::Exception(exception) => Ok(Pat::Exception(*exception)),
        Pat::Before(head, ty, argument) => {
            let made = boxed_pattern(alloc, numbers, argument)?;
            Ok(Pat::Before(*head, numbers.at(*ty), made))
        }
        Pat::Record(further, fields) => {
            let made = pattern_fields(alloc, numbers, fields)?;
            Ok(Pat::Record(*further, made))
        }
        Pat::As(variable, pat) => {
            let made = boxed_pattern(alloc, numbers, pat)?;
            Ok(Pat::As(*variable, made))
        }
        Pat::Chain(side, first, parts) => match both(
            boxed_pattern(alloc, numbers, first),
            pattern_parts(alloc, numbers, parts),
        ) {
            Ok((first, parts)) => Ok(Pat::Chain(*side, first, parts)),
            Err(e) => Err(e),
        },
    }
}

#[cycle(patterns)]
fn boxed_pattern(alloc: Global, numbers: &Numbers, pat: &Pat) -> Result<Box<Pat>, NoMemory>
    ensures { IfOk result (λ new. (Q : Reading) → pat_of Q new.value ≡ pat_of (renumbered numbers.now Q) pat.now) }
{
    let made = pattern(alloc, numbers, pat)?;
    boxed(alloc, made)
}

#[cycle(patterns)]
fn pattern_field(alloc: Global, numbers: &Numbers, field: &PatField) -> Result<PatField, NoMemory>
    ensures { IfOk result (λ new. (Q : Reading) → pat_field_of Q new ≡ pat_field_of (renumbered numbers.now Q) field.now) }
{
    let pat = pattern(alloc, numbers, &field.pat)?;
    Ok(PatField {
        label: field.label,
        ty: numbers.at(field.ty),
        pat,
    })
}

#[cycle(patterns)]
fn pattern_fields(
    alloc: Global,
    numbers: &Numbers,
    fields: &[PatField],
) -> Result<Vec<PatField>, NoMemory>
    ensures { IfOk result (λ new. (Q : Reading) → map (pat_field_of Q) new.items ≡ map (pat_field_of (renumbered numbers.now Q)) fields.now) }
{
    let mut made = Vec::new(alloc);
    for i in 0..fields.len() {
        made.push(pattern_field(alloc, numbers, &fields[i])?)?;
    }
    Ok(made)
}

#[cycle(patterns)]
fn pattern_part(alloc: Global, numbers: &Numbers, part: &PatPart) -> Result<PatPart, NoMemory>
    ensures { IfOk result (λ new. (Q : Reading) → pat_part_of Q new ≡ pat_part_of (renumbered numbers.now Q) part.now) }
{
    let pat = pattern(alloc, numbers, &part.pat)?;
    Ok(PatPart {
        head: part.head,
        pair: numbers.pair(part.pair),
        pat,
    })
}

#[cycle(patterns)]
fn pattern_parts(
    alloc: Global,
    numbers: &Numbers,
    parts: &[PatPart],
) -> Result<Vec<PatPart>, NoMemory>
    ensures { IfOk result (λ new. (Q : Reading) → map (pat_part_of Q) new.items ≡ map (pat_part_of (renumbered numbers.now Q)) parts.now) }
{
    let mut made = Vec::new(alloc);
    for i in 0..parts.len() {
        made.push(pattern_part(alloc, numbers, &parts[i])?)?;
    }
    Ok(made)
}
