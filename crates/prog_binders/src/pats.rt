// The variables of patterns.
ghost use Rattle.std.specs.Prelude.{sum_by, IfOk};
ghost use Rattle.ir_poly.specs.ProgOnce.{pat_times};
ghost use Rattle.prog_tree.specs.TreeOf.{pat_of};
ghost use Rattle.prog_binders.specs.Adding.{Adds, pat_field_times, pat_part_times};

use mlc_base::memory::NoMemory;
use prog_tree::tree::{Pat, PatField, PatPart};

/// Puts the variables that a pattern binds behind those found before.
#[cycle(pats)]
pub fn push_pat(pat: &Pat, found: &mut Vec<usize>) -> Result<(), NoMemory>
    ensures { IfOk result (λ _. Adds found.old.items found.new.items (λ R h. pat_times h (pat_of R pat.now))) }
{
    match pat {
        Pat::Any => Ok(()),
        Pat::Variable(variable) => {
            found.push(*variable)?;
            Ok(())
        }
        Pat::Constant(_) => Ok(()),
        Pat::Constructor(_) => Ok(()),
        Pat::Exception(_) => Ok(()),
        Pat::Before(_, _, part) => {
            push_pat(part, found)?;
            Ok(())
        }
        Pat::Record(_, fields) => {
            push_fields(fields, found)?;
            Ok(())
        }
        Pat::As(variable, part) => {
            found.push(*variable)?;
            push_pat(part, found)?;
            Ok(())
        }
        Pat::Chain(_, first, parts) => {
            push_pat(first, found)?;
            push_parts(parts, found)?;
            Ok(())
        }
    }
}

#[cycle(pats)]
fn push_fields(fields: &[PatField], found: &mut Vec<usize>) -> Result<(), NoMemory>
    ensures { IfOk result (λ _. Adds found.old.items found.new.items (λ R h. sum_by (pat_field_times R h) fields.now)) }
{
    for i in 0..fields.len() {
        let field = &fields[i];
        push_pat(&field.pat, found)?;
    }
    Ok(())
}

#[cycle(pats)]
fn push_parts(parts: &[PatPart], found: &mut Vec<usize>) -> Result<(), NoMemory>
    ensures { IfOk result (λ _. Adds found.old.items found.new.items (λ R h. sum_by (pat_part_times R h) parts.now)) }
{
    for i in 0..parts.len() {
        let part = &parts[i];
        push_pat(&part.pat, found)?;
    }
    Ok(())
}
