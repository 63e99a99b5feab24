// The type variables of patterns, as often as they occur.
ghost use Rattle.std.specs.Prelude.{◌≡◌, ◌++◌, flat_map, IfOk};
ghost use Rattle.scoped_tyvars.specs.Unguarded.{field_pat_tyvars, pat_tyvars, pat_part_tyvars};

use crate::tys::{of_some, of_ty};
use mlc_base::memory::NoMemory;
use sml_tree::ident::Tyvar;
use sml_tree::tree::{Pat, PatField, PatPart};

/// Those of a pattern.
#[cycle(pats)]
pub fn of_pat(pat: &Pat, found: &mut Vec<Tyvar>) -> Result<(), NoMemory>
    ensures { IfOk result (λ _. found.new.items ≡ found.old.items ++ pat_tyvars pat.now) }
{
    match pat {
        Pat::Wild(_) => Ok(()),
        Pat::Constant(_, _) => Ok(()),
        Pat::Vid(_, _) => Ok(()),
        Pat::BuiltIn(_, _) => Ok(()),
        Pat::Record(_, fields, _) => of_fields(fields, found),
        Pat::Tuple(_, parts) => of_pats(parts, found),
        Pat::List(_, elements) => of_pats(elements, found),
        Pat::Con(_, _, _, argument) => of_pat(argument, found),
        Pat::BuiltCon(_, _, argument) => of_pat(argument, found),
        Pat::Chain(_, _, first, parts) => {
            of_pat(first, found)?;
            of_parts(parts, found)
        }
        Pat::Typed(_, inner, ty) => {
            of_pat(inner, found)?;
            of_ty(ty, found)
        }
        Pat::As(_, _, ty, inner) => {
            of_some(ty, found)?;
            of_pat(inner, found)
        }
    }
}

#[cycle(pats)]
fn of_fields(fields: &[PatField], found: &mut Vec<Tyvar>) -> Result<(), NoMemory>
    ensures { IfOk result (λ _. found.new.items ≡ found.old.items ++ flat_map field_pat_tyvars fields.now) }
{
    for i in 0..fields.len() {
        let field = &fields[i];
        of_pat(&field.pat, found)?;
    }
    Ok(())
}

#[cycle(pats)]
fn of_pats(pats: &[Pat], found: &mut Vec<Tyvar>) -> Result<(), NoMemory>
    ensures { IfOk result (λ _. found.new.items ≡ found.old.items ++ flat_map pat_tyvars pats.now) }
{
    for i in 0..pats.len() {
        of_pat(&pats[i], found)?;
    }
    Ok(())
}

#[cycle(pats)]
fn of_parts(parts: &[PatPart], found: &mut Vec<Tyvar>) -> Result<(), NoMemory>
    ensures { IfOk result (λ _. found.new.items ≡ found.old.items ++ flat_map pat_part_tyvars parts.now) }
{
    for i in 0..parts.len() {
        let part = &parts[i];
        of_pat(&part.pat, found)?;
    }
    Ok(())
}

/// Those of patterns beside one another.
pub fn of_all(pats: &[Pat], found: &mut Vec<Tyvar>) -> Result<(), NoMemory>
    ensures { IfOk result (λ _. found.new.items ≡ found.old.items ++ flat_map pat_tyvars pats.now) }
{
    of_pats(pats, found)
}
