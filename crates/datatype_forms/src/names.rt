// Type names for the datatypes of a declaration, each with as many parameters as the datatype has.
ghost use Rattle.std.specs.Prelude.{◌≡◌, ◌+◌, length, map, IfOk};
ghost use Rattle.sml_tree.specs.TreeOf.{data_bind_of};
ghost use Rattle.core_rules.specs.Elaborated.{names_of};
ghost use Rattle.datatype_forms.specs.Arguments.{AreStanding, attribute_of};

use mlc_base::memory::NoMemory;
use sml_tree::tree::DataBind;
use std::alloc::Global;
use ty_core::name::{Equality, TyName};

/// How many parameters a datatype has.
fn arity_of(bind: &DataBind) -> Result<u32, NoMemory>
    ensures { IfOk result (λ n. n ≡ length (data_bind_of bind.now).tyvars) }
{
    let count = bind.tyvars.len();
    if count > u32::MAX as usize {
        return Err(NoMemory);
    }
    Ok(count as u32)
}

/// The equality attribute of a new name.
fn attribute(admits: bool) -> Equality
    ensures { result ≡ attribute_of admits }
{
    if admits {
        Equality::ByArguments
    } else {
        Equality::Never
    }
}

/// The stamp of a new name.
fn stamp_at(first: usize, place: usize) -> Result<u32, NoMemory>
    ensures { IfOk result (λ n. n ≡ first + place) }
{
    let most = u32::MAX as usize;
    if first > most || place > most - first {
        return Err(NoMemory);
    }
    Ok((first + place) as u32)
}

/// A name that is in use, for each datatype.
pub fn standing_names(alloc: Global, binds: &[DataBind]) -> Result<Vec<TyName>, NoMemory>
    ensures { IfOk result (λ ns. AreStanding ns.items (map data_bind_of binds.now)) }
{
    let mut names = Vec::new(alloc);
    for i in 0..binds.len() {
        let arity = arity_of(&binds[i])?;
        names.push(TyName {
            stamp: 0,
            arity,
            equality: Equality::Never,
        })?;
    }
    Ok(names)
}

/// The new names, of which these admit equality.
pub fn marked_names(
    alloc: Global,
    first: usize,
    marks: &[bool],
    binds: &[DataBind],
) -> Result<Vec<TyName>, NoMemory>
    requires { length marks.now ≡ length binds.now }
    ensures { IfOk result (λ ns. ns.items ≡ names_of first marks.now (map data_bind_of binds.now)) }
{
    let mut names = Vec::new(alloc);
    for i in 0..binds.len() {
        let stamp = stamp_at(first, i)?;
        let arity = arity_of(&binds[i])?;
        let equality = attribute(marks[i]);
        names.push(TyName {
            stamp,
            arity,
            equality,
        })?;
    }
    Ok(names)
}
