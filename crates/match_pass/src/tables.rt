// The tables of tests: no parameter is of a class, and constructors' arguments mean what they did while types are added.
ghost use Rattle.std.specs.Prelude.{◌≡◌, List, length, take, map, IfOk};
ghost use Rattle.std.specs.Option.{option_map};
ghost use Rattle.ty_core.specs.Types.{Typ, var};
ghost use Rattle.ty_table.specs.TypeAt.{type_at};
ghost use Rattle.ir_tables.specs.Rows.{constructors_at};
ghost use Rattle.match_compile.specs.Compile as clean;

use ir_tables::constructors::{Constructor, Constructors};
use mlc_base::memory::NoMemory;
use std::alloc::Global;
use ty_core::mark::Mark;
use ty_core::scheme::Quantified;

/// The mark of a parameter that stands for itself.
fn opened(mark: Mark) -> Mark
    ensures { result ≡ clean.opened mark }
{
    match mark {
        Mark::Any => Mark::Any,
        Mark::Equality => Mark::Equality,
        Mark::Class(_) => Mark::Any,
    }
}

/// A parameter that is of no class.
fn unclassed_one(parameter: &Quantified) -> Quantified
    ensures { result ≡ record { variable = parameter.now.variable; mark = clean.opened parameter.now.mark } }
{
    Quantified {
        variable: parameter.variable,
        mark: opened(parameter.mark),
    }
}

/// Parameters, none of a class.
fn unclassed(alloc: Global, all: &[Quantified]) -> Result<Vec<Quantified>, NoMemory>
    ensures { IfOk result (λ made. made.items ≡ clean.unclassed all.now) }
{
    let mut made = Vec::new(alloc);
    for i in 0..all.len() {
        made.push(unclassed_one(&all[i]))?;
    }
    Ok(made)
}

/// Lists of parameters, none of a class.
pub fn all_unclassed(
    alloc: Global,
    lists: &[Vec<Quantified>],
) -> Result<Vec<Vec<Quantified>>, NoMemory>
    ensures { IfOk result (λ made. map (λ p. p.items) made.items ≡ map (λ p. clean.unclassed p.items) lists.now) }
{
    let mut made = Vec::new(alloc);
    for i in 0..lists.len() {
        let next = unclassed(alloc, &lists[i])?;
        made.push(next)?;
    }
    Ok(made)
}

/// The type of a constructor's argument: a number past the first so many stands for the variable 0, which has a number there.
fn kept(first: usize, none: usize, argument: Option<usize>) -> Option<usize>
    ensures { (old new : List Typ) → first ≡ length old → take (length old) new ≡ old → type_at new none ≡ var 0
        → option_map (type_at new) result ≡ option_map (type_at old) argument }
{
    match argument {
        Some(t) => { if t < first { Some(t) } else { Some(none) } }
        None => None,
    }
}

/// Constructors whose arguments mean what they did when there were the first so many types alone.
pub fn all_kept(
    alloc: Global,
    first: usize,
    none: usize,
    rows: &[Constructor],
) -> Result<Constructors, NoMemory>
    ensures { IfOk result (λ made. (old new : List Typ) → first ≡ length old → take (length old) new ≡ old → type_at new none ≡ var 0
        → constructors_at new made ≡ constructors_at old rows.now) }
{
    let mut made = Constructors::new(alloc);
    for i in 0..rows.len() {
        let row = &rows[i];
        made.push(Constructor {
            datatype: row.datatype,
            number: row.number,
            argument: kept(first, none, row.argument),
        })?;
    }
    Ok(made)
}
