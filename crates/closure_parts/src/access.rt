// Names of variables, and where a body finds one.
ghost use Rattle.std.specs.Prelude.{◌≡◌, map, IfOk};
ghost use Rattle.first_tree.specs.TreeOf.{operation_of};
ghost use Rattle.first_tables.specs.TablesOf.{plain_of};
ghost use Rattle.ir_first.specs.Tree as out;
ghost use Rattle.closure_meaning.specs.Convert.{Numbering, var, access};
ghost use Rattle.closure_parts.specs.Pieces.{a_plain, a_make};
ghost use Rattle.closure_parts.specs.Tagged.{HasTags};

use crate::tags::Tags;
use capture_scope::scope::{Found, Scope};
use first_tables::operation::{Piece, Plain};
use first_tree::tree::Operation;
use mlc_base::make::one;
use mlc_base::memory::NoMemory;
use std::alloc::Global;

/// In the body of a function, the cell that has what was captured.
pub const HOLDER: usize = 0;

/// A function of a group that isn't its first, when it is entered.
pub const FOLLOWER: usize = 1;

/// The function that one of several parameters gives; also stands for a step between.
pub const GIVEN: usize = 2;

/// Stands for a step between.
pub const SPARE: usize = 3;

/// The name of a variable of the program, behind those four. No memory holds a program with more variables than there are names.
pub fn named(variable: usize) -> Result<usize, NoMemory>
    ensures { IfOk result (λ name. name ≡ var variable) }
{
    match variable.checked_add(4) {
        Some(name) => Ok(name),
        None => Err(NoMemory),
    }
}

pub fn all_named(alloc: Global, variables: &[usize]) -> Result<Vec<usize>, NoMemory>
    ensures { IfOk result (λ made. made.items ≡ map var variables.now) }
{
    let mut made = Vec::new(alloc);
    for i in 0..variables.len() {
        let name = named(variables[i])?;
        made.push(name)?;
    }
    Ok(made)
}

/// An operation on one value.
pub fn plain(alloc: Global, plain: Plain, operand: usize) -> Result<Operation, NoMemory>
    ensures { IfOk result (λ made. operation_of made ≡ a_plain (plain_of plain) operand) }
{
    let operands = one(alloc, operand)?;
    Ok(Operation::Plain(plain, operands))
}

/// A cell of one part.
pub fn cell_of(alloc: Global, tag: usize, part: usize) -> Result<Operation, NoMemory>
    ensures { IfOk result (λ made. operation_of made ≡ a_make tag part) }
{
    let pieces = one(alloc, Piece::One(part))?;
    Ok(Operation::Make(tag, pieces))
}

/// Reads a variable where the body finds it. Err also where it doesn't, as never in a program whose uses are all in scope.
pub fn access(
    alloc: Global,
    tags: &Tags,
    scope: &Scope,
    variable: usize,
) -> Result<Operation, NoMemory>
    ensures { IfOk result (λ made. (n : Numbering) → HasTags tags.now n → operation_of made ≡ access n scope.now variable) }
{
    match scope.find(variable) {
        Found::Local => {
            let name = named(variable)?;
            plain(alloc, Plain::Same, name)
        }
        Found::Captured(place) => plain(alloc, Plain::Field(place), HOLDER),
        Found::Leads => plain(alloc, Plain::Same, HOLDER),
        Found::Follows(function) => cell_of(alloc, tags.of(function), HOLDER),
        Found::Nowhere => Err(NoMemory),
    }
}
