// Closures.
ghost use Rattle.std.specs.Prelude.{◌≡◌, ◌∷◌, [], map, IfOk};
ghost use Rattle.ir_first.specs.Tree as out;
ghost use Rattle.first_tree.specs.TreeOf.{operation_of};
ghost use Rattle.first_tables.specs.TablesOf.{piece_of};
ghost use Rattle.capture_scope.specs.Found.{found_of, piece_of as captured_of, pieces_of};
ghost use Rattle.capture_scope.specs.Seen.{members_of};
ghost use Rattle.closure_meaning.specs.Convert.{Numbering, ready, piece_list};
ghost use Rattle.closure_parts.specs.Pieces.{made_of, followers, is_bound, readied, piece_as};
ghost use Rattle.closure_parts.specs.Puts.{Puts};
ghost use Rattle.closure_parts.specs.Tagged.{HasTags};

use crate::access::{HOLDER, access, cell_of, named};
use crate::tags::Tags;
use capture_scope::piece::Piece as Captured;
use capture_scope::scope::{Found, Member, Scope};
use first_tables::operation::Piece;
use first_tree::tree::{Operation, Step};
use mlc_base::memory::NoMemory;
use std::alloc::Global;

/// A name for the value of an operation.
pub fn push_let(steps: &mut Vec<Step>, name: usize, operation: Operation) -> Result<(), NoMemory>
    ensures { IfOk result (λ _. Puts steps.old.items steps.new.items (out.let_in name (operation_of operation))) }
{
    steps.push(Step::Let(name, operation))?;
    Ok(())
}

fn is_local(found: Found) -> bool
    ensures { result ≡ is_bound (found_of found) }
{
    match found {
        Found::Local => true,
        Found::Captured(_) => false,
        Found::Leads => false,
        Found::Follows(_) => false,
        Found::Nowhere => false,
    }
}

/// A variable is brought into the body, if it isn't bound there.
fn push_ready(
    alloc: Global,
    tags: &Tags,
    scope: &Scope,
    variable: usize,
    steps: &mut Vec<Step>,
) -> Result<(), NoMemory>
    ensures { IfOk result (λ _. (n : Numbering) → HasTags tags.now n → Puts steps.old.items steps.new.items (readied n scope.now variable)) }
{
    if is_local(scope.find(variable)) {
        return Ok(());
    }
    let name = named(variable)?;
    let found = access(alloc, tags, scope, variable)?;
    push_let(steps, name, found)
}

/// What a piece is made of is brought into the body.
fn push_piece_ready(
    alloc: Global,
    tags: &Tags,
    scope: &Scope,
    piece: Captured,
    steps: &mut Vec<Step>,
) -> Result<(), NoMemory>
    ensures { IfOk result (λ _. (n : Numbering) → HasTags tags.now n
        → Puts steps.old.items steps.new.items (ready n scope.now (captured_of piece ∷ []))) }
{
    match piece {
        Captured::Alone(variable) => push_ready(alloc, tags, scope, variable, steps),
        Captured::Those { from: _, count: _ } => Ok(()),
    }
}

/// What is not in the body yet is brought there.
fn push_all_ready(
    alloc: Global,
    tags: &Tags,
    scope: &Scope,
    pieces: &[Captured],
    steps: &mut Vec<Step>,
) -> Result<(), NoMemory>
    ensures { IfOk result (λ _. (n : Numbering) → HasTags tags.now n → Puts steps.old.items steps.new.items (ready n scope.now (pieces_of pieces.now))) }
{
    for i in 0..pieces.len() {
        push_piece_ready(alloc, tags, scope, pieces[i], steps)?;
    }
    Ok(())
}

fn piece(captured: Captured) -> Result<Piece, NoMemory>
    ensures { IfOk result (λ made. piece_of made ≡ piece_as (captured_of captured)) }
{
    match captured {
        Captured::Alone(variable) => {
            let name = named(variable)?;
            Ok(Piece::One(name))
        }
        Captured::Those { from, count } => Ok(Piece::Run {
            cell: HOLDER,
            from,
            count,
        }),
    }
}

/// The pieces of a closure as those of its cell.
fn cell_pieces(alloc: Global, pieces: &[Captured]) -> Result<Vec<Piece>, NoMemory>
    ensures { IfOk result (λ made. map piece_of made.items ≡ piece_list (pieces_of pieces.now)) }
{
    let mut made = Vec::new(alloc);
    for i in 0..pieces.len() {
        let part = piece(pieces[i])?;
        made.push(part)?;
    }
    Ok(made)
}

/// The closure of a function alone, or of the first of a group, made of these pieces.
pub fn push_closure(
    alloc: Global,
    tags: &Tags,
    scope: &Scope,
    pieces: &[Captured],
    name: usize,
    function: usize,
    steps: &mut Vec<Step>,
) -> Result<(), NoMemory>
    ensures { IfOk result (λ _. (n : Numbering) → HasTags tags.now n
        → Puts steps.old.items steps.new.items (made_of n scope.now (pieces_of pieces.now) name function)) }
{
    push_all_ready(alloc, tags, scope, pieces, steps)?;
    let parts = cell_pieces(alloc, pieces)?;
    push_let(steps, name, Operation::Make(tags.of(function), parts))
}

/// The other functions of a group, the last first: each has the closure of the first.
pub fn push_followers(
    alloc: Global,
    tags: &Tags,
    first: usize,
    others: &[Member],
    steps: &mut Vec<Step>,
) -> Result<(), NoMemory>
    ensures { IfOk result (λ _. (n : Numbering) → HasTags tags.now n → Puts steps.old.items steps.new.items (followers n first (members_of others.now))) }
{
    let holder = named(first)?;
    let mut left = others.len();
    while left > 0 {
        left -= 1;
        let name = named(others[left].name)?;
        let made = cell_of(alloc, tags.of(others[left].number), holder)?;
        push_let(steps, name, made)?;
    }
    Ok(())
}
