// The table of captures.
ghost use Rattle.std.specs.Prelude.{◌≡◌, [], ℕ, List, slice_get, IfOk, IfErr};
ghost use Rattle.closure_convert.specs.Scope.{index_of, top};
ghost use Rattle.closure_convert.specs.Capture.{entry_of, captured_in, pieces_in, tabulate};
ghost use Rattle.capture_scope.specs.Found.{pieces_of};
ghost use Rattle.mono_bound.specs.Reads.{mono_of};
ghost use Rattle.ir_plain.specs.Once.{IsOnce};
ghost use Rattle.ir_mono.specs.Mono.{mono};
ghost use Rattle.capture_scope.specs.declared.scope.ScopeFault.TheVariants.{BoundTwice};
ghost use Rattle.capture_table.specs.Tables.{Row, numbers_of, IsIndex};

use crate::found::Found;
use crate::walk::walk;
use capture_scope::piece::Piece;
use capture_scope::scope::{Scope, ScopeFault};
use indexmap::IndexMap;
use mlc_base::memory::NoMemory;
use plain_tree::tree::Exp;
use std::alloc::Global;
use std::marker::Model;

/// What each function captures, and the pieces of its closure, in the order of their codes; found by number, where the first of each number counts.
#[derive(Drop)]
pub struct Captures {
    found: Found,
    places: IndexMap<usize, usize>,
}

impl Model for Captures {
    ghost use Rattle.std.specs.Prelude.{List};
    ghost use Rattle.closure_convert.specs.Capture.{Entry as Clean};
    ghost use Rattle.capture_table.specs.Tables.{IsIndex};

    ghost Value = { List Clean };

    ghost view = { λ c. c.found };

    ghost invariant = { λ c. IsIndex c.found c.places.entries };
}

impl Captures {
    /// What a function captures, in order.
    pub fn captured(&self, function: usize) -> &[usize]
        ensures { result.now ≡ captured_in (entry_of function self.now) }
    {
        match self.places.get(&function) {
            Some(place) => self.found.captured_at(*place),
            None => &[],
        }
    }

    /// The pieces of a function's closure.
    pub fn pieces(&self, function: usize) -> &[Piece]
        ensures { pieces_of result.now ≡ pieces_in (entry_of function self.now) }
    {
        match self.places.get(&function) {
            Some(place) => self.found.pieces_at(*place),
            None => &[],
        }
    }

    /// The place of a function among the codes; the count of them, where there is no such function.
    pub fn place(&self, function: usize) -> usize
        ensures { result ≡ index_of function (numbers_of self.now) }
    {
        match self.places.get(&function) {
            Some(place) => *place,
            None => self.found.len(),
        }
    }
}

/// The places of entries by number, where the first of each number counts.
fn find_places(alloc: Global, found: &Found) -> Result<IndexMap<usize, usize>, NoMemory>
    ensures { IfOk result (λ places. IsIndex found.now places.entries) }
{
    let mut places = IndexMap::new(alloc);
    let mut left = found.len();
    while left > 0 {
        left -= 1;
        let _ = places.insert(found.number_at(left), left)?;
    }
    Ok(places)
}

/// What the functions of a program capture, in the order of binding. Err for want of memory, or where a variable is bound that is visible already, as it is
/// only where one is bound twice.
pub fn find_captures(alloc: Global, body: &Exp) -> Result<Captures, ScopeFault>
    ensures table { IfOk result (λ made. (types : List Row) (strings : List (List ℕ)) → made ≡ tabulate types top (mono_of types strings body.now) []) }
    ensures twice { IfErr result (λ fault. fault ≡ BoundTwice → (types : List Row) (strings : List (List ℕ))
        → IsOnce {F = mono types} (λ x. x) (mono_of types strings body.now) → ⊥) }
{
    let mut scope = Scope::new(alloc);
    let mut found = Found::new(alloc);
    walk(alloc, &mut scope, body, &mut found)?;
    let places = find_places(alloc, &found)?;
    Ok(Captures { found, places })
}
