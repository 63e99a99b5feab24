// What the conversion of a program is for: its sets, what its functions capture, and what its numbers stand for.
ghost use Rattle.std.specs.Prelude.{◌≡◌, ℕ, suc, List, slice_get, slice_index_or, get_or, length, IfOk, []};
ghost use Rattle.closure_convert.specs.Scope.{index_of};
ghost use Rattle.closure_convert.specs.Capture.{entry_of, pieces_in};
ghost use Rattle.capture_scope.specs.Found.{pieces_of};
ghost use Rattle.capture_table.specs.Tables.{numbers_of};
ghost use Rattle.mono_bound.specs.Reads.{mono_of};
ghost use Rattle.flow_sets.specs.Flow.{Flow as Sets};
ghost use Rattle.flow_types.specs.Kinds.{items_of};
ghost use Rattle.flow_types.specs.Flows.{Has, program_with};
ghost use Rattle.closure_parts.specs.Indexed.{texts_of};
ghost use Rattle.closure_parts.specs.Named.{name_in};
ghost use Rattle.closure_parts.specs.Settings.{HoldsBy};
ghost use Rattle.closure_parts.specs.Puts.{sole_of};

use crate::names::find_names;
use crate::places::{Places, find_places};
use crate::tags::{Tags, find_tags};
use capture_scope::piece::Piece as Captured;
use capture_scope::scope::ScopeFault;
use capture_table::table::{Captures, find_captures};
use flow_types::flow::Flow;
use indexmap::IndexMap;
use mlc_base::memory::NoMemory;
use mono_bound::bound::push_bound;
use mono_bound::law::bound_is_bound;
use mono_types::types::Types;
use plain_tree::tree::Exp;
use std::alloc::Global;

/// The sets of a program, the tags of functions by them, which variables are names of exceptions, what its functions capture, and places of constructors, labels and strings.
#[derive(Drop)]
pub struct Setting {
    pub flow: Flow,
    pub tags: Tags,
    pub names: IndexMap<usize, bool>,
    pub captures: Captures,
    pub places: Places,
}

fn sole_of(functions: &[usize]) -> Option<usize>
    ensures { result ≡ sole_of functions.now }
{
    if functions.len() == 1 {
        Some(functions[0])
    } else {
        None
    }
}

impl Setting {
    /// That of a program of these types and strings with this body, by these sets.
    pub fn new(
        alloc: Global,
        types: &Types,
        strings: &[Vec<u8>],
        flow: Flow,
        body: &Exp,
    ) -> Result<Setting, ScopeFault>
        ensures { IfOk result (λ setting. (F : Sets) (initial : List ℕ) (expansion : ℕ) → Has flow F
            → HoldsBy setting (texts_of strings.now) F (program_with initial types.now expansion (mono_of types.now (texts_of strings.now) body.now))) }
    {
        bound_is_bound();
        let mut found = Vec::new(alloc);
        push_bound(types, body, &mut found)?;
        let names = find_names(alloc, &found)?;
        let tags = find_tags(alloc, &flow.sets)?;
        let places = find_places(alloc, types, strings)?;
        let captures = find_captures(alloc, body)?;
        Ok(Setting {
            flow,
            tags,
            names,
            captures,
            places,
        })
    }

    /// Whether a variable is the name of an exception.
    pub fn is_name(&self, variable: usize) -> bool
        ensures { result ≡ name_in self.now.names.entries variable }
    {
        match self.names.get(&variable) {
            Some(is) => *is,
            None => false,
        }
    }

    /// The one function of a set, if it has one alone.
    pub fn sole(&self, set: usize) -> Option<usize>
        ensures { result ≡ sole_of (get_or (items_of self.now.flow.sets.items) set []) }
    {
        if set < self.flow.sets.len() {
            sole_of(&self.flow.sets[set])
        } else {
            None
        }
    }

    /// The number of a function's code: function 0 is the program itself.
    pub fn code(&self, function: usize) -> Result<usize, NoMemory>
        ensures { IfOk result (λ code. code ≡ suc (index_of function (numbers_of self.now.captures))) }
    {
        match self.captures.place(function).checked_add(1) {
            Some(code) => Ok(code),
            None => Err(NoMemory),
        }
    }

    /// The pieces of a function's closure.
    pub fn pieces(&self, function: usize) -> &[Captured]
        ensures { pieces_of result.now ≡ pieces_in (entry_of function self.now.captures) }
    {
        self.captures.pieces(function)
    }
}
