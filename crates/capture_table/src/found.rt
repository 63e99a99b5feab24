// The entries that are found, whose lists are parts of two lists of all. The functions that a curried one gives share a list, of which each captures a front.
ghost use Rattle.std.specs.Prelude.{◌≡◌, ◌<◌, ◌≤◌, ◌++◌, ◌∷◌, [], ℕ, true, List, length, take, drop, slice_get, slice_index_or, slice_range, if◌then◌else◌, IfOk};
ghost use Rattle.closure_convert.specs.Capture.{captured_in, pieces_in};
ghost use Rattle.capture_scope.specs.Found.{pieces_of};
ghost use Rattle.plain_tree.specs.Sums.{variables_of};
ghost use Rattle.flow_sets.specs.Member.{is_in};
ghost use Rattle.capture_table.specs.Told.{entry, first_parameter};
ghost use Rattle.capture_table.specs.Levels.{made_of, used, levels};
ghost use Rattle.capture_table.specs.Tables.{numbers_of};

use capture_scope::piece::Piece;
use mlc_base::memory::NoMemory;
use plain_tree::tree::Parameter;
use std::alloc::Global;
use std::marker::Model;

/// A part of a list, `to` not with it.
#[derive(Clone, Copy)]
pub struct Part {
    pub from: usize,
    pub to: usize,
}

/// A function, by its number, and where the lists have what it captures and the pieces of its closure.
#[derive(Clone, Copy)]
pub struct Entry {
    pub number: usize,
    pub captured: Part,
    pub pieces: Part,
}

/// What functions capture, and the pieces of their closures, in the order of their codes.
#[derive(Drop)]
pub struct Found {
    variables: Vec<usize>,
    pieces: Vec<Piece>,
    entries: Vec<Entry>,
}

impl Model for Found {
    ghost use Rattle.std.specs.Prelude.{List, length};
    ghost use Rattle.closure_convert.specs.Capture.{Entry as Clean};
    ghost use Rattle.capture_table.specs.Parts.{entries_in, AreWithin};

    ghost Value = { List Clean };

    ghost view = { λ f. entries_in f.variables.items f.pieces.items f.entries.items };

    ghost invariant = { λ f. AreWithin (length f.variables.items) (length f.pieces.items) f.entries.items };
}

fn part_of<T>(list: &[T], part: Part) -> &[T]
    requires rises { part.from ≤ part.to }
    requires within { part.to ≤ length list.now }
    ensures { result.now ≡ slice_range list.now part.from part.to }
{
    &list[part.from..part.to]
}

/// The number of what a function gives when it has got so many arguments.
fn number_after(parameters: &[Parameter], given: usize, last: Parameter) -> usize
    ensures { result ≡ first_parameter (drop given parameters.now) last }
{
    if given < parameters.len() {
        parameters[given].variable
    } else {
        last.variable
    }
}

/// Whether a variable is the next of those that are used.
fn is_next(innermost: &[usize], count: usize, variable: usize) -> bool
    ensures used { (uses : List ℕ) (ys : List ℕ) → drop count innermost.now ≡ used uses (variable ∷ ys) → result ≡ is_in variable uses }
    ensures within { result ≡ true → count < length innermost.now }
{
    count < innermost.len() && innermost[count] == variable
}

/// The pieces of a closure that is made of so many variables, all that the function around captured, and of its parameter, where that is used.
fn push_made(
    pieces: &mut Vec<Piece>,
    count: usize,
    parameter: usize,
    is_used: bool,
) -> Result<(), NoMemory>
    ensures made { IfOk result (λ _. pieces.new.items ≡ pieces.old.items ++ made_of count (if is_used then parameter ∷ [] else [])) }
    ensures longer { length pieces.old.items ≤ length pieces.new.items }
{
    if count > 0 {
        pieces.push(Piece::Those { from: 0, count })?;
    }
    if is_used {
        pieces.push(Piece::Alone(parameter))?;
    }
    Ok(())
}

impl Found {
    pub fn new(alloc: Global) -> Found
        ensures { result ≡ [] }
    {
        Found {
            variables: Vec::new(alloc),
            pieces: Vec::new(alloc),
            entries: Vec::new(alloc),
        }
    }

    pub fn len(&self) -> usize
        ensures { result ≡ length self.now }
    {
        self.entries.len()
    }

    /// The number of the function at a place.
    pub fn number_at(&self, place: usize) -> usize
        ensures { result ≡ slice_index_or (numbers_of self.now) place 0 }
    {
        if place < self.entries.len() {
            self.entries[place].number
        } else {
            0
        }
    }

    /// What the function at a place captures.
    pub fn captured_at(&self, place: usize) -> &[usize]
        ensures { result.now ≡ captured_in (slice_get self.now place) }
    {
        if place < self.entries.len() {
            part_of(&self.variables, self.entries[place].captured)
        } else {
            &[]
        }
    }

    /// The pieces of the closure of the function at a place.
    pub fn pieces_at(&self, place: usize) -> &[Piece]
        ensures { pieces_of result.now ≡ pieces_in (slice_get self.now place) }
    {
        if place < self.entries.len() {
            part_of(&self.pieces, self.entries[place].pieces)
        } else {
            &[]
        }
    }

    /// One more function.
    pub fn push(
        &mut self,
        number: usize,
        captured: &[usize],
        pieces: &[Piece],
    ) -> Result<(), NoMemory>
        ensures { IfOk result (λ _. self.new ≡ self.old ++ entry number (pieces_of pieces.now) captured.now ∷ []) }
    {
        let from = self.variables.len();
        let first = self.pieces.len();
        self.variables.extend_from_slice(captured)?;
        self.pieces.extend_from_slice(pieces)?;
        self.entries.push(Entry {
            number,
            captured: Part {
                from,
                to: self.variables.len(),
            },
            pieces: Part {
                from: first,
                to: self.pieces.len(),
            },
        })?;
        Ok(())
    }

    /// The functions that one alone gives, which captures the first so many of what the innermost does, when it isn't given all its arguments.
    pub fn push_levels(
        &mut self,
        innermost: &[usize],
        first: usize,
        parameters: &[Parameter],
        last: Parameter,
    ) -> Result<(), NoMemory>
        requires { first ≤ length innermost.now }
        ensures { IfOk result (λ _. (uses : List ℕ) → drop first innermost.now ≡ used uses (variables_of parameters.now)
            → self.new ≡ self.old ++ levels uses parameters.now last (take first innermost.now)) }
    {
        if parameters.is_empty() {
            return Ok(());
        }
        let from = self.variables.len();
        self.variables.extend_from_slice(innermost)?;
        let mut count = first;
        for i in 0..parameters.len() {
            let parameter = parameters[i].variable;
            let number = number_after(parameters, i + 1, last);
            let is_used = is_next(innermost, count, parameter);
            let made = self.pieces.len();
            push_made(&mut self.pieces, count, parameter, is_used)?;
            if is_used {
                count += 1;
            }
            self.entries.push(Entry {
                number,
                captured: Part {
                    from,
                    to: from + count,
                },
                pieces: Part {
                    from: made,
                    to: self.pieces.len(),
                },
            })?;
        }
        Ok(())
    }
}
