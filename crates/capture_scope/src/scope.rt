// What the body of a function finds.
ghost use Rattle.std.specs.Prelude.{◌≡◌, ◌∷◌, ◌++◌, [], length, IfOk, IfErr, OnErr};
ghost use Rattle.closure_convert.specs.of_flow_sets.Member.{is_in};
ghost use Rattle.closure_convert.specs.Scope.{names, add, top};
ghost use Rattle.closure_convert.specs.Closed.{scope_of};
ghost use Rattle.closure_convert.specs.Capture.{visible, kept, cut};
ghost use Rattle.closure_convert.specs.Counts.{AreDistinct};
ghost use Rattle.capture_scope.specs.declared.scope.ScopeFault.TheVariants.{Memory, BoundTwice};
ghost use Rattle.capture_scope.specs.Seen.{members_of};
ghost use Rattle.capture_scope.specs.Found.{pieces_of, pieces_back, found_in, found_of, member_found, with_piece, left_to};
ghost use Rattle.capture_scope.specs.Picked.{picked, AtPlaces};
ghost use Rattle.capture_scope.specs.Repeats.{Repeats};

use crate::piece::{Piece, push_alone, push_place};
use indexmap::IndexSet;
use mlc_base::memory::NoMemory;
use std::alloc::{AllocError, AllocFailed, Global};
use std::marker::Model;

/// A function of a group: the variable that it is bound to, and its number.
#[derive(Clone, Copy)]
pub struct Member {
    pub name: usize,
    pub number: usize,
}

/// Where a body finds a variable: bound in it, at a place of what its function captured, or as a function of its group, of which the first leads.
#[derive(Clone, Copy)]
pub enum Found {
    Local,
    Captured(usize),
    Leads,
    Follows(usize),
    Nowhere,
}

/// Why a variable doesn't come into scope: there is no memory, or it is in scope already, as it never is where each variable is bound once.
#[derive(Clone, Copy, PartialEq, Eq, Debug)]
pub enum ScopeFault {
    Memory,
    BoundTwice,
}

impl From<NoMemory> for ScopeFault {
    ghost from_gives = { λ _ fault. fault ≡ Memory };

    fn from(_error: NoMemory) -> ScopeFault {
        ScopeFault::Memory
    }
}

impl From<AllocError> for ScopeFault {
    ghost from_gives = { λ _ fault. fault ≡ Memory };

    fn from(_error: AllocError) -> ScopeFault {
        ScopeFault::Memory
    }
}

impl<T: Drop> From<AllocFailed<T>> for ScopeFault {
    ghost from_gives = { λ _ fault. fault ≡ Memory };

    fn from(_error: AllocFailed<T>) -> ScopeFault {
        ScopeFault::Memory
    }
}

/// What a body finds, in order: what its function captured, the functions of its group, and what it binds. Each variable once, and found by hash.
#[derive(Drop)]
pub struct Scope {
    seen: IndexSet<usize>,
    captured: usize,
    group: Vec<Member>,
}

impl Model for Scope {
    ghost use Rattle.std.specs.Prelude.{map};
    ghost use Rattle.closure_convert.specs.Scope.{Scope as Clean};
    ghost use Rattle.capture_scope.specs.Seen.{members_of, scope_in, IsSeen};

    ghost Value = { Clean };

    ghost view = { λ s. scope_in s.seen.keys s.captured (members_of s.group.items) };

    ghost invariant = { λ s. IsSeen s.seen.keys s.captured (members_of s.group.items) };
}

/// One more variable, which isn't seen yet.
fn see(seen: &mut IndexSet<usize>, variable: usize) -> Result<(), ScopeFault>
    ensures ok { IfOk result (λ _. seen.new.keys ≡ seen.old.keys ++ variable ∷ []) }
    ensures err { OnErr result (seen.new.keys ≡ seen.old.keys) }
    ensures twice { IfErr result (λ fault. fault ≡ BoundTwice → Repeats (seen.old.keys ++ variable ∷ [])) }
{
    match seen.insert(variable) {
        Ok(new) => if new {
            Ok(())
        } else {
            Err(ScopeFault::BoundTwice)
        },
        Err(_) => Err(ScopeFault::Memory),
    }
}

fn see_all(seen: &mut IndexSet<usize>, variables: &[usize]) -> Result<(), ScopeFault>
    ensures ok { IfOk result (λ _. seen.new.keys ≡ seen.old.keys ++ variables.now) }
    ensures twice { IfErr result (λ fault. fault ≡ BoundTwice → Repeats (seen.old.keys ++ variables.now)) }
{
    for i in 0..variables.len() {
        see(seen, variables[i])?;
    }
    Ok(())
}

fn see_names(seen: &mut IndexSet<usize>, group: &[Member]) -> Result<(), ScopeFault>
    ensures ok { IfOk result (λ _. seen.new.keys ≡ seen.old.keys ++ names (members_of group.now)) }
    ensures twice { IfErr result (λ fault. fault ≡ BoundTwice → Repeats (seen.old.keys ++ names (members_of group.now))) }
{
    for i in 0..group.len() {
        see(seen, group[i].name)?;
    }
    Ok(())
}

/// Which function of a group, or what is bound in the body.
fn member_or_local(group: &[Member], place: usize) -> Found
    ensures { found_of result ≡ member_found (members_of group.now) place }
{
    if place >= group.len() {
        Found::Local
    } else if place == 0 {
        Found::Leads
    } else {
        Found::Follows(group[place].number)
    }
}

impl Scope {
    /// That of a program, outside all functions.
    pub fn new(alloc: Global) -> Scope
        ensures { result ≡ top }
    {
        Scope {
            seen: IndexSet::new(alloc),
            captured: 0,
            group: Vec::new(alloc),
        }
    }

    /// That of the functions of a group, of what they captured, before one of them binds its parameter. A function alone has no group.
    pub fn of_group(
        alloc: Global,
        captured: &[usize],
        group: &[Member],
    ) -> Result<Scope, ScopeFault>
        ensures ok { IfOk result (λ scope. scope ≡ record { locals = []; group = members_of group.now; captured = captured.now }) }
        ensures twice { IfErr result (λ fault. fault ≡ BoundTwice → Repeats (captured.now ++ names (members_of group.now))) }
    {
        let mut seen = IndexSet::new(alloc);
        see_all(&mut seen, captured)?;
        see_names(&mut seen, group)?;
        let members = Vec::from_slice(alloc, group)?;
        Ok(Scope {
            seen,
            captured: captured.len(),
            group: members,
        })
    }

    /// That of the body of a function with this parameter, of what it captured, and of its group.
    pub fn enter(
        alloc: Global,
        captured: &[usize],
        group: &[Member],
        parameter: usize,
    ) -> Result<Scope, ScopeFault>
        ensures ok { IfOk result (λ scope. scope ≡ scope_of captured.now (members_of group.now) parameter) }
        ensures twice { IfErr result (λ fault. fault ≡ BoundTwice → Repeats ((captured.now ++ names (members_of group.now)) ++ parameter ∷ [])) }
    {
        let mut scope = Scope::of_group(alloc, captured, group)?;
        scope.add(parameter)?;
        Ok(scope)
    }

    /// Leaves all that is bound, for the body of a function of the same group, with this parameter.
    pub fn begin(&mut self, parameter: usize) -> Result<(), ScopeFault>
        ensures ok { IfOk result (λ _. self.new ≡ scope_of self.old.captured self.old.group parameter) }
        ensures twice { IfErr result (λ fault. fault ≡ BoundTwice → Repeats ((self.old.captured ++ names self.old.group) ++ parameter ∷ [])) }
    {
        self.leave_to(0);
        self.add(parameter)?;
        Ok(())
    }

    /// How many variables are seen.
    pub fn len(&self) -> usize
        ensures { result ≡ length (visible self.now) }
    {
        self.seen.len()
    }

    /// Binds a variable.
    pub fn add(&mut self, variable: usize) -> Result<(), ScopeFault>
        ensures ok { IfOk result (λ _. self.new ≡ add variable self.old) }
        ensures twice { IfErr result (λ fault. fault ≡ BoundTwice → Repeats (visible self.old ++ variable ∷ [])) }
    {
        see(&mut self.seen, variable)?;
        Ok(())
    }

    /// Leaves all that was bound since so many were seen.
    pub fn leave_to(&mut self, len: usize)
        ensures { self.new ≡ left_to len self.old }
    {
        let _seen = self.seen.len();
        let least = self.captured + self.group.len();
        if len < least {
            self.seen.truncate(least);
        } else {
            self.seen.truncate(len);
        }
    }

    /// Where the body finds a variable.
    pub fn find(&self, variable: usize) -> Found
        ensures { found_of result ≡ found_in self.now variable }
    {
        let _seen = self.seen.len();
        match self.seen.get_index_of(&variable) {
            None => Found::Nowhere,
            Some(place) => if place < self.captured {
                Found::Captured(place)
            } else {
                member_or_local(&self.group, place - self.captured)
            },
        }
    }

    /// The places of variables that are seen.
    fn places(&self, alloc: Global, uses: &[usize]) -> Result<Vec<usize>, NoMemory>
        ensures { IfOk result (λ places. AtPlaces (visible self.now) uses.now places.items) }
    {
        let _seen = self.seen.len();
        let mut places = Vec::new(alloc);
        for i in 0..uses.len() {
            if let Some(place) = self.seen.get_index_of(&uses[i]) {
                places.push(place)?;
            }
        }
        Ok(places)
    }

    /// The variables at places that don't fall, each once.
    fn at_places(&self, alloc: Global, places: &[usize]) -> Result<Vec<usize>, NoMemory>
        ensures { IfOk result (λ found. found.items ≡ picked (visible self.now) 0 places.now) }
    {
        let _seen = self.seen.len();
        let mut found = Vec::new(alloc);
        let mut next = 0;
        for i in 0..places.len() {
            let place = places[i];
            if place >= next {
                if let Some(variable) = self.seen.get_index(place) {
                    found.push(*variable)?;
                    next = place + 1;
                }
            }
        }
        Ok(found)
    }

    /// Which of the variables that are seen are used, in order, each once.
    pub fn wanted(&self, alloc: Global, uses: &[usize]) -> Result<Vec<usize>, NoMemory>
        ensures kept { IfOk result (λ found. found.items ≡ kept (λ y. is_in y uses.now) (visible self.now)) }
        ensures once { IfOk result (λ found. AreDistinct found.items) }
    {
        let _seen = self.seen.len();
        let mut places = self.places(alloc, uses)?;
        places.sort_unstable();
        self.at_places(alloc, &places)
    }

    /// One more variable in front of pieces, which stand the last first.
    fn push_piece(&self, pieces: &mut Vec<Piece>, variable: usize) -> Result<(), NoMemory>
        ensures { IfOk result (λ _. pieces_back pieces.new.items ≡ with_piece self.now variable (pieces_back pieces.old.items)) }
    {
        match self.find(variable) {
            Found::Captured(place) => push_place(pieces, place),
            Found::Local => push_alone(pieces, variable),
            Found::Leads => push_alone(pieces, variable),
            Found::Follows(_) => push_alone(pieces, variable),
            Found::Nowhere => push_alone(pieces, variable),
        }
    }

    /// The pieces that make these variables.
    pub fn cut(&self, alloc: Global, variables: &[usize]) -> Result<Vec<Piece>, NoMemory>
        ensures { IfOk result (λ pieces. pieces_of pieces.items ≡ cut self.now variables.now) }
    {
        let _ = &self.seen;
        let mut pieces = Vec::new(alloc);
        let mut left = variables.len();
        while left > 0 {
            left -= 1;
            self.push_piece(&mut pieces, variables[left])?;
        }
        pieces.reverse();
        Ok(pieces)
    }
}
