// What is in scope, in the order in which it was bound.
ghost use Rattle.std.specs.Prelude.{◌≡◌, ◌∷◌, ◌++◌, ◌-◌, ◌≤◌, [], drop, is_some, length, option_map, reverse, take, IfOk, OnErr};
ghost use Rattle.name_scopes.specs.Held.{structure_held, tycon_held, value_held};
ghost use Rattle.name_scopes.specs.Scopes.{structure_found, tycon_found, value_found};
ghost use Rattle.name_scopes.specs.Scopes.{key_of as key_at, structure_key as structure_key_at, tycon_key as tycon_key_at, vid_key as vid_key_at};

use crate::bound::{Bound, Members};
use crate::held::Held;
use mlc_base::memory::NoMemory;
use mlc_names::names::Name;
use scoped_map::scoped::Scoped;
use sml_tree::ident::Vid;
use std::alloc::Global;
use std::marker::Model;

/// All that is bound, and the latest of each number.
#[derive(Drop)]
pub struct Scope {
    bound: Vec<Bound>,
    latest: Scoped<Held>,
}

impl Model for Scope {
    ghost use Rattle.std.specs.Prelude.{◌≡◌, List, reverse};
    ghost use Rattle.name_scopes.specs.Scopes.{keyed};
    ghost use Rattle.name_scopes.specs.declared.bound.Bound.{Bound};

    ghost Value = { List Bound };

    ghost view = { λ s. reverse s.bound.items };

    ghost invariant = { λ s. s.latest ≡ keyed (reverse s.bound.items) };
}

fn vid_key(vid: Vid) -> usize
    ensures { result ≡ vid_key_at vid }
{
    match vid {
        Vid::Named(name) => 4 * name.number() as usize,
        Vid::Fresh(number) => 4 * number as usize + 1,
        Vid::Equals => 2,
    }
}

fn tycon_key(name: Name) -> usize
    ensures { result ≡ tycon_key_at name }
{
    4 * name.number() as usize + 3
}

fn structure_key(name: Name) -> usize
    ensures { result ≡ structure_key_at name }
{
    4 * name.number() as usize + 6
}

fn key_of(bound: &Bound) -> usize
    ensures { result ≡ key_at bound.now }
{
    match bound {
        Bound::Value(vid, _) => vid_key(*vid),
        Bound::Tycon(name, _) => tycon_key(*name),
        Bound::Structure(name, _) => structure_key(*name),
    }
}

/// Whether what is held is a variable, if it is a value identifier.
fn variable_of(held: Option<Held>) -> Option<bool>
    ensures { result ≡ value_held held }
{
    match held {
        Some(
            Held {
                bound: Bound::Value(_, variable),
                before: _,
            },
        ) => Some(variable),
        _ => None,
    }
}

/// How many constructors what is held has, if it is a type constructor, and how much was bound before it.
fn count_of(held: Option<Held>) -> Option<(usize, usize)>
    ensures { result ≡ tycon_held held }
{
    match held {
        Some(
            Held {
                bound: Bound::Tycon(_, count),
                before,
            },
        ) => Some((count, before)),
        _ => None,
    }
}

/// What what is held has, if it is a structure.
fn members_of(held: Option<Held>) -> Option<Members>
    ensures { result ≡ structure_held held }
{
    match held {
        Some(
            Held {
                bound: Bound::Structure(_, members),
                before: _,
            },
        ) => Some(members),
        _ => None,
    }
}

impl Scope {
    /// Nothing.
    pub fn new(alloc: Global) -> Scope
        ensures { result ≡ [] }
    {
        Scope {
            bound: Vec::new(alloc),
            latest: Scoped::new(alloc),
        }
    }

    /// How much is bound.
    pub fn len(&self) -> usize
        ensures { result ≡ length self.now }
    {
        self.bound.len()
    }

    /// Whether a value identifier is a variable, if it is bound.
    pub fn value(&self, vid: Vid) -> Option<bool>
        ensures { result ≡ value_found self.now vid }
    {
        variable_of(self.latest.find(vid_key(vid)))
    }

    /// Whether a type constructor is bound.
    pub fn has_tycon(&self, name: Name) -> bool
        ensures { result ≡ is_some (tycon_found self.now name) }
    {
        count_of(self.latest.find(tycon_key(name))).is_some()
    }

    /// What a structure has, if it is bound.
    pub fn structure(&self, name: Name) -> Option<Members>
        ensures { result ≡ structure_found self.now name }
    {
        members_of(self.latest.find(structure_key(name)))
    }

    /// Binds something.
    pub fn bind(&mut self, bound: Bound) -> Result<(), NoMemory>
        ensures bound { IfOk result (λ _. self.new ≡ bound ∷ self.old) }
        ensures err { OnErr result (self.new ≡ self.old) }
    {
        let key = key_of(&bound);
        let before = self.bound.len();
        let held = Held { bound, before };
        self.bound.push(bound)?;
        match self.latest.bind(key, held) {
            Ok(_) => Ok(()),
            Err(error) => {
                self.bound.pop();
                Err(error)
            }
        }
    }

    /// Leaves all but the first so many.
    pub fn leave(&mut self, len: usize)
        ensures { self.new ≡ drop (length self.old - len) self.old }
    {
        self.bound.truncate(len);
        self.latest.truncate(len);
    }

    /// What was bound since so many were, in the order in which it was.
    fn since(&self, alloc: Global, first: usize) -> Result<Vec<Bound>, NoMemory>
        ensures { IfOk result (λ since. reverse since.items ≡ take (length self.now - first) self.now) }
    {
        let first = self.bound.len().min(first);
        Ok(Vec::from_slice(alloc, &self.bound[first..])?)
    }

    /// Binds all of these, one after the other.
    pub fn bind_all(&mut self, bounds: &[Bound]) -> Result<(), NoMemory>
        ensures { IfOk result (λ _. self.new ≡ reverse bounds.now ++ self.old) }
    {
        for i in 0..bounds.len() {
            self.bind(bounds[i])?;
        }
        Ok(())
    }

    /// Leaves what was bound since `from` many were until `to` many were; what was bound later stays.
    pub fn leave_between(&mut self, alloc: Global, from: usize, to: usize) -> Result<(), NoMemory>
        ensures { IfOk result (λ _. self.new ≡ take (length self.old - to) self.old ++ drop (length self.old - from) self.old) }
    {
        let kept = self.since(alloc, to)?;
        self.leave(from);
        self.bind_all(&kept)
    }

    /// The constructors of a type constructor, if it is bound, in the order in which they were.
    pub fn constructors(&self, alloc: Global, name: Name) -> Result<Option<Vec<Bound>>, NoMemory>
        ensures { IfOk result (λ found. option_map (λ cs. reverse cs.items) found ≡ tycon_found self.now name) }
    {
        match count_of(self.latest.find(tycon_key(name))) {
            Some((count, before)) => {
                let last = self.bound.len().min(before);
                let first = last.saturating_sub(count);
                Ok(Some(Vec::from_slice(alloc, &self.bound[first..last])?))
            }
            None => Ok(None),
        }
    }
}
