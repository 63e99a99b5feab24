// Tags of functions, found by hash.
ghost use Rattle.std.specs.Prelude.{◌≡◌, ◌∷◌, ◌&&◌, ℕ, List, IfOk};
ghost use Rattle.std.specs.List.{concat};
ghost use Rattle.flow_types.specs.Kinds.{items_of};
ghost use Rattle.flow_types.specs.of_closure_whole.Tags.{stand_once, tag_by};
ghost use Rattle.closure_parts.specs.Tagged.{tag_in, ArePlaced};

use indexmap::IndexMap;
use mlc_base::memory::NoMemory;
use std::alloc::Global;

/// The places of functions in their sets, and whether none stands twice in the sets.
#[derive(Drop)]
pub struct Tags {
    places: IndexMap<usize, usize>,
    once: bool,
}

/// The places of a set's functions, before those of other sets; whether each is new, and stands once.
fn push_places(set: &[usize], places: &mut IndexMap<usize, usize>) -> Result<bool, NoMemory>
    ensures places { IfOk result (λ _. (sets : List (List ℕ)) → ArePlaced places.old.entries sets → ArePlaced places.new.entries (set.now ∷ sets)) }
    ensures once { IfOk result (λ new. (sets : List (List ℕ)) → ArePlaced places.old.entries sets
        → (new && stand_once (concat sets)) ≡ stand_once (concat (set.now ∷ sets))) }
{
    let mut new = true;
    let mut left = set.len();
    while left > 0 {
        left -= 1;
        let old = places.insert(set[left], left)?;
        if old.is_some() {
            new = false;
        }
    }
    Ok(new)
}

/// The tags of functions by their sets.
pub fn find_tags(alloc: Global, sets: &[Vec<usize>]) -> Result<Tags, NoMemory>
    ensures { IfOk result (λ tags. (k : ℕ) → tag_in tags k ≡ tag_by (items_of sets.now) k) }
{
    let mut places = IndexMap::new(alloc);
    let mut once = true;
    let mut left = sets.len();
    while left > 0 {
        left -= 1;
        let new = push_places(&sets[left], &mut places)?;
        once = new && once;
    }
    Ok(Tags { places, once })
}

impl Tags {
    /// The tag of a function: its place in its set; its number, where one stands twice in the sets or it is in none.
    pub fn of(&self, function: usize) -> usize
        ensures { result ≡ tag_in self.now function }
    {
        if !self.once {
            return function;
        }
        match self.places.get(&function) {
            Some(place) => *place,
            None => function,
        }
    }
}
