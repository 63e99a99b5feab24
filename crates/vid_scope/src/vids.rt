// Value identifiers with values. An identifier may be bound again: then the latest value is found, and the one before comes back with its scope.
ghost use Rattle.std.specs.Prelude.{◌≡◌, [], length, IfOk, OnErr};
ghost use Rattle.vid_scope.specs.Entries.{entry_of, left, with_entry, HasLatest, Undoes};

use mlc_base::memory::NoMemory;
use scoped_map::scoped::Scoped;
use sml_tree::ident::Vid;
use std::alloc::Global;

/// How much is in scope.
#[derive(Clone, Copy)]
pub struct VidMark {
    pub named: usize,
    pub fresh: usize,
    pub equals: usize,
}

/// The values of identifiers. `=` stands under the number 0.
#[derive(Drop)]
pub struct VidScope<V: Copy> {
    pub named: Scoped<V>,
    pub fresh: Scoped<V>,
    pub equals: Scoped<V>,
}

impl<V: Copy> VidScope<V> {
    /// Nothing.
    pub fn new(alloc: Global) -> VidScope<V>
        ensures named { result.named ≡ [] }
        ensures fresh { result.fresh ≡ [] }
        ensures equals { result.equals ≡ [] }
    {
        VidScope {
            named: Scoped::new(alloc),
            fresh: Scoped::new(alloc),
            equals: Scoped::new(alloc),
        }
    }

    /// The value of an identifier.
    pub fn find(&self, vid: Vid) -> Option<V>
        ensures { result ≡ entry_of self.now vid }
    {
        match vid {
            Vid::Named(name) => self.named.find(name.number() as usize),
            Vid::Fresh(number) => self.fresh.find(number as usize),
            Vid::Equals => self.equals.find(0),
        }
    }

    /// Brings an identifier into scope.
    #[tactic(auto, using(crate::proofs::Latest::latest_found))]
    pub fn bind(&mut self, vid: Vid, value: V) -> Result<(), NoMemory>
        ensures bound { IfOk result (λ _. self.new ≡ with_entry self.old vid value) }
        ensures found { IfOk result (λ _. HasLatest self.old vid value self.new) }
        ensures err { OnErr result (self.new ≡ self.old) }
    {
        match vid {
            Vid::Named(name) => self.named.bind(name.number() as usize, value),
            Vid::Fresh(number) => self.fresh.bind(number as usize, value),
            Vid::Equals => self.equals.bind(0, value),
        }
    }

    /// How much is in scope now.
    pub fn mark(&self) -> VidMark
        ensures named { result.named ≡ length self.now.named }
        ensures fresh { result.fresh ≡ length self.now.fresh }
        ensures equals { result.equals ≡ length self.now.equals }
    {
        VidMark {
            named: self.named.len(),
            fresh: self.fresh.len(),
            equals: self.equals.len(),
        }
    }

    /// Leaves what came into scope since a mark.
    #[tactic(auto, using(crate::proofs::Latest::scopes_left))]
    pub fn leave(&mut self, mark: VidMark)
        ensures left { self.new ≡ left self.old mark }
        ensures undone { Undoes self.old mark self.new }
    {
        self.named.truncate(mark.named);
        self.fresh.truncate(mark.fresh);
        self.equals.truncate(mark.equals);
    }
}
