// Where a walk stands, and what it has made so far.
ghost use Rattle.std.specs.Prelude.{◌≡◌, ◌<◌, ◌+◌, ℕ, List, [], IfOk, IfErr};
ghost use Rattle.mlc_runs.specs.Passes.{greatest_expansion};
ghost use Rattle.ty_core.specs.Types.{Typ};
ghost use Rattle.mono_words.specs.Seen.{with_sign, made};
ghost use Rattle.mono_state.specs.Seen.{Held, seen, sign_of};
ghost use Rattle.mono_state.specs.Going.{IsOpen, IsRight, Goes};

use crate::word::{Act, Word};
use indexmap::IndexMap;
use mlc_base::memory::NoMemory;
use mlc_names::label::Label;
use mlc_runs::pass::PassFault;
use mono_names::copies::Copies;
use mono_names::lists::Lists;
use needed_scopes::scopes::Scopes;
use plain_tree::tree::Field;
use scoped_map::scoped::Scoped;
use std::alloc::Global;
use ty_table::types::Types;

/// The greatest number of nodes that a program may have, written out.
pub const GREATEST: usize = 1_048_576;

/// The number of the list of no types.
pub const NOTHING: usize = 0;

/// What was made: closed types, lists of them, copies of variables at those; words and the types at which values are compared, the last one first; and how many
/// nodes there are. Where the walk stands: in scopes, in copies of groups, each at a list, and under types for variables, with the types that were
/// closed under these.
#[derive(Drop)]
pub struct Copier {
    pub closed: Types,
    pub lists: Lists,
    pub copies: Copies,
    pub words: Vec<Word>,
    pub compared: Vec<usize>,
    pub nodes: usize,
    pub scopes: Scopes,
    pub own: Scoped<usize>,
    pub slots: Scoped<usize>,
    pub known: IndexMap<usize, usize>,
}

impl Copier {
    /// Nothing was made, and nothing is around.
    pub fn new(alloc: Global) -> Result<Copier, NoMemory>
        ensures is_open { IfOk result IsOpen }
        ensures right { IfOk result (λ c. (sources : List Typ) → IsRight sources c) }
        ensures groups { IfOk result (λ c. c.own ≡ []) }
        ensures variables { IfOk result (λ c. c.slots ≡ []) }
        ensures nothing { IfOk result (λ c. (ss : List (List ℕ)) (H : Held)
            → seen ss H c ≡ record { signs = []; scopes = []; compared = []; nodes = 0 }) }
    {
        let mut lists = Lists::new(alloc);
        let _nothing = lists.number(Vec::new(alloc))?;
        Ok(Copier {
            closed: Types::new(alloc)?,
            lists,
            copies: Copies::new(alloc),
            words: Vec::new(alloc),
            compared: Vec::new(alloc),
            nodes: 0,
            scopes: Scopes::new(alloc),
            own: Scoped::new(alloc),
            slots: Scoped::new(alloc),
            known: IndexMap::new(alloc),
        })
    }

    /// One more word, in front of those so far.
    pub fn put(&mut self, word: &Word) -> Result<(), NoMemory>
        requires { IsOpen self.old }
        ensures goes { IfOk result (λ _. (sources : List Typ) → Goes sources self.old self.new) }
        ensures put { IfOk result (λ _. (ss : List (List ℕ)) (H : Held) → seen ss H self.new ≡ with_sign (sign_of ss H word.now) (seen ss H self.old)) }
    {
        // Rattle learns from these locals where the types are declared that words hold.
        let label = Label::Number(0);
        let _field = Field { label, atom: 0 };
        let _act = Act::RaiseInitial(0);
        self.words.push(*word)?;
        Ok(())
    }

    /// So many further nodes.
    pub fn count(&mut self, nodes: usize) -> Result<(), PassFault>
        requires { IsOpen self.old }
        ensures goes { IfOk result (λ _. (sources : List Typ) → Goes sources self.old self.new) }
        ensures counted { IfOk result (λ _. (ss : List (List ℕ)) (H : Held) → seen ss H self.new ≡ made (λ l. l) [] [] nodes (seen ss H self.old)) }
        ensures too_many { IfErr result (λ fault. greatest_expansion < self.old.nodes + nodes) }
        ensures unchanged { IfErr result (λ fault. self.new ≡ self.old) }
    {
        if nodes > GREATEST - self.nodes {
            return Err(PassFault::Expansion);
        }
        self.nodes += nodes;
        Ok(())
    }
}
