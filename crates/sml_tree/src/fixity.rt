// Fixities.

ghost use Rattle.std.specs.Prelude.{◌≡◌, ◌≤◌, ◌∷◌, [], ◌++◌, ◌-◌, ◌<◌, length, take, IfOk, OnErr, drop, ◌+◌};
ghost use Rattle.sml_tree.specs.Fixity.{fix_of, is_vid, directives_for};
ghost use Rattle.sml_tree.specs.VidNumber.{vid_number};

use crate::ident::Vid;
use crate::trie::{Node, find, insert, share};
use mlc_base::make::both;
use mlc_base::memory::NoMemory;
use mlc_names::names::Name;
use std::alloc::Global;
use std::marker::Model;
use std::rc::Rc;

/// How an infix identifier binds.
#[derive(Clone, Copy, PartialEq, Eq, Debug)]
pub struct Infix {
    pub precedence: u8,
    /// Whether it associates to the right.
    pub right: bool,
}

/// What a directive says of one identifier: none where it is nonfix.
#[derive(Clone, Copy, PartialEq, Eq, Debug)]
pub struct Directive {
    pub vid: Vid,
    pub status: Option<Infix>,
}

/// The directives that are in force. Where a `let` ends, those of it are left with the copy that it was read under; where a `local` ends,
/// those of its second part alone are added. A copy takes the same time however many there are.
#[derive(Drop)]
pub struct Fixities {
    alloc: Global,
    count: usize,
    /// Each directive by its number: the oldest has 1.
    by_age: Option<Rc<Node>>,
    /// The newest directive of each identifier.
    by_vid: Option<Rc<Node>>,
}

impl Model for Fixities {
    ghost use Rattle.sml_tree.specs.Fixity.{Fixity};
    ghost use Rattle.sml_tree.specs.Trie.{some_trie_of};
    ghost use Rattle.sml_tree.specs.Kept.{newest_first, Agrees};

    ghost Value = { Fixity };

    ghost view = { λ f. newest_first (some_trie_of f.by_age) f.count };

    ghost invariant = { λ f. Agrees (some_trie_of f.by_age) (some_trie_of f.by_vid) f.count };
}

/// Whether two identifiers are the same.
pub fn same_vid(left: &Vid, right: &Vid) -> bool
    ensures { result ≡ is_vid left.now right.now }
{
    match (left, right) {
        (Vid::Named(x), Vid::Named(y)) => *x == *y,
        (Vid::Fresh(x), Vid::Fresh(y)) => *x == *y,
        (Vid::Equals, Vid::Equals) => true,
        _ => false,
    }
}

/// A number that no other identifier has.
fn vid_number(vid: &Vid) -> u64
    ensures value { result ≡ vid_number vid.now }
    ensures positive { 0 < result }
{
    match vid {
        Vid::Equals => 1,
        Vid::Named(name) => 2 * name.number() as u64 + 2,
        Vid::Fresh(number) => 2 * *number as u64 + 3,
    }
}

impl Fixities {
    /// No directives.
    pub fn new(alloc: Global) -> Fixities
        ensures { result ≡ [] }
    {
        Fixities {
            alloc,
            count: 0,
            by_age: None,
            by_vid: None,
        }
    }

    /// How many directives there are.
    pub fn len(&self) -> usize
        ensures { result ≡ length self.now }
    {
        self.count
    }

    /// How an identifier binds, or none where it isn't infix.
    pub fn of(&self, vid: &Vid) -> Option<Infix>
        ensures { result ≡ fix_of vid.now self.now }
    {
        match find(&self.by_vid, vid_number(vid)) {
            None => None,
            Some(directive) => directive.status,
        }
    }

    /// These with one directive more.
    fn with(&self, directive: Directive) -> Result<Fixities, NoMemory>
        ensures { IfOk result (λ more. more ≡ directive ∷ self.now) }
    {
        if self.count == usize::MAX {
            return Err(NoMemory);
        }
        let count = self.count + 1;
        let number = vid_number(&directive.vid);
        let by_age = insert(self.alloc, &self.by_age, count as u64, directive)?;
        let by_vid = insert(self.alloc, &self.by_vid, number, directive)?;
        Ok(Fixities {
            alloc: self.alloc,
            count,
            by_age: Some(by_age),
            by_vid: Some(by_vid),
        })
    }

    /// Puts the directives of one declaration in force.
    pub fn add(&mut self, status: Option<Infix>, vids: &[Name]) -> Result<(), NoMemory>
        ensures ok { IfOk result (λ _. self.new ≡ directives_for status vids.now ++ self.old) }
        ensures err { OnErr result (self.new ≡ self.old) }
    {
        let mut more = self.copy(self.alloc)?;
        'vids: for vid in vids {
            more.put(status, Vid::Named(*vid))?;
        }
        *self = more;
        Ok(())
    }

    /// Puts one directive in force, of any identifier.
    pub fn put(&mut self, status: Option<Infix>, vid: Vid) -> Result<(), NoMemory>
        ensures ok { IfOk result (λ _. self.new ≡ record { vid = vid; status = status } ∷ self.old) }
        ensures err { OnErr result (self.new ≡ self.old) }
    {
        *self = self.with(Directive { vid, status })?;
        Ok(())
    }

    /// Puts the newest directives of `inner` in force, all but the `skipped` oldest.
    pub fn add_newest(&mut self, inner: &Fixities, skipped: usize) -> Result<(), NoMemory>
        requires { skipped ≤ length inner.now }
        ensures ok { IfOk result (λ _. self.new ≡ take (length inner.now - skipped) inner.now ++ self.old) }
        ensures err { OnErr result (self.new ≡ self.old) }
    {
        let mut more = self.copy(self.alloc)?;
        'ages: for older in skipped..inner.len() {
            let directive = inner.aged(older + 1);
            more.put(directive.status, directive.vid)?;
        }
        *self = more;
        Ok(())
    }

    /// The directive of this age: the oldest has 1.
    fn aged(&self, age: usize) -> Directive
        requires positive { 0 < age }
        requires held { age ≤ length self.now }
        ensures { drop (length self.now - age) self.now ≡ result ∷ drop (length self.now - (age - 1)) self.now }
    {
        match find(&self.by_age, age as u64) {
            Some(directive) => directive,
            None => unreachable!(),
        }
    }

    /// A copy.
    pub fn copy(&self, alloc: Global) -> Result<Fixities, NoMemory>
        ensures { IfOk result (λ copy. copy ≡ self.now) }
    {
        match both(share(&self.by_age), share(&self.by_vid)) {
            Ok((by_age, by_vid)) => Ok(Fixities {
                alloc,
                count: self.count,
                by_age,
                by_vid,
            }),
            Err(e) => Err(e),
        }
    }
}
