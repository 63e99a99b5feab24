// Names: byte strings that are kept once and compared by number.

ghost use Rattle.std.specs.Prelude.{◌≡◌, ◌≢◌, ◌<◌, [], length, slice_get, Some, take, IfOk, OnOk, OnErr, AllPairs};
ghost use Rattle.mlc_names.specs.Names.{with_text};
ghost use Rattle.mlc_names.specs.StandardWords.{standard_words};

use crate::words::STANDARD_WORDS;
use indexmap::IndexSet;
use mlc_base::memory::NoMemory;
use std::alloc::Global;
use std::marker::Model;

/// A byte string that a `Names` holds, by its number there.
#[derive(Clone, Copy, PartialEq, Eq, PartialOrd, Ord, Hash, Debug)]
pub struct Name {
    number: u32,
}

impl Model for Name {
    ghost use Rattle.std.specs.Prelude.{ℕ};

    ghost Value = { ℕ };

    ghost view = { λ n. n.number };

    ghost inverse = { λ n. record { number = n } };
}

impl Name {
    /// Its number.
    pub fn number(self) -> u32
        ensures { result ≡ self }
    {
        self.number
    }
}

/// Byte strings, each once, in the order in which they were first seen.
#[derive(Drop)]
pub struct Names {
    texts: IndexSet<Vec<u8>>,
}

impl Model for Names {
    ghost use Rattle.std.specs.Prelude.{ℕ, List, map, ◌<◌, ◌^◌, length};

    ghost Value = { List (List ℕ) };

    ghost view = { λ n. map (λ t. t.items) n.texts.keys };

    ghost invariant = { λ n. length n.texts.keys < 2 ^ 32 };
}

impl Name {
    /// The standard word of this number.
    pub fn standard(number: u32) -> Name
        requires { number < length standard_words }
        ensures { result ≡ number }
    {
        Name { number }
    }
}

impl Names {
    /// The standard words.
    pub fn new(alloc: Global) -> Result<Names, NoMemory>
        ensures { IfOk result (λ names. names ≡ standard_words) }
    {
        let mut names = Names {
            texts: IndexSet::new(alloc),
        };
        for word in &STANDARD_WORDS {
            let _ = names.intern(alloc, word.as_bytes())?;
        }
        Ok(names)
    }

    /// The name of these bytes, which are kept if they are new.
    pub fn intern(&mut self, alloc: Global, bytes: &[u8]) -> Result<Name, NoMemory>
        ensures kept { OnOk result (self.new ≡ with_text self.old bytes.now) }
        ensures held { IfOk result (λ name. slice_get self.new name ≡ Some bytes.now) }
        ensures earlier_stay { take (length self.old) self.new ≡ self.old }
        ensures one_to_one { AllPairs (λ text other. text ≢ other) self.new }
        ensures err { OnErr result (self.new ≡ self.old) }
    {
        let held = self.texts.len();
        if let Some(found) = self.texts.get_index_of(bytes) {
            return Ok(Name {
                number: found as u32,
            });
        }
        if held >= u32::MAX as usize {
            return Err(NoMemory);
        }
        let text = Vec::from_slice(alloc, bytes)?;
        let (index, _) = self.texts.insert_full(text)?;
        Ok(Name {
            number: index as u32,
        })
    }

    /// The bytes of a name.
    pub fn text(&self, name: Name) -> &[u8]
        requires { name < length self.now }
        ensures { slice_get self.now name ≡ Some result.now }
    {
        self.texts.as_slice()[name.number as usize].as_slice()
    }
}
