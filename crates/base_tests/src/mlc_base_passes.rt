// Two toy forms, and two passes one after the other.

ghost use Rattle.std.specs.Prelude.{◌≡◌, ℕ, ◌≤◌, ◌<◌, List, [], ◌∷◌, length};
ghost use Rattle.mlc_runs.specs.Outcome.{ended};
ghost use Rattle.mlc_names.specs.StandardWords.{word_Bind};

use mlc_base::memory::NoMemory;
use mlc_runs::pass::{Check, Form, Pass, PassFault, Then};
use std::alloc::Global;
use std::test::Fail;

/// A program that writes a byte twice, and makes no exception.
#[derive(Drop)]
struct Twice {
    byte: u8,
}

impl Form for Twice {
    ghost meaning = { λ program _. record { output = program.byte ∷ program.byte ∷ []; end = ended; turns = [] } };

    ghost is_well_formed = { λ program. program.byte < 128 };

    ghost exceptions = { λ _. [] };

    ghost expansion = { λ _. 2 };

    fn check(&self, _alloc: Global) -> Check {
        if self.byte < 128 {
            Check::Yes
        } else {
            Check::No
        }
    }
}

/// A program that writes a text, and makes the exception `Bind`.
#[derive(Drop)]
struct Text {
    bytes: Vec<u8>,
}

impl Form for Text {
    ghost meaning = { λ program _. record { output = program.bytes.items; end = ended; turns = [] } };

    ghost is_well_formed = { λ program. length program.bytes.items ≤ 2 };

    ghost exceptions = { λ _. word_Bind ∷ [] };

    ghost expansion = { λ program. length program.bytes.items };

    fn check(&self, _alloc: Global) -> Check {
        if self.bytes.len() <= 2 {
            Check::Yes
        } else {
            Check::No
        }
    }
}

/// Writes the text out.
struct WriteOut;

impl Pass<Twice, Text> for WriteOut {
    fn pass(alloc: Global, program: Twice) -> Result<Text, PassFault> {
        let bytes = vec![in alloc; program.byte, program.byte]?;
        Ok(Text { bytes })
    }
}

/// Changes nothing.
struct Keep;

impl Pass<Text, Text> for Keep {
    fn pass(_alloc: Global, program: Text) -> Result<Text, PassFault> {
        Ok(program)
    }
}

fn written_twice(alloc: Global, byte: u8) -> Result<Text, PassFault>
    requires { byte < 128 }
{
    Then::<WriteOut, Text, Keep>::pass(alloc, Twice { byte })
}

#[test]
fn passes_are_joined(rt: HostRuntime) -> Result<(), Fail> {
    let text = written_twice(rt.alloc(), b'a')?;
    assert_eq!(rt; text.bytes.as_slice(), b"aa".as_slice());
    assert!(rt; text.check(rt.alloc()) == Check::Yes);
    Ok(())
}

#[test]
fn programs_are_checked(rt: HostRuntime) -> Result<(), Fail> {
    let high = Twice { byte: 200 };
    assert!(rt; high.check(rt.alloc()) == Check::No);
    Ok(())
}

#[test]
fn faults_tell_what_is_wanting(rt: HostRuntime) -> Result<(), Fail> {
    assert!(rt; PassFault::from(NoMemory) == PassFault::Memory);
    Ok(())
}
