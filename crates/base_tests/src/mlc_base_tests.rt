// Worked examples of the definitions, and each call that takes memory once with enough of it.

ghost use Rattle.std.specs.Prelude.{◌≡◌};

use mlc_base::place::Place;
use mlc_faults::code::Code;
use mlc_faults::fault::{Fault, fault_line};
use mlc_faults::files::Files;
use mlc_names::names::{Name, Names};
use mlc_names::words;
use mlc_runs::law::{
    Relation, more_turns_go_on, packets_are_handled, results_go_on, runs_agree, runs_refine,
};
use std::test::Fail;

#[test]
fn names_are_numbered_as_first_seen(rt: HostRuntime) -> Result<(), Fail> {
    let mut names = Names::new(rt.alloc())?;
    let own = names.intern(rt.alloc(), b"own")?;
    let empty = names.intern(rt.alloc(), b"")?;
    let again = names.intern(rt.alloc(), b"own")?;
    assert!(rt; own == again);
    assert!(rt; own != empty);
    assert!(rt; own < empty);
    assert_eq!(rt; names.text(own), b"own".as_slice());
    assert_eq!(rt; names.text(empty), b"".as_slice());
    Ok(())
}

#[test]
fn standard_words_have_their_numbers(rt: HostRuntime) -> Result<(), Fail> {
    let mut names = Names::new(rt.alloc())?;
    let found = names.intern(rt.alloc(), b"false")?;
    assert!(rt; found == Name::standard(words::FALSE));
    let last = names.intern(rt.alloc(), b"isPrefix")?;
    let own = names.intern(rt.alloc(), b"own")?;
    assert!(rt; last < own);
    Ok(())
}

#[test]
fn lines_and_columns_count_from_1(rt: HostRuntime) -> Result<(), Fail> {
    let mut files = Files::new(rt.alloc())?;
    let bytes = b"ab\n\ncd".to_vec(rt.alloc())?;
    let file = files.add(rt.alloc(), "open.sml", bytes)?;
    let ended = files.add(rt.alloc(), "ended.sml", b"a\n".to_vec(rt.alloc())?)?;
    assert_eq!(rt; file, 0);
    assert_eq!(rt; ended, 1);
    assert_eq!(rt; files.path(1), "ended.sml");
    assert_eq!(rt; files.bytes(1), b"a\n".as_slice());
    for (byte, line, column) in [
        (0, 1, 1),
        (1, 1, 2),
        (2, 1, 3),
        (3, 2, 1),
        (4, 3, 1),
        (6, 3, 3),
    ] {
        assert_eq!(rt;
            files.line_col(Place { file: 0, byte }),
            (line, column),
            "at {byte}"
        );
    }
    assert_eq!(rt; files.line_col(Place { file: 1, byte: 2 }), (2, 1));
    Ok(())
}

#[test]
fn a_refusal_is_a_line(rt: HostRuntime) -> Result<(), Fail> {
    let mut files = Files::new(rt.alloc())?;
    let _ = files.add(
        rt.alloc(),
        "dir/u.sml",
        b"val x =\n  S.x".to_vec(rt.alloc())?,
    )?;
    let mut names = Names::new(rt.alloc())?;
    let unbound = Fault {
        code: Code::Unbound,
        place: Place { file: 0, byte: 10 },
        name: Some(names.intern(rt.alloc(), b"S.x")?),
    };
    let line = fault_line(rt.alloc(), &unbound, &files, &names)?;
    assert_eq!(rt; line.as_str(), "dir/u.sml:2.3: E30 unbound identifier S.x");
    let real = Fault {
        code: Code::RealConstant,
        place: Place { file: 0, byte: 0 },
        name: None,
    };
    let line = fault_line(rt.alloc(), &real, &files, &names)?;
    assert_eq!(rt; line.as_str(), "dir/u.sml:1.1: E13 real constant");
    let odd = Fault {
        code: Code::NotCompiled,
        place: Place { file: 0, byte: 13 },
        name: Some(names.intern(rt.alloc(), b"a\xff")?),
    };
    let line = fault_line(rt.alloc(), &odd, &files, &names)?;
    assert_eq!(rt; line.as_str(), "dir/u.sml:2.6: E90 not compiled yet a?");
    Ok(())
}

/// Equal numbers.
struct SameNumber;

impl Relation<u32, u32> for SameNumber {
    ghost related = { λ a b. a ≡ b };
}

#[test]
fn the_laws_of_runs_have_instances() {
    results_go_on::<u32, u32, u32, u32>();
    packets_are_handled::<u32, u32>();
    runs_agree::<u32, u32, u32, u32, u32, u32, SameNumber, SameNumber, SameNumber>();
    runs_refine::<u32, u32, u32, u32, u32, u32, SameNumber, SameNumber, SameNumber>();
    more_turns_go_on::<u32, u32, u32>();
}
