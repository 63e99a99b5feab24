// Types and substitutions from short texts.

use crate::rows::{fresh_row, has_rows, is_row, rows};
use mlc_base::memory::NoMemory;
use mlc_names::label::Label;
use std::alloc::Global;
use ty_core::mark::{Class, Mark};
use ty_core::name::{Equality, TyName};
use ty_core::ty::Head;
use ty_solve::known::is_known;
use ty_solve::refused::UnifyRefused;
use ty_solve::solve::unify;
use ty_solve::subst::Subst;

pub const LIST: TyName = TyName {
    stamp: 20,
    arity: 1,
    equality: Equality::ByArguments,
};

const ABSTRACT: TyName = TyName {
    stamp: 21,
    arity: 1,
    equality: Equality::Never,
};

/// A number that no table has.
pub const NONE: usize = usize::MAX;

/// A type name with a part, or with none where it isn't in the table.
pub fn one(alloc: Global, s: &mut Subst, name: TyName, part: usize) -> Result<usize, NoMemory> {
    if part < s.types.len() {
        s.apply(alloc, Head::Named(name), &[part])
    } else {
        s.apply(alloc, Head::Named(name), &[])
    }
}

fn pair_head(alloc: Global, first: u32, second: u32) -> Result<Head, NoMemory> {
    let labels = vec![in alloc; Label::Number(first), Label::Number(second)]?;
    Ok(Head::Record(labels))
}

/// A head over two types.
pub fn two(
    alloc: Global,
    s: &mut Subst,
    head: Head,
    left: usize,
    right: usize,
) -> Result<usize, NoMemory> {
    if left < s.types.len() && right < s.types.len() {
        s.apply(alloc, head, &[left, right])
    } else {
        Ok(NONE)
    }
}

/// A pair of two types.
pub fn pair(alloc: Global, s: &mut Subst, left: usize, right: usize) -> Result<usize, NoMemory> {
    let head = pair_head(alloc, 1, 2)?;
    two(alloc, s, head, left, right)
}

/// A variable of the substitution.
pub fn variable(alloc: Global, s: &mut Subst, v: usize) -> Result<usize, NoMemory> {
    if v < s.slots.len() {
        s.variable(alloc, v)
    } else {
        Ok(NONE)
    }
}

fn last(done: &mut Vec<usize>) -> usize {
    match done.pop() {
        Some(t) => t,
        None => NONE,
    }
}

fn unary(
    alloc: Global,
    s: &mut Subst,
    letter: u8,
    done: &mut Vec<usize>,
) -> Result<usize, NoMemory> {
    let part = last(done);
    match letter {
        b'r' => one(alloc, s, TyName::REF, part),
        b'l' => one(alloc, s, LIST, part),
        _ => one(alloc, s, ABSTRACT, part),
    }
}

fn binary(
    alloc: Global,
    s: &mut Subst,
    letter: u8,
    done: &mut Vec<usize>,
) -> Result<usize, NoMemory> {
    let right = last(done);
    let left = last(done);
    match letter {
        b'f' => two(alloc, s, Head::Function, left, right),
        b'p' => pair(alloc, s, left, right),
        b'd' => {
            let head = pair_head(alloc, 1, 1)?;
            two(alloc, s, head, left, right)
        }
        _ => {
            let head = pair_head(alloc, 1, 3)?;
            two(alloc, s, head, left, right)
        }
    }
}

fn leaf(alloc: Global, s: &mut Subst, letter: u8) -> Result<usize, NoMemory> {
    match letter {
        b'i' => one(alloc, s, TyName::INT, NONE),
        b'w' => one(alloc, s, TyName::WORD, NONE),
        b'c' => one(alloc, s, TyName::CHAR, NONE),
        b's' => one(alloc, s, TyName::STRING, NONE),
        b'e' => one(alloc, s, TyName::EXN, NONE),
        b'u' => s.apply(alloc, Head::Record(Vec::new(alloc)), &[]),
        digit => variable(alloc, s, digit.saturating_sub(b'0') as usize),
    }
}

fn next(
    alloc: Global,
    s: &mut Subst,
    letter: u8,
    done: &mut Vec<usize>,
) -> Result<usize, NoMemory> {
    match letter {
        b'r' | b'l' | b'a' => unary(alloc, s, letter, done),
        b'f' | b'p' | b'q' | b'd' => binary(alloc, s, letter, done),
        _ => leaf(alloc, s, letter),
    }
}

/// Two types in postfix, the second after a space: digits are variables, `f` is an arrow, `p`, `q` and `d` records of two
/// fields, in `d` of the same label.
pub fn read_pair(alloc: Global, s: &mut Subst, text: &str) -> Result<(usize, usize), NoMemory> {
    let mut done: Vec<usize> = Vec::new(alloc);
    for letter in text.as_bytes() {
        if *letter != b' ' {
            let t = next(alloc, s, *letter, &mut done)?;
            done.push(t)?;
        }
    }
    let right = last(&mut done);
    Ok((last(&mut done), right))
}

/// A variable for a letter: `.` any, `=` equality, `n` int or word, `o` all four, `t` char or string.
fn fresh(s: &mut Subst, mark: u8) -> Result<usize, NoMemory> {
    match mark {
        b'=' => s.fresh(Mark::Equality),
        b'n' => s.fresh(Mark::Class(Class {
            int: true,
            word: true,
            char: false,
            string: false,
        })),
        b't' => s.fresh(Mark::Class(Class {
            int: false,
            word: false,
            char: true,
            string: true,
        })),
        b'o' => s.fresh(Mark::Class(Class {
            int: true,
            word: true,
            char: true,
            string: true,
        })),
        _ => s.fresh(Mark::Any),
    }
}

fn fresh_all(alloc: Global, s: &mut Subst, letters: &str) -> Result<(), NoMemory> {
    for letter in letters.as_bytes() {
        if is_row(*letter) {
            fresh_row(alloc, s, *letter)?;
        } else {
            let _variable = fresh(s, *letter)?;
        }
    }
    Ok(())
}

/// A variable for each letter: those of `fresh`, and the rows of `row`.
pub fn variables(alloc: Global, letters: &str) -> Result<Subst, NoMemory> {
    let mut s = Subst::new(alloc)?;
    fresh_all(alloc, &mut s, letters)?;
    Ok(s)
}

fn word(answer: &Result<(), UnifyRefused>) -> &'static str {
    match answer {
        Ok(()) => "ok",
        Err(refused) => match refused {
            UnifyRefused::Clash => "clash",
            UnifyRefused::Circular => "circular",
            UnifyRefused::Large => "large",
            UnifyRefused::Memory => "memory",
        },
    }
}

/// What unify answers.
pub fn bare_answer(alloc: Global, s: &mut Subst, a: usize, b: usize) -> &'static str {
    if is_known(s, a) && is_known(s, b) {
        word(&unify(alloc, s, a, b))
    } else {
        "unknown"
    }
}

/// What variables stand for, and their marks.
fn state(alloc: Global, s: &Subst) -> Result<Vec<(usize, Mark)>, NoMemory> {
    let mut all = Vec::new(alloc);
    for v in 0..s.slots.len() {
        all.push((s.get(v).unwrap_or(NONE), s.mark_of(v)))?;
    }
    Ok(all)
}

fn has_state(s: &Subst, state: &[(usize, Mark)]) -> bool {
    for (v, (t, mark)) in state.iter().enumerate() {
        if s.get(v).unwrap_or(NONE) != *t || s.mark_of(v) != *mark {
            return false;
        }
    }
    true
}

/// What unify answers, or that it refused and left a change.
pub fn answer(alloc: Global, s: &mut Subst, a: usize, b: usize) -> Result<&'static str, NoMemory> {
    let before = state(alloc, s)?;
    let rows_before = rows(alloc, s)?;
    let answer = bare_answer(alloc, s, a, b);
    if answer == "ok" || (has_state(s, &before) && has_rows(s, &rows_before)) {
        Ok(answer)
    } else {
        Ok("changed")
    }
}

/// What unify answers on two types of a text.
pub fn told(alloc: Global, s: &mut Subst, pair: &str) -> Result<&'static str, NoMemory> {
    let (a, b) = read_pair(alloc, s, pair)?;
    answer(alloc, s, a, b)
}
