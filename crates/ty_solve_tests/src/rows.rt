// Rows from letters, and whether rows are as they were.

use crate::read::read_pair;
use mlc_base::memory::NoMemory;
use mlc_names::label::Label;
use std::alloc::Global;
use ty_solve::known::fits;
use ty_solve::row::{Row, copy_row};
use ty_solve::subst::Subst;

/// Whether a letter stands for a row.
pub fn is_row(letter: u8) -> bool {
    letter.is_ascii_lowercase() && letter != b'n' && letter != b'o' && letter != b't'
}

/// Puts a field to a row, its type in postfix.
fn put(
    alloc: Global,
    s: &mut Subst,
    row: &mut Row,
    label: u32,
    text: &str,
) -> Result<(), NoMemory> {
    let (_, t) = read_pair(alloc, s, text)?;
    row.labels.push(Label::Number(label))?;
    row.types.push(t)?;
    Ok(())
}

/// The row of a letter: `x` and `s` with 1 : int, `w` with 1 : word, `y` with 2 : word, `m` with 2 : word and 1 : int, `z` and `k`
/// with 1 the variable 0 or 1, `h` with a function at 1, `g` and `v` with one at 2, `e` with no field. The further fields of
/// `s` and `v` admit equality.
fn row(alloc: Global, s: &mut Subst, letter: u8) -> Result<Row, NoMemory> {
    let equality = letter == b's' || letter == b'v';
    let mut known = Row::empty(alloc, equality);
    match letter {
        b'x' => put(alloc, s, &mut known, 1, "i")?,
        b's' => put(alloc, s, &mut known, 1, "i")?,
        b'w' => put(alloc, s, &mut known, 1, "w")?,
        b'y' => put(alloc, s, &mut known, 2, "w")?,
        b'm' => {
            put(alloc, s, &mut known, 2, "w")?;
            put(alloc, s, &mut known, 1, "i")?;
        }
        b'z' => put(alloc, s, &mut known, 1, "0")?,
        b'k' => put(alloc, s, &mut known, 1, "1")?,
        b'h' => put(alloc, s, &mut known, 1, "00f")?,
        b'g' => put(alloc, s, &mut known, 2, "iif")?,
        b'v' => put(alloc, s, &mut known, 2, "iif")?,
        _ => {}
    }
    Ok(known)
}

/// A variable that stands for the row of a letter.
pub fn fresh_row(alloc: Global, s: &mut Subst, letter: u8) -> Result<(), NoMemory> {
    let known = row(alloc, s, letter)?;
    if fits(alloc, s, &known)? {
        let _variable = s.fresh_row(known)?;
    }
    Ok(())
}

fn row_of(alloc: Global, s: &Subst, v: usize) -> Result<Option<Row>, NoMemory> {
    match s.row(v) {
        None => Ok(None),
        Some(row) => Ok(Some(copy_row(alloc, row)?)),
    }
}

/// The rows that variables stand for.
pub fn rows(alloc: Global, s: &Subst) -> Result<Vec<Option<Row>>, NoMemory> {
    let mut all = Vec::new(alloc);
    for v in 0..s.slots.len() {
        all.push(row_of(alloc, s, v)?)?;
    }
    Ok(all)
}

fn same_row(row: &Row, other: &Row) -> bool {
    row.equality == other.equality
        && row.labels.as_slice() == other.labels.as_slice()
        && row.types.as_slice() == other.types.as_slice()
}

fn has_row(s: &Subst, v: usize, row: &Option<Row>) -> bool {
    match row {
        None => s.row(v).is_none(),
        Some(row) => match s.row(v) {
            None => false,
            Some(now) => same_row(row, now),
        },
    }
}

/// Whether variables stand for these rows.
pub fn has_rows(s: &Subst, rows: &[Option<Row>]) -> bool {
    for v in 0..rows.len() {
        if !has_row(s, v, &rows[v]) {
            return false;
        }
    }
    true
}
