// What unify answers on pairs of types.

use crate::read::{told, variable, variables};
use mlc_base::memory::NoMemory;
use std::alloc::Global;
use std::test::Fail;
use ty_solve::subst::Subst;

/// The marks of the variables, a pair that is made equal first, a pair, and the answer.
type Row = (&'static str, &'static str, &'static str, &'static str);

static PAIRS: [Row; 64] = [
    ("", "", "i i", "ok"),
    ("", "", "i w", "clash"),
    ("", "", "w i", "clash"),
    ("..", "", "0 0", "ok"),
    ("..", "", "0 1", "ok"),
    ("..", "", "1 0", "ok"),
    ("..", "", "0 0l", "circular"),
    ("..", "", "0l 0", "circular"),
    ("..", "", "01p 1l0lp", "circular"),
    ("..", "", "1l0lp 01p", "circular"),
    ("..", "", "01f ilwf", "ok"),
    ("..", "", "ilwf 01f", "ok"),
    ("..", "", "00f iwf", "clash"),
    ("..", "", "iwf 00f", "clash"),
    ("..", "", "01p iwq", "clash"),
    ("..", "", "iwq 01p", "clash"),
    ("..", "", "01p u", "clash"),
    ("..", "", "u 01p", "clash"),
    ("..", "", "01f 01p", "clash"),
    ("..", "", "01p 01f", "clash"),
    ("..", "", "0r 1l", "clash"),
    ("..", "", "1l 0r", "clash"),
    ("...", "", "01p2p 12p0p", "ok"),
    ("...", "", "12p0p 01p2p", "ok"),
    ("...", "", "00p 12p", "ok"),
    ("...", "", "12p 00p", "ok"),
    ("=", "", "0 i", "ok"),
    ("=", "", "i 0", "ok"),
    ("=", "", "0 iif", "clash"),
    ("=", "", "iif 0", "clash"),
    ("=", "", "0 e", "clash"),
    ("=", "", "e 0", "clash"),
    ("=", "", "0 iifr", "ok"),
    ("=", "", "iifr 0", "ok"),
    ("=", "", "0 iifl", "clash"),
    ("=", "", "iifl 0", "clash"),
    ("=", "", "0 ia", "clash"),
    ("=", "", "ia 0", "clash"),
    ("=", "", "0 iiifp", "clash"),
    ("=", "", "iiifp 0", "clash"),
    ("=.", "0 1l", "1 iif", "clash"),
    ("=.", "0 1r", "1 iif", "ok"),
    ("=.", "1 0", "1 iif", "clash"),
    (".=", "1 0", "0 iif", "clash"),
    ("..", "1 0", "0 iif", "ok"),
    ("n", "", "0 i", "ok"),
    ("n", "", "i 0", "ok"),
    ("n", "", "0 c", "clash"),
    ("n", "", "c 0", "clash"),
    ("n", "", "0 il", "clash"),
    ("n", "", "il 0", "clash"),
    ("n", "", "0 iif", "clash"),
    ("n", "", "iif 0", "clash"),
    ("nt", "", "0 1", "clash"),
    ("nt", "", "1 0", "clash"),
    ("no", "", "0 1", "ok"),
    ("no", "", "1 0", "ok"),
    ("=o", "", "0 1", "ok"),
    ("=o", "", "1 0", "ok"),
    ("no", "0 1", "1 s", "clash"),
    ("on", "0 1", "0 w", "ok"),
    ("=o", "0 1", "0 s", "ok"),
    ("o=", "0 1", "1 iif", "clash"),
    ("to", "0 1", "1 i", "clash"),
];

static ROWS: [Row; 58] = [
    ("x", "", "0 iip", "ok"),
    ("x", "", "iip 0", "ok"),
    ("x", "", "0 wip", "clash"),
    ("y", "", "0 iiq", "clash"),
    ("y", "", "iiq 0", "clash"),
    ("y", "", "0 u", "clash"),
    ("e", "", "0 u", "ok"),
    ("e", "", "0 i", "clash"),
    ("e", "", "iif 0", "clash"),
    ("m", "", "0 iwp", "ok"),
    ("m", "", "0 iip", "clash"),
    ("x", "", "0 iid", "clash"),
    ("e", "", "iid 0", "clash"),
    ("x.", "", "1 0", "ok"),
    ("x.", "1 0", "1 wip", "clash"),
    (".x", "", "0 1", "ok"),
    ("x.", "0 1", "1 wip", "clash"),
    ("xy", "", "0 1", "ok"),
    ("xy", "0 1", "0 iwp", "ok"),
    ("xy", "0 1", "1 wwp", "clash"),
    ("xy", "1 0", "0 iip", "clash"),
    ("xy", "0 1", "0 iwq", "clash"),
    ("xw", "", "0 1", "clash"),
    ("..zk", "", "2 3", "ok"),
    ("..zk", "2 3", "01f iwf", "clash"),
    ("..zk", "2 3", "01f iif", "ok"),
    (".z", "", "0 1l", "circular"),
    (".z", "", "0 1", "circular"),
    (".z", "", "1 0", "circular"),
    (".z", "", "1 11p", "circular"),
    (".zz", "1 2", "0 1l", "circular"),
    ("..zk", "0 3l", "2 3", "circular"),
    ("xn", "", "0 1", "clash"),
    ("xn", "", "1 0", "clash"),
    ("x=", "", "0 1", "ok"),
    ("x=", "", "1 0", "ok"),
    ("x=", "0 1", "0 iiifp", "clash"),
    ("x=", "1 0", "iiifp 1", "clash"),
    ("x=", "0 1", "0 iip", "ok"),
    ("x.", "0 1", "0 iiifp", "ok"),
    (".h=", "", "1 2", "clash"),
    (".h=", "", "2 1", "clash"),
    (".z=", "1 2", "0 iif", "clash"),
    (".z=", "2 1", "0 iif", "clash"),
    (".z=", "1 2", "0 i", "ok"),
    ("x=g", "0 1", "0 2", "clash"),
    ("x=g", "0 1", "2 0", "clash"),
    ("xg", "", "0 1", "ok"),
    ("sg", "", "0 1", "clash"),
    ("sg", "", "1 0", "clash"),
    ("sx", "", "0 1", "ok"),
    ("v", "", "0 iiifp", "ok"),
    ("v", "", "0 iiifq", "clash"),
    ("v=", "", "0 1", "clash"),
    ("..xy.=", "0 2l", "123pp iw4pp", "clash"),
    ("..xy.=", "0 2l", "425pp 33iifpp", "clash"),
    ("..yz.=", "1 2l", "420pp i33lpp", "circular"),
    ("..xz.=", "1 i", "415pp i4iifpp", "clash"),
];

fn pair_told(alloc: Global, s: &mut Subst, row: &Row) -> Result<&'static str, NoMemory> {
    let _before = told(alloc, s, row.1)?;
    told(alloc, s, row.2)
}

fn row_told(alloc: Global, row: &Row) -> Result<&'static str, NoMemory> {
    let mut s = variables(alloc, row.0)?;
    pair_told(alloc, &mut s, row)
}

/// The first pair with another answer, if there is one.
fn first_wrong(alloc: Global, rows: &[Row]) -> Result<&'static str, NoMemory> {
    for row in rows {
        if row_told(alloc, row)? != row.3 {
            return Ok(row.2);
        }
    }
    Ok("none")
}

#[test]
fn pairs_have_their_answers(rt: HostRuntime) -> Result<(), Fail> {
    assert_eq!(rt; first_wrong(rt.alloc(), &PAIRS)?, "none");
    Ok(())
}

#[test]
fn rows_have_their_answers(rt: HostRuntime) -> Result<(), Fail> {
    assert_eq!(rt; first_wrong(rt.alloc(), &ROWS)?, "none");
    Ok(())
}

/// Whether the first of three variables stays itself where a pair is made equal, and the last one becomes it.
fn first_stays(alloc: Global, pair: &str) -> Result<bool, NoMemory> {
    let mut s = variables(alloc, "...")?;
    let answer = told(alloc, &mut s, pair)?;
    let first = variable(alloc, &mut s, 0)?;
    let last = variable(alloc, &mut s, 2)?;
    Ok(answer == "ok" && s.find(first) == first && s.find(last) == first)
}

#[test]
fn of_two_variables_the_later_one_is_bound(rt: HostRuntime) -> Result<(), Fail> {
    assert_eq!(rt; first_stays(rt.alloc(), "0 2")?, true);
    assert_eq!(rt; first_stays(rt.alloc(), "2 0")?, true);
    assert_eq!(rt; first_stays(rt.alloc(), "01p 12p")?, true);
    assert_eq!(rt; first_stays(rt.alloc(), "12p 01p")?, true);
    Ok(())
}
