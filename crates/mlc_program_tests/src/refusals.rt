// Sources and ML Basis files that are refused.

use crate::calls::{REFUSED, Row, bad_mlb, bad_sml, check, check_all};
use std::test::Fail;

// Sources, and the lines that tell why they are refused.
const SOURCES: [(&str, &str); 23] = [
    ("val () = print \"a", "p.sml:1.16: E10 no token\n"),
    ("val () = print \"\x7f\"", "p.sml:1.16: E10 no token\n"),
    ("val x = 1 (* open", "p.sml:1.11: E10 no token\n"),
    ("valx () = print \"a\"", "p.sml:1.20: E11 syntax error\n"),
    (") val x = 1", "p.sml:1.1: E11 syntax error\n"),
    (
        "infixr 5 ++ infix 5 -- val z = 1 ++ 2 -- 3",
        "p.sml:1.39: E11 syntax error\n",
    ),
    (
        "val x = 2147483648",
        "p.sml:1.9: E12 constant out of range\n",
    ),
    ("val x = 1.5", "p.sml:1.9: E13 real constant\n"),
    ("val x = y", "p.sml:1.9: E30 unbound identifier y\n"),
    (
        "val y = 1\nval x = x + y",
        "p.sml:2.9: E30 unbound identifier x\n",
    ),
    (
        "infix +++ val x = 1 +++ 2",
        "p.sml:1.21: E30 unbound identifier +++\n",
    ),
    ("val x : t = 1", "p.sml:1.9: E30 unbound identifier t\n"),
    ("fun f (C x) = x", "p.sml:1.8: E30 unbound identifier C\n"),
    (
        "val x = Prim.cat",
        "p.sml:1.9: E30 unbound identifier Prim.cat\n",
    ),
    ("val x = 1 + \"a\"", "p.sml:1.1: E31 no typing\n"),
    ("fun f x = x x", "p.sml:1.1: E31 no typing\n"),
    ("val (x, y) = 1", "p.sml:1.1: E31 no typing\n"),
    (
        "val () = print \"a\"\nval () = 1",
        "p.sml:2.1: E31 no typing\n",
    ),
    (
        "type t = {a : int, a : int}",
        "p.sml:1.10: E33 restriction broken\n",
    ),
    (
        "val x = 1\ndatatype t = A | B of t | A",
        "p.sml:2.1: E33 restriction broken\n",
    ),
    (
        "val x = y datatype t = A | A",
        "p.sml:1.9: E30 unbound identifier y\n",
    ),
    (
        "val r = ref nil datatype t = A | A val () = r := [1]",
        "p.sml:1.17: E33 restriction broken\n",
    ),
    (
        "datatype t = datatype nothing",
        "p.sml:1.23: E30 unbound identifier nothing\n",
    ),
];

#[test]
fn other_sources_are_refused(rt: HostRuntime) -> Result<(), Fail> {
    for (sml, err) in SOURCES.iter() {
        check(&rt, rt.alloc(), &bad_sml(sml, err))?;
    }
    Ok(())
}

// The same of ML Basis files.
const MLB_FILES: [(&str, &str); 11] = [
    ("", "p.mlb:1.1: E90 not compiled yet\n"),
    ("p.sml", "p.sml:1.1: E90 not compiled yet\n"),
    (
        "p.sml $(SML_LIB)/basis/basis.mlb",
        "p.sml:1.1: E90 not compiled yet\n",
    ),
    (
        "$(SML_LIB)/basis/basis.mlb p.sml $(SML_LIB)/basis/basis.mlb",
        "p.mlb:1.1: E90 not compiled yet\n",
    ),
    ("\"p.sml\"", "p.mlb:1.1: E20 mlb syntax error\n"),
    ("local a.sml in", "p.mlb:1.1: E20 mlb syntax error\n"),
    (
        "$(SML_LIB)/basis/basis.mlbp.sml",
        "p.mlb:1.1: E22 unknown path variable\n",
    ),
    (
        "$(SML_LIB)/basis/basis.mlb $(X)/p.sml",
        "p.mlb:1.28: E22 unknown path variable\n",
    ),
    ("$(FOO)/a.sml", "p.mlb:1.1: E22 unknown path variable\n"),
    ("a.txt", "p.mlb:1.1: E23 unknown extension\n"),
    (
        "$(SML_LIB)/basis/basis.mlb\nempty.mlb",
        "p.mlb:2.1: E23 unknown extension\n",
    ),
];

#[test]
fn other_mlb_files_are_refused(rt: HostRuntime) -> Result<(), Fail> {
    for (mlb, err) in MLB_FILES.iter() {
        check(&rt, rt.alloc(), &bad_mlb(mlb, err))?;
    }
    Ok(())
}

// Sources with modules, of which none is compiled yet, and where the first declaration stands that isn't of the core.
const MODULES: [(&str, &str); 11] = [
    ("structure A = struct end", "1.1"),
    ("val x = 1 structure A = B", "1.11"),
    ("fun f x = x structure A = B", "1.13"),
    ("val x = 0w1 structure A = B", "1.13"),
    ("val x = 1\nlocal structure S = T in val y = 2 end", "2.1"),
    ("local val x = 1 in val y = x end structure A = B", "1.34"),
    ("signature S = sig end structure A = B", "1.1"),
    ("functor F (X : S) = X", "1.1"),
    ("print \"a\" ; functor F () = A", "1.13"),
    ("; ; infix 5 ++\nsignature S = T", "2.1"),
    ("structure A = B val x = 1 + \"a\"", "1.1"),
];

#[test]
fn modules_are_not_compiled(rt: HostRuntime) -> Result<(), Fail> {
    for (sml, place) in MODULES.iter() {
        let err = format!(in rt.alloc(); "p.sml:{place}: E90 not compiled yet\n")?;
        check(&rt, rt.alloc(), &bad_sml(sml, err.as_str()))?;
    }
    Ok(())
}

// Sources with modules or with expressions at their top that are refused otherwise.
const MODULES_REFUSED: [(&str, &str); 11] = [
    ("structure A = sig end", "p.sml:1.15: E11 syntax error\n"),
    (
        "fun f x = x signature S =",
        "p.sml:1.26: E11 syntax error\n",
    ),
    (
        "structure A = struct val end",
        "p.sml:1.26: E11 syntax error\n",
    ),
    ("functor F X = X", "p.sml:1.11: E11 syntax error\n"),
    ("structure A = B 1 ;", "p.sml:1.17: E11 syntax error\n"),
    ("1 + 1", "p.sml:1.6: E11 syntax error\n"),
    ("1 ; 2 val x = 3", "p.sml:1.7: E11 syntax error\n"),
    (
        "val x = y structure A = B fun f x = x",
        "p.sml:1.9: E30 unbound identifier y\n",
    ),
    ("1 ; x ;", "p.sml:1.5: E30 unbound identifier x\n"),
    ("it ; 1 ;", "p.sml:1.1: E30 unbound identifier it\n"),
    ("1 ; it ^ \"a\" ;", "p.sml:1.5: E31 no typing\n"),
];

#[test]
fn modules_are_refused(rt: HostRuntime) -> Result<(), Fail> {
    for (sml, err) in MODULES_REFUSED.iter() {
        check(&rt, rt.alloc(), &bad_sml(sml, err))?;
    }
    Ok(())
}

// Projects of several sources: what can't be read comes first, and then the first that doesn't elaborate.
const PROJECTS: [Row; 3] = [
    Row {
        mlb: "$(SML_LIB)/basis/basis.mlb p.sml token.sml",
        sml: "structure A = B",
        err: "token.sml:1.10: E10 no token\n",
        ..REFUSED
    },
    Row {
        mlb: "$(SML_LIB)/basis/basis.mlb module.sml p.sml",
        sml: "fun f x = x",
        err: "module.sml:2.1: E90 not compiled yet\n",
        ..REFUSED
    },
    Row {
        mlb: "$(SML_LIB)/basis/basis.mlb p.sml module.sml",
        sml: "val x = 1 + \"a\"",
        err: "p.sml:1.1: E31 no typing\n",
        ..REFUSED
    },
];

#[test]
fn projects_with_modules_are_refused(rt: HostRuntime) -> Result<(), Fail> {
    check_all(&rt, rt.alloc(), &PROJECTS)?;
    Ok(())
}
