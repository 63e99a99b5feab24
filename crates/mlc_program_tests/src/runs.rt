// Programs that run.

use crate::calls::{NOTHING, Row, check, check_all, good};
use std::test::Fail;

// Sources, and what they print.
const SOURCES: [(&str, &str); 13] = [
    ("val () = print \"hello\\n\"", "hello\n"),
    ("val () = print \"a\\n\\t\\\"\\\\z\"", "a\n\t\"\\z"),
    ("val()=print\"a\"val () = print \"b\"\n", "ab"),
    ("\r\n val\t( )\x0c= print \"\" ", ""),
    ("val x = 1", ""),
    ("val () = print \"a\\065\"", "aA"),
    ("val () = print \"a\";", "a"),
    ("val () = (* a *) print \"a\"", "a"),
    ("val p = print val () = p (\"a\" ^ \"b\")", "ab"),
    ("val () = print \"a\\065\\u0042\\ \\c\\^J\"", "aABc\n"),
    ("val x = 2147483646 + 1 val y = ~2147483647 - 1", ""),
    ("val _ = print \"a\" val x = print \"b\"", "ab"),
    ("val print = \"a\" val x = (print) ^ print", ""),
];

#[test]
fn sources_run(rt: HostRuntime) -> Result<(), Fail> {
    for (sml, out) in SOURCES.iter() {
        check(&rt, rt.alloc(), &good(sml, out))?;
    }
    Ok(())
}

// Sources of the core.
const CORE: [(&str, &str); 12] = [
    ("fun f x = x val () = print (f \"a\")", "a"),
    (
        "fun f 0 = \"\" | f n = \"a\" ^ f (n - 1) val () = print (f 3)",
        "aaa",
    ),
    ("val (x, y) = (\"a\", \"b\") val () = print (y ^ x)", "ba"),
    (
        "datatype t = A | B of string fun f A = \"a\" | f (B s) = s val () = print (f A ^ f (B \"b\"))",
        "ab",
    ),
    (
        "fun map f [] = [] | map f (x :: l) = f x :: map f l \
            val _ = map print [\"a\", \"b\"] val _ = map (fn x => x + 1) [1]",
        "ab",
    ),
    (
        "exception E of string val () = (raise E \"a\") handle E s => print s",
        "a",
    ),
    (
        "val r = ref \"a\" val () = r := !r ^ \"b\" val () = print (!r)",
        "ab",
    ),
    (
        "val () = print (case SOME \"a\" of NONE => \"n\" | SOME s => s)",
        "a",
    ),
    (
        "val () = if not (1 = 2) andalso 1 <> 2 then print \"a\" else ()",
        "a",
    ),
    (
        "fun twice f = f o f val () = print (twice (fn s => s ^ s) \"a\")",
        "aaaa",
    ),
    (
        "val n = ref 0 val () = while !n < 3 do (print \"a\" before n := !n + 1)",
        "aaa",
    ),
    (
        "local val x = \"a\" in val y = x end val x = let val z = y in z ^ y end val () = print x",
        "aa",
    ),
];

#[test]
fn the_core_runs(rt: HostRuntime) -> Result<(), Fail> {
    for (sml, out) in CORE.iter() {
        check(&rt, rt.alloc(), &good(sml, out))?;
    }
    Ok(())
}

// Sources with expressions at their top.
const EXPRESSIONS: [(&str, &str); 7] = [
    ("print \"a\" ;", "a"),
    ("1 + 1 ; print \"x\" ;", "x"),
    ("val x = 1 ; ; x + 1 ; val y = 2", ""),
    (";;print\"a\";print\"b\"; ; val () = print \"c\"", "abc"),
    ("\"a\" ^ \"b\" ; print it ; it ;", "ab"),
    (
        "val it = \"a\" val x = it ; print x ; print (x ^ x) ;",
        "aaa",
    ),
    (
        "infix 6 ++ val op ++ = op ^ ; \"a\" ++ \"b\" ; print it ;",
        "ab",
    ),
];

#[test]
fn expressions_run(rt: HostRuntime) -> Result<(), Fail> {
    for (sml, out) in EXPRESSIONS.iter() {
        check(&rt, rt.alloc(), &good(sml, out))?;
    }
    Ok(())
}

const PROJECTS: [Row; 6] = [
    Row {
        words: "exec dir/q.mlb p.mlx 1024 256 +1000",
        out: "q",
        ..NOTHING
    },
    Row {
        words: "exec empty.mlb p.mlx 1024 256 18446744073709551615",
        ..NOTHING
    },
    Row {
        words: "exec two.mlb p.mlx 1024 256 1000",
        out: "hello, world\n",
        ..NOTHING
    },
    Row {
        mlb: "$(SML_LIB)/basis/basis.mlb",
        ..NOTHING
    },
    Row {
        mlb: "$(SML_LIB)/basis/basis.mlb c.sml c.sml",
        out: "cc",
        ..NOTHING
    },
    Row {
        mlb: "$(SML_LIB)/basis/basis.mlb x/../c.sml ./p.sml",
        sml: "val () = print \"p\"",
        out: "cp",
        ..NOTHING
    },
];

#[test]
fn projects_run(rt: HostRuntime) -> Result<(), Fail> {
    check_all(&rt, rt.alloc(), &PROJECTS)?;
    Ok(())
}

const LARGEST: Row = Row {
    words: "exec dir/r.mlb p.mlx 268435456 16777216 1000",
    out: "r",
    ..NOTHING
};

#[test]
fn the_largest_machine_runs(rt: HostRuntime) -> Result<(), Fail> {
    check(&rt, rt.alloc(), &LARGEST)?;
    Ok(())
}

// The programs of examples/ that are not in other rows.
const EXAMPLES: [Row; 3] = [
    Row {
        sml: "val largest = 2147483647\n\
            val () = print \"the largest int is 2147483647\\n\"\n\
            val next = largest + 1\n\
            val () = print \"this is not reached\\n\"\n",
        status: 1,
        out: "the largest int is 2147483647\n",
        err: "unhandled exception: Overflow\n",
        ..NOTHING
    },
    Row {
        sml: "val say = print\n\
            val greeting = \"hello, \" ^ \"again\"\n\
            val () = say (greeting ^ \"\\n\")\n",
        out: "hello, again\n",
        ..NOTHING
    },
    Row {
        sml: "print \"an expression may stand at a source's top\\n\";\n\
            \"its value is \" ^ \"it\\n\";\n\
            print it;\n",
        out: "an expression may stand at a source's top\nits value is it\n",
        ..NOTHING
    },
];

#[test]
fn examples_run(rt: HostRuntime) -> Result<(), Fail> {
    check_all(&rt, rt.alloc(), &EXAMPLES)?;
    Ok(())
}
