// Programs of the core, above the prelude.

use crate::calls::{NOTHING, Row, bad_sml, check, check_all, good};
use crate::sources::{LEAVE, RIGHT};
use std::test::Fail;

// What is in scope already comes into scope again.
const AGAIN: [(&str, &str); 12] = [
    ("open Int val () = print (toString (quot (~7, 2)))", "~3"),
    (
        "val quot = 1 local open Int in val q = quot (~7, 2) end val () = print (Int.toString (q + quot))",
        "~2",
    ),
    (
        "open Int val quot = 3 open Int Int val () = print (toString (quot (9, 4) + rem (9, 4)))",
        "3",
    ),
    (
        "val () = print (let open Int in toString 1 ^ (let fun toString _ = \"x\" open Int in toString 2 end) end)",
        "12",
    ),
    (
        "datatype t = A of int datatype u = A datatype s = datatype t\n\
         val A n = A 3 val () = print (Int.toString n)\n",
        "3",
    ),
    (
        "datatype color = Red | Green datatype paint = datatype color\n\
         fun show (Red : paint) = \"red\" | show Green = \"green\" val () = print (show (Green : color))\n",
        "green",
    ),
    (
        "local datatype t = A | B of t in datatype s = datatype t end val () = if B A = B A then print \"=\" else ()",
        "=",
    ),
    (
        "datatype row = datatype list val r : int row = 1 :: nil val () = print (case r of [n] => Int.toString n | _ => \"\")",
        "1",
    ),
    (
        "datatype cell = datatype ref val c : int cell = ref 4 val () = print (Int.toString (!c))",
        "4",
    ),
    (
        "datatype answer = datatype bool val () = print (if not (true : answer) then \"yes\" else \"no\")",
        "no",
    ),
    (
        "datatype number = datatype int val n : number = 5 val () = print (Int.toString n)",
        "5",
    ),
    (
        "type s = order datatype t = datatype s datatype u = datatype order\n\
         val () = print (let datatype v = datatype u in case LESS : t of LESS => \"<\" | _ => \"\" end)\n",
        "<",
    ),
];

#[test]
fn what_is_in_scope_comes_again(rt: HostRuntime) -> Result<(), Fail> {
    for (sml, out) in AGAIN.iter() {
        check(&rt, rt.alloc(), &good(sml, out))?;
    }
    Ok(())
}

// Sources, and what they print.
const SOURCES: [(&str, &str); 24] = [
    (
        "fun f 0 = 1 | f n = n * f (n - 1) val () = print (Int.toString (f 10) ^ \"\\n\")",
        "3628800\n",
    ),
    (
        "val () = app print (map (fn n => Int.toString (n * n) ^ \" \") [1, 2, ~3])",
        "1 4 9 ",
    ),
    (
        "datatype shape = Square of int | Box of int * int\n\
         fun area (Square a) = a * a | area (Box (a, b)) = a * b\n\
         val () = app (fn s => print (Int.toString (area s) ^ \"\\n\")) [Square 3, Box (2, 5)]\n",
        "9\n10\n",
    ),
    (
        "val () = print (concat (rev [\"c\", \"b\", \"a\"]) ^ concat [] ^ concat [\"d\"])",
        "abcd",
    ),
    (
        "val () = print (implode (rev (explode \"stressed\")) ^ substring (\"hello\", 1, 3) ^ str (chr (ord #\"a\" + 1)))",
        "dessertsellb",
    ),
    (
        "exception Low of int\n\
         fun check n = if n < 10 then raise Low n else n\n\
         fun tell n = print (Int.toString (check n) ^ \" \") handle Low m => print (\"low \" ^ Int.toString m ^ \" \")\n\
         val () = app tell [12, 3, 10]\n",
        "12 low 3 10 ",
    ),
    (
        "val n = ref 3 val () = (while !n > 0 do (print (Int.toString (!n)); n := !n - 1)) before print \"go\"",
        "321go",
    ),
    (
        "local val secret = 2 fun twice n = secret * n in fun four n = twice (twice n) end\n\
         val () = let val n = four 5 in print (Int.toString n); print \"!\" end\n",
        "20!",
    ),
    (
        "val a = getOpt (NONE, \"x\") ^ valOf (SOME \"y\") val b = isSome (SOME 1) andalso not (isSome NONE)\n\
         val () = if b then print a else ()\n",
        "xy",
    ),
    (
        "fun compare (a : int, b) = if a < b then LESS else if b < a then GREATER else EQUAL\n\
         fun show LESS = \"<\" | show EQUAL = \"=\" | show GREATER = \">\"\n\
         val () = app (print o show o compare) [(1, 2), (2, 2), (3, 2)]\n",
        "<=>",
    ),
    (
        "val left = foldl (op -) 0 [1, 2, 3] val right = foldr (op -) 0 [1, 2, 3]\n\
         val () = print (Int.toString left ^ \" \" ^ Int.toString right)\n",
        "2 2",
    ),
    (
        "val () = print (concat (foldr (fn (s, l) => s :: \",\" :: l) [] ([\"a\", \"b\"] @ [\"c\"])))",
        "a,b,c,",
    ),
    (
        "val _ = (print \"a\"; 1) + (print \"b\"; 2) val _ = {y = print \"c\", x = print \"d\"} val _ = [print \"e\", print \"f\"]",
        "abcdef",
    ),
    (
        "val () = print (if 1 <> 2 andalso \"a\" <> \"b\" andalso not ([SOME 1] <> [SOME 1]) then \"yes\" else \"no\")",
        "yes",
    ),
    (
        "val quotients = [Int.quot (~7, 2), Int.rem (~7, 2), ~7 div 2, ~7 mod 2]\n\
         val () = app (fn n => print (Int.toString n ^ \" \")) quotients\n",
        "~3 ~1 ~4 1 ",
    ),
    (
        "val () = print (Int.toString (length (tl (map ignore (explode \"abc\")))) ^ (if null [hd [1]] then \"no\" else \"yes\"))",
        "2yes",
    ),
    (
        "datatype 'a tree = Leaf | Node of 'a forest withtype 'a forest = ('a * 'a tree) list\n\
         fun walk Leaf = () | walk (Node ts) = app (fn (s, t) => (print s; walk t)) ts\n\
         val () = walk (Node [(\"a\", Leaf), (\"b\", Node [(\"c\", Leaf)])])\n",
        "abc",
    ),
    (
        "infixr 5 ++ fun a ++ b = a ^ \"(\" ^ b ^ \")\" val () = print (\"a\" ++ \"b\" ++ \"c\")",
        "a(b(c))",
    ),
    (
        "1 + 2 ; print (Int.toString it) ; map str ; it [#\"a\"] ; app print it ;",
        "3a",
    ),
    (
        "val saved = print fun print s = saved (s ^ s) val () = print \"a\" val op ^ = fn (a, b) => b val () = print (\"b\" ^ \"c\")",
        "aacc",
    ),
    (
        "val {a, ...} = {a = 1, b = \"x\"} val () = print (Int.toString (a + #b {b = 2, c = 3}))",
        "3",
    ),
    (
        "fun older ({age, ...} : {name : string, age : int}, n) = age > n\n\
         val () = app (fn p => if older (p, 40) then print (#name p) else ()) [{name = \"a\", age = 41}, {age = 2, name = \"b\"}]\n",
        "a",
    ),
    (
        "val r = ref [] val () = r := [1, 2] val () = print (Int.toString (length (!r) + #2 (1, 2, 3)))",
        "4",
    ),
    (
        "datatype 'a t = N | C of 'a * ('a * 'a) t val b = (N : int t)",
        "",
    ),
];

#[test]
fn sources_of_the_core_run(rt: HostRuntime) -> Result<(), Fail> {
    for (sml, out) in SOURCES.iter() {
        check(&rt, rt.alloc(), &good(sml, out))?;
    }
    Ok(())
}

// Sources that nothing handles an exception of: what they print before, and the exception.
const UNCAUGHT: [(&str, &str, &str); 14] = [
    (
        "fun f 1 = 2 val _ = f 1 val () = print \"a\" val _ = f 3",
        "a",
        "Match",
    ),
    (
        "val SOME x = SOME 1 val () = print \"a\" val NONE = SOME x",
        "a",
        "Bind",
    ),
    ("fun f n = f (n * 2) val _ = f 1", "", "Overflow"),
    ("val () = print (Int.toString (7 mod 0))", "", "Div"),
    (
        "val _ = substring (\"abc\", 2, 1) val _ = substring (\"abc\", 2, 2)",
        "",
        "Subscript",
    ),
    ("val _ = chr 255 val _ = chr 256", "", "Chr"),
    ("val _ = hd [1] val _ = hd (tl [1])", "", "Empty"),
    ("val _ = tl (tl [\"a\"])", "", "Empty"),
    (
        "val () = print (valOf (SOME \"a\") ^ valOf NONE)",
        "",
        "Option",
    ),
    ("val _ = raise Fail \"a reason\"", "", "Fail"),
    (
        "exception Mine of int val _ = (raise Mine 3) handle Fail s => print s",
        "",
        "Mine",
    ),
    (
        "exception First exception Second = First val _ = raise Second",
        "",
        "First",
    ),
    (
        "val _ = let exception Inner of string in print \"a\"; raise Inner \"b\" end",
        "a",
        "Inner",
    ),
    (
        "val () = app (fn n => print (Int.toString (6 div n))) [1, 2, 0, 3]",
        "63",
        "Div",
    ),
];

/// The row of a source that leaves an exception, which the line tells.
fn uncaught<'a>(sml: &'a str, out: &'a str, err: &'a str) -> Row<'a> {
    Row {
        status: 1,
        sml,
        out,
        err,
        ..NOTHING
    }
}

#[test]
fn exceptions_of_the_core_are_told(rt: HostRuntime) -> Result<(), Fail> {
    for (sml, out, name) in UNCAUGHT.iter() {
        let err = format!(in rt.alloc(); "unhandled exception: {name}\n")?;
        check(&rt, rt.alloc(), &uncaught(sml, out, err.as_str()))?;
    }
    Ok(())
}

#[test]
fn sources_check_themselves(rt: HostRuntime) -> Result<(), Fail> {
    for sml in RIGHT.iter() {
        check(
            &rt,
            rt.alloc(),
            &uncaught(sml, "", "unhandled exception: Right\n"),
        )?;
    }
    Ok(())
}

#[test]
fn sources_leave_exceptions_of_the_basis(rt: HostRuntime) -> Result<(), Fail> {
    for (sml, name) in LEAVE.iter() {
        let err = format!(in rt.alloc(); "unhandled exception: {name}\n")?;
        check(&rt, rt.alloc(), &uncaught(sml, "", err.as_str()))?;
    }
    Ok(())
}

// Sources that are refused, and the line that tells why: E30 at the identifier, which is told whole; E31 at the source's declaration that has no typing; E33 at
// the smallest phrase that the restriction speaks of.
const CORE_REFUSED: [(&str, &str); 44] = [
    ("fun f x = g x", "p.sml:1.11: E30 unbound identifier g\n"),
    (
        "fun f (Leaf x) = x",
        "p.sml:1.8: E30 unbound identifier Leaf\n",
    ),
    ("val x : t = 1", "p.sml:1.9: E30 unbound identifier t\n"),
    (
        "val y = 1 val x = S.y",
        "p.sml:1.19: E30 unbound identifier S.y\n",
    ),
    (
        "val x = 1 handle E n => n",
        "p.sml:1.18: E30 unbound identifier E\n",
    ),
    ("val x = A.b", "p.sml:1.9: E30 unbound identifier A.b\n"),
    (
        "val l = revAppend ([], [])",
        "p.sml:1.9: E30 unbound identifier revAppend\n",
    ),
    (
        "local val x = 1 in val y = x end\nval z = (y, x)",
        "p.sml:2.13: E30 unbound identifier x\n",
    ),
    (
        "val x = 1\nval y = if x then 2 else 3",
        "p.sml:2.1: E31 no typing\n",
    ),
    (
        "fun f x = x + 1\n\nval y = f \"a\"",
        "p.sml:3.1: E31 no typing\n",
    ),
    ("fun f x = x x", "p.sml:1.1: E31 no typing\n"),
    (
        "val r = ref []\nval () = r := [1]\nval () = r := [true]",
        "p.sml:3.1: E31 no typing\n",
    ),
    (
        "fun same (a, b) = a = b\nval b = same (print, print)",
        "p.sml:2.1: E31 no typing\n",
    ),
    (
        "datatype t = A of int\nval B = A\nval n = A \"a\"",
        "p.sml:3.1: E31 no typing\n",
    ),
    ("val () = print 1", "p.sml:1.1: E31 no typing\n"),
    (
        "val b = (fn x => x) = (fn x => x)",
        "p.sml:1.1: E31 no typing\n",
    ),
    ("val l : (int, int) list = []", "p.sml:1.1: E31 no typing\n"),
    (
        "val x = 1\nval y = let datatype t = A in A end",
        "p.sml:2.1: E31 no typing\n",
    ),
    ("val _ = raise 1", "p.sml:1.1: E31 no typing\n"),
    ("val x = 1 and x = 2", "p.sml:1.1: E33 restriction broken\n"),
    ("val (x, x) = (1, 2)", "p.sml:1.5: E33 restriction broken\n"),
    (
        "datatype t = A | true",
        "p.sml:1.18: E33 restriction broken\n",
    ),
    ("type t = 'a list", "p.sml:1.10: E33 restriction broken\n"),
    (
        "val r = {a = 1, a = 2}",
        "p.sml:1.9: E33 restriction broken\n",
    ),
    (
        "val f = fn (x, x) => 1",
        "p.sml:1.12: E33 restriction broken\n",
    ),
    ("fun f x x = 1", "p.sml:1.5: E33 restriction broken\n"),
    (
        "val f = fn (NONE as y) => 1",
        "p.sml:1.13: E33 restriction broken\n",
    ),
    ("exception E of 'a", "p.sml:1.1: E31 no typing\n"),
    (
        "datatype t = A of u v withtype 'a v = int",
        "p.sml:1.1: E31 no typing\n",
    ),
    (
        "val x = let val y = z in y end",
        "p.sml:1.21: E30 unbound identifier z\n",
    ),
    (
        "exception E exception F = G",
        "p.sml:1.27: E30 unbound identifier G\n",
    ),
    ("open S", "p.sml:1.6: E30 unbound identifier S\n"),
    (
        "open Int\nopen Int Nat val x = y",
        "p.sml:2.10: E30 unbound identifier Nat\n",
    ),
    (
        "val x = 1 datatype t = datatype u",
        "p.sml:1.33: E30 unbound identifier u\n",
    ),
    (
        "datatype t = datatype Int.int",
        "p.sml:1.23: E30 unbound identifier Int.int\n",
    ),
    (
        "datatype t = datatype int val x = A",
        "p.sml:1.35: E30 unbound identifier A\n",
    ),
    (
        "local datatype u = A in datatype v = datatype u end\nval a : u = A",
        "p.sml:2.9: E30 unbound identifier u\n",
    ),
    (
        "open Int\nval s = toString \"a\"",
        "p.sml:2.1: E31 no typing\n",
    ),
    (
        "datatype t = A datatype u = A\nval f = fn (x : t) => x = A",
        "p.sml:2.1: E31 no typing\n",
    ),
    (
        "val x = true + 1\nval r = {a = 1, a = 2}",
        "p.sml:1.1: E31 no typing\n",
    ),
    (
        "datatype 'a t = N | C of 'a * ('a * 'a) t val b = N = (N : int t)",
        "p.mlb:1.1: E41 expansion over 1048576 nodes\n",
    ),
    ("val r = ref []", "p.sml:1.1: E32 no principal typing\n"),
    (
        "val f = fn r => #a r",
        "p.sml:1.1: E32 no principal typing\n",
    ),
    (
        "val f = (fn x => x) (fn y => y)",
        "p.sml:1.1: E32 no principal typing\n",
    ),
];

#[test]
fn sources_of_the_core_are_refused(rt: HostRuntime) -> Result<(), Fail> {
    for (sml, err) in CORE_REFUSED.iter() {
        check(&rt, rt.alloc(), &bad_sml(sml, err))?;
    }
    Ok(())
}

// A project of several sources.
const SEVERAL: Row = Row {
    mlb: "$(SML_LIB)/basis/basis.mlb two_words.sml p.sml",
    sml: "val () = app print (map (fn s => s ^ \";\") [greeting, name])",
    out: "hello;world;",
    ..NOTHING
};

#[test]
fn a_project_of_the_core_runs(rt: HostRuntime) -> Result<(), Fail> {
    check(&rt, rt.alloc(), &SEVERAL)?;
    Ok(())
}
