// Programs of the core that are refused, one rule of the language or more in each, and the line that tells why.

use crate::calls::{bad_sml, check};
use std::test::Fail;

const REFUSED: [(&str, &str); 108] = [
    // E10: strings, characters, comments and dots.
    ("val x = \"a\nb\"", "p.sml:1.9: E10 no token\n"),
    ("val x = #\"ab\"", "p.sml:1.9: E10 no token\n"),
    ("val x = 1 val y = \"a\\q\"", "p.sml:1.19: E10 no token\n"),
    ("val x = \"\\256\"", "p.sml:1.9: E10 no token\n"),
    ("val x = \"a\\ b \\c\"", "p.sml:1.9: E10 no token\n"),
    ("val x = 1\n(* a (* b *)", "p.sml:2.1: E10 no token\n"),
    ("val x = Int. toString", "p.sml:1.12: E10 no token\n"),
    // E12 and E13.
    (
        "val x = 1 + ~2147483649",
        "p.sml:1.13: E12 constant out of range\n",
    ),
    (
        "val x = 0wx100000000",
        "p.sml:1.9: E12 constant out of range\n",
    ),
    ("val x = (1, ~2.5E~3)", "p.sml:1.13: E13 real constant\n"),
    // E11: what is no phrase, and infix identifiers alone.
    ("val 1x = 2", "p.sml:1.6: E11 syntax error\n"),
    ("val x=~1", "p.sml:1.8: E11 syntax error\n"),
    ("fun f x = 1\n  | g x = 2", "p.sml:2.9: E11 syntax error\n"),
    ("fun f x = 1 | f x y = 2", "p.sml:1.21: E11 syntax error\n"),
    ("val + = 1", "p.sml:1.5: E11 syntax error\n"),
    ("val x = 1 + raise Div", "p.sml:1.13: E11 syntax error\n"),
    (
        "local infix ++ in end infix 5 ** val ++ = 1 val ** = 2",
        "p.sml:1.49: E11 syntax error\n",
    ),
    ("val x = if true then 1", "p.sml:1.23: E11 syntax error\n"),
    (
        "val x = let val y = 1 in end",
        "p.sml:1.26: E11 syntax error\n",
    ),
    ("val x = [1, 2,]", "p.sml:1.15: E11 syntax error\n"),
    ("val x = #0 (1, 2)", "p.sml:1.10: E11 syntax error\n"),
    ("val a = 1 val r = {a}", "p.sml:1.21: E11 syntax error\n"),
    (
        "val x = case 1 of (1 | 2) => 3",
        "p.sml:1.22: E11 syntax error\n",
    ),
    (
        "datatype 'a t = datatype list",
        "p.sml:1.17: E11 syntax error\n",
    ),
    ("abstype t = A with end", "p.sml:1.1: E11 syntax error\n"),
    // E30: where an identifier is in scope, and what is one.
    (
        "val x = 1 and y = x",
        "p.sml:1.19: E30 unbound identifier x\n",
    ),
    (
        "val f = fn n => f n",
        "p.sml:1.17: E30 unbound identifier f\n",
    ),
    (
        "fun f 0 = 1 | f n = g (n - 1) fun g n = f n",
        "p.sml:1.21: E30 unbound identifier g\n",
    ),
    (
        "val () = let val y = 1 in () end val z = y",
        "p.sml:1.42: E30 unbound identifier y\n",
    ),
    (
        "fun f (x, y) = 1 | f (x, _) = y",
        "p.sml:1.31: E30 unbound identifier y\n",
    ),
    (
        "val x = 1 handle Fail s => 2 | _ => s",
        "p.sml:1.37: E30 unbound identifier s\n",
    ),
    (
        "type t = int and u = t",
        "p.sml:1.22: E30 unbound identifier t\n",
    ),
    (
        "datatype t = A of u type u = int",
        "p.sml:1.19: E30 unbound identifier u\n",
    ),
    (
        "val x = let datatype t = A in 1 end val y = A",
        "p.sml:1.45: E30 unbound identifier A\n",
    ),
    (
        "local exception E in fun f () = raise E end\nval x = f () handle E s => 1",
        "p.sml:2.21: E30 unbound identifier E\n",
    ),
    (
        "val f = fn x y => x",
        "p.sml:1.12: E30 unbound identifier x\n",
    ),
    (
        "fun f x : int y = 1",
        "p.sml:1.15: E30 unbound identifier y\n",
    ),
    (
        "fun f Int.A = 1",
        "p.sml:1.7: E30 unbound identifier Int.A\n",
    ),
    (
        "val x = fn (y : S.t) => y",
        "p.sml:1.17: E30 unbound identifier S.t\n",
    ),
    (
        "open Int.Int",
        "p.sml:1.6: E30 unbound identifier Int.Int\n",
    ),
    (
        "val r = ref (ref 1) val x = !!r",
        "p.sml:1.29: E30 unbound identifier !!\n",
    ),
    (
        "exception E = Int.E",
        "p.sml:1.15: E30 unbound identifier Int.E\n",
    ),
    // E31: expressions, patterns and what they are tried on.
    (
        "val x = case 1 of 1 => \"a\" | n => n",
        "p.sml:1.1: E31 no typing\n",
    ),
    (
        "val x = 1 handle Div => \"a\"",
        "p.sml:1.1: E31 no typing\n",
    ),
    (
        "val x = 1\nlocal val y = let val z = 1 ^ \"a\" in 2 end in\nval w = y end",
        "p.sml:2.1: E31 no typing\n",
    ),
    ("fun f 1 = 2 | f \"a\" = 3", "p.sml:1.1: E31 no typing\n"),
    (
        "val {a, b} = {a = 1, b = 2, c = 3}",
        "p.sml:1.1: E31 no typing\n",
    ),
    ("val x = #3 (1, 2)", "p.sml:1.1: E31 no typing\n"),
    ("fun f SOME = 1 | f _ = 2", "p.sml:1.1: E31 no typing\n"),
    ("fun f (NONE x) = 1", "p.sml:1.1: E31 no typing\n"),
    ("val ref = 1", "p.sml:1.1: E31 no typing\n"),
    (
        "exception E of int val x = 1\nval y = raise E",
        "p.sml:2.1: E31 no typing\n",
    ),
    ("val x = 1 exception E = x", "p.sml:1.11: E31 no typing\n"),
    // E31: overloading and equality.
    ("val x = 1 + 0w1", "p.sml:1.1: E31 no typing\n"),
    ("val x = #\"a\" + #\"b\"", "p.sml:1.1: E31 no typing\n"),
    ("val x = true < false", "p.sml:1.1: E31 no typing\n"),
    (
        "val x = 1 fun f x = x + x\nval a = f 1 val b = f 0w1",
        "p.sml:2.13: E31 no typing\n",
    ),
    ("val e = Div = Div", "p.sml:1.1: E31 no typing\n"),
    (
        "datatype ('a, 'b) t = A of 'a | B of 'b ref val x = B (ref print)\nval b = x = A 1",
        "p.sml:2.1: E31 no typing\n",
    ),
    (
        "fun 'a f (x : 'a, y : 'a) = x = y",
        "p.sml:1.1: E31 no typing\n",
    ),
    // E31: how general a type may be.
    (
        "val f = fn g => (g 1, g \"a\")",
        "p.sml:1.1: E31 no typing\n",
    ),
    (
        "fun f x = x and g y = (f 1, f \"a\", y)",
        "p.sml:1.1: E31 no typing\n",
    ),
    (
        "datatype 'a t = N | C of 'a * ('a * 'a) t\nfun size N = 0 | size (C (_, r)) = 1 + size r",
        "p.sml:2.1: E31 no typing\n",
    ),
    ("fun f x = [f]", "p.sml:1.1: E31 no typing\n"),
    ("fun 'a f (x : 'a) = x + 1", "p.sml:1.1: E31 no typing\n"),
    (
        "fun f (x : 'a) = let fun g (y : 'a) = y in (g 1, g \"a\") end",
        "p.sml:1.1: E31 no typing\n",
    ),
    (
        "fun f () = let val r = ref (nil : 'a list) in !r end",
        "p.sml:1.1: E31 no typing\n",
    ),
    (
        "val f = (fn x => x) (fn y => y) val a = f 1\nval b = f \"a\"",
        "p.sml:2.1: E31 no typing\n",
    ),
    (
        "fun f x y = x val g = f 1 val a = (g 2, g \"a\")",
        "p.sml:1.27: E31 no typing\n",
    ),
    (
        "val x = 1\nval f = let datatype t = A of int in A end",
        "p.sml:2.1: E31 no typing\n",
    ),
    (
        "datatype 'a t = A of 'a val x : (int, int) t = A 1",
        "p.sml:1.25: E31 no typing\n",
    ),
    // E32: records and values of which something stays open.
    (
        "val f = fn r => #a r val x = f {a = 1, b = 2}",
        "p.sml:1.1: E32 no principal typing\n",
    ),
    (
        "val p = let val f = fn r => #a r in (f {a = 1, b = 2}, f {a = \"x\", b = true}) end",
        "p.sml:1.1: E32 no principal typing\n",
    ),
    (
        "val x = (fn f => 1) (fn r => #a r)",
        "p.sml:1.1: E32 no principal typing\n",
    ),
    (
        "val x = 1\nval f = fn r => #a r",
        "p.sml:1.1: E32 no principal typing\n",
    ),
    (
        "fun f r = let fun g () = #a r in g () + #b (r : {a : int, b : int}) end",
        "p.sml:1.1: E32 no principal typing\n",
    ),
    (
        "fun f (x as {a, ...}) = x val y = f {a = 1}",
        "p.sml:1.1: E32 no principal typing\n",
    ),
    ("val x = raise Div", "p.sml:1.1: E32 no principal typing\n"),
    (
        "val x = 1 val (a, b) = (x, hd [])",
        "p.sml:1.1: E32 no principal typing\n",
    ),
    (
        "val f = let val c = ref 0 in fn x => (c := !c + 1; x) end",
        "p.sml:1.1: E32 no principal typing\n",
    ),
    (
        "exception E val f = (fn x => x) o (fn x => x)",
        "p.sml:1.1: E32 no principal typing\n",
    ),
    // E33: each restriction.
    (
        "val x = 1 val r = {a = 1, b = {c = 1, c = 2}}",
        "p.sml:1.31: E33 restriction broken\n",
    ),
    (
        "val {a = x, a = y} = {a = 1}",
        "p.sml:1.5: E33 restriction broken\n",
    ),
    (
        "val r = {1 = 1, 2 = 2, 1 = 3}",
        "p.sml:1.9: E33 restriction broken\n",
    ),
    (
        "exception E of {a : int, a : int}",
        "p.sml:1.16: E33 restriction broken\n",
    ),
    (
        "type ('a, 'a) t = int",
        "p.sml:1.6: E33 restriction broken\n",
    ),
    (
        "datatype ('a, 'b, 'a) t = A",
        "p.sml:1.10: E33 restriction broken\n",
    ),
    (
        "fun ('a, 'a) f x = x",
        "p.sml:1.5: E33 restriction broken\n",
    ),
    (
        "fun f (x : 'a) = let fun 'a g y = y in x end",
        "p.sml:1.26: E33 restriction broken\n",
    ),
    (
        "type 'a t = 'a * 'b",
        "p.sml:1.13: E33 restriction broken\n",
    ),
    (
        "fun 'a f (x : 'a) = let datatype t = T of 'a in x end",
        "p.sml:1.38: E33 restriction broken\n",
    ),
    (
        "type t = int and t = bool",
        "p.sml:1.1: E33 restriction broken\n",
    ),
    (
        "datatype t = A and u = B | A",
        "p.sml:1.1: E33 restriction broken\n",
    ),
    (
        "datatype t = A of u withtype u = int and t = int",
        "p.sml:1.1: E33 restriction broken\n",
    ),
    (
        "exception E and F and E of int",
        "p.sml:1.1: E33 restriction broken\n",
    ),
    (
        "val rec f = fn x => x and g = f",
        "p.sml:1.31: E33 restriction broken\n",
    ),
    (
        "val rec f = let in fn x => x end",
        "p.sml:1.13: E33 restriction broken\n",
    ),
    (
        "datatype t = A | ref",
        "p.sml:1.18: E33 restriction broken\n",
    ),
    ("exception it", "p.sml:1.11: E33 restriction broken\n"),
    (
        "exception op :: = Div",
        "p.sml:1.14: E33 restriction broken\n",
    ),
    ("fun x :: y = x", "p.sml:1.7: E33 restriction broken\n"),
    (
        "val rec nil = fn x => x",
        "p.sml:1.9: E33 restriction broken\n",
    ),
    ("fun op = (x, y) = x", "p.sml:1.8: E33 restriction broken\n"),
    (
        "fun f x = 1 and f y = 2",
        "p.sml:1.1: E33 restriction broken\n",
    ),
    (
        "val f = fn SOME (x, [x]) => 1",
        "p.sml:1.12: E33 restriction broken\n",
    ),
    (
        "val x = case 1 of y as z as y => 1",
        "p.sml:1.19: E33 restriction broken\n",
    ),
    (
        "fun f (x, y) z x = 1",
        "p.sml:1.5: E33 restriction broken\n",
    ),
    // E40: types over the limit.
    (
        "fun d x = (x, x)\nval f = fn x => d (d (d (d (d (d (d (d (d (d (d (d (d (d (d (d (d x))))))))))))))))",
        "p.sml:2.1: E40 type over 65536 nodes\n",
    ),
];

#[test]
fn programs_of_the_core_are_refused(rt: HostRuntime) -> Result<(), Fail> {
    for (sml, err) in REFUSED.iter() {
        check(&rt, rt.alloc(), &bad_sml(sml, err))?;
    }
    Ok(())
}
