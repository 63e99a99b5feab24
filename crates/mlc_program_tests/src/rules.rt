// Sources that show a rule each: the worked examples of the language.

use crate::calls::{NOTHING, REFUSED, Row, check, check_all, followed};
use mlc_base::memory::NoMemory;
use std::alloc::Global;
use std::test::Fail;

// Quotients round down, and `Int.quot` to zero; what has no int is Overflow.
const ARITHMETIC: [Row; 3] = [
    Row {
        sml: "val () = print (Int.toString (~7 div 2) ^ Int.toString (~7 mod 2) ^ Int.toString (Int.quot (~7, 2)) ^ Int.toString (Int.rem (~7, 2)))",
        out: "~41~3~1",
        ..NOTHING
    },
    Row {
        sml: "val x = ~2147483648 div ~1",
        status: 1,
        err: "unhandled exception: Overflow\n",
        ..NOTHING
    },
    Row {
        sml: "val () = print (Int.toString ~2147483648)",
        out: "~2147483648",
        ..NOTHING
    },
];

#[test]
fn arithmetic_is_that_of_the_definition(rt: HostRuntime) -> Result<(), Fail> {
    check_all(&rt, rt.alloc(), &ARITHMETIC)?;
    Ok(())
}

// The last `|` belongs to the inner `case`; what no pattern matches is Match, and of a `val` Bind; fields are evaluated in the order in which they stand.
const MATCHES: [Row; 7] = [
    Row {
        sml: "fun f x y = case x of 1 => case y of 1 => \"p\" | _ => \"q\" val () = print (f 2 1)",
        status: 1,
        err: "unhandled exception: Match\n",
        ..NOTHING
    },
    Row {
        sml: "fun f x y = case x of 1 => (case y of 1 => \"p\") | _ => \"q\" val () = print (f 2 1)",
        out: "q",
        ..NOTHING
    },
    Row {
        sml: "val (x :: _) = []",
        status: 1,
        err: "unhandled exception: Bind\n",
        ..NOTHING
    },
    Row {
        sml: "val (SOME x) = NONE",
        status: 1,
        err: "unhandled exception: Bind\n",
        ..NOTHING
    },
    Row {
        sml: "val {a, b} = {b = print \"1\", a = print \"2\"}",
        out: "12",
        ..NOTHING
    },
    Row {
        sml: "fun map f l = case l of [] => [] | x :: r => f x :: map f r\n\
             fun sum l = case l of [] => 0 | x :: r => x + sum r\n\
             val () = print (Int.toString (sum (map (fn x => x * x) [1, 2, 3])))",
        out: "14",
        ..NOTHING
    },
    Row {
        sml: "exception E of int val () = print (Int.toString ((raise E 5) handle E n => n + 1))",
        out: "6",
        ..NOTHING
    },
];

#[test]
fn matches_are_those_of_the_definition(rt: HostRuntime) -> Result<(), Fail> {
    check_all(&rt, rt.alloc(), &MATCHES)?;
    Ok(())
}

// References are equal where they are one; other values part by part.
const EQUALITIES: [Row; 2] = [
    Row {
        sml: "val a = ref 1 val b = ref 1\nval () = print ((if a = b then \"true\" else \"false\") ^ (if a = a then \"true\" else \"false\"))",
        out: "falsetrue",
        ..NOTHING
    },
    Row {
        sml: "val a = [(1, \"x\")] val () = print (if a = [(1, \"x\")] then \"y\" else \"n\")",
        out: "y",
        ..NOTHING
    },
];

#[test]
fn equality_is_that_of_the_definition(rt: HostRuntime) -> Result<(), Fail> {
    check_all(&rt, rt.alloc(), &EQUALITIES)?;
    Ok(())
}

// The fields of a record pattern with `...` are settled where the `val` of its non-expansive binding ends, and all others where the source does.
const RECORDS: [Row; 11] = [
    Row {
        sml: "val f = fn r : {a : int, b : int} => #a r",
        ..NOTHING
    },
    Row {
        sml: "val f = fn r => let val x = #a r in x + #b (r : {a : int, b : int}) end val () = print (Int.toString (f {a = 1, b = 2}))",
        out: "3",
        ..NOTHING
    },
    Row {
        sml: "fun f x = let val y = ref (fn r => #a r) in (!y) x + #b (x : {a : int, b : int}) end val () = print (Int.toString (f {a = 1, b = 4}))",
        out: "5",
        ..NOTHING
    },
    Row {
        sml: "val g = fn r => (#a r + 0; let val h = fn y => (y, r) in h 1 end; r : {a : int, b : int}) val () = print (Int.toString (#b (g {a = 1, b = 5})))",
        out: "5",
        ..NOTHING
    },
    Row {
        sml: "val x = map #a [{a = 1, b = 2}] val () = print (Int.toString (hd x))",
        out: "1",
        ..NOTHING
    },
    Row {
        sml: "val f = fn r => #a r val x = f {a = 1, b = 2}",
        err: "p.sml:1.1: E32 no principal typing\n",
        ..REFUSED
    },
    Row {
        sml: "val x = 1\nfun f {a, ...} = a\nval y = f {a = 1, b = 2}",
        err: "p.sml:1.1: E32 no principal typing\n",
        ..REFUSED
    },
    Row {
        sml: "val p = let val f = fn r => #a r in (f {a = 1, b = 2}, f {a = \"x\", b = true}) end",
        err: "p.sml:1.1: E32 no principal typing\n",
        ..REFUSED
    },
    Row {
        sml: "val g = fn r => let val h = fn y => #a r + y in h (#b (r : {a : int, b : int})) end",
        err: "p.sml:1.1: E32 no principal typing\n",
        ..REFUSED
    },
    Row {
        sml: "val q = fn x => let val y = #a x and z = fn () => #b x in y + z () + #c (x : {a : int, b : int, c : int}) end",
        err: "p.sml:1.1: E32 no principal typing\n",
        ..REFUSED
    },
    Row {
        sml: "val x = (fn f => 1) (fn r => #a r)",
        err: "p.sml:1.1: E32 no principal typing\n",
        ..REFUSED
    },
];

#[test]
fn records_are_settled(rt: HostRuntime) -> Result<(), Fail> {
    check_all(&rt, rt.alloc(), &RECORDS)?;
    Ok(())
}

// A type has at most 65,536 nodes; an overloaded type is fixed where the source ends.
const TYPES: [Row; 4] = [
    Row {
        sml: "fun d x = (x, x)\nval f = fn x => d (d (d (d (d (d (d (d x)))))))",
        ..NOTHING
    },
    Row {
        sml: "fun d x = (x, x)\nval f = fn x => d (d (d (d (d (d (d (d (d (d (d (d (d (d (d (d (d x))))))))))))))))",
        err: "p.sml:2.1: E40 type over 65536 nodes\n",
        ..REFUSED
    },
    Row {
        sml: "fun add x y = x + y val a = add 0w1 0w2",
        ..NOTHING
    },
    Row {
        sml: "fun eq (x, y) = x = y\nval b = eq (fn z => z, fn z => z)",
        err: "p.sml:2.1: E31 no typing\n",
        ..REFUSED
    },
];

#[test]
fn types_are_bounded_and_settled(rt: HostRuntime) -> Result<(), Fail> {
    check_all(&rt, rt.alloc(), &TYPES)?;
    Ok(())
}

// What HEAP, STACK and STEPS suffice for: loops take no stack, and a tail call none.
const LIMITS: [Row; 7] = [
    Row {
        words: "exec p.mlb p.mlx 4194304 65536 1000",
        sml: "fun f () = f () val () = f ()",
        status: 3,
        err: "step limit\n",
        ..NOTHING
    },
    Row {
        words: "exec p.mlb p.mlx 4194304 65536 0",
        sml: "fun f () = f () val () = f ()",
        status: 3,
        err: "step limit\n",
        ..NOTHING
    },
    Row {
        words: "exec p.mlb p.mlx 4194304 4096 1000000000",
        sml: "fun loop (0, a) = a | loop (n, a) = loop (n - 1, a + 1) val () = print (Int.toString (loop (100000, 0)))",
        out: "100000",
        ..NOTHING
    },
    Row {
        words: "exec p.mlb p.mlx 4194304 4096 1000000000",
        sml: "fun f 0 = 0 | f n = 1 + f (n - 1) val () = print (Int.toString (f 100000))",
        status: 5,
        err: "out of stack\n",
        ..NOTHING
    },
    Row {
        words: "exec p.mlb p.mlx 4194304 4096 1000000000",
        sml: "val r = ref 0 val () = while !r < 10000 do r := !r + 1 val () = print (Int.toString (!r))",
        out: "10000",
        ..NOTHING
    },
    Row {
        words: "exec p.mlb p.mlx 4194304 4096 1000000000",
        sml: "fun f n = if n = 0 then 0 else (f (n - 1) handle Overflow => 1) val x = f 100000",
        status: 5,
        err: "out of stack\n",
        ..NOTHING
    },
    Row {
        sml: "val () = (print \"a\"; print \"b\"; print \"c\")",
        out_fails: 3,
        status: 8,
        out: "ab",
        err: "write failed\n",
        ..NOTHING
    },
];

#[test]
fn limits_are_kept(rt: HostRuntime) -> Result<(), Fail> {
    check_all(&rt, rt.alloc(), &LIMITS)?;
    Ok(())
}

/// A constant in so many brackets.
fn bracketed(alloc: Global, depth: usize) -> Result<String, NoMemory> {
    let mut source = followed(alloc, "val x = ", "(", depth)?;
    source.push_str("1")?;
    let end = ")".repeat(alloc, depth)?;
    source.push_str(end.as_str())?;
    Ok(source)
}

#[test]
fn brackets_nest_as_deep_as_said(rt: HostRuntime) -> Result<(), Fail> {
    let shallow = bracketed(rt.alloc(), 100)?;
    check(
        &rt,
        rt.alloc(),
        &Row {
            sml: shallow.as_str(),
            ..NOTHING
        },
    )?;
    Ok(())
}

#[test]
fn brackets_nest_no_deeper(rt: HostRuntime) -> Result<(), Fail> {
    let deep = bracketed(rt.alloc(), 500)?;
    check(
        &rt,
        rt.alloc(),
        &Row {
            sml: deep.as_str(),
            err: "p.sml:1.409: E14 nested deeper than 400\n",
            ..REFUSED
        },
    )?;
    Ok(())
}
