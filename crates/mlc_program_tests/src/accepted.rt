// Programs of the core, one rule of the language or more in each, and what they print.

use crate::calls::{check, good};
use std::test::Fail;

// How phrases are written, how far they extend, and in what order they are evaluated.
const WRITTEN: [(&str, &str); 33] = [
    // Constants and lexis.
    (
        "val () = print (Int.toString (0x10 + ~0xF + ~1 + 007) ^ (if 0wxFF = 0w255 andalso 0w10 <> 0wx10 then \"y\" else \"n\"))",
        "7y",
    ),
    (
        "val () = print (\"\\097\\u0062\\\"\\\\\" ^ str #\"\\\"\" ^ str #\"\\\\\" ^ \"(*\" ^ \"*)\" ^ \"a\\  \n  \t\\b\")",
        "ab\"\\\"\\(**)ab",
    ),
    (
        "val () = print (Int.toString (ord #\"\\^@\" + ord #\"\\^_\" + ord #\"\\a\" + ord #\"\\u00ff\" + size \"\\^\\\" + size \"\\127\\000\"))",
        "296",
    ),
    ("val () = print (* \" (* \\ *) *) \"a\" (**) (***)", "a"),
    (
        "val a'b_1 = 2 val !! = fn x => x * a'b_1 val ## = 3 val () = print (Int.toString (!! ##))",
        "6",
    ),
    (
        "val () = print(Int.toString(abs~3+(op*)(6,7)))val x=fn _=>1;val f=fn()=>x();;",
        "45",
    ),
    // Records and tuples: labels of both kinds, tuples as records, punned fields.
    (
        "val r = {+ = 1, * = 2} val () = print (Int.toString (# + r + # * r) ^ #10 {2 = \"b\", 10 = \"c\", 1 = \"a\"})",
        "3c",
    ),
    (
        "val x = (1) val 1 = x val () = {} val {} = () val () = if {2 = \"b\", 1 = 1} = (1, \"b\") then print \"same\" else ()",
        "same",
    ),
    (
        "val {a = {b, ...}, c = (_, d), ...} = {c = (1, \"d\"), e = (), a = {z = 1, b = \"b\"}} val () = print (b ^ d)",
        "bd",
    ),
    (
        "val {a as SOME x, b : int as 1, c = _} = {a = SOME \"x\", b = 1, c = ()} val () = if isSome a then print x else ()",
        "x",
    ),
    (
        "val a = 1 val {a = b} = {a = a + 1} val r = {a = b, b = a} val {a, b} = r val () = print (Int.toString (a * 10 + b))",
        "21",
    ),
    (
        "fun f {1 = x, 2 = y} = x - y : int val (_, _, _, _, _, _, _, _, i, j, k) = (1, 2, 3, 4, 5, 6, 7, 8, 9, 10, 15)\n\
         val () = print (Int.toString (f (k, j)))",
        "5",
    ),
    // Fixities, their scopes and `op`.
    (
        "infix 6 ++ fun a ++ b = a * 10 + b infixr 6 -- fun a -- b = a - b : int\nval () = app (print o Int.toString) [1 ++ 2 * 3 ++ 4, 9 -- 4 -- 3]",
        "1648",
    ),
    (
        "val () = print (let infix ++ fun a ++ b = a ^ b in \"a\" ++ \"b\" end) val ++ = \"c\" val () = print ++",
        "abc",
    ),
    (
        "local infix ++ in fun a ++ b = a ^ b infix 5 ** end fun a ** b = ++ (b, a) val () = print (\"a\" ** \"b\" ** \"c\")",
        "cba",
    ),
    (
        "nonfix + val x = + (1, 2) infix 7 + infix 6 * val () = print (Int.toString (x * 2 * 3 + 4))",
        "42",
    ),
    (
        "infixr 5 ::: datatype 'a l = E | op ::: of 'a * 'a l fun len E = 0 | len (_ ::: r) = 1 + len r\nval () = print (Int.toString (len (1 ::: 2 ::: E)))",
        "2",
    ),
    (
        "infix ** exception op ** of int * int val () = (raise 1 ** 2) handle a ** b => print (Int.toString (a + b))",
        "3",
    ),
    (
        "val (op +, op -) = (op -, op +) fun op f op x = op x - 1 val eq = op = val () = if eq (op f 2, 5 + 2) then print \"eq\" else ()",
        "eq",
    ),
    (
        "infix ++ fun (x :: _) ++ y = x + y | [] ++ y = y val () = print (Int.toString ([4] ++ 1 + ([] ++ 2)))",
        "7",
    ),
    (
        "infixr 0 $ fun f $ x = f x infix 9 @@ fun f @@ x = f x val () = print $ Int.toString $ 3 + ~ @@ 4",
        "~1",
    ),
    // How far forms extend.
    (
        "val () = print (if true then if false then \"a\" else \"b\" else \"c\") val x = if false then 1 else 2 + 3 val 5 = x",
        "b",
    ),
    (
        "fun f (x, y) = case x of 1 => case y of 1 => \"a\" | z => \"b\" val () = print (f (1, 2) ^ (f (2, 2) handle Match => \"m\"))",
        "bm",
    ),
    (
        "val () = (raise Div handle Div => Fail \"x\") handle Div => print \"outer\" | _ => print \"inner\"",
        "outer",
    ),
    (
        "val f = fn x => x + 1 handle Overflow => 0 val () = (if f 2147483647 = 0 then raise Div else () handle Div => print \"a\") handle Div => print \"b\"",
        "b",
    ),
    (
        "val () = if true orelse true andalso false then print \"a\" else () val () = if not true orelse true then print \"b\" else ()",
        "ab",
    ),
    (
        "val () = print (let val x = 1; ; val y = 2; in print \"a\"; Int.toString (x + y : int) end) val () = let in () end",
        "a3",
    ),
    (
        "val f = fn 1 => fn 2 => \"a\" | _ => \"b\" val () = print (f 1 3) val g = f 2 handle Match => (print \"m\"; f 1) val () = print (g 2)",
        "bma",
    ),
    // The order of evaluation, and what is evaluated though nothing asks for it.
    (
        "fun f x = (print \"1\"; fn y => (print \"2\"; x + y)) val _ = (print \"0\"; f) (print \"a\"; 1) (print \"b\"; 2)",
        "0a1b2",
    ),
    (
        "val r = ref 0 val () = (print \"a\"; r) := (print \"b\"; 1) val {c, b} = {c = print \"c\", b = print \"d\"} val x = print \"e\" and y = print \"f\"",
        "abcdef",
    ),
    (
        "val r = ref 1 val () = print (Int.toString (!r + (r := 5; !r) + !r))",
        "11",
    ),
    (
        "val () = ((raise Div) (print \"a\")) handle Div => print \"d\" val _ = ((print \"b\"; raise Div) + (print \"c\"; 1)) handle Div => 1",
        "db",
    ),
    (
        "val () = (1 div 0; ()) handle Div => print \"d\" val () = (let val x = 2147483647 + 1 in () end) handle Overflow => print \"o\"",
        "do",
    ),
];

#[test]
fn phrases_are_read_and_evaluated(rt: HostRuntime) -> Result<(), Fail> {
    for (sml, out) in WRITTEN.iter() {
        check(&rt, rt.alloc(), &good(sml, out))?;
    }
    Ok(())
}

// What patterns match and bind, what identifiers are, and how general they are.
const NAMED: [(&str, &str); 27] = [
    // Patterns: which rule, and what it binds.
    (
        "fun f (0, _) = \"a\" | f (_, 0) = \"b\" | f _ = \"c\" | f (1, 1) = \"d\" val () = app (print o f) [(0, 0), (1, 0), (1, 1)]",
        "abc",
    ),
    (
        "datatype t = A | B | C fun f (A, _, A) = \"1\" | f (_, B, _) = \"2\" | f (C, _, _) = \"3\" | f (_, _, C) = \"4\" | f _ = \"5\"\n\
         val () = app (print o f) [(A, B, A), (A, B, B), (C, A, A), (B, A, C), (B, A, A)]",
        "12345",
    ),
    (
        "fun f (ref 0) = print \".\" | f (r as ref n) = (print (Int.toString n); r := n - 1; f r) val ref x = ref (ref 2) val () = f x",
        "21.",
    ),
    (
        "val f = fn (a : int as b) => a + b val (x as (y, z)) = (1, 2) val () = print (Int.toString (f 2 + #1 x + z))",
        "7",
    ),
    (
        "fun f (op :: (x, _)) = x | f _ = 0 fun g [x, 1, _] = x | g (_ :: r) = g r | g nil = 9 val () = print (Int.toString (f [4] + g [3, 5, 1, 2]))",
        "9",
    ),
    (
        "fun f ~1 = \"m\" | f 0x1f = \"h\" | f 31 = \"d\" | f ~2147483648 = \"l\" | f _ = \"o\" val () = app (print o f) [31, ~1, ~2147483648, 1]",
        "hmlo",
    ),
    (
        "fun f 0 0 = \"a\" | f 1 _ = \"b\" val g = f 2 val () = print \"c\" val () = print (g 0 handle Match => \"m\")",
        "cm",
    ),
    (
        "val () = (let val (1, x) = (2, \"a\") in print x end) handle Match => print \"m\" | Bind => print \"b\"",
        "b",
    ),
    (
        "exception A of int exception B = A fun f (A 1) = \"1\" | f (B 2) = \"2\" | f (A _) = \"o\" | f _ = \"x\"\n\
         val () = app (print o f) [B 1, A 2, B 3, Div]",
        "12ox",
    ),
    // Which identifiers are constructors, exceptions or variables, and where.
    (
        "datatype t = x | y fun f x = \"a\" | f y = \"b\" val () = print (f y) val () = print (case [1] of Nil => \"n\" | _ => \"c\")",
        "bn",
    ),
    (
        "local datatype t = A in end fun f A = A + 1 val () = print (Int.toString (f 4)) val () = (raise Div) handle Nope => print \"n\"",
        "5n",
    ),
    (
        "datatype t = A fun A x = x + 1 datatype u = B val rec B = fn x => x * 2 fun f B = B * 3 val () = print (Int.toString (f (B (A 1))))",
        "12",
    ),
    (
        "datatype int = I val x : int = I type string = bool val y : string = true datatype bool = Yes val () = case x of I => if y then print \"a\" else ()",
        "a",
    ),
    (
        "datatype t = t of t list fun f (t l) = length l val x : t = t [t [], t []] val () = print (Int.toString (f x))",
        "2",
    ),
    (
        "val x = 1 val x = x + 1 and y = x val f = fn n => n + x val f = fn n => f (f n) val x = 9 val () = print (Int.toString (f y))",
        "5",
    ),
    (
        "exception E fun f () = raise E exception E val () = f () handle E => print \"new\" | _ => print \"old\"",
        "old",
    ),
    (
        "datatype t = A of int val B = A exception Match = Fail\n\
         val () = (case A 1 of A n => case B n of A 2 => ()) handle Match _ => () | _ => print \"basis\"",
        "basis",
    ),
    (
        "val f = fn x => x + 1 val a = f 1 and rec f = fn 0 => 7 | x => f (x - 1) val () = print (Int.toString (a * 10 + f a))",
        "27",
    ),
    // Polymorphism, and the type variables that are written.
    (
        "fun f x = let fun g (y : 'a) = y in (g x, g \"a\") end val (a, b) = f 1 val () = print (Int.toString a ^ b)",
        "1a",
    ),
    (
        "fun f (x : 'a) = let val g = fn (y : 'a) => [x, y] val h = fn (z : 'b) => (z, x)\n\
         in (g x, h 1, h \"b\") end val (_, _, (a, b)) = f \"c\" val () = print (a ^ b)",
        "bc",
    ),
    (
        "val l = [[]] val a = [1] :: l val b = [\"b\"] :: l val SOME f = SOME (fn x => x) val () = print (f \"a\" ^ Int.toString (f (length a + length b)))",
        "a4",
    ),
    (
        "fun f n = let val r = ref [] in (r := n :: !r; length (!r)) end val n = length (nil : 'a list) val () = print (Int.toString (f 1 + f \"a\" + n))",
        "2",
    ),
    (
        "val r = let val x = ref nil in fn y => (x := y :: !x; !x) end val _ = r 1 val _ = rev [] val _ = ref [] val () = print (Int.toString (length (r 2)))",
        "2",
    ),
    (
        "datatype 'a w = W of 'a w -> 'a fun fix f = let fun g (W x) = f (fn n => x (W x) n) in g (W g) end\n\
         val () = print (Int.toString (fix (fn f => fn 0 => 1 | n => n * f (n - 1)) 5))",
        "120",
    ),
    (
        "type ('a, 'b) f = 'b -> 'a val f : (string, int) f = Int.toString type 'a p = int val x : bool p = 1 val () = print (f (x : string p))",
        "1",
    ),
    // Types that admit equality.
    (
        "val r = ref (fn x => x + 1) datatype t = T of (int -> int) ref * int\n\
         val () = print (if T (r, 1) = T (r, 1) andalso r <> ref (!r) then \"y\" else \"n\")",
        "y",
    ),
    (
        "datatype t = A and u = B of int -> int | C of t type 'a k = t val x : (int -> int) k = A val () = if [A] = [x] then print \"y\" else ()",
        "y",
    ),
];

#[test]
fn patterns_and_identifiers_have_their_meaning(rt: HostRuntime) -> Result<(), Fail> {
    for (sml, out) in NAMED.iter() {
        check(&rt, rt.alloc(), &good(sml, out))?;
    }
    Ok(())
}

// What types are, and exceptions, references and records.
const TYPED: [(&str, &str); 20] = [
    // Overloading, which the rest of the source may settle, and arithmetic at its edges.
    (
        "fun f x = x + x val y = f 0w2 val less = op < val () = if y = 0w4 andalso less (1, 2) then print \"y\" else ()",
        "y",
    ),
    (
        "fun f x = let fun g () = x < x in (g (), x ^ \"\") end val (b, s) = f \"a\" val () = print (if b then \"t\" else s)",
        "a",
    ),
    (
        "val n = ~2147483648 fun f g = print (Int.toString (g ())) handle Overflow => print \"o\"\n\
         val () = app f [fn () => ~n, fn () => abs n, fn () => n div ~1, fn () => n mod ~1, fn () => n * ~1, fn () => n + 1]",
        "ooo0o~2147483647",
    ),
    (
        "val () = if 0w0 - 0w1 = 0wxFFFFFFFF andalso 0wx80000000 * 0w2 = 0w0 andalso 0wxFFFFFFFF > 0w1 andalso ~ 0w1 mod 0w10 = 0w5 then print \"y\" else ()",
        "y",
    ),
    // Datatypes and abbreviations.
    (
        "datatype t = T of u * v | E withtype u = t list and v = string\n\
         fun f (T (l, s)) = s ^ concat (map f l) | f E = \"e\" val x : u * v = ([E], \"a\") val () = print (f (T x))",
        "ae",
    ),
    (
        "type t = int local type t = string and u = t in val x : u = 3 val y : t = \"y\" end type t = t list val z : t = [x] val () = print y",
        "y",
    ),
    // Exceptions.
    (
        "fun f (x : 'a) = let exception E of 'a in (raise E x) handle E y => y end val () = print (f \"a\" ^ Int.toString (f 1))",
        "a1",
    ),
    (
        "fun f () = let exception E in (E, fn E => \"m\" | _ => \"o\") end val (a, g) = f () val (b, h) = f () val () = print (g a ^ g b ^ h b ^ h a)",
        "momo",
    ),
    (
        "fun f g = g () handle e => (print \"c\"; raise e) val () = f (fn () => raise Fail \"f\") handle Div => print \"d\" | Fail s => print s",
        "cf",
    ),
    (
        "val () = (((raise Div) handle Div => raise Fail \"b\") handle Div => print \"d\") handle Fail s => print s",
        "b",
    ),
    (
        "val x = ((1 handle Div => 2) + (raise Div)) handle Div => 7 exception E of int\n\
         val l = map E [x] val () = print (case l of [E n] => Int.toString n | _ => \"\")",
        "7",
    ),
    // References and closures.
    (
        "val l = map ref [1, 2] val [a, _] = l val b = a val () = b := !b + 5 val () = op := (a, !b * 2) val () = app (print o Int.toString o !) l",
        "122",
    ),
    (
        "datatype t = N | C of int * t ref val r = ref N val c = C (1, r) val () = r := c\n\
         fun f (C (n, ref (C (m, _)))) = n + m | f _ = 0 val () = print (Int.toString (f c))",
        "2",
    ),
    (
        "fun counter () = let val n = ref 0 in fn () => (n := !n + 1; !n) end val c = counter () val d = counter ()\n\
         val _ = (c (), c (), d ()) val () = print (Int.toString (c () * 10 + d ()))",
        "32",
    ),
    (
        "val fs = ref [] val n = ref 0 val () = while !n < 3 do let val k = !n in fs := (fn () => k) :: !fs; n := k + 1 end\n\
         val () = app (fn f => print (Int.toString (f ()))) (!fs)",
        "210",
    ),
    // Records whose further fields the rest of their declaration settles.
    (
        "val f = fn r => let val x = #a r in x + #b (r : {a : int, b : int}) end val () = print (Int.toString (f {a = 1, b = 2}))",
        "3",
    ),
    (
        "fun f x = let val y = ref (fn r => #a r) in (!y) x + #b (x : {a : int, b : int}) end val () = print (Int.toString (f {a = 1, b = 2}))",
        "3",
    ),
    (
        "val g = fn r => (#a r + 0; let val h = fn y => (y, r) in h 1 end; r : {a : int, b : int}) val () = print (Int.toString (#b (g {a = 1, b = 2})))",
        "2",
    ),
    (
        "fun f r = (r : {a : int, b : int}; let fun g () = #a r in g () end)\n\
         val l = map #2 [(1, \"a\"), (2, \"b\")] val () = print (concat l ^ Int.toString (f {a = 1, b = 2}))",
        "ab1",
    ),
    // Types within the limit.
    (
        "fun d x = (x, x) val f = fn x => d (d (d (d (d (d (d (d x))))))) val () = print \"a\"",
        "a",
    ),
];

#[test]
fn types_are_those_of_the_definition(rt: HostRuntime) -> Result<(), Fail> {
    for (sml, out) in TYPED.iter() {
        check(&rt, rt.alloc(), &good(sml, out))?;
    }
    Ok(())
}
