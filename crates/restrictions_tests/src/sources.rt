// Declarations, and the byte where the first phrase stands that breaks a syntactic restriction.

/// A source, and a byte.
pub const SOURCES: [(&str, Option<u32>); 64] = [
    // Types of records.
    ("type t = {a : int, a : int}", Some(9)),
    ("type t = {a : int, b : {a : int}}", None),
    ("type t = int * {1 : int, 1 : int} -> int", Some(15)),
    // Patterns of records.
    ("val {a = x, a = y} = z", Some(4)),
    ("val {a = x, b = y} = z", None),
    ("val {a, ...} = z", None),
    ("fun f {a, a} = 1", Some(6)),
    ("val (x, y, [z, {b = 1, b = 2}]) = z", Some(15)),
    // Expressions of records.
    ("val x = {a = 1, a = 2}", Some(8)),
    // Inner ones first.
    ("val x = {a = {b = 1, b = 2}, a = 3}", Some(13)),
    ("val x = {a = 1, b = 2}", None),
    // Tuples and units are distinct.
    ("val x = ((), (1, 2, 3, 4), [1, 2], {1 = 1, 2 = 2})", None),
    // Derived forms.
    ("val x = if {a = 1, a = 2} then 1 else 2", Some(11)),
    ("val x = case 1 of _ => {a = 1, a = 2}", Some(23)),
    ("val x = while true do {a = 1, a = 2}", Some(22)),
    ("val x = (1; 2; {a = 1, a = 2})", Some(15)),
    ("val x = true andalso {a = 1, a = 2} orelse false", Some(21)),
    ("val x = 1 + {a = 1, a = 2} + 2", Some(12)),
    ("val x = 1 :: {a = 1, a = 2} :: nil", Some(13)),
    ("val x = #a {a = 1, a = 2}", Some(11)),
    ("val x = let val y = {a = 1, a = 2} in y end", Some(20)),
    ("val x = (raise e) handle f => {a = 1, a = 2}", Some(30)),
    ("val x = fn {a = y, b = z} => \"s\"", None),
    // Sequences of type variables.
    ("val ('a, 'a) x = 1", Some(4)),
    ("val ('a, 'b) x = 1", None),
    ("type ('a, 'a) t = int", Some(5)),
    ("datatype ('a, 'a) t = A", Some(9)),
    ("fun ('a, 'a) f x = x", Some(4)),
    // A right side with another variable.
    ("type t = 'a", Some(9)),
    ("type 'a t = 'a * int", None),
    ("type 'a t = int * 'b", Some(12)),
    ("datatype t = A of 'b", Some(13)),
    ("datatype 'a t = A | B of 'a * 'b", Some(16)),
    ("datatype 'a t = A of 'a | B", None),
    // Recursion of what is no function.
    ("val rec f = 1", Some(12)),
    ("val rec f = fn x => x", None),
    ("val rec f = (fn x => x)", None),
    ("val rec f = (fn x => x) 1", Some(12)),
    // Scoped already.
    ("fun 'a f x = let val 'a y = 1 in y end", Some(21)),
    ("fun f (x : 'a) = let val 'a y = 1 in y end", Some(25)),
    ("fun 'a f x = let val 'b y = 1 in y end", None),
    ("val x = let val 'a y = 1 in y end val 'a z = 2", None),
    // Constructors and exceptions.
    ("datatype t = A | B | A", Some(0)),
    ("datatype t = A and u = A", Some(0)),
    ("datatype t = A and t = B", Some(0)),
    ("type t = int and t = bool", Some(0)),
    ("type t = int type t = bool", None),
    ("datatype t = true", Some(13)),
    ("datatype t = it", Some(13)),
    ("exception it", Some(10)),
    ("exception ref of int", Some(10)),
    ("exception nil = Match", Some(10)),
    ("exception A and A", Some(0)),
    ("exception A exception A", None),
    // Withtype.
    ("datatype t = A of u withtype u = int", None),
    ("datatype t = A withtype t = int", Some(0)),
    ("datatype t = A withtype u = 'a", Some(28)),
    // An argument that is dropped.
    ("datatype t = A of 'b u withtype 'a u = int", None),
    ("datatype t = A of 'b u withtype 'a u = 'a * int", Some(13)),
    (
        "datatype t = A of {a : int, a : int} u withtype 'a u = int",
        None,
    ),
    (
        "datatype t = A of {a : int, a : int} u withtype 'a u = 'a",
        Some(18),
    ),
    // A wrong number of arguments.
    ("datatype t = A of ('b, 'b) u withtype 'a u = 'a", None),
    ("local datatype t = true in val x = 1 end", Some(19)),
    ("local val x = 1 in exception it end", Some(29)),
];
