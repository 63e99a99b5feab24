// Texts that are read, and texts that are refused, with the place.

ghost use Rattle.std.specs.Prelude.{◌<◌, ◌^◌, ◌+◌, length};

use crate::reading::{read, shown};
use mlc_base::memory::NoMemory;
use mlc_base::place::Place;
use mlc_faults::refused::Refused;
use mlc_names::names::Names;
use sml_lexer::lex::lex;
use sml_tree::tree::{Bind, Dec, Exp, Joint, Part};
use std::alloc::Global;
use std::test::Fail;

// Texts, each with the number of its declarations or with the refusal's code and place after a byte 1; a byte 2 ends a row.
static TABLE: &[u8] = b"\
    \x010\x02\
    ;;val x = 1;;\x011\x02\
    val x = ;\x01E11 at 8\x02\
    val x = \x01E11 at 8\x02\
    infixr 5 ++ infix 5 -- val z = 1 ++ 2 -- 3\x01E11 at 38\x02\
    val x = fn x => x : int\x011\x02\
    val x = raise e handle m => 1\x011\x02\
    val x = if a then b else c : t\x011\x02\
    val x = a andalso raise b orelse c\x011\x02\
    val x = a andalso (raise b) orelse c\x011\x02\
    val x = 1 + raise b\x01E11 at 12\x02\
    val x = f x handle E => 1 | F => 2\x011\x02\
    val x = (a orelse b) handle m => 1\x011\x02\
    val x = (x : t) + y\x011\x02\
    val x = x : t * y\x011\x02\
    val x = op + (1, 2)\x011\x02\
    val x = (op +)\x011\x02\
    val x = +\x01E11 at 8\x02\
    val x = 1 +\x01E11 at 11\x02\
    val rec f = fn x => x and g = fn y => y\x011\x02\
    infix 5 ++ fun (x ++ y) z = x\x011\x02\
    infix 5 ++ fun x ++ y = x\x011\x02\
    infix 5 ++ fun (x ++ y) ++ z = x\x011\x02\
    infix 5 ++ fun ((x ++ y)) z = x\x01E11 at 26\x02\
    fun f 0 = 1 | g 1 = 2\x01E11 at 18\x02\
    fun f x = 1 | f x y = 2\x01E11 at 20\x02\
    fun f x : int = 1 | f y = 2\x011\x02\
    fun f = 1\x01E11 at 6\x02\
    val x = let infix 5 ++ in a ++ b end ++ c\x011\x02\
    val x = let infix 5 ++ in ++ end\x01E11 at 26\x02\
    val x = let infix 5 ++ in 1 end val y = ++\x012\x02\
    local infix 5 ++ in val x = a ++ b end val y = ++\x012\x02\
    local in infix 5 ++ end val y = ++\x01E11 at 32\x02\
    val {a = 1, ...} = r\x011\x02\
    val {a, b : int as 3} = r\x011\x02\
    val {a, ..., b} = r\x01E11 at 11\x02\
    val x = #1 y\x011\x02\
    val x = #0 y\x01E11 at 9\x02\
    val x = f x y\x011\x02\
    infix x val z = f x y\x011\x02\
    val x as y : int = 1\x011\x02\
    val x : int as y = 1\x011\x02\
    val (x as y) : int = 1\x011\x02\
    val x as y as z = 1\x011\x02\
    val x : int -> int * int -> int = 1\x011\x02\
    val x : int * = 1\x01E11 at 14\x02\
    type 'a t = 'a list and ('a, 'b) u = {a : 'a, 2 : 'b}\x011\x02\
    datatype 'a t = A | B of 'a t * int and u = op C\x011\x02\
    datatype t = A of u withtype u = int\x011\x02\
    datatype t = datatype A.t\x011\x02\
    exception E and F of int and G = A.E\x011\x02\
    open A B.C\x011\x02\
    nonfix + val x = + (1, 2)\x011\x02\
    infix 10 x\x01E11 at 6\x02\
    infix 4 =\x01E11 at 8\x02\
    val x = case a of 1 => case b of 1 => 2 | _ => 3\x011\x02\
    val x = (case a of 1 => 2) | _ => 3\x01E11 at 27\x02\
    val x = while a do b; c\x01E11 at 22\x02\
    val x = (a; b; c)\x011\x02\
    val x = (a; b;)\x01E11 at 14\x02\
    val x = [a, b,]\x01E11 at 14\x02\
    val x = {a = 1, 2 = b}\x011\x02\
    val x = {a}\x01E11 at 10\x02\
    val x = let val y = 1; val z = 2 in y; z end\x011\x02\
    val x = let in end\x01E11 at 15\x02\
    val 'a x = 1 val ('a, 'b) y = 2\x012\x02\
    val x = y end\x01E11 at 10\x02\
    structure A = B\x01E11 at 0\x02\
";

#[test]
fn reads_what_the_grammar_says(rt: HostRuntime) -> Result<(), Fail> {
    let mut rows = 0;
    for row in TABLE.split(|b| *b == 2) {
        let mut parts = row.split(|b| *b == 1);
        if let (Some(text), Some(want)) = (parts.next(), parts.next()) {
            assert!(rt; text.len() < 1000);
            let got = shown(rt.alloc(), text)?;
            assert!(rt; got.as_bytes() == want, "row {rows}: {got}");
            assert!(rt; rows < 1000);
            rows += 1;
        }
    }
    assert_eq!(rt; rows, 68);
    Ok(())
}

// Reserved words that begin no expression, and `op`, which needs its identifier; `=` is an identifier.
static OTHERS: &[u8] =
    b"abstype and andalso as datatype do else end eqtype exception fun functor handle in include infix infixr local nonfix of op open orelse rec \
    sharing sig signature struct structure then type val where with withtype ) ] } , ; ... _ : :> | => ->";

// Those that begin one, of which each needs more after it.
static STARTS: &[u8] = b"case fn if let raise while # ( [ {";

// Whether `val x = ` and this word is a syntax error at this byte.
fn stops_at(alloc: Global, word: &[u8], byte: usize) -> Result<bool, NoMemory> {
    let mut text = Vec::new(alloc);
    text.extend_from_slice(b"val x = ")?;
    text.extend_from_slice(word)?;
    if text.len() > 1000 {
        return Ok(false);
    }
    let got = shown(alloc, &text)?;
    let want = format!(in alloc; "E11 at {byte}")?;
    Ok(got.as_str() == want.as_str())
}

#[test]
fn words_that_begin_no_expression_are_refused(rt: HostRuntime) -> Result<(), Fail> {
    let mut words = 0;
    for word in OTHERS.split(|b| *b == b' ') {
        assert!(rt; stops_at(rt.alloc(), word, 8)?, "word {words}");
        assert!(rt; words < 1000);
        words += 1;
    }
    assert_eq!(rt; words, 47);
    Ok(())
}

#[test]
fn words_that_begin_an_expression_need_more(rt: HostRuntime) -> Result<(), Fail> {
    let mut words = 0;
    for word in STARTS.split(|b| *b == b' ') {
        assert!(rt; word.len() < 1000);
        assert!(rt; stops_at(rt.alloc(), word, 8 + word.len())?, "word {words}");
        assert!(rt; words < 1000);
        words += 1;
    }
    assert_eq!(rt; words, 10);
    Ok(())
}

fn push_many(text: &mut Vec<u8>, bytes: &[u8], times: u32) -> Result<(), NoMemory> {
    for _ in 0..times {
        text.extend_from_slice(bytes)?;
    }
    Ok(())
}

// `val x = `, opening brackets, `1` and closing ones.
fn brackets(alloc: Global, times: u32) -> Result<Vec<u8>, NoMemory> {
    let mut text = Vec::new(alloc);
    push_many(&mut text, b"val x = ", 1)?;
    push_many(&mut text, b"(", times)?;
    push_many(&mut text, b"1", 1)?;
    push_many(&mut text, b")", times)?;
    Ok(text)
}

#[test]
fn phrases_are_at_most_400_deep(rt: HostRuntime) -> Result<(), Fail> {
    let deep = [
        (100, "1"),
        (399, "1"),
        (400, "E14 at 408"),
        (500, "E14 at 408"),
    ];
    for (times, want) in deep {
        let text = brackets(rt.alloc(), times)?;
        assert!(rt; text.len() < 2000);
        let got = shown(rt.alloc(), &text)?;
        assert!(rt; got.as_str() == want, "{times}: {got}");
    }
    Ok(())
}

// The number of rules of the function that an application's operator is.
fn operator_rules(exp: &Exp) -> usize {
    match exp {
        Exp::Apply(_, function, _) => match function.as_ref() {
            Exp::Fn(_, rules) => rules.len(),
            _ => 0,
        },
        _ => 0,
    }
}

fn first_clause_rules(decs: &[Dec]) -> usize {
    match decs {
        [Dec::Fun(_, _, functions), ..] => match functions.as_slice() {
            [function, ..] => match function.clauses.as_slice() {
                [clause, ..] => operator_rules(&clause.exp),
                _ => 0,
            },
            _ => 0,
        },
        _ => 0,
    }
}

#[test]
fn the_inner_case_takes_the_last_rule(rt: HostRuntime) -> Result<(), Fail> {
    let text =
        b"fun f x y = case x of 1 => case y of 1 => \"p\" | _ => \"q\" val () = print (f 2 1)";
    match read(rt.alloc(), text) {
        Ok(core) => {
            assert_eq!(rt; core.decs.len(), 2);
            assert_eq!(rt; first_clause_rules(&core.decs), 1);
        }
        Err(_) => assert!(rt; false),
    }
    Ok(())
}

fn push_place(alloc: Global, text: &mut String, place: Place) -> Result<(), NoMemory> {
    let (file, byte) = (place.file, place.byte);
    text.push_str(format!(in alloc; "{file}.{byte} ")?.as_str())?;
    Ok(())
}

fn push_vid(alloc: Global, text: &mut String, exp: &Exp) -> Result<(), NoMemory> {
    match exp {
        Exp::Vid(place, _) => push_place(alloc, text, *place),
        _ => Err(NoMemory),
    }
}

fn push_parts(alloc: Global, text: &mut String, parts: &[Part]) -> Result<(), NoMemory> {
    for part in parts {
        if let Joint::Infix(place, _) = part.joint {
            push_place(alloc, text, place)?;
        }
        push_vid(alloc, text, &part.exp)?;
    }
    Ok(())
}

// The places of a chain and its parts, where a declaration binds one.
fn chain_shown(alloc: Global, dec: &Dec) -> Result<String, NoMemory> {
    let mut text = String::new(alloc);
    if let Dec::Val(place, _, plain, _) = dec {
        push_place(alloc, &mut text, *place)?;
        if let [
            Bind {
                exp: Exp::Chain(place, right, first, parts),
                ..
            },
        ] = plain.as_slice()
        {
            push_place(alloc, &mut text, *place)?;
            text.push_str(if *right { "right " } else { "left " })?;
            push_vid(alloc, &mut text, first)?;
            push_parts(alloc, &mut text, parts)?;
        }
    }
    Ok(text)
}

#[test]
fn a_chain_has_its_tree(rt: HostRuntime) -> Result<(), Fail> {
    let mut shapes = 0;
    let rows = [
        ("val x = y - y - y", "7.0 7.8 left 7.8 7.10 7.12 7.14 7.16 "),
        (
            "val x = y :: y :: y",
            "7.0 7.8 right 7.8 7.10 7.13 7.15 7.18 ",
        ),
    ];
    for (text, want) in rows {
        match read(rt.alloc(), text.as_bytes()) {
            Ok(core) => {
                for dec in core.decs.as_slice() {
                    let got = chain_shown(rt.alloc(), dec)?;
                    assert!(rt; got.as_str() == want, "{got}");
                    assert!(rt; shapes < 1000);
                    shapes += 1;
                }
            }
            Err(_) => assert!(rt; false),
        }
    }
    assert_eq!(rt; shapes, 2);
    Ok(())
}

// Each form, whose fronts are cut off after each token, with the number of fronts that are declarations, the empty one and the whole among them.
static FORMS: &[u8] = b"\
    val x = if a then b else c\x012\x02\
    val x = while a do b\x012\x02\
    val x = case a of b => c | d => e\x013\x02\
    val x = fn a => b | c => d\x013\x02\
    val x = raise a\x012\x02\
    val x = a handle b => c\x013\x02\
    val x = let val y = 1 in y; z end\x012\x02\
    val x = a andalso b orelse c\x014\x02\
    fun f x y = z and g (x, y) = y\x013\x02\
    type 'a t = int list and u = int\x014\x02\
    datatype t = A of int | B withtype u = int\x015\x02\
    datatype t = datatype A.t\x012\x02\
    exception E of int and F = G\x015\x02\
    local val x = 1 in val y = 2 end\x012\x02\
    open A B\x013\x02\
    infix 3 x y\x013\x02\
    infixr x y\x013\x02\
    nonfix x\x012\x02\
";

// How many fronts of a text, each of whole tokens, are declarations; the others are syntax errors.
fn fronts(alloc: Global, text: &[u8]) -> Result<u32, Refused>
    requires { length text.now + 1 < 2 ^ 32 }
{
    let mut names = Names::new(alloc)?;
    let tokens = lex(alloc, &mut names, 7, text)?;
    let mut whole = 1;
    for token in tokens.as_slice() {
        let end = token.span.end as usize;
        if end <= text.len() && whole < 1000 {
            match read(alloc, &text[..end]) {
                Ok(_) => whole += 1,
                Err(Refused::Memory) => return Err(Refused::Memory),
                Err(Refused::Fault(_)) => (),
            }
        }
    }
    Ok(whole)
}

#[test]
fn forms_that_are_cut_off_are_refused(rt: HostRuntime) -> Result<(), Fail> {
    let mut rows = 0;
    for row in FORMS.split(|b| *b == 2) {
        let mut parts = row.split(|b| *b == 1);
        if let (Some(text), Some(want)) = (parts.next(), parts.next()) {
            assert!(rt; text.len() < 1000);
            match fronts(rt.alloc(), text) {
                Ok(count) => {
                    let got = format!(in rt.alloc(); "{count}")?;
                    assert!(rt; got.as_bytes() == want, "row {rows}: {got}");
                }
                Err(_) => assert!(rt; false),
            }
            assert!(rt; rows < 1000);
            rows += 1;
        }
    }
    assert_eq!(rt; rows, 18);
    Ok(())
}
