// The places of identifiers after `op`, and of sequences of type variables.

use crate::reading::read;
use mlc_base::memory::NoMemory;
use mlc_base::place::Place;
use sml_tree::tree::{
    Bind, ConBind, DataBind, Dec, ExBind, Exp, Function, Pat, TypeBind, TyvarSeq,
};
use std::alloc::Global;
use std::test::Fail;

fn put(alloc: Global, text: &mut String, what: &str, place: Place) -> Result<(), NoMemory> {
    let byte = place.byte;
    text.push_str(format!(in alloc; "{what}{byte} ")?.as_str())?;
    Ok(())
}

// The place of a pattern and of the identifiers in its layers.
fn put_pat(alloc: Global, text: &mut String, pat: &Pat) -> Result<(), NoMemory> {
    match pat {
        Pat::Vid(place, _) => put(alloc, text, "vid ", *place),
        Pat::Con(place, vid_place, _, _) => {
            put(alloc, text, "con ", *place)?;
            put(alloc, text, "vid ", *vid_place)
        }
        Pat::As(place, _, _, _) => put(alloc, text, "as ", *place),
        Pat::Typed(place, inner, _) => {
            put(alloc, text, "typed ", *place)?;
            match inner.as_ref() {
                Pat::Vid(vid_place, _) => put(alloc, text, "vid ", *vid_place),
                _ => Ok(()),
            }
        }
        _ => Ok(()),
    }
}

fn put_bind(alloc: Global, text: &mut String, bind: &Bind) -> Result<(), NoMemory> {
    put(alloc, text, "bind ", bind.place)?;
    put_pat(alloc, text, &bind.pat)?;
    match &bind.exp {
        Exp::Vid(place, _) => put(alloc, text, "exp ", *place),
        _ => Ok(()),
    }
}

fn put_seq(alloc: Global, text: &mut String, tyvars: &TyvarSeq) -> Result<(), NoMemory> {
    put(alloc, text, "tyvars ", tyvars.place)
}

fn put_function(alloc: Global, text: &mut String, function: &Function) -> Result<(), NoMemory> {
    put(alloc, text, "function ", function.place)?;
    put(alloc, text, "vid ", function.vid_place)
}

fn put_con(alloc: Global, text: &mut String, con: &ConBind) -> Result<(), NoMemory> {
    put(alloc, text, "con ", con.place)
}

fn put_data(alloc: Global, text: &mut String, bind: &DataBind) -> Result<(), NoMemory> {
    put(alloc, text, "data ", bind.place)?;
    for con in bind.cons.as_slice() {
        put_con(alloc, text, con)?;
    }
    Ok(())
}

fn put_exception(alloc: Global, text: &mut String, bind: &ExBind) -> Result<(), NoMemory> {
    match bind {
        ExBind::New(place, _, _) => put(alloc, text, "new ", *place),
        ExBind::Same(place, _, same_place, _) => {
            put(alloc, text, "new ", *place)?;
            put(alloc, text, "same ", *same_place)
        }
    }
}

fn put_type(alloc: Global, text: &mut String, bind: &TypeBind) -> Result<(), NoMemory> {
    put(alloc, text, "type ", bind.place)
}

// The places in a declaration, in the order of the text.
fn put_dec(alloc: Global, text: &mut String, dec: &Dec) -> Result<(), NoMemory> {
    match dec {
        Dec::Val(_, tyvars, plain, _) => {
            put_seq(alloc, text, tyvars)?;
            for bind in plain.as_slice() {
                put_bind(alloc, text, bind)?;
            }
            Ok(())
        }
        Dec::Fun(_, tyvars, functions) => {
            put_seq(alloc, text, tyvars)?;
            for function in functions.as_slice() {
                put_function(alloc, text, function)?;
            }
            Ok(())
        }
        Dec::Abbreviation(_, binds) => {
            for bind in binds.as_slice() {
                put_type(alloc, text, bind)?;
            }
            Ok(())
        }
        Dec::Datatype(_, binds) => {
            for bind in binds.as_slice() {
                put_data(alloc, text, bind)?;
            }
            Ok(())
        }
        Dec::Exception(_, binds) => {
            for bind in binds.as_slice() {
                put_exception(alloc, text, bind)?;
            }
            Ok(())
        }
        _ => Ok(()),
    }
}

fn shown_places(alloc: Global, source: &str) -> Result<String, NoMemory> {
    let mut text = String::new(alloc);
    if source.len() > 1000 {
        return Ok(text);
    }
    if let Ok(core) = read(alloc, source.as_bytes()) {
        for dec in core.decs.as_slice() {
            put_dec(alloc, &mut text, dec)?;
        }
    }
    Ok(text)
}

#[test]
fn identifiers_after_op_have_their_own_places(rt: HostRuntime) -> Result<(), Fail> {
    let rows = [
        ("val x = op +", "tyvars 0 bind 4 vid 4 exp 11 "),
        ("val x = op A.b", "tyvars 0 bind 4 vid 4 exp 11 "),
        ("val x = op =", "tyvars 0 bind 4 vid 4 exp 11 "),
        ("val op x = y", "tyvars 0 bind 4 vid 7 exp 11 "),
        ("val op C x = y", "tyvars 0 bind 4 con 4 vid 7 exp 13 "),
        ("val C x = y", "tyvars 0 bind 4 con 4 vid 4 exp 10 "),
        ("val op x as z = y", "tyvars 0 bind 4 as 7 exp 16 "),
        ("val op x : t as z = y", "tyvars 0 bind 4 as 7 exp 20 "),
        ("val op x : t = y", "tyvars 0 bind 4 typed 4 vid 7 exp 15 "),
        ("fun op f x = y", "tyvars 0 function 4 vid 7 "),
        ("fun f x = y", "tyvars 0 function 4 vid 4 "),
        ("fun op + x = y", "tyvars 0 function 4 vid 7 "),
        ("fun x + z = y", "tyvars 0 function 4 vid 6 "),
        ("fun op x + z = y", "tyvars 0 function 4 vid 9 "),
        ("fun (x + z) w = y", "tyvars 0 function 4 vid 7 "),
        ("datatype t = op C | D", "data 9 con 16 con 20 "),
        ("exception op E", "new 13 "),
        ("exception op E = op F", "new 13 same 20 "),
        ("exception E = F.G", "new 10 same 14 "),
    ];
    let mut read = 0;
    for (source, want) in rows {
        let got = shown_places(rt.alloc(), source)?;
        assert!(rt; got.as_str() == want, "{source}: {got}");
        assert!(rt; read < 1000);
        read += 1;
    }
    assert_eq!(rt; read, 19);
    Ok(())
}

#[test]
fn type_variables_have_a_place(rt: HostRuntime) -> Result<(), Fail> {
    let rows = [
        ("val 'a x = y", "tyvars 4 bind 7 vid 7 exp 11 "),
        ("val ('a, 'b) x = y", "tyvars 4 bind 13 vid 13 exp 17 "),
        ("val x = y", "tyvars 0 bind 4 vid 4 exp 8 "),
        ("fun 'a f x = y", "tyvars 4 function 7 vid 7 "),
        ("fun ('a) f x = y", "tyvars 4 function 9 vid 9 "),
        ("type 'a t = int and u = int", "type 5 type 20 "),
        ("type ('a, 'b) t = int", "type 5 "),
        ("datatype 'a t = C", "data 9 con 16 "),
    ];
    let mut read = 0;
    for (source, want) in rows {
        let got = shown_places(rt.alloc(), source)?;
        assert!(rt; got.as_str() == want, "{source}: {got}");
        assert!(rt; read < 1000);
        read += 1;
    }
    assert_eq!(rt; read, 8);
    Ok(())
}
