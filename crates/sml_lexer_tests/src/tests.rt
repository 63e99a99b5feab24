// Texts and their tokens, by the Definition.

use crate::shown::shown;
use mlc_base::memory::NoMemory;
use mlc_faults::refused::Refused;
use mlc_names::names::Names;
use sml_lexer::lex::lex;
use std::alloc::Global;
use std::process::Abort;
use std::test::Fail;

// Texts, each with its tokens and their spans, or with the refusal's code and place, after a byte 1; a byte 2 ends a row.
static TABLE: &[u8] = b"\
    abstype and andalso as case datatype do else end eqtype exception fn fun functor handle if in include infix infixr let local nonfix of op open orelse \
        raise rec sharing sig signature struct structure then type val where while with withtype \
        \x01Abstype 0-7; And 8-11; Andalso 12-19; As 20-22; Case 23-27; Datatype 28-36; Do 37-39; Else 40-44; End 45-48; Eqtype 49-55; Exception 56-65; \
        Fn 66-68; Fun 69-72; Functor 73-80; Handle 81-87; If 88-90; In 91-93; Include 94-101; Infix 102-107; Infixr 108-114; Let 115-118; Local 119-124; \
        Nonfix 125-131; Of 132-134; Op 135-137; Open 138-142; Orelse 143-149; Raise 150-155; Rec 156-159; Sharing 160-167; Sig 168-171; Signature 172-181; \
        Struct 182-188; Structure 189-198; Then 199-203; TypeWord 204-208; Val 209-212; Where 213-218; While 219-224; With 225-229; Withtype 230-238; \x02\
    ()[]{},;..._\
        \x01LeftParen 0-1; RightParen 1-2; LeftBracket 2-3; RightBracket 3-4; LeftBrace 4-5; RightBrace 5-6; Comma 6-7; Semicolon 7-8; Dots 8-11; \
        Underscore 11-12; \x02\
    :\t\n\r\x0c :>\t\n\r\x0c |\t\n\r\x0c =\t\n\r\x0c =>\t\n\r\x0c ->\t\n\r\x0c #\t\n\r\x0c \
        \x01Colon 0-1; ColonGreater 6-8; Bar 13-14; Equals 19-20; DoubleArrow 25-27; Arrow 32-34; Hash 39-40; \x02\
    0 7 07 ~7 0xfF ~0x10 2147483647 ~2147483648 0x7fffffff ~0x80000000\
        \x01plain 0 0-1; plain 7 2-3; int 7 4-6; int -7 7-9; int 255 10-14; int -16 15-20; plain 2147483647 21-31; int -2147483648 32-43; \
        int 2147483647 44-54; int -2147483648 55-66; \x02\
    0w10 0wx1f 0w4294967295 0wxFFFFFFFF\x01word 10 0-4; word 31 5-10; word 4294967295 11-23; word 4294967295 24-35; \x02\
    val x = 2147483648\x01E12 in 7 at 8\x02\
    ~2147483649\x01E12 in 7 at 0\x02\
    0x80000000\x01E12 in 7 at 0\x02\
    ~0x80000001\x01E12 in 7 at 0\x02\
    0w4294967296\x01E12 in 7 at 0\x02\
    \x200wx100000000\x01E12 in 7 at 1\x02\
    99999999999999999999999999\x01E12 in 7 at 0\x02\
    val x = 1.5\x01E13 in 7 at 8\x02\
    1e5\x01E13 in 7 at 0\x02\
    ~1E~5\x01E13 in 7 at 0\x02\
    x 0.1e2\x01E13 in 7 at 2\x02\
    2147483648.0\x01E13 in 7 at 0\x02\
    0x\x01plain 0 0-1; id x 1-2; \x02\
    0xg\x01plain 0 0-1; id xg 1-3; \x02\
    0w\x01plain 0 0-1; id w 1-2; \x02\
    0wx\x01plain 0 0-1; id wx 1-3; \x02\
    0w1e5\x01word 1 0-3; id e5 3-5; \x02\
    ~0w1\x01int 0 0-2; id w1 2-4; \x02\
    ~w\x01sym ~ 0-1; id w 1-2; \x02\
    ~~1\x01sym ~~ 0-2; plain 1 2-3; \x02\
    -1\x01sym - 0-1; plain 1 1-2; \x02\
    1e\x01plain 1 0-1; id e 1-2; \x02\
    1e~\x01plain 1 0-1; id e 1-2; sym ~ 2-3; \x02\
    0x1e5\x01int 485 0-5; \x02\
    1.\x01E10 in 7 at 1\x02\
    1.e5\x01E10 in 7 at 1\x02\
    0x1.5\x01E10 in 7 at 3\x02\
    \"a\\065\\u0042\\   \t\n\\c\\^J\"\x01str [97, 65, 66, 99, 10] 0-24; \x02\
    \"\\a\\b\\t\\n\\v\\f\\r\\\"\\\\\"\x01str [7, 8, 9, 10, 11, 12, 13, 34, 92] 0-20; \x02\
    \"\\^@\\^_\\000\\255\\u00fF\x80\xff\"\x01str [0, 31, 0, 255, 255, 128, 255] 0-24; \x02\
    \"\"\"\\ \\\"\"\\\\\"\x01str [] 0-2; str [] 2-7; str [92] 7-11; \x02\
    \"a\x01E10 in 7 at 0\x02\
    x \"a\nb\"\x01E10 in 7 at 2\x02\
    \"\x7f\"\x01E10 in 7 at 0\x02\
    \"\x1f\"\x01E10 in 7 at 0\x02\
    \"\\256\"\x01E10 in 7 at 0\x02\
    \"\\u0100\"\x01E10 in 7 at 0\x02\
    \"\\25\"\x01E10 in 7 at 0\x02\
    \"\\u00f\"\x01E10 in 7 at 0\x02\
    \"\\^`\"\x01E10 in 7 at 0\x02\
    \"\\^?\"\x01E10 in 7 at 0\x02\
    \"\\q\"\x01E10 in 7 at 0\x02\
    \"\\\x01E10 in 7 at 0\x02\
    \"\\ \x01E10 in 7 at 0\x02\
    \"\\ x\\\"\x01E10 in 7 at 0\x02\
    \"\\^\x01E10 in 7 at 0\x02\
    #\"a\"#\"\\n\"#\"\\ \\z\"#\"\\\"\"\x01char 97 0-4; char 10 4-9; char 122 9-16; char 34 16-21; \x02\
    #\"ab\"\x01E10 in 7 at 0\x02\
    #\"\"\x01E10 in 7 at 0\x02\
    ##\"\" #\"\"\x01E10 in 7 at 5\x02\
    #\"\x01E10 in 7 at 0\x02\
    ##\"a\"\x01sym ## 0-2; str [97] 2-5; \x02\
    # \"a\"\x01Hash 0-1; str [97] 2-5; \x02\
    -#\"a\"\x01sym -# 0-2; str [97] 2-5; \x02\
    #1\x01Hash 0-1; plain 1 1-2; \x02\
    x(* a (* b *) c *)y\x01id x 0-1; id y 18-19; \x02\
    (**)a\x01id a 4-5; \x02\
    (* (* *) \" *)\na\x01id a 14-15; \x02\
    *)\x01sym * 0-1; RightParen 1-2; \x02\
    (*)\x01E10 in 7 at 0\x02\
    (*(*)*)\x01E10 in 7 at 0\x02\
    a (* (* *)\x01E10 in 7 at 2\x02\
    (*\x01E10 in 7 at 0\x02\
    (* *\x01E10 in 7 at 0\x02\
    op *)\x01Op 0-2; sym * 3-4; RightParen 4-5; \x02\
    a'_1 A vals valval\x01id a'_1 0-4; id A 5-6; id vals 7-11; id valval 12-18; \x02\
    !%&$#+-/:<=>?@\\~`^|*\x01sym !%&$#+-/:<=>?@\\~`^|* 0-20; \x02\
    :: := || == =>> |=|\x01sym :: 0-2; sym := 3-5; sym || 6-8; sym == 9-11; sym =>> 12-15; sym |=| 16-19; \x02\
    'a ''a ''' ' '' '1_\x01ty 'a 0-2; eqty ''a 3-6; eqty ''' 7-10; ty ' 11-12; eqty '' 13-15; ty '1_ 16-19; \x02\
    a.b.c\x01long a b c 0-5; \x02\
    A.:: A.*)\x01long A :: sym 0-4; long A * sym 5-8; RightParen 8-9; \x02\
    a.b'[\x01long a b' 0-4; LeftBracket 4-5; \x02\
    A.~1\x01long A ~ sym 0-3; plain 1 3-4; \x02\
    a...\x01id a 0-1; Dots 1-4; \x02\
    _a\x01Underscore 0-1; id a 1-2; \x02\
    a.\x01E10 in 7 at 1\x02\
    .a\x01E10 in 7 at 0\x02\
    a.b.\x01E10 in 7 at 3\x02\
    a.val\x01long a va 0-4; id l 4-5; \x02\
    a.b.infixr\x01long a b infi 0-8; id xr 8-10; \x02\
    A.->\x01long A - sym 0-3; sym > 3-4; \x02\
    val.x\x01E10 in 7 at 3\x02\
    a.=\x01E10 in 7 at 1\x02\
    a.:>\x01E10 in 7 at 1\x02\
    a.'b\x01E10 in 7 at 1\x02\
    a.1\x01E10 in 7 at 1\x02\
    a .b\x01E10 in 7 at 2\x02\
    a. b\x01E10 in 7 at 1\x02\
    A.+.b\x01E10 in 7 at 3\x02\
    ..\x01E10 in 7 at 0\x02\
    ....\x01E10 in 7 at 3\x02\
    a\x80\x01E10 in 7 at 1\x02\
    \xff\x01E10 in 7 at 0\x02\
    \x00\x01E10 in 7 at 0\x02\
    a\x00b\x01E10 in 7 at 1\x02\
    \x0b\x01E10 in 7 at 0\x02\
    \x7f\x01E10 in 7 at 0\x02\
    \x20\t\n\r\x0c\x01\x02\
    \x01\x02\
";

/// The row's text has these tokens.
fn assert_shown(rt: &impl Abort, alloc: Global, text: &[u8], want: &[u8]) -> Result<(), NoMemory> {
    assert!(rt; text.len() < 1000);
    let got = shown(alloc, text)?;
    assert!(rt; got.as_bytes() == want, "{got}");
    Ok(())
}

#[test]
fn reads_what_the_definition_says(rt: HostRuntime) -> Result<(), Fail> {
    let mut rows = 0;
    for row in TABLE.split(|b| *b == 2) {
        let mut parts = row.split(|b| *b == 1);
        if let (Some(text), Some(want)) = (parts.next(), parts.next()) {
            assert_shown(&rt, rt.alloc(), text, want)?;
            assert!(rt; rows < 1000);
            rows += 1;
        }
    }
    assert_eq!(rt; rows, 104);
    Ok(())
}

/// Puts bytes at the end many times.
fn push_many(text: &mut Vec<u8>, bytes: &[u8], times: u32) -> Result<(), NoMemory> {
    for _ in 0..times {
        text.extend_from_slice(bytes)?;
    }
    Ok(())
}

/// Comments within comments, a million deep, and a million brackets.
fn deep(alloc: Global) -> Result<Vec<u8>, NoMemory> {
    let mut text = Vec::new(alloc);
    for (bytes, times) in [("(*", 1_000_000), ("*)", 1_000_000), ("(", 1_000_000)] {
        push_many(&mut text, bytes.as_bytes(), times)?;
    }
    Ok(text)
}

/// How many tokens a text has.
fn count(rt: &impl Abort, alloc: Global, text: &[u8]) -> Result<usize, Refused> {
    assert!(rt; text.len() == 5_000_000);
    let mut names = Names::new(alloc)?;
    match lex(alloc, &mut names, 0, text) {
        Ok(tokens) => Ok(tokens.as_slice().len()),
        Err(refused) => Err(refused),
    }
}

#[test]
fn reads_comments_a_million_deep_and_many_tokens(rt: HostRuntime) -> Result<(), Fail> {
    let text = deep(rt.alloc())?;
    match count(&rt, rt.alloc(), &text) {
        Ok(count) => assert_eq!(rt; count, 1_000_000),
        Err(_) => assert!(rt; false),
    }
    Ok(())
}
