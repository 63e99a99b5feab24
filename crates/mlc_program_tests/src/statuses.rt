// The other statuses.

use crate::calls::{NOTHING, Row, check, check_all};
use std::test::Fail;

const ONE: &str = "val () = print \"a\"";

// Paths that are missing or fail, and an image that can't be written.
const STORE: [Row; 8] = [
    Row {
        status: 6,
        err: "p.sml: no such file\n",
        image: "old",
        ..NOTHING
    },
    Row {
        words: "exec x.mlb p.mlx 1024 256 9",
        status: 6,
        err: "x.mlb: no such file\n",
        image: "old",
        ..NOTHING
    },
    Row {
        words: "exec dir/../x.mlb p.mlx 1024 256 9",
        status: 6,
        err: "x.mlb: no such file\n",
        image: "old",
        ..NOTHING
    },
    Row {
        mlb: "z.sml",
        status: 6,
        err: "z.sml: no such file\n",
        image: "old",
        ..NOTHING
    },
    Row {
        mlb: "$(SML_LIB)/basis/basis.mlb p.fun",
        status: 6,
        err: "p.fun: no such file\n",
        image: "old",
        ..NOTHING
    },
    Row {
        sml: ONE,
        store_fails: 1,
        status: 7,
        err: "p.mlb: read failed\n",
        image: "old",
        ..NOTHING
    },
    Row {
        sml: ONE,
        store_fails: 2,
        status: 7,
        err: "p.sml: read failed\n",
        image: "old",
        ..NOTHING
    },
    Row {
        sml: ONE,
        store_fails: 3,
        status: 8,
        err: "write failed\n",
        image: "old",
        ..NOTHING
    },
];

#[test]
fn paths_and_images_that_fail_have_their_statuses(rt: HostRuntime) -> Result<(), Fail> {
    check_all(&rt, rt.alloc(), &STORE)?;
    Ok(())
}

const THREE: &str = "val () = print \"a\" val () = print \"b\" val () = print \"c\"";

const RUNS: [Row; 9] = [
    Row {
        sml: THREE,
        out_fails: 3,
        status: 8,
        out: "ab",
        err: "write failed\n",
        ..NOTHING
    },
    Row {
        words: "exec p.mlb p.mlx 65536 4096 0",
        sml: THREE,
        status: 3,
        err: "step limit\n",
        ..NOTHING
    },
    Row {
        words: "exec p.mlb p.mlx 65536 16777216 100000",
        sml: "val () = print \"a\" fun f x = f x val () = f ()",
        status: 3,
        out: "a",
        err: "step limit\n",
        ..NOTHING
    },
    Row {
        words: "exec p.mlb p.mlx 4096 16777216 1000000000",
        sml: "val () = print \"a\" fun f l = f (1 :: l) val () = f nil",
        status: 4,
        out: "a",
        err: "out of heap\n",
        ..NOTHING
    },
    Row {
        sml: "val () = print \"a\" fun f n = f n + 1 val _ = f 0",
        status: 5,
        out: "a",
        err: "out of stack\n",
        ..NOTHING
    },
    Row {
        sml: "exception E of int val () = print \"a\" val () = raise E 1",
        status: 1,
        out: "a",
        err: "unhandled exception: E\n",
        ..NOTHING
    },
    Row {
        sml: "val () = print \"a\" val x = 2147483647 + 1",
        status: 1,
        out: "a",
        err: "unhandled exception: Overflow\n",
        ..NOTHING
    },
    Row {
        sml: "val x = ~2147483648 - 1 val () = print \"a\"",
        status: 1,
        err: "unhandled exception: Overflow\n",
        ..NOTHING
    },
    Row {
        sml: "val x = 65536 * 32768",
        status: 1,
        err: "unhandled exception: Overflow\n",
        ..NOTHING
    },
];

#[test]
fn runs_that_stop_have_their_statuses(rt: HostRuntime) -> Result<(), Fail> {
    check_all(&rt, rt.alloc(), &RUNS)?;
    Ok(())
}

const NO_COMMANDS: [&str; 14] = [
    "",
    "help",
    "--help",
    "exec",
    "build p.mlb p.mlx",
    "exec p.mlb p.mlx 1023 65536 10",
    "exec p.mlb p.mlx 268435457 65536 10",
    "exec p.mlb p.mlx 1024 255 10",
    "exec p.mlb p.mlx 1024 16777217 10",
    "exec p.mlb p.mlx 1024 256 18446744073709551616",
    "exec p.mlb p.mlx 1024 256 1x",
    "exec p.mlb p.mlx 1024 256 -1",
    "exec p.mlb -o 1024 256 10",
    "exec p.mlb p.mlx 1024 256 10 10",
];

#[test]
fn other_words_are_no_command(rt: HostRuntime) -> Result<(), Fail> {
    for words in NO_COMMANDS.iter() {
        let row = Row {
            words,
            sml: ONE,
            status: 64,
            image: "old",
            ..NOTHING
        };
        check(&rt, rt.alloc(), &row)?;
    }
    Ok(())
}
