// The program mlc.
#![tactic(auto)]

use mlc_program::file_store::FileStore;
use mlc_program::program::mlc_main;
use mlc_program::standard::Stream;
use std::env;
use std::process::ExitCode;

/// The command line without the program's name. One that isn't text is as good as none: it is no command.
fn words(rt: &HostRuntime) -> Vec<String> {
    let mut words = Vec::new(rt.alloc());
    let Ok(arguments) = env::args(rt) else {
        return words;
    };
    for word in arguments.skip(1) {
        if words.push(word).is_err() {
            return Vec::new(rt.alloc());
        }
    }
    words
}

fn main(rt: HostRuntime) -> ExitCode {
    let words = words(&rt);
    let mut store = FileStore::new(&rt);
    let mut out = Stream::new(rt.stdout());
    let mut err = Stream::new(rt.stderr());
    ExitCode::from(mlc_main(rt.alloc(), &words, &mut store, &mut out, &mut err))
}
