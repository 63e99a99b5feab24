// The one call that the program makes.

ghost use Rattle.std.specs.Prelude.{◌≡◌, ◌⊎◌, ◌↔◌, ℕ, List};
ghost use Rattle.mlc_outside.specs.Faults.{Rose};
ghost use Rattle.ir_code.specs.Run.{ended, going, no_heap, no_stack};
ghost use Rattle.mlc_program.specs.CommandOf.{words_of};
ghost use Rattle.mlc_program.specs.Statuses.{NoCommand, ByCommand, Built, RanTo, ToldUncaught, WriteFailed, Unwritten, Says, Told, IsBeforeRun, IsBeforeWrite, IsReady, IsRunMemoryOrRefused};

use crate::command::{USAGE, read_command};
use crate::exec::exec;
use crate::say::{say, tell};
use mlc_outside::sink::Sink;
use mlc_outside::store::Store;
use std::alloc::Global;

/// Does what the words say, which are the command line without the program's name, and gives the status.
pub fn mlc_main<S: Store, O: Sink, E: Sink>(
    alloc: Global,
    words: &[String],
    store: &mut S,
    out: &mut O,
    err: &mut E,
) -> u8
    // The line that is told, and why: there is no other status.
    ensures line { (line : List ℕ)
        × Says USAGE.now (words_of words.now) (S.files store.old) (S.read_faults store.old) (S.read_faults store.new) result line
        × Told line (E.written err.old) (E.written err.new) (E.faults err.old) (E.faults err.new) }
    ensures usage { (result ≡ 64) ↔ NoCommand (words_of words.now) }

    // A run was reached.
    ensures ended { result ≡ 0 → ByCommand (words_of words.now)
        (RanTo ended (S.files store.old) (S.files store.new) (O.written out.old) (O.written out.new)) }
    ensures uncaught { result ≡ 1 → ByCommand (words_of words.now)
        (ToldUncaught (S.files store.old) (S.files store.new) (O.written out.old) (O.written out.new)
        (E.written err.old) (E.written err.new) (E.faults err.old) (E.faults err.new)) }
    ensures step_limit { result ≡ 3 → ByCommand (words_of words.now)
        (RanTo going (S.files store.old) (S.files store.new) (O.written out.old) (O.written out.new)) }
    ensures out_of_heap { result ≡ 4 → ByCommand (words_of words.now)
        (RanTo no_heap (S.files store.old) (S.files store.new) (O.written out.old) (O.written out.new)) }
    ensures out_of_stack { result ≡ 5 → ByCommand (words_of words.now)
        (RanTo no_stack (S.files store.old) (S.files store.new) (O.written out.old) (O.written out.new)) }
    ensures write_failed { result ≡ 8 → ByCommand (words_of words.now)
        (WriteFailed (S.files store.old) (S.files store.new) (S.write_faults store.old) (S.write_faults store.new)
        (O.written out.old) (O.written out.new) (O.faults out.old) (O.faults out.new)) }

    // None was.
    ensures out_of_memory { result ≡ 11 → (S.files store.new ≡ S.files store.old)
        ⊎ ByCommand (words_of words.now) (Built (S.files store.old) (S.files store.new)) }
    ensures files_stay { IsBeforeWrite result → S.files store.new ≡ S.files store.old }
    ensures nothing_written { IsBeforeRun result →
        Unwritten (O.written out.old) (O.written out.new) (O.faults out.old) (O.faults out.new) }

    // Where nothing stands against loading the project, the program runs, or the project is refused after it was loaded.
    ensures complete { IsReady (words_of words.now) (S.files store.old)
        → ¬ (Rose (S.read_faults store.old) (S.read_faults store.new))
        → ¬ (Rose (S.write_faults store.old) (S.write_faults store.new))
        → ¬ (Rose (O.faults out.old) (O.faults out.new))
        → IsRunMemoryOrRefused (words_of words.now) (S.files store.old) result }
{
    match read_command(words) {
        None => {
            say(err, USAGE);
            64
        }
        Some(command) => {
            let exit = exec(alloc, &command, store, out);
            tell(exit, err)
        }
    }
}
