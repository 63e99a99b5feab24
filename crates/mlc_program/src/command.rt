// The command line.

ghost use Rattle.std.specs.Prelude.{◌≡◌, ◌≤◌, ◌↔◌, ℕ, IsTrue, IfSome, IfNone, codes};
ghost use Rattle.std.specs.List.{list_all};
ghost use Rattle.mlc_program.specs.Command.{Command as Meant, IsNumber, HasNumbers, IsCommand, is_no_option};
ghost use Rattle.mlc_program.specs.CommandOf.{command_of, words_of};
ghost use Rattle.mlc_program.specs.Statuses.{NoCommand};

/// `exec IN.mlb OUT.mlx HEAP STACK STEPS`.
#[derive(Clone, Copy)]
pub struct Command<'a> {
    pub input: &'a str,
    pub output: &'a str,
    pub heap: u32,
    pub stack: u32,
    pub steps: u64,
}

/// What is said where the words are no command.
pub const USAGE: &str = "\
usage: mlc exec IN.mlb OUT.mlx HEAP STACK STEPS

Compiles the project of the ML Basis file IN.mlb, writes the image of the word machine to OUT.mlx
and runs it.

  HEAP   words of the heap, 1024 to 268435456
  STACK  words of the stack, 256 to 16777216
  STEPS  instructions to run at most, 0 to 18446744073709551615

It ends with status 0 where the program ends, 1 where an exception that nothing handles ends it,
2 where the project is refused, 3 after STEPS instructions, 4 and 5 where the heap or the stack is
not enough, 6 and 7 where a file is missing or can't be read, 8 where one can't be written, and 11
where there is no memory.

For example: mlc exec examples/hello.mlb hello.mlx 4194304 65536 1000000000
";

/// Whether a word doesn't begin with `-`.
fn is_no_option(word: &str) -> bool
    ensures { result ≡ is_no_option word.now }
{
    match word.as_bytes() {
        [] => true,
        [first, ..] => *first != b'-',
    }
}

/// Whether none of the words begins with `-`.
fn have_no_options(words: &[String]) -> bool
    ensures { result ≡ list_all is_no_option (words_of words.now) }
{
    for word in words {
        if !is_no_option(word.as_str()) {
            return false;
        }
    }
    true
}

/// Whether a word is the command's name.
fn is_exec(word: &str) -> bool
    ensures { IsTrue result ↔ (word.now ≡ codes "exec") }
{
    word == "exec"
}

/// The number that a word is, where it is in range.
fn number(word: &str, least: u64, most: u64) -> Option<u64>
    ensures is { IfSome result (λ n. IsNumber word.now n × (least ≤ n) × (n ≤ most)) }
    ensures is_none { IfNone result ((n : ℕ) → IsNumber word.now n → least ≤ n → ¬ (n ≤ most)) }
{
    match word.parse::<u64>() {
        Err(_) => None,
        Ok(n) => {
            if least <= n && n <= most {
                Some(n)
            } else {
                None
            }
        }
    }
}

/// The command, if the words are in their order and the numbers in their ranges.
fn command_from<'a>(
    input: &'a str,
    output: &'a str,
    heap: &str,
    stack: &str,
    steps: &str,
) -> Option<Command<'a>>
    ensures is { IfSome result (λ c. HasNumbers input.now output.now heap.now stack.now steps.now (command_of c)) }
    ensures is_none { IfNone result ((c : Meant) → ¬ (HasNumbers input.now output.now heap.now stack.now steps.now c)) }
{
    let heap = number(heap, 1024, 268_435_456)?;
    let stack = number(stack, 256, 16_777_216)?;
    let steps = number(steps, 0, u64::MAX)?;
    Some(Command {
        input,
        output,
        heap: heap as u32,
        stack: stack as u32,
        steps,
    })
}

/// The command that the words are; none, where they are no command.
pub fn read_command(words: &[String]) -> Option<Command<'_>>
    ensures is { IfSome result (λ c. IsCommand (words_of words.now) (command_of c)) }
    ensures is_none { IfNone result (NoCommand (words_of words.now)) }
{
    if words.len() != 6 || !is_exec(words[0].as_str()) || !have_no_options(words) {
        return None;
    }
    let numbered = command_from(
        words[1].as_str(),
        words[2].as_str(),
        words[3].as_str(),
        words[4].as_str(),
        words[5].as_str(),
    );
    match numbered {
        None => None,
        Some(command) => Some(command),
    }
}
