// What a run answers.

/// What a run answers.
#[derive(Clone, Copy, PartialEq, Eq, Debug)]
pub enum Stop {
    /// All of its steps were made, and the next run goes on.
    Steps,
    /// The program ended.
    Ended,
    /// A packet was raised where no handler was set up.
    Uncaught,
    /// The heap has no room for the words that were asked for.
    NoHeap,
    /// A slot lies past the stack.
    NoStack,
    /// There is no instruction there, or an address lies outside the words in use.
    Stuck,
    /// The sink failed.
    WriteFault,
}
