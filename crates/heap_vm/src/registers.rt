// The machine's registers, and what one instruction leads to.

/// What the handler register holds where there is no handler.
pub const NO_HANDLER: u32 = u32::MAX;

/// What is neither stack nor memory. The words below `base` are the constants, those from there up to `limit` the heap in use.
#[derive(Clone, Copy)]
pub struct Registers {
    pub pc: usize,
    pub fp: u32,
    pub acc: u32,
    pub handler: u32,
    pub base: u32,
    pub limit: u32,
}

/// What one instruction leads to, where it does not stop the machine.
#[derive(Clone, Copy)]
pub enum Flow {
    /// The next instruction.
    Go,
    /// The string at an address is to be sent, and then the next instruction.
    Print(u32),
}
