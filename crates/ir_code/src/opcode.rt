// The numbers of the instructions.

ghost use Rattle.std.specs.Prelude.{◌≡◌, ◌≤◌, false, ◌&&◌, ◌||◌, ◌==◌, IfSome, IsNone};
ghost use Rattle.ir_code.specs.ImageBytes.{row_of, words_of, is_instr, names_one, names_two};

use crate::instr::Instr;

impl Instr {
    /// The instruction's words: the operation's number, and the operands a, b and c.
    pub fn words(&self) -> [u32; 4]
        ensures { result ≡ words_of self.now }
    {
        match *self {
            Instr::Li { dst, value } => [1, dst, value, 0],
            Instr::Mov { dst, src } => [2, dst, src, 0],
            Instr::Jmp { target } => [3, target, 0, 0],
            Instr::Brz { test, target } => [4, test, target, 0],
            Instr::Switch { index, last } => [5, index, last, 0],
            Instr::Call { target, frame } => [6, target, frame, 0],
            Instr::Ret { value } => [7, value, 0, 0],
            Instr::Acc { dst } => [8, dst, 0, 0],
            Instr::PushHandler { record, target } => [9, record, target, 0],
            Instr::PopHandler { record } => [10, record, 0, 0],
            Instr::Raise { packet } => [11, packet, 0, 0],
            Instr::End => [12, 0, 0, 0],
            Instr::Alloc { dst, words } => [13, dst, words, 0],
            Instr::AllocVar { dst, words } => [14, dst, words, 0],
            Instr::Ld { dst, base, offset } => [15, dst, base, offset],
            Instr::St { base, offset, src } => [16, base, offset, src],
            Instr::Copy { dst, src, count } => [17, dst, src, count],
            Instr::Add { dst, left, right } => [18, dst, left, right],
            Instr::Sub { dst, left, right } => [19, dst, left, right],
            Instr::Mul { dst, left, right } => [20, dst, left, right],
            Instr::IDiv { dst, left, right } => [21, dst, left, right],
            Instr::IMod { dst, left, right } => [22, dst, left, right],
            Instr::IQuot { dst, left, right } => [23, dst, left, right],
            Instr::IRem { dst, left, right } => [24, dst, left, right],
            Instr::WAdd { dst, left, right } => [25, dst, left, right],
            Instr::WSub { dst, left, right } => [26, dst, left, right],
            Instr::WMul { dst, left, right } => [27, dst, left, right],
            Instr::WDiv { dst, left, right } => [28, dst, left, right],
            Instr::WMod { dst, left, right } => [29, dst, left, right],
            Instr::And { dst, left, right } => [30, dst, left, right],
            Instr::Or { dst, left, right } => [31, dst, left, right],
            Instr::Xor { dst, left, right } => [32, dst, left, right],
            Instr::Shl { dst, left, right } => [33, dst, left, right],
            Instr::Shr { dst, left, right } => [34, dst, left, right],
            Instr::Sar { dst, left, right } => [35, dst, left, right],
            Instr::ILt { dst, left, right } => [36, dst, left, right],
            Instr::ULt { dst, left, right } => [37, dst, left, right],
            Instr::Eq { dst, left, right } => [38, dst, left, right],
            Instr::SCmp { dst, left, right } => [39, dst, left, right],
            Instr::IText { dst, src } => [40, dst, src, 0],
            Instr::Print { text } => [41, text, 0, 0],
        }
    }

    /// The instruction that has these words, if there is one.
    pub fn from_words(op: u32, a: u32, b: u32, c: u32) -> Option<Instr>
        ensures found { IfSome result (λ i. row_of i ≡ (op, a, b, c)) }
        ensures unknown { IsNone result → is_instr (op, a, b, c) ≡ false }
    {
        if 15 <= op && op <= 39 {
            return Some(of_three(op, a, b, c));
        }
        if c != 0 {
            return None;
        }
        match of_two(op, a, b) {
            Some(instr) => Some(instr),
            None => of_fewer(op, a, b),
        }
    }
}

/// The instructions that name at most a.
fn of_fewer(op: u32, a: u32, b: u32) -> Option<Instr>
    ensures found { IfSome result (λ i. row_of i ≡ (op, a, b, 0)) }
    ensures unknown { IsNone result → ((b == 0) && (names_one op || ((a == 0) && (op == 12)))) ≡ false }
{
    if b != 0 {
        return None;
    }
    match of_one(op, a) {
        Some(instr) => Some(instr),
        None if a == 0 && op == 12 => Some(Instr::End),
        None => None,
    }
}

/// The instructions that name a alone.
fn of_one(op: u32, a: u32) -> Option<Instr>
    ensures found { IfSome result (λ i. row_of i ≡ (op, a, 0, 0)) }
    ensures unknown { IsNone result → names_one op ≡ false }
{
    match op {
        3 => Some(Instr::Jmp { target: a }),
        7 => Some(Instr::Ret { value: a }),
        8 => Some(Instr::Acc { dst: a }),
        10 => Some(Instr::PopHandler { record: a }),
        11 => Some(Instr::Raise { packet: a }),
        41 => Some(Instr::Print { text: a }),
        _ => None,
    }
}

/// The instructions that name a and b.
fn of_two(op: u32, a: u32, b: u32) -> Option<Instr>
    ensures found { IfSome result (λ i. row_of i ≡ (op, a, b, 0)) }
    ensures unknown { IsNone result → names_two op ≡ false }
{
    match op {
        1 => Some(Instr::Li { dst: a, value: b }),
        2 => Some(Instr::Mov { dst: a, src: b }),
        4 => Some(Instr::Brz { test: a, target: b }),
        5 => Some(Instr::Switch { index: a, last: b }),
        6 => Some(Instr::Call {
            target: a,
            frame: b,
        }),
        9 => Some(Instr::PushHandler {
            record: a,
            target: b,
        }),
        13 => Some(Instr::Alloc { dst: a, words: b }),
        14 => Some(Instr::AllocVar { dst: a, words: b }),
        40 => Some(Instr::IText { dst: a, src: b }),
        _ => None,
    }
}

/// The instructions that name a, b and c.
fn of_three(op: u32, a: u32, b: u32, c: u32) -> Instr
    requires from { 15 ≤ op }
    requires to { op ≤ 39 }
    ensures { row_of result ≡ (op, a, b, c) }
{
    match op {
        15 => Instr::Ld {
            dst: a,
            base: b,
            offset: c,
        },
        16 => Instr::St {
            base: a,
            offset: b,
            src: c,
        },
        17 => Instr::Copy {
            dst: a,
            src: b,
            count: c,
        },
        18..=24 => of_signed(op, a, b, c),
        25..=29 => of_word(op, a, b, c),
        30..=35 => of_bits(op, a, b, c),
        _ => of_test(op, a, b, c),
    }
}

/// The signed arithmetic.
fn of_signed(op: u32, dst: u32, left: u32, right: u32) -> Instr
    requires from { 18 ≤ op }
    requires to { op ≤ 24 }
    ensures { row_of result ≡ (op, dst, left, right) }
{
    match op {
        18 => Instr::Add { dst, left, right },
        19 => Instr::Sub { dst, left, right },
        20 => Instr::Mul { dst, left, right },
        21 => Instr::IDiv { dst, left, right },
        22 => Instr::IMod { dst, left, right },
        23 => Instr::IQuot { dst, left, right },
        _ => Instr::IRem { dst, left, right },
    }
}

/// The arithmetic on words.
fn of_word(op: u32, dst: u32, left: u32, right: u32) -> Instr
    requires from { 25 ≤ op }
    requires to { op ≤ 29 }
    ensures { row_of result ≡ (op, dst, left, right) }
{
    match op {
        25 => Instr::WAdd { dst, left, right },
        26 => Instr::WSub { dst, left, right },
        27 => Instr::WMul { dst, left, right },
        28 => Instr::WDiv { dst, left, right },
        _ => Instr::WMod { dst, left, right },
    }
}

/// What works on single bits.
fn of_bits(op: u32, dst: u32, left: u32, right: u32) -> Instr
    requires from { 30 ≤ op }
    requires to { op ≤ 35 }
    ensures { row_of result ≡ (op, dst, left, right) }
{
    match op {
        30 => Instr::And { dst, left, right },
        31 => Instr::Or { dst, left, right },
        32 => Instr::Xor { dst, left, right },
        33 => Instr::Shl { dst, left, right },
        34 => Instr::Shr { dst, left, right },
        _ => Instr::Sar { dst, left, right },
    }
}

/// The comparisons.
fn of_test(op: u32, dst: u32, left: u32, right: u32) -> Instr
    requires from { 36 ≤ op }
    requires to { op ≤ 39 }
    ensures { row_of result ≡ (op, dst, left, right) }
{
    match op {
        36 => Instr::ILt { dst, left, right },
        37 => Instr::ULt { dst, left, right },
        38 => Instr::Eq { dst, left, right },
        _ => Instr::SCmp { dst, left, right },
    }
}
