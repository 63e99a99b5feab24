// Strings and stretches of the memory.

ghost use Rattle.std.specs.Prelude.{◌≡◌, ◌+◌, ◌^◌, ◌<◌, ◌≤◌, length, slice_index, take, drop};
ghost use Rattle.std.specs.Cmp.Lexicographic.{slice_cmp};
ghost use Rattle.std.specs.Ordering.{nat_cmp};
ghost use Rattle.ir_code.specs.Machine.{string_at};
ghost use Rattle.ir_code.specs.Words.{order_code, int_text, write_at};
ghost use Rattle.heap_vm.specs.Texts.{CopyFits, TextWritten};

use itoa::Buffer;
use std::cmp::Ordering;

/// Copies n words from x on to y on.
#[inline(never)]
pub fn copy_words(memory: &mut [u32], x: u32, y: u32, n: u32)
    requires { CopyFits memory.old x y n }
    ensures { memory.new ≡ write_at memory.old y (take n (drop x memory.old)) }
{
    if n != 0 {
        let from = x as usize;
        memory.copy_within(from..from + n as usize, y as usize);
    }
}

/// How two strings stand: 0 for less, 1 for equal, 2 for greater.
#[inline(never)]
pub fn order_at(memory: &[u32], x: u32, y: u32) -> u32
    requires first { x + 1 + slice_index memory.now x ≤ length memory.now }
    requires second { y + 1 + slice_index memory.now y ≤ length memory.now }
    ensures { result ≡ order_code (slice_cmp nat_cmp (string_at memory.now x) (string_at memory.now y)) }
{
    let left = &memory[x as usize + 1..x as usize + 1 + memory[x as usize] as usize];
    let right = &memory[y as usize + 1..y as usize + 1 + memory[y as usize] as usize];
    match left.cmp(right) {
        Ordering::Less => 0,
        Ordering::Equal => 1,
        Ordering::Greater => 2,
    }
}

/// Writes bytes from a place on.
fn write_bytes(memory: &mut [u32], at: usize, bytes: &[u8])
    requires { at + length bytes.now ≤ length memory.old }
    ensures { memory.new ≡ write_at memory.old at bytes.now }
{
    for (i, b) in bytes.iter().enumerate() {
        memory[at + i] = u32::from(*b);
    }
}

/// Writes the text of a signed word as a string at a place, and says where it ends, if it has room.
#[inline(never)]
pub fn write_text(memory: &mut [u32], at: u32, v: u32) -> Option<u32>
    requires inside { at ≤ length memory.old }
    requires fits { length memory.old < 2 ^ 32 }
    ensures { TextWritten result memory.old at (int_text v) memory.new }
{
    let z = v.cast_signed();
    let mut buffer = Buffer::new();
    let digits = buffer.format(z.unsigned_abs()).as_bytes();
    let start = at as usize;
    if z < 0 {
        let end = start + 2 + digits.len();
        if end > memory.len() {
            return None;
        }
        write_bytes(memory, start + 2, digits);
        memory[start + 1] = 126;
        memory[start] = digits.len() as u32 + 1;
        return Some(end as u32);
    }
    let end = start + 1 + digits.len();
    if end > memory.len() {
        return None;
    }
    write_bytes(memory, start + 1, digits);
    memory[start] = digits.len() as u32;
    Some(end as u32)
}
