// The slots of a frame, and the strings of the memory.

ghost use Rattle.std.specs.Prelude.{◌≡◌, ◌+◌, ◌<◌, ◌≤◌, true, IfOk, IfErr, length, slice_get};
ghost use Rattle.ir_code.specs.Machine.{all_bytes, has_string, has_bytes};
ghost use Rattle.heap_vm.specs.View.{IsString};

use ir_code::halt::Halt;

/// The place of slot a in the stack.
#[inline(always)]
pub fn place(stack: &[u32], fp: u32, a: u32) -> Result<usize, Halt>
    ensures ok { IfOk result (λ at. (at ≡ fp + a) × (at < length stack.now)) }
    ensures err { IfErr result (λ h. (h ≡ Halt.NoStack) × (length stack.now ≤ fp + a)) }
{
    let at = fp as usize + a as usize;
    if at < stack.len() {
        Ok(at)
    } else {
        Err(Halt::NoStack)
    }
}

/// What slot a holds.
#[inline(always)]
pub fn slot(stack: &[u32], fp: u32, a: u32) -> Result<u32, Halt>
    ensures ok { IfOk result (λ v. slice_get stack.now (fp + a) ≡ Some v) }
    ensures err { IfErr result (λ h. (h ≡ Halt.NoStack) × (slice_get stack.now (fp + a) ≡ None)) }
{
    match stack.get(fp as usize + a as usize) {
        Some(v) => Ok(*v),
        None => Err(Halt::NoStack),
    }
}

/// Whether each word is a byte.
fn are_bytes(words: &[u32]) -> bool
    ensures { result ≡ all_bytes words.now }
{
    words.iter().all(|w| *w < 256)
}

/// Whether a string at x lies below the limit.
#[inline(never)]
pub fn has_string_at(memory: &[u32], limit: u32, x: u32) -> bool
    requires { limit ≤ length memory.now }
    ensures { result ≡ has_string memory.now limit x }
{
    if x >= limit {
        return false;
    }
    x as usize + 1 + memory[x as usize] as usize <= limit as usize
}

/// Whether it does and is made of bytes.
#[inline(never)]
pub fn has_bytes_at(memory: &[u32], limit: u32, x: u32) -> bool
    requires { limit ≤ length memory.now }
    ensures test { result ≡ has_bytes memory.now limit x }
    ensures string { result ≡ true → IsString memory.now x }
{
    if !has_string_at(memory, limit, x) {
        return false;
    }
    let at = x as usize + 1;
    are_bytes(&memory[at..at + memory[x as usize] as usize])
}
