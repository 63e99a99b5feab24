// Instructions, by their operands in order.

ghost use Rattle.std.specs.Prelude.{◌≡◌};
ghost use Rattle.ir_code.specs.declared.instr.Instr.TheVariants.{Li, Mov, Jmp, Brz, AllocVar, Alloc, Ld, St, Copy, Sub, WAdd, WSub, ILt, ULt, Eq, SCmp, IText};

use ir_code::instr::Instr;

pub fn li(dst: u32, value: u32) -> Instr
    ensures { result ≡ Li dst value }
{
    Instr::Li { dst, value }
}

pub fn mov(dst: u32, src: u32) -> Instr
    ensures { result ≡ Mov dst src }
{
    Instr::Mov { dst, src }
}

pub fn jmp(target: u32) -> Instr
    ensures { result ≡ Jmp target }
{
    Instr::Jmp { target }
}

pub fn brz(test: u32, target: u32) -> Instr
    ensures { result ≡ Brz test target }
{
    Instr::Brz { test, target }
}

pub fn alloc_var(dst: u32, words: u32) -> Instr
    ensures { result ≡ AllocVar dst words }
{
    Instr::AllocVar { dst, words }
}

pub fn alloc(dst: u32, words: u32) -> Instr
    ensures { result ≡ Alloc dst words }
{
    Instr::Alloc { dst, words }
}

pub fn ld(dst: u32, base: u32, offset: u32) -> Instr
    ensures { result ≡ Ld dst base offset }
{
    Instr::Ld { dst, base, offset }
}

pub fn st(base: u32, offset: u32, src: u32) -> Instr
    ensures { result ≡ St base offset src }
{
    Instr::St { base, offset, src }
}

pub fn copy(dst: u32, src: u32, count: u32) -> Instr
    ensures { result ≡ Copy dst src count }
{
    Instr::Copy { dst, src, count }
}

pub fn sub(dst: u32, left: u32, right: u32) -> Instr
    ensures { result ≡ Sub dst left right }
{
    Instr::Sub { dst, left, right }
}

pub fn wadd(dst: u32, left: u32, right: u32) -> Instr
    ensures { result ≡ WAdd dst left right }
{
    Instr::WAdd { dst, left, right }
}

pub fn wsub(dst: u32, left: u32, right: u32) -> Instr
    ensures { result ≡ WSub dst left right }
{
    Instr::WSub { dst, left, right }
}

pub fn ilt(dst: u32, left: u32, right: u32) -> Instr
    ensures { result ≡ ILt dst left right }
{
    Instr::ILt { dst, left, right }
}

pub fn ult(dst: u32, left: u32, right: u32) -> Instr
    ensures { result ≡ ULt dst left right }
{
    Instr::ULt { dst, left, right }
}

pub fn equal(dst: u32, left: u32, right: u32) -> Instr
    ensures { result ≡ Eq dst left right }
{
    Instr::Eq { dst, left, right }
}

pub fn scmp(dst: u32, left: u32, right: u32) -> Instr
    ensures { result ≡ SCmp dst left right }
{
    Instr::SCmp { dst, left, right }
}

pub fn itext(dst: u32, src: u32) -> Instr
    ensures { result ≡ IText dst src }
{
    Instr::IText { dst, src }
}
