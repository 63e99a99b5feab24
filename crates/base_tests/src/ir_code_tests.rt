// Images and their bytes, worked out by hand.

use ir_code::image::Image;
use ir_code::instr::Instr;
use ir_code::read::read_image;
use ir_code::refused::ImageRefused;
use ir_code::write::write_image;
use mlc_base::memory::NoMemory;
use std::alloc::Global;
use std::test::*;

/// Two constant words and four instructions.
const SMALL: [u8; 88] = [
    0x4d, 0x4c, 0x58, 0x31, 1, 0, 0, 0, 2, 0, 0, 0, 4, 0, 0, 0, // MLX1, version 1, 2 words, 4 instructions
    7, 0, 0, 0, 0x04, 0x03, 0x02, 0x01, // 7, 0x01020304
    1, 0, 0, 0, 9, 0, 0, 0, 0xff, 0xff, 0xff, 0xff, 0, 0, 0, 0, // LI 9 (2^32 - 1)
    3, 0, 0, 0, 0x00, 0x01, 0, 0, 0, 0, 0, 0, 0, 0, 0, 0, // JMP 256
    16, 0, 0, 0, 2, 0, 0, 0, 3, 0, 0, 0, 5, 0, 0, 0, // ST 2 3 5
    12, 0, 0, 0, 0, 0, 0, 0, 0, 0, 0, 0, 0, 0, 0, 0, // END
];

const CODE: [Instr; 4] = [
    Instr::Li {
        dst: 9,
        value: u32::MAX,
    },
    Instr::Jmp { target: 256 },
    Instr::St {
        base: 2,
        offset: 3,
        src: 5,
    },
    Instr::End,
];

/// The image that has the bytes `SMALL`.
fn small(alloc: Global) -> Result<Image, NoMemory> {
    let constants = [7, 0x0102_0304].to_vec(alloc)?;
    let code = CODE.to_vec(alloc)?;
    Ok(Image::new(constants, code))
}

#[test]
fn writes_the_bytes_of_an_image(rt: HostRuntime) -> Result<(), Fail> {
    let image = small(rt.alloc())?;
    let bytes = write_image(rt.alloc(), &image)?;
    assert_eq!(rt; bytes.as_slice(), SMALL.as_slice());
    Ok(())
}

/// Whether an image has the constants of `SMALL`, and as many instructions.
fn is_small(image: &Image) -> bool {
    image.constants() == [7, 0x0102_0304].as_slice() && image.code().len() == 4
}

#[test]
fn reads_the_image_that_has_the_bytes(rt: HostRuntime) -> Result<(), Fail> {
    let image = read_image(rt.alloc(), &SMALL)?;
    assert!(rt; is_small(&image));
    Ok(())
}

#[test]
fn writes_what_it_read(rt: HostRuntime) -> Result<(), Fail> {
    let image = read_image(rt.alloc(), &SMALL)?;
    let bytes = write_image(rt.alloc(), &image)?;
    assert_eq!(rt; bytes.as_slice(), SMALL.as_slice());
    Ok(())
}

/// Bytes that are no image, and the offset at which they are refused.
#[derive(Clone, Copy)]
struct Row {
    bytes: &'static [u8],
    at: u64,
}

// Changes of the bytes of one instruction, JMP 5, and in the last row of `SMALL`.
const REFUSALS: [Row; 10] = [
    // The header: no bytes, one too few, another magic, another version, too many words.
    Row { bytes: b"", at: 0 },
    Row {
        bytes: b"MLX1\x01\0\0\0\0\0\0\0\x01\0\0",
        at: 15,
    },
    Row {
        bytes: b"MLX2\x01\0\0\0\0\0\0\0\x01\0\0\0\x03\0\0\0\x05\0\0\0\0\0\0\0\0\0\0\0",
        at: 0,
    },
    Row {
        bytes: b"MLX1\x02\0\0\0\0\0\0\0\x01\0\0\0\x03\0\0\0\x05\0\0\0\0\0\0\0\0\0\0\0",
        at: 4,
    },
    Row {
        bytes: b"MLX1\x01\0\0\0\xff\xff\xff\x07\x01\0\0\0\x03\0\0\0\x05\0\0\0\0\0\0\0\0\0\0\0",
        at: 8,
    },
    // The length: one byte too many, four too few.
    Row {
        bytes: b"MLX1\x01\0\0\0\0\0\0\0\x01\0\0\0\x03\0\0\0\x05\0\0\0\0\0\0\0\0\0\0\0\0",
        at: 32,
    },
    Row {
        bytes: b"MLX1\x01\0\0\0\0\0\0\0\x01\0\0\0\x03\0\0\0\x05\0\0\0\0\0\0\0",
        at: 28,
    },
    // The code: no such row, and operands that are not used.
    Row {
        bytes: b"MLX1\x01\0\0\0\0\0\0\0\x01\0\0\0\x63\0\0\0\0\0\0\0\0\0\0\0\0\0\0\0",
        at: 16,
    },
    Row {
        bytes: b"MLX1\x01\0\0\0\0\0\0\0\x01\0\0\0\x03\0\0\0\x05\0\0\0\x01\0\0\0\0\0\0\0",
        at: 16,
    },
    Row {
        bytes: b"MLX1\x01\0\0\0\x02\0\0\0\x04\0\0\0\x07\0\0\0\x04\x03\x02\x01\
            \x01\0\0\0\x09\0\0\0\xff\xff\xff\xff\0\0\0\0\x03\0\0\0\0\x01\0\0\0\0\0\0\0\0\0\0\
            \x10\0\0\0\x02\0\0\0\x03\0\0\0\x05\0\0\0\x0c\0\0\0\0\0\0\0\0\0\0\0\x01\0\0\0",
        at: 72,
    },
];

/// The offset at which the bytes are refused.
fn refused_at(alloc: Global, bytes: &[u8]) -> Option<u64> {
    match read_image(alloc, bytes) {
        Err(ImageRefused::BadImage(at)) => Some(at),
        _ => None,
    }
}

#[test]
fn refuses_other_bytes_at_the_first_check_that_fails(rt: HostRuntime) {
    for row in REFUSALS.iter() {
        assert_eq!(rt; refused_at(rt.alloc(), row.bytes), Some(row.at));
    }
}

#[test]
fn says_where_it_refused(rt: HostRuntime) -> Result<(), Fail> {
    let text = format!(in rt.alloc(); "{}", ImageRefused::BadImage(16))?;
    assert_eq!(rt; text.as_str(), "not an image, at byte 16");
    Ok(())
}

#[test]
fn says_that_memory_was_wanting(rt: HostRuntime) -> Result<(), Fail> {
    let text = format!(in rt.alloc(); "{}", ImageRefused::Memory)?;
    assert_eq!(rt; text.as_str(), "out of memory");
    Ok(())
}
