// Laws of the bytes of images.

ghost use Rattle.ir_code.specs.ImageLaws.{RowsAreExact, OneInstrPerRow, OneProgramPerImage, ChecksAreExact};

/// Four words are an instruction's where the test of them says so, and then of one.
pub fn rows_are_exact()
    ensures told { RowsAreExact }
    ensures one { OneInstrPerRow }
{}

/// No two programs have the same bytes.
pub fn one_program_per_image()
    ensures { OneProgramPerImage }
{}

/// All checks pass exactly where some program has the bytes.
pub fn checks_are_exact()
    ensures { ChecksAreExact }
{}
