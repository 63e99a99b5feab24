// Which primitives the code is right for, as contracts.

ghost use Rattle.machine_primitives.specs.Laws.{SumsAreRight, WordQuotientsAreRight, IntRowsAreRight, DivisionsAreRight, BitsAreRight, ConversionsAreRight, TruthsAreRight, LimitsAreRight, SizesAreRight, ContrariesAreRight, ComparisonsAreRight, TextOrdersAreRight, TextsAreRight};

/// Sums, differences and products of integers, which may overflow, and of words.
pub fn sums()
    ensures { SumsAreRight }
{
    ir_code::law::begins();
    ir_code::law::control();
    ir_code::law::memory();
    ir_code::law::arithmetic();
}

/// Quotients and remainders of words, by 0 too.
pub fn word_quotients()
    ensures { WordQuotientsAreRight }
{
    ir_code::law::begins();
    ir_code::law::control();
    ir_code::law::memory();
    ir_code::law::arithmetic();
}

/// Comparisons of integers, words and characters, as tests.
pub fn comparisons()
    ensures { ComparisonsAreRight }
{
    ir_code::law::begins();
    ir_code::law::control();
    ir_code::law::memory();
    ir_code::law::arithmetic();
}

/// Bits and shifts of words, complement and negative.
pub fn bits()
    ensures { BitsAreRight }
{
    ir_code::law::begins();
    ir_code::law::control();
    ir_code::law::memory();
    ir_code::law::arithmetic();
}

/// An integer's bits as a word, and a character's code.
pub fn conversions()
    ensures { ConversionsAreRight }
{
    ir_code::law::begins();
    ir_code::law::control();
    ir_code::law::memory();
    ir_code::law::arithmetic();
}

/// Comparisons of integers, words and characters, as values.
pub fn truths()
    ensures { TruthsAreRight }
{
    ir_code::law::begins();
    ir_code::law::control();
    ir_code::law::memory();
    ir_code::law::arithmetic();
}

/// Words as integers, and characters of codes.
pub fn limits()
    ensures { LimitsAreRight }
{
    ir_code::law::begins();
    ir_code::law::control();
    ir_code::law::memory();
    ir_code::law::arithmetic();
}

/// The size of a string.
pub fn sizes()
    ensures { SizesAreRight }
{
    ir_code::law::begins();
    ir_code::law::control();
    ir_code::law::memory();
    ir_code::law::arithmetic();
}

/// At most and at least, as values.
pub fn contraries()
    ensures { ContrariesAreRight }
{
    ir_code::law::begins();
    ir_code::law::control();
    ir_code::law::memory();
    ir_code::law::arithmetic();
}

/// Remainders and negatives of integers.
pub fn int_rows()
    ensures { IntRowsAreRight }
{
    ir_code::law::begins();
    ir_code::law::control();
    ir_code::law::memory();
    ir_code::law::arithmetic();
}

/// Quotients of integers, what is left, and absolute values.
pub fn divisions()
    ensures { DivisionsAreRight }
{
    word_arithmetic::law::division_is_floored();
    ir_code::law::begins();
    ir_code::law::control();
    ir_code::law::memory();
    ir_code::law::arithmetic();
}

/// Comparisons of texts, as values and as tests.
pub fn text_orders()
    ensures { TextOrdersAreRight }
{
    ir_code::law::begins();
    ir_code::law::control();
    ir_code::law::memory();
    ir_code::law::arithmetic();
}

/// Characters, parts and concatenations of texts, and texts of characters and of integers.
pub fn text_rows()
    ensures { TextsAreRight }
{
    ir_code::law::begins();
    ir_code::law::control();
    ir_code::law::memory();
    ir_code::law::arithmetic();
}
