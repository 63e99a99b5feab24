// Texts. To know that a byte is one, it is read.

ghost use Rattle.std.specs.Prelude.{◌≡◌, ◌<◌, All, true, map};
ghost use Rattle.std.specs.List.{AllByRecursion};
ghost use Rattle.ir_code.specs.Machine.{all_bytes};
ghost use Rattle.first_tables.specs.TablesOf.{items_of};

fn is_byte(byte: u8)
    ensures { byte < 256 }
{}

fn is_text(text: &[u8])
    ensures { All (λ b. b < 256) text.now }
{
    for i in 0..text.len() {
        is_byte(text[i]);
    }
}

/// Texts are of bytes.
pub fn texts_are_bytes(texts: &[Vec<u8>])
    ensures { AllByRecursion (λ t. all_bytes t ≡ true) (map items_of texts.now) }
{
    for i in 0..texts.len() {
        let text = &texts[i];
        is_text(text);
    }
}
