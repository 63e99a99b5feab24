// Names of the standard words.

ghost use Rattle.std.specs.Prelude.{◌≡◌, ◌<◌, true, All};

use mlc_names::names::Name;

/// Whether all of these are standard words, of which there are 119.
pub fn are_standard(found: &[Name]) -> bool
    ensures { result ≡ true → All (λ i. i < 119) found.now }
{
    for i in 0..found.len() {
        if found[i].number() >= 119 {
            return false;
        }
    }
    true
}
