// The law of names, as a contract.

ghost use Rattle.mono_names.specs.Named.{NamesAreOnce};

/// Copies whose names are one have one number.
pub fn names_are_once()
    ensures { NamesAreOnce }
{}
