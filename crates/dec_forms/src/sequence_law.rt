// Sequences, as a law: they have no code of their own.

ghost use Rattle.dec_forms.specs.Local.{SequencesAreBringing};

/// A declaration of declarations is what they are one after the other.
pub fn sequences_are_bringing()
    ensures { SequencesAreBringing }
{}
