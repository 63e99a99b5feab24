// Laws of copies that take no turns, as contracts.

ghost use Rattle.mono_strip.specs.Laws.{StripIsOnce, StrippedLets, StrippedGroups, StripWeighsNothing, StripComparesNothing};

/// A copy within a copy takes no turns but once, and counts as any other.
pub fn stripped_copies()
    ensures once { StripIsOnce }
    ensures lets { StrippedLets }
    ensures groups { StrippedGroups }
    ensures weight { StripWeighsNothing }
    ensures compared { StripComparesNothing }
{}
