// Laws of the size of copies, as contracts.

ghost use Rattle.mono_limit.specs.Laws.{OneSize, IsTooLarge, IsFound};

/// A program has one size at most. The pass gives no program exactly where there is none within the limit.
pub fn expansion_is_exact()
    ensures one { OneSize }
    ensures too_large { IsTooLarge }
    ensures found { IsFound }
{}
