// Laws of captures, as contracts.

ghost use Rattle.closure_convert.specs.Laws.{CapturesAreRight, PiecesAreFew, CurriedAreFew};

/// In a well formed program, with captures in the order of binding, each body finds every variable that it uses, and the pieces of each closure make what it
/// captures.
pub fn captures_are_right()
    ensures { CapturesAreRight }
{}

/// A closure is made of a piece for each gap in what the function around captured, and one for each variable of its body or group; so a curried function of n
/// parameters makes closures of less than 2 n pieces, and one more for each name of its group.
pub fn pieces_are_few()
    ensures gaps { PiecesAreFew }
    ensures curried { CurriedAreFew }
{}
