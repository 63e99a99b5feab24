// The law of the conversion, as a contract.

ghost use Rattle.closure_whole.specs.Laws.{ConvertedSame, WithoutFunctionsSame, RisingSolve, TagsAreApart, TagsAreDense, WithoutFunctionsDense};

/// The converted program of a well formed one with no function by itself does the same at every number of turns. It is made with all functions of each type,
/// and captures in the order of binding.
pub fn explicit_programs_are_converted()
    ensures { ConvertedSame }
{}

/// All functions of each type, in rising order, are a solution.
pub fn rising_sets_solve()
    ensures { RisingSolve }
{}

/// Any well formed program, of which each function by itself becomes a `fn` first, does the same when it is converted, at every number of turns.
pub fn programs_are_converted()
    ensures { WithoutFunctionsSame }
{}

/// The functions of one set have tags of their own, whatever the sets are: 0, 1, 2 and so on in each, where no function stands twice in them, as in those by
/// type.
pub fn tags_are_dense()
    ensures apart { TagsAreApart }
    ensures dense { TagsAreDense }
    ensures by_type { WithoutFunctionsDense }
{}
