// Laws of what is done with values, as contracts.

ghost use Rattle.first_values.specs.Laws.{OnlyTheseRaise, PlainNeverRaises, RunsAreParts};

/// A primitive raises nothing at operands at which it isn't said to; so no plain operation raises.
pub fn plain_operations_have_one_way_on()
    ensures primitives { OnlyTheseRaise }
    ensures plain { PlainNeverRaises }
{}

/// A run of all parts of a cell has the parts of that cell.
pub fn runs_are_parts()
    ensures { RunsAreParts }
{}
