// Laws of conversions, as contracts.

ghost use Rattle.closure_pass.specs.Laws.{ConversionMakesNoMore, ExpansionMakesNoMore, WithoutFunctionsMakesNoMore};

/// Neither the expansion of what is a function by itself nor the conversion of functions to cells makes exceptions but those of the program.
pub fn conversions_make_no_more()
    ensures conversion { ConversionMakesNoMore }
    ensures expansion { ExpansionMakesNoMore }
    ensures whole { WithoutFunctionsMakesNoMore }
{}
