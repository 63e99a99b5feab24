// The law of projects, as a contract.

ghost use Rattle.mlb_reader.specs.Laws.{OneProject};

use module_grammar::law::one_tree;
use sml_lexer::lex::one_reading;

/// The files at a path give one project, with one table of names.
pub fn one_project()
    ensures { OneProject }
{
    one_reading();
    one_tree();
}
