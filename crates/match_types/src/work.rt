// What steps are made with.
ghost use Rattle.std.specs.Prelude.{◌≤◌, length};

use ir_known::stack::Stack;
use ir_tables::tables::Tables;
use match_names::names::Names;
use ty_core::mark::Mark;

/// What a value's type is: that of a number of the source, or one that the pass itself brings in.
#[derive(Clone, Copy)]
pub enum ValueType {
    Source(usize),
    Exception,
    Bool,
    Unit,
}

/// What steps are made with: the tables, whose first so many types are the source's; the parameters in scope; the numbers of the source's variables; and the
/// next new number.
#[derive(Drop)]
pub struct Work {
    pub tables: Tables,
    pub first: usize,
    pub scope: Stack<Mark>,
    pub names: Names,
    pub next: usize,
    ghost within: { first ≤ length tables.types },
}
