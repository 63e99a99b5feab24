// The state of elaboration.
ghost use Rattle.std.specs.Prelude.{length};
ghost use Rattle.elab_state.specs.Namings.{AreNamings};
ghost use Rattle.elab_state.specs.Readings.{AreWritten, AreHeldRows};
ghost use Rattle.elab_state.specs.Props.{AreNamings-prop, AreWritten-prop, AreHeldRows-prop};

use crate::naming::{Naming, Written};
use prog_tree::ir_tables::tables::Tables;
use ty_instance::ty_solve::solver::Solver;

/// What variables stand for; the types that the tree writes, by number, and the namings that are in force in it; the program's tables and its next variable;
/// inside how many `val` declarations that generalise all of this is; and the types of the record patterns with `...` so far, in their order.
#[derive(Drop)]
pub struct State {
    pub solver: Solver,
    pub written: Vec<Written>,
    pub namings: Vec<Naming>,
    pub tables: Tables,
    pub next: usize,
    pub level: usize,
    pub flexible: Vec<usize>,
    pub ghost held: { AreWritten (length solver.subst.types) (length namings.items) written.items } by { AreWritten-prop (length solver.subst.types) (length namings.items) written.items },
    pub ghost ordered: { AreNamings namings.items } by { AreNamings-prop namings.items },
    pub ghost rows: { AreHeldRows (length tables.types) tables.constructors } by { AreHeldRows-prop (length tables.types) tables.constructors },
}
