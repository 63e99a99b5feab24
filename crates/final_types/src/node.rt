// What types are in the end, node by node.
ghost use Rattle.std.specs.Prelude.{◌≡◌, ℕ, length, IfOk};
ghost use Rattle.ty_core.specs.Marks.{overloaded};
ghost use Rattle.ty_core.specs.TypesOf.{head_of};
ghost use Rattle.ty_core.specs.Types.{var};
ghost use Rattle.ty_core.specs.declared.mark.Mark.{Mark};
ghost use Rattle.ty_table.specs.TypeAt.{type_at, AllBelow};
ghost use Rattle.ty_solve.specs.Limits.{limit_at};
ghost use Rattle.ty_solve.specs.Said.{said};
ghost use Rattle.ty_solve.specs.SlotsOf.{row_in, row_of};
ghost use Rattle.ty_solve.specs.Substitution.{free};
ghost use Rattle.ty_solve.specs.declared.solver.Solver.{Solver};
ghost use Rattle.final_types.specs.Nodes.{IsNode, IsPlain, default_of, types_of};

use mlc_base::make::both;
use mlc_base::memory::NoMemory;
use std::alloc::Global;
use ty_core::mark::{Class, Mark};
use ty_core::name::TyName;
use ty_core::ty::{Head, copy_labels};
use ty_solve::limit::Limit;
use ty_solve::row::Row;
use ty_solve::solver::Solver;
use ty_table::types::View;

/// A type in the end, as far as its first node: a parameter, what another type is, or a symbol with parts.
#[derive(Drop)]
pub enum Node {
    Parameter(usize),
    Same(usize),
    Of(Head, Vec<usize>),
}

/// The limit of a variable.
pub fn limit_of(solver: &Solver, v: usize) -> Limit
    ensures { result ≡ limit_at solver.now.limits.items v }
{
    if v < solver.limits.len() {
        solver.limits[v]
    } else {
        Limit { names: 4, level: 0 }
    }
}

/// A head in memory of its own.
fn copy_head(alloc: Global, head: &Head) -> Result<Head, NoMemory>
    ensures { IfOk result (λ copy. head_of copy ≡ head_of head.now) }
{
    match head {
        Head::Function => Ok(Head::Function),
        Head::Record(labels) => {
            let copy = copy_labels(alloc, labels)?;
            Ok(Head::Record(copy))
        }
        Head::Named(name) => Ok(Head::Named(*name)),
    }
}

/// Numbers in memory of their own.
fn copy_numbers(alloc: Global, numbers: &[usize]) -> Result<Vec<usize>, NoMemory>
    ensures { IfOk result (λ copy. copy.items ≡ numbers.now) }
{
    Ok(Vec::from_slice(alloc, numbers)?)
}

/// The first of int, word, char and string that a class has.
fn default_name(class: Class) -> TyName
    ensures { result ≡ overloaded (default_of class) }
{
    if class.int {
        TyName::INT
    } else if class.word {
        TyName::WORD
    } else if class.char {
        TyName::CHAR
    } else {
        TyName::STRING
    }
}

/// A variable that was generalised is itself, others of no class are the unit type.
fn plain_node(alloc: Global, solver: &Solver, v: usize) -> Node
    ensures { (k : Mark) → IsPlain k → said solver.now.subst v ≡ free k → IsNode solver.now (var v) result }
{
    if limit_of(solver, v).level == usize::MAX {
        Node::Parameter(v)
    } else {
        Node::Of(Head::Record(Vec::new(alloc)), Vec::new(alloc))
    }
}

/// A row is the record of its known fields.
fn row_node(alloc: Global, row: &Row) -> Result<Node, NoMemory>
    ensures { IfOk result (λ n. (M : Solver) (v : ℕ) → said M.subst v ≡ row_of (row_in (types_of M) row.now)
        → AllBelow (length (types_of M)) row.now.types.items → IsNode M (var v) n) }
{
    match both(
        copy_labels(alloc, &row.labels),
        copy_numbers(alloc, &row.types),
    ) {
        Ok((labels, parts)) => Ok(Node::Of(Head::Record(labels), parts)),
        Err(e) => Err(e),
    }
}

/// What a variable is.
fn variable_node(alloc: Global, solver: &Solver, v: usize) -> Result<Node, NoMemory>
    ensures { IfOk result (IsNode solver.now (var v)) }
{
    if let Some(u) = solver.subst.get(v) {
        return Ok(Node::Same(u));
    }
    if let Some(row) = solver.subst.row(v) {
        return row_node(alloc, row);
    }
    match solver.subst.mark_of(v) {
        Mark::Class(class) => Ok(Node::Of(Head::Named(default_name(class)), Vec::new(alloc))),
        _ => Ok(plain_node(alloc, solver, v)),
    }
}

/// What a type is.
pub fn node_of(alloc: Global, solver: &Solver, k: usize) -> Result<Node, NoMemory>
    ensures { IfOk result (IsNode solver.now (type_at (types_of solver.now) k)) }
{
    match solver.subst.types.view(k) {
        View::Var(v) => variable_node(alloc, solver, v),
        View::Apply(head, parts) => match both(copy_head(alloc, head), copy_numbers(alloc, parts)) {
            Ok((head, parts)) => Ok(Node::Of(head, parts)),
            Err(e) => Err(e),
        },
    }
}
