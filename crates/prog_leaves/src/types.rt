// What the types are that expressions have written.
ghost use Rattle.std.specs.Prelude.{◌≡◌, ◌∷◌, [], drop};
ghost use Rattle.ty_table.specs.TypeAt.{type_at};
ghost use Rattle.prog_pats.specs.of_prog_parts.Expressions.{right_type, join_next};
ghost use Rattle.prog_leaves.specs.Right.{has_type, is_bool, is_last, is_test, applies, pair_is, operator_is, joined};

use ir_known::ask::{BOOL, is_function, is_named, same_type};
use ir_tables::tables::Tables;
use mlc_names::label::Label;
use prog_known::answers::both;
use prog_pats::ir_uses::record::is_record;
use prog_shapes::types::type_of;
use prog_tree::tree::{Exp, Join, Side};

/// Whether an expression has written this type.
pub fn has_type(tables: &Tables, exp: &Exp, ty: usize) -> bool
    ensures { result ≡ has_type tables.now exp.now ty }
{
    same_type(&tables.types, type_of(exp), ty)
}

/// Whether the last expression of a sequence has written this type, where there are others.
pub fn is_last(tables: &Tables, before: &[Exp], last: &Exp, ty: usize) -> bool
    ensures { result ≡ is_last tables.now before.now last.now ty }
{
    if before.is_empty() {
        return true;
    }
    has_type(tables, last, ty)
}

/// Whether a type is that of truth values.
pub fn is_bool(tables: &Tables, ty: usize) -> bool
    ensures { result ≡ is_bool tables.now ty }
{
    is_named(&tables.types, ty, BOOL)
}

/// Whether an expression has written the type of truth values.
pub fn is_test(tables: &Tables, exp: &Exp) -> bool
    ensures { result ≡ is_test tables.now exp.now }
{
    is_named(&tables.types, type_of(exp), BOOL)
}

/// Whether what has a type can be applied to the argument.
pub fn applies(tables: &Tables, of: usize, argument: &(usize, Exp)) -> bool
    ensures { result ≡ applies tables.now (type_at tables.now.types of) argument.now }
{
    is_function(&tables.types, of, type_of(&argument.1), argument.0)
}

/// Whether a type is that of pairs of these.
fn is_pair(tables: &Tables, ty: usize, left: usize, right: usize) -> bool
    ensures { result ≡ pair_is tables.now ty left right }
{
    let fields = [(Label::Number(1), left), (Label::Number(2), right)];
    is_record(&tables.types, ty, &fields)
}

/// Whether what an expression has written is the type of functions between these.
fn is_operator(tables: &Tables, exp: &Exp, pair: usize, ty: usize) -> bool
    ensures { result ≡ operator_is tables.now exp.now pair ty }
{
    is_function(&tables.types, type_of(exp), pair, ty)
}

/// Whether an operator can be applied to operands of these types.
pub fn is_joined(tables: &Tables, left: usize, right: usize, join: &(Join, Exp, Exp)) -> bool
    ensures { result ≡ joined tables.now (type_at tables.now.types left) (type_at tables.now.types right) join.now }
{
    let pair = is_pair(tables, join.0.pair, left, right);
    let operator = is_operator(tables, &join.1, join.0.pair, join.0.ty);
    both(pair, operator)
}

/// The type of the right operand of an operator, where these come after it.
pub fn right_of(
    tables: &Tables,
    side: Side,
    join: &(Join, Exp, Exp),
    joins: &[(Join, Exp, Exp)],
    next: usize,
) -> usize
    ensures { type_at tables.now.types result ≡ right_type tables.now side join.now (drop next joins.now) }
{
    match side {
        Side::Left => type_of(&join.2),
        Side::Right => {
            if next < joins.len() {
                joins[next].0.ty
            } else {
                type_of(&join.2)
            }
        }
    }
}

/// The type that the operator after it has for its left operand.
pub fn left_after(tables: &Tables, side: Side, left: usize, join: &(Join, Exp, Exp)) -> usize
    ensures { join_next tables.now side (type_at tables.now.types left) join.now ≡ type_at tables.now.types result }
{
    match side {
        Side::Left => join.0.ty,
        Side::Right => type_of(&join.2),
    }
}
