// The nodes of patterns.
ghost use Rattle.std.specs.Prelude.{◌≡◌, sum_by};
ghost use Rattle.sml_tree.specs.TreeOf.{constant_of, pat_of};
ghost use Rattle.exp_weights.specs.Nodes.{capped, constant_count, pat_count};
ghost use Rattle.exp_weights.specs.Sums.{pat_field_nodes, pat_nodes, pat_part_nodes};

use sml_tree::ident::Constant;
use sml_tree::tree::{Pat, PatField, PatPart};

/// A constant is one node, and a string one more for each of its bytes.
pub fn constant_nodes(constant: &Constant) -> usize
    ensures { result ≡ capped (constant_count (constant_of constant.now)) }
{
    match constant {
        Constant::Str(bytes) => bytes.len().saturating_add(1),
        _ => 1,
    }
}

#[cycle(pats)]
fn fields_nodes(fields: &[PatField]) -> usize
    ensures { result ≡ capped (sum_by pat_field_nodes fields.now) }
{
    let mut nodes: usize = 0;
    for i in 0..fields.len() {
        nodes = nodes.saturating_add(pat_nodes(&fields[i].pat));
    }
    nodes
}

/// The nodes of patterns.
#[cycle(pats)]
pub(crate) fn pats_nodes(parts: &[Pat]) -> usize
    ensures { result ≡ capped (sum_by pat_nodes parts.now) }
{
    let mut nodes: usize = 0;
    for i in 0..parts.len() {
        nodes = nodes.saturating_add(pat_nodes(&parts[i]));
    }
    nodes
}

/// The operands of a chain: each makes a constructor with a record.
#[cycle(pats)]
fn chain_nodes(parts: &[PatPart]) -> usize
    ensures { result ≡ capped (sum_by pat_part_nodes parts.now) }
{
    let mut nodes: usize = 0;
    for i in 0..parts.len() {
        nodes = nodes
            .saturating_add(pat_nodes(&parts[i].pat))
            .saturating_add(2);
    }
    nodes
}

/// The nodes of a pattern: the types that are written in it leave nothing behind.
#[cycle(pats)]
pub fn pat_nodes(pat: &Pat) -> usize
    ensures { result ≡ capped (pat_count (pat_of pat.now)) }
{
    match pat {
        Pat::Constant(_, constant) => constant_nodes(constant),
        Pat::Wild(_) | Pat::Vid(_, _) | Pat::BuiltIn(_, _) => 1,
        Pat::Record(_, fields, _) => fields_nodes(fields).saturating_add(1),
        Pat::Tuple(_, parts) => pats_nodes(parts).saturating_add(1),
        // Each element makes a constructor with a record, and `nil` is at the end.
        Pat::List(_, parts) => pats_nodes(parts)
            .saturating_add(parts.len().saturating_mul(2))
            .saturating_add(1),
        Pat::Con(_, _, _, argument) | Pat::BuiltCon(_, _, argument) => {
            pat_nodes(argument).saturating_add(1)
        }
        Pat::Chain(_, _, first, parts) => pat_nodes(first).saturating_add(chain_nodes(parts)),
        Pat::Typed(_, inner, _) => pat_nodes(inner).saturating_add(1),
        Pat::As(_, _, _, inner) => pat_nodes(inner).saturating_add(1),
    }
}
