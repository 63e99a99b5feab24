// The nodes of declarations, without those of their bindings, which are counted where these are.
ghost use Rattle.std.specs.Prelude.{◌≡◌, map, sum_by};
ghost use Rattle.sml_tree.specs.TreeOf.{dec_of, decs_of};
ghost use Rattle.exp_weights.specs.Nodes.{capped, outer_count};
ghost use Rattle.exp_weights.specs.Sums.{dec_nodes};

use sml_tree::tree::Dec;

/// A declaration, and those inside it.
#[cycle(decs)]
fn dec_nodes(dec: &Dec) -> usize
    ensures { result ≡ capped (dec_nodes dec.now) }
{
    match dec {
        Dec::Val(_, _, _, _)
        | Dec::Fun(_, _, _)
        | Dec::Abbreviation(_, _)
        | Dec::Datatype(_, _)
        | Dec::Replicate(_, _, _)
        | Dec::Exception(_, _)
        | Dec::Open(_, _) => 1,
        // Two declarations in a sequence.
        Dec::Withtype(_, _, _) => 3,
        Dec::Local(_, inner, outer) => decs_nodes(inner)
            .saturating_add(decs_nodes(outer))
            .saturating_add(1),
        Dec::Declarations(_, inside) => decs_nodes(inside).saturating_add(1),
    }
}

/// Declarations, with those that stand in `local` and in sequences of them.
#[cycle(decs)]
pub fn decs_nodes(decs: &[Dec]) -> usize
    ensures { result ≡ capped (outer_count (decs_of (map dec_of decs.now))) }
{
    let mut nodes: usize = 0;
    for i in 0..decs.len() {
        nodes = nodes.saturating_add(dec_nodes(&decs[i]));
    }
    nodes
}
