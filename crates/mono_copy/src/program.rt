// The copies of a whole program.
ghost use Rattle.std.specs.Prelude.{◌≡◌, ◌<◌, ◌≤◌, ℕ, [], map, reverse, IfOk, IfErr};
ghost use Rattle.mlc_runs.specs.Passes.{greatest_expansion};
ghost use Rattle.mlc_runs.specs.declared.pass.PassFault.TheVariants.{Expansion};
ghost use Rattle.ty_table.specs.TypeAt.{type_at};
ghost use Rattle.ir_plain.specs.Weight.{weight};
ghost use Rattle.ir_tables.specs.Tables.{strings_of};
ghost use Rattle.monomorphise.specs.Expansion.{compared};
ghost use Rattle.monomorphise.specs.Monomorphise.{copies};
ghost use Rattle.mono_words.specs.Words.{spell};
ghost use Rattle.mono_parts.specs.of_mono_state.Seen.{Held, held_of, Later, sign_of};
ghost use Rattle.mono_copy.specs.Changes.{exp_in};

use crate::walk::walk;
use ir_tables::tables::Tables;
use mlc_runs::pass::PassFault;
use mono_parts::mono_state::copier::Copier;
use plain_tree::tree::Exp;
use std::alloc::Global;

/// The copies of a program, as words, the last one first.
pub fn copy_program(alloc: Global, tables: &Tables, body: &Exp) -> Result<Copier, PassFault>
    ensures words { IfOk result (λ c. (H : Held) → Later (held_of c) H
        → map (sign_of (strings_of tables.now) H) (reverse c.words.items) ≡ spell (copies (exp_in tables.now body.now)) []) }
    ensures compared { IfOk result (λ c. (H : Held) → Later (held_of c) H
        → map (type_at H.types) (reverse c.compared.items) ≡ compared (copies (exp_in tables.now body.now))) }
    ensures nodes { IfOk result (λ c. c.nodes ≡ weight (copies (exp_in tables.now body.now))) }
    ensures few { IfOk result (λ c. c.nodes ≤ greatest_expansion) }
    ensures too_large { IfErr result (λ fault. fault ≡ Expansion → greatest_expansion < weight (copies (exp_in tables.now body.now))) }
{
    let mut copier = Copier::new(alloc)?;
    walk(alloc, tables, &mut copier, false, body)?;
    let _types_once = copier.closed.len();
    let _lists_once = copier.lists.len();
    Ok(copier)
}
