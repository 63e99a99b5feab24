// What comes of copies: the table of their types, their tree with numbers, and how many nodes there are.
ghost use Rattle.std.specs.Prelude.{◌≡◌, ◌≤◌, ◌++◌, nat_eq, ℕ, List, [], Some, None, map, length, take, true, IfOk, IfErr};
ghost use Rattle.mlc_runs.specs.declared.pass.PassFault.TheVariants.{Expansion};
ghost use Rattle.ty_core.specs.Types.{Typ};
ghost use Rattle.ty_table.specs.TypeAt.{type_at, AllBelow};
ghost use Rattle.ir_plain.specs.Tree as clean;
ghost use Rattle.ir_plain.specs.Weight.{weight};
ghost use Rattle.ir_poly.specs.Types.{initial_constructors};
ghost use Rattle.ir_tables.specs.Rows.{constructors_at};
ghost use Rattle.monomorphise.specs.Counting.{expansion_within, greatest_expansion};
ghost use Rattle.monomorphise.specs.Expansion.{compared};
ghost use Rattle.monomorphise.specs.Monomorphise.{Named};
ghost use Rattle.monomorphise.specs.Number.{none_given, number};
ghost use Rattle.monomorphise.specs.Table.{number_in, types_for};
ghost use Rattle.mono_bound.specs.Reads.{mono_of};
ghost use Rattle.mono_words.specs.Words.{spell};
ghost use Rattle.mono_enter.specs.of_mono_state.Seen.{held_of, sign_of};
ghost use Rattle.mono_enter.specs.Walked.{Texts};
ghost use Rattle.mono_pass.specs.Made.{IsWalked, IsMade};

use crate::first::{first_types, with_initial};
use indexmap::IndexMap;
use ir_tables::constructors::Constructors;
use mlc_base::memory::NoMemory;
use mlc_runs::pass::PassFault;
use mono_enter::law::words_are_wanted;
use mono_enter::mono_state::copier::{Copier, GREATEST};
use mono_enter::steps::enter_words;
use mono_enter::walk::Tables;
use mono_needed::count::count_needed;
use mono_number::apart::names_are_apart;
use mono_number::tree::numbered_tree;
use mono_types::types::Types;
use plain_tree::tree::Exp;
use std::alloc::Global;
use ty_table::types::Types as Sources;

/// A tree with numbers, the table of its types, and how many nodes it has, written out.
#[derive(Drop)]
pub struct Made {
    pub types: Types,
    pub expansion: usize,
    pub body: Exp,
}

/// A tree with numbers, and the table of its types.
#[derive(Drop)]
struct Numbered {
    types: Types,
    body: Exp,
}

/// Whether all of these are below a limit.
fn all_below(numbers: &[usize], limit: usize) -> bool
    ensures { result ≡ true → AllBelow limit numbers.now }
{
    for i in 0..numbers.len() {
        if numbers[i] >= limit {
            return false;
        }
    }
    true
}

/// How many nodes there are with the types that equality needs at these.
fn count(
    alloc: Global,
    sources: &Sources,
    constructors: &Constructors,
    closed: &mut Sources,
    roots: &[usize],
    nodes: usize,
) -> Result<usize, PassFault>
    requires { nodes ≤ greatest_expansion }
    ensures counted { IfOk result (λ n. (e : clean.Exp Named) → map (type_at closed.old) roots.now ≡ compared e → nodes ≡ weight e
        → expansion_within greatest_expansion (constructors_at sources.now constructors.now) e ≡ Some n) }
    ensures earlier_stay { IfOk result (λ _. take (length closed.old) closed.new ≡ closed.old) }
    ensures past { IfErr result (λ fault. fault ≡ Expansion → (e : clean.Exp Named) → map (type_at closed.old) roots.now ≡ compared e → nodes ≡ weight e
        → expansion_within greatest_expansion (constructors_at sources.now constructors.now) e ≡ None) }
{
    let len = closed.len();
    if !all_below(roots, len) {
        return Err(PassFault::Memory);
    }
    let found = count_needed(
        alloc,
        sources,
        constructors,
        closed,
        roots,
        GREATEST - nodes,
    )?;
    match found {
        Some(types) => match nodes.checked_add(types) {
            Some(all) => Ok(all),
            None => Err(PassFault::Memory),
        },
        None => Err(PassFault::Expansion),
    }
}

/// The tree of copies whose words stand in the order of the text.
fn number_copies(
    alloc: Global,
    sources: &Sources,
    constructors: &Constructors,
    copier: &Copier,
) -> Result<Numbered, NoMemory>
    ensures types { IfOk result (λ made. (strings : Texts) (e : clean.Exp Named)
        → map (sign_of strings (held_of copier.now)) copier.now.words.items ≡ spell e []
        → made.types ≡ types_for (constructors_at sources.now constructors.now) e) }
    ensures body { IfOk result (λ made. (strings : Texts) (e : clean.Exp Named) → map (sign_of strings (held_of copier.now)) copier.now.words.items ≡ spell e []
        → mono_of made.types strings made.body ≡ number made.types (number_in made.types) none_given 0 e) }
{
    if !names_are_apart(copier) {
        return Err(NoMemory);
    }
    words_are_wanted();
    let mut types = first_types(alloc)?;
    let mut known = IndexMap::new(alloc);
    let tables = Tables {
        closed: &copier.closed,
        sources,
        constructors,
    };
    enter_words(alloc, &tables, &mut known, &mut types, &copier.words)?;
    let body = numbered_tree(alloc, &copier.words, copier.copies.len(), &known)?;
    Ok(Numbered { types, body })
}

/// What comes of the copies of a program with these types and constructors. It answers Expansion only where there are more nodes than may be; else Err is want
/// of memory or of numbers. The types, and what the walk has made, are of no use then.
pub fn make(
    alloc: Global,
    sources: &mut Sources,
    program: &Constructors,
    copier: &mut Copier,
) -> Result<Made, PassFault>
    requires { copier.old.nodes ≤ greatest_expansion }
    ensures made { IfOk result (λ made. (strings : Texts) (e : clean.Exp Named) → IsWalked strings e copier.old
        → IsMade (initial_constructors ++ constructors_at sources.old program.now) strings e made) }
    ensures too_large { IfErr result (λ fault. fault ≡ Expansion → (strings : Texts) (e : clean.Exp Named) → IsWalked strings e copier.old
        → expansion_within greatest_expansion (initial_constructors ++ constructors_at sources.old program.now) e ≡ None) }
{
    let constructors = with_initial(alloc, sources, program)?;
    // A table is read to know that it holds each type once.
    copier.words.reverse();
    copier.compared.reverse();
    let _types_once = copier.closed.len();
    let _lists_once = copier.lists.len();
    let nodes = copier.nodes;
    let expansion = count(
        alloc,
        sources,
        &constructors,
        &mut copier.closed,
        &copier.compared,
        nodes,
    )?;
    let _later_once = copier.closed.len();
    let Numbered { types, body } = number_copies(alloc, sources, &constructors, copier)?;
    Ok(Made {
        types,
        expansion,
        body,
    })
}
