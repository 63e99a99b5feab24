// The functions of a program, and its sets.
ghost use Rattle.std.specs.Prelude.{◌≡◌, ◌∷◌, [], ℕ, List, map, IfOk};
ghost use Rattle.flow_sets.specs.Flow.{Flow};
ghost use Rattle.mono_bound.specs.Reads.{mono_of};
ghost use Rattle.closure_convert.specs.Scope.{Table, top};
ghost use Rattle.first_tables.specs.TablesOf.{member_of, set_of as made_set};
ghost use Rattle.first_tree.specs.TreeOf.{fun_of};
ghost use Rattle.closure_meaning.specs.Convert.{Numbering, convert as converted, set_of};
ghost use Rattle.closure_bodies.specs.of_closure_parts.Settings.{Row, Texts, Holds};
ghost use Rattle.closure_first.specs.Codes.{functions_of};

use crate::codes::push_codes;
use capture_scope::scope::{Scope, ScopeFault};
use closure_bodies::closure_parts::setting::Setting;
use closure_bodies::convert::convert;
use first_tables::tables::Member;
use first_tree::tree::Fun;
use mlc_base::make::one;
use mlc_base::memory::NoMemory;
use mono_types::types::Types;
use plain_tree::tree::Exp;
use std::alloc::Global;

/// The program itself as a function without parameters.
fn main_of(alloc: Global, types: &Types, setting: &Setting, body: &Exp) -> Result<Fun, ScopeFault>
    ensures { IfOk result (λ made. (strings : Texts) (n : Numbering) (F : Flow) (T : Table) → Holds setting.now types.now strings n F T
        → fun_of made ≡ record { params = []; body = converted n types.now F T top (mono_of types.now strings body.now) }) }
{
    let mut scope = Scope::new(alloc);
    let made = convert(alloc, types, setting, &mut scope, body)?;
    Ok(Fun {
        params: Vec::new(alloc),
        body: made,
    })
}

/// The functions of a program with this body, by what the setting holds: the program itself, and then each function of the program in the order of the text,
/// which a call names by its place.
pub fn functions(
    alloc: Global,
    types: &Types,
    setting: &Setting,
    body: &Exp,
) -> Result<Vec<Fun>, ScopeFault>
    ensures { IfOk result (λ made. (strings : Texts) (n : Numbering) (F : Flow) (T : Table) → Holds setting.now types.now strings n F T
        → map fun_of made.items ≡ functions_of n types.now F T (mono_of types.now strings body.now)) }
{
    let main = main_of(alloc, types, setting, body)?;
    let mut made = one(alloc, main)?;
    push_codes(alloc, types, setting, body, &mut made)?;
    Ok(made)
}

/// A set of functions, each by the tag of its closures and the number of its code.
fn set(alloc: Global, setting: &Setting, functions: &[usize]) -> Result<Vec<Member>, NoMemory>
    ensures { IfOk result (λ made. (types : List Row) (strings : Texts) (n : Numbering) (F : Flow) (T : Table) → Holds setting.now types strings n F T
        → map member_of made.items ≡ set_of n functions.now) }
{
    let mut made = Vec::new(alloc);
    for i in 0..functions.len() {
        let tag = setting.tags.of(functions[i]);
        let function = setting.code(functions[i])?;
        made.push(Member { tag, function })?;
    }
    Ok(made)
}

/// Sets, one after the other.
fn all_sets(
    alloc: Global,
    setting: &Setting,
    given: &[Vec<usize>],
) -> Result<Vec<Vec<Member>>, NoMemory>
    ensures { IfOk result (λ made. (types : List Row) (strings : Texts) (n : Numbering) (F : Flow) (T : Table) → Holds setting.now types strings n F T
        → map made_set made.items ≡ map (λ s. set_of n s.items) given.now) }
{
    let mut made = Vec::new(alloc);
    for i in 0..given.len() {
        let functions = &given[i];
        let next = set(alloc, setting, functions)?;
        made.push(next)?;
    }
    Ok(made)
}

/// The sets of a program.
pub fn sets(alloc: Global, setting: &Setting) -> Result<Vec<Vec<Member>>, NoMemory>
    ensures { IfOk result (λ made. (types : List Row) (strings : Texts) (n : Numbering) (F : Flow) (T : Table) → Holds setting.now types strings n F T
        → map made_set made.items ≡ map (set_of n) F.sets) }
{
    all_sets(alloc, setting, &setting.flow.sets)
}
