// Lists of declarations, of the core alone or mixed.

ghost use Rattle.std.specs.Prelude.{◌≡◌, ◌++◌, ◌&&◌, ◌∷◌, [], map, IfOk};
ghost use Rattle.sml_tree.specs.BareTree.{Dec};
ghost use Rattle.module_code.specs.TreeOf.{str_dec_of};
ghost use Rattle.module_tree.specs.BareModules as bare;
ghost use Rattle.str_phrases.specs.StrsRead.{items_of, decs_list, is_core_item, are_core};

use mlc_base::memory::NoMemory;
use module_code::nodes;
use module_code::structures::StrDec;
use phrase_base::got::pushed;
use std::alloc::Global;

/// A declaration of the core, or another one.
#[derive(Drop)]
pub enum Item<D> {
    Core(D),
    Other(StrDec<D>),
}

/// Declarations of the core alone, or some of which one isn't of the core.
#[derive(Drop)]
pub enum Decs<D> {
    Core(Vec<D>),
    Mixed(Vec<StrDec<D>>),
}

/// Declarations of the core as declarations of structures.
fn mapped<D: Drop>(alloc: Global, decs: Vec<D>) -> Result<Vec<StrDec<D>>, NoMemory>
    ensures { IfOk result (λ made. (of : D → Dec) → map (str_dec_of of) made.items ≡ map (λ d. bare.core_dec (of d)) decs.items) }
{
    let mut made = Vec::new(alloc);
    for dec in decs {
        made.push(nodes::core(dec))?;
    }
    Ok(made)
}

/// As declarations of structures.
pub fn mixed<D: Drop>(alloc: Global, decs: Decs<D>) -> Result<Vec<StrDec<D>>, NoMemory>
    ensures { IfOk result (λ made. (of : D → Dec) → map (str_dec_of of) made.items ≡ decs_list of decs) }
{
    match decs {
        Decs::Core(all) => mapped(alloc, all),
        Decs::Mixed(all) => Ok(all),
    }
}

/// With one more declaration at the end, where there is one.
pub fn put<D: Drop>(
    alloc: Global,
    decs: Decs<D>,
    item: Option<Item<D>>,
) -> Result<Decs<D>, NoMemory>
    ensures list { IfOk result (λ made. (of : D → Dec) → decs_list of made ≡ decs_list of decs ++ items_of of item) }
    ensures core { IfOk result (λ made. are_core made ≡ (are_core decs && is_core_item item)) }
{
    match item {
        None => Ok(decs),
        Some(Item::Core(dec)) => put_core(decs, dec),
        Some(Item::Other(dec)) => Ok(Decs::Mixed(pushed(mixed(alloc, decs)?, dec)?)),
    }
}

/// With a declaration of the core at the end.
fn put_core<D: Drop>(decs: Decs<D>, dec: D) -> Result<Decs<D>, NoMemory>
    ensures list { IfOk result (λ made. (of : D → Dec) → decs_list of made ≡ decs_list of decs ++ bare.core_dec (of dec) ∷ []) }
    ensures core { IfOk result (λ made. are_core made ≡ are_core decs) }
{
    match decs {
        Decs::Core(all) => Ok(Decs::Core(pushed(all, dec)?)),
        Decs::Mixed(all) => Ok(Decs::Mixed(pushed(all, nodes::core(dec))?)),
    }
}
