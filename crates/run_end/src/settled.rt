// Whether the types that a run of declarations brings into scope are settled.
ghost use Rattle.std.specs.Prelude.{◌≡◌, ◌↔◌, ◌++◌, IfOk, IsTrue};
ghost use Rattle.std.specs.Option.{option_to_list};
ghost use Rattle.elab_steps.specs.Tidy.{IsTidy};
ghost use Rattle.run_end.specs.Settled.{IsSettled, own_type as own_type_of, types_brought};

use dec_forms::brought::Brought;
use elab_context::entry::Entry;
use elab_state::state::State;
use mlc_base::memory::NoMemory;
use open_variables::done::are_done;
use sml_tree::ident::Vid;
use std::alloc::Global;

/// The type that an identifier has by its number. Schemes have no variables but their own parameters.
fn own_type(entry: Entry) -> Option<usize>
    ensures { result ≡ own_type_of entry }
{
    match entry {
        Entry::Constructor(_, _, _) => None,
        Entry::Reference(_) => None,
        Entry::Initial(_, _) => None,
        Entry::Primitive(_, _) => None,
        Entry::Raised(_, argument) => argument,
        Entry::Single(ty, _) => Some(ty),
        Entry::Own(ty, _) => Some(ty),
        Entry::General(_, ty, _, _) => Some(ty),
    }
}

/// Adds the type of an identifier, if it has one.
fn add_type(entry: Entry, types: &mut Vec<usize>) -> Result<(), NoMemory>
    ensures { IfOk result (λ _. types.new.items ≡ types.old.items ++ option_to_list (own_type_of entry)) }
{
    match own_type(entry) {
        Some(ty) => {
            types.push(ty)?;
            Ok(())
        }
        None => Ok(()),
    }
}

/// The types of identifiers.
fn types_of(alloc: Global, values: &[(Vid, Entry)]) -> Result<Vec<usize>, NoMemory>
    ensures { IfOk result (λ types. types.items ≡ types_brought values.now) }
{
    let mut types = Vec::new(alloc);
    for i in 0..values.len() {
        let value = values[i];
        add_type(value.1, &mut types)?;
    }
    Ok(types)
}

/// Whether nothing that was brought into scope has a type that is open. Each type is looked through once.
pub fn is_settled(alloc: Global, state: &State, brought: &Brought) -> Result<bool, NoMemory>
    requires { IsTidy state.now state.now.level }
    ensures { IfOk result (λ settled. IsTrue settled ↔ IsSettled state.now brought.now) }
{
    let types = types_of(alloc, &brought.values)?;
    are_done(alloc, &state.solver, types)
}
