// What structures have.
ghost use Rattle.std.specs.Prelude.{◌≡◌, ◌++◌, [], Some, nat_eq, IfOk, IfErr};
ghost use Rattle.std.specs.Map.{lookup};
ghost use Rattle.sml_tree.specs.TreeOf.{long_id_at_of};
ghost use Rattle.vid_scope.specs.Entries.{entry_of};
ghost use Rattle.elab_types.specs.declared.refused.Refused.TheVariants.{Unbound};
ghost use Rattle.scope_decs.specs.Opening.{found_by, members_of};
ghost use Rattle.scope_decs.specs.Refusals.{IsUnboundStructureIn};

use elab_context::context::Context;
use elab_context::entry::Entry;
use elab_types::refused::Refused;
use mlc_base::memory::NoMemory;
use sml_tree::ident::Vid;
use sml_tree::tree::LongIdAt;
use vid_scope::vids::VidScope;

/// The number of a structure that has to be bound. No structure has structures.
pub fn structure_at(context: &Context, at: &LongIdAt) -> Result<usize, Refused>
    ensures short { IfOk result (λ _. at.now.long.qualifiers.items ≡ []) }
    ensures bound { IfOk result (λ k. lookup (nat_eq at.now.long.id) context.now.structures ≡ Some k) }
    ensures place { IfErr result (λ e. e ≡ Unbound at.now.place) }
    ensures unbound { IfErr result (λ _. IsUnboundStructureIn context.now (long_id_at_of at.now)) }
{
    if at.long.qualifiers.len() > 0 {
        return Err(Refused::Unbound(at.place));
    }
    match context.structures.find(at.long.id.number() as usize) {
        Some(number) => Ok(number),
        None => Err(Refused::Unbound(at.place)),
    }
}

/// The identifiers of a list, each with what it is in a scope, if it is there.
fn add_found(
    scope: &VidScope<Entry>,
    contents: &[(Vid, Entry)],
    values: &mut Vec<(Vid, Entry)>,
) -> Result<(), NoMemory>
    ensures { IfOk result (λ _. values.new.items ≡ values.old.items ++ found_by (entry_of scope.now) contents.now) }
{
    for i in 0..contents.len() {
        let named = contents[i];
        if let Some(entry) = scope.find(named.0) {
            let found = (named.0, entry);
            values.push(found)?;
        }
    }
    Ok(())
}

/// What a structure has, in order: each of its identifiers is what a look-up finds there.
pub fn add_members(
    context: &Context,
    structure: usize,
    values: &mut Vec<(Vid, Entry)>,
) -> Result<(), NoMemory>
    ensures { IfOk result (λ _. values.new.items ≡ values.old.items ++ members_of context.now structure) }
{
    match context.members.get(structure) {
        Some(scope) => add_found(scope, context.contents(structure), values),
        None => Ok(()),
    }
}
