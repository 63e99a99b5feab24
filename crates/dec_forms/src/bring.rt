// What comes into scope.
ghost use Rattle.std.specs.Prelude.{◌≡◌, IfOk};
ghost use Rattle.dec_forms.specs.Telling.{with_all};
ghost use Rattle.dec_forms.specs.Entries.{with_types};

use elab_types::scope::TypeEntry;
use exp_forms::elab_context::context::Context;
use exp_forms::elab_context::entry::Entry;
use mlc_base::memory::NoMemory;
use mlc_names::names::Name;
use sml_tree::ident::Vid;

/// Brings value identifiers into scope.
pub fn bring_values(context: &mut Context, values: &[(Vid, Entry)]) -> Result<(), NoMemory>
    ensures { IfOk result (λ _. context.new ≡ with_all context.old values.now) }
{
    for i in 0..values.len() {
        let value = values[i];
        context.values.bind(value.0, value.1)?;
    }
    Ok(())
}

/// Brings type constructors into scope.
pub fn bring_types(context: &mut Context, types: &[(Name, TypeEntry)]) -> Result<(), NoMemory>
    ensures { IfOk result (λ _. context.new ≡ with_types context.old types.now) }
{
    for i in 0..types.len() {
        let ty = types[i];
        context.types.bind_type(ty.0, ty.1)?;
    }
    Ok(())
}
