// What came into scope.
ghost use Rattle.std.specs.Prelude.{◌≡◌, ◌++◌, [], IfOk};

use elab_types::scope::TypeEntry;
use exp_forms::elab_context::entry::Entry;
use mlc_base::memory::NoMemory;
use mlc_names::names::Name;
use sml_tree::ident::Vid;
use std::alloc::Global;

/// Value identifiers and type constructors, in the order in which they came.
#[derive(Drop)]
pub struct Brought {
    pub values: Vec<(Vid, Entry)>,
    pub types: Vec<(Name, TypeEntry)>,
}

impl Brought {
    /// Nothing.
    pub fn new(alloc: Global) -> Brought
        ensures values { result.values.items ≡ [] }
        ensures types { result.types.items ≡ [] }
    {
        Brought {
            values: Vec::new(alloc),
            types: Vec::new(alloc),
        }
    }

    /// Further value identifiers.
    pub fn add_values(&mut self, values: &[(Vid, Entry)]) -> Result<(), NoMemory>
        ensures values { IfOk result (λ _. self.new.values.items ≡ self.old.values.items ++ values.now) }
        ensures types { self.new.types ≡ self.old.types }
    {
        self.values.extend_from_slice(values)?;
        Ok(())
    }

    /// Further type constructors.
    pub fn add_types(&mut self, types: &[(Name, TypeEntry)]) -> Result<(), NoMemory>
        ensures types { IfOk result (λ _. self.new.types.items ≡ self.old.types.items ++ types.now) }
        ensures values { self.new.values ≡ self.old.values }
    {
        self.types.extend_from_slice(types)?;
        Ok(())
    }
}
