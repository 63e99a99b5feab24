// What is in scope.
ghost use Rattle.std.specs.Prelude.{◌≡◌, Some, None, IfOk, IfErr};
ghost use Rattle.sml_tree.specs.TreeOf.{long_vid_of};
ghost use Rattle.elab_steps.specs.of_elab_types.declared.refused.Refused.TheVariants.{Unbound};
ghost use Rattle.elab_steps.specs.of_elab_typed.Numbers.{name_as};
ghost use Rattle.elab_context.specs.Entries.{constructors_of, contents_at, entry_in, limit_of, member_in, number_in};
ghost use Rattle.elab_context.specs.Telling.{IsUnboundIn};

use crate::entry::{Entry, constructor_with};
use crate::schemes::Schemes;
use elab_steps::elab_types::refused::Refused;
use elab_steps::elab_types::scope::{TypeEntry, TypeScope};
use mlc_base::memory::NoMemory;
use mlc_base::place::Place;
use scoped_map::scoped::Scoped;
use sml_tree::ident::{LongVid, Vid};
use std::alloc::Global;
use ty_core::name::TyName;
use ty_solve::limit::Limit;
use vid_scope::vids::VidScope;

/// Identifiers of values; structures, with the identifiers in them, for look-ups and in their order; type constructors and type variables; schemes; how deep the
/// `val` declaration is, how many type names there are, and the naming that is in force, with the program's numbers of the type names that it has.
#[derive(Drop)]
pub struct Context {
    pub values: VidScope<Entry>,
    pub structures: Scoped<usize>,
    pub members: Vec<VidScope<Entry>>,
    pub contents: Vec<Vec<(Vid, Entry)>>,
    pub types: TypeScope,
    pub schemes: Schemes,
    pub level: usize,
    pub names: usize,
    pub naming: Option<usize>,
    pub numbers: Scoped<u32>,
}

impl Context {
    /// How far new variables of types may reach.
    pub fn limit(&self) -> Limit
        ensures { result ≡ limit_of self.now }
    {
        Limit {
            names: self.names,
            level: self.level,
        }
    }

    /// A type name with its number in the program.
    pub fn program_name(&self, name: TyName) -> TyName
        ensures { result ≡ name_as (number_in self.now) name }
    {
        match self.numbers.find(name.stamp as usize) {
            Some(number) => TyName {
                stamp: number,
                arity: name.arity,
                equality: name.equality,
            },
            None => name,
        }
    }

    /// What a structure has.
    fn member(&self, number: usize, vid: Vid) -> Option<Entry>
        ensures { result ≡ member_in self.now.members.items number vid }
    {
        if number < self.members.len() {
            self.members[number].find(vid)
        } else {
            None
        }
    }

    /// What a long identifier is.
    pub fn find(&self, long: &LongVid) -> Option<Entry>
        ensures { result ≡ entry_in self.now long.now.qualifiers.items long.now.vid }
    {
        match long.qualifiers.len() {
            0 => self.values.find(long.vid),
            1 => {
                let structure = self.structures.find(long.qualifiers[0].number() as usize)?;
                self.member(structure, long.vid)
            }
            _ => None,
        }
    }

    /// What a structure has, in order.
    pub fn contents(&self, structure: usize) -> &[(Vid, Entry)]
        ensures { result.now ≡ contents_at self.now structure }
    {
        if structure < self.contents.len() {
            &self.contents[structure]
        } else {
            &[]
        }
    }

    /// The constructors of a type constructor.
    pub fn constructors(&self, alloc: Global, of: TypeEntry) -> Result<Vec<(Vid, Entry)>, NoMemory>
        ensures { IfOk result (λ es. es.items ≡ constructors_of self.now of) }
    {
        let first = of.constructors.first;
        let end = first
            .saturating_add(of.constructors.count)
            .min(self.schemes.len());
        let mut made = Vec::new(alloc);
        for number in first..end {
            if let Some(built) = self.schemes.at(number).constructor {
                made.push(constructor_with(number, built))?;
            }
        }
        Ok(made)
    }

    /// What a long identifier is that has to be bound.
    pub fn value_at(&self, place: Place, long: &LongVid) -> Result<Entry, Refused>
        ensures is { IfOk result (λ e. entry_in self.now long.now.qualifiers.items long.now.vid ≡ Some e) }
        ensures place { IfErr result (λ e. e ≡ Unbound place) }
        ensures unbound { IfErr result (λ _. IsUnboundIn self.now (long_vid_of long.now)) }
    {
        match self.find(long) {
            Some(entry) => Ok(entry),
            None => Err(Refused::Unbound(place)),
        }
    }
}
