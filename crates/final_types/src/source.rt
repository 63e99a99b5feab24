// The types that are to be made.
ghost use Rattle.std.specs.Prelude.{◌≡◌, ℕ, Some, IfOk};
ghost use Rattle.ty_core.specs.Types.{Typ};
ghost use Rattle.ty_core.specs.TypesOf.{head_of};
ghost use Rattle.elab_state.specs.Namings.{number_in};
ghost use Rattle.elab_typed.specs.Numbers.{name_as, symbol_as};
ghost use Rattle.final_types.specs.Nodes.{IsEnd};
ghost use Rattle.final_types.specs.Making.{IsSource, image, image_at, namings_of};

use crate::bound::bound_at;
use crate::names::Names;
use ty_core::name::TyName;
use ty_core::ty::Head;
use ty_solve::solver::Solver;

/// A solver, the namings, and bounds of the solver's types.
#[derive(Clone, Copy)]
pub struct Source<'a> {
    pub solver: &'a Solver,
    pub names: Names<'a>,
    pub bounds: &'a [Option<usize>],
}

impl Source<'_> {
    /// A naming as a number that is among those of the namings if there is one.
    pub fn place_of(&self, naming: Option<usize>) -> usize
        ensures { (g : ℕ → Typ) (k : ℕ) → image_at self.now g k naming ≡ image self.now g k result }
    {
        match naming {
            Some(k) => k,
            None => self.names.namings.len(),
        }
    }

    /// The naming that decides the numbers of a type's names.
    pub fn settled(&self, ty: usize, place: usize) -> usize
        requires { IsSource self.now }
        ensures { (g : ℕ → Typ) → IsEnd self.now.solver.now g → image self.now g ty place ≡ image self.now g ty result }
    {
        match bound_at(self.bounds, ty) {
            Some(bound) => self.place_of(self.names.settled(Some(place), bound)),
            None => place,
        }
    }

    fn name(&self, name: TyName, place: usize) -> TyName
        requires { IsSource self.now }
        ensures { result ≡ name_as (number_in (namings_of self.now) (Some place)) name }
    {
        TyName {
            stamp: self.names.number(Some(place), name.stamp),
            arity: name.arity,
            equality: name.equality,
        }
    }

    /// A head with the program's number of its name.
    pub fn head(&self, head: Head, place: usize) -> Head
        requires { IsSource self.now }
        ensures { head_of result ≡ symbol_as (number_in (namings_of self.now) (Some place)) (head_of head) }
    {
        match head {
            Head::Function => Head::Function,
            Head::Record(labels) => Head::Record(labels),
            Head::Named(name) => Head::Named(self.name(name, place)),
        }
    }
}
