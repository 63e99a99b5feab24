// Which numbers stand for the types of a tree from now on.
ghost use Rattle.std.specs.Prelude.{◌≡◌, map, option_map, IfOk};
ghost use Rattle.prog_renumber.specs.Renumbered.{number_at, parameter_at, pair_at, join_at, binding_at, atom_at};

use mlc_base::memory::NoMemory;
use prog_tree::tree::{Atom, Binding, Join, Pair, Parameter};
use std::alloc::Global;

/// The new number of each type, by its old one, and that of all further ones.
#[derive(Drop)]
pub struct Numbers {
    pub numbers: Vec<usize>,
    pub other: usize,
}

impl Numbers {
    /// The new number of a type.
    pub fn at(&self, ty: usize) -> usize
        ensures { result ≡ number_at self.now ty }
    {
        if ty < self.numbers.len() {
            self.numbers[ty]
        } else {
            self.other
        }
    }

    /// Of a type, if there is any.
    pub fn if_any(&self, ty: Option<usize>) -> Option<usize>
        ensures { result ≡ option_map (number_at self.now) ty }
    {
        match ty {
            Some(ty) => Some(self.at(ty)),
            None => None,
        }
    }

    /// Of a variable with its type.
    pub fn parameter(&self, parameter: Parameter) -> Parameter
        ensures { result ≡ parameter_at self.now parameter }
    {
        Parameter {
            variable: parameter.variable,
            ty: self.at(parameter.ty),
        }
    }

    /// Of a pair and its parts.
    pub fn pair(&self, pair: Pair) -> Pair
        ensures { result ≡ pair_at self.now pair }
    {
        Pair {
            ty: self.at(pair.ty),
            left: self.at(pair.left),
            right: self.at(pair.right),
        }
    }

    /// Of an operator's application.
    pub fn join(&self, join: Join) -> Join
        ensures { result ≡ join_at self.now join }
    {
        Join {
            place: join.place,
            ty: self.at(join.ty),
            pair: self.at(join.pair),
        }
    }

    /// Of a binding.
    pub fn binding(&self, binding: Binding) -> Binding
        ensures { result ≡ binding_at self.now binding }
    {
        Binding {
            place: binding.place,
            general: binding.general,
            ty: self.at(binding.ty),
        }
    }

    /// Of an expression with no parts.
    pub fn atom(&self, atom: Atom) -> Atom
        ensures { result ≡ atom_at self.now atom }
    {
        match atom {
            Atom::Constant(constant) => Atom::Constant(constant),
            Atom::Own(variable) => Atom::Own(variable),
            Atom::Exception(exception) => Atom::Exception(exception),
            Atom::Reference(ty) => Atom::Reference(self.at(ty)),
        }
    }

    /// Of types.
    pub fn types(&self, alloc: Global, types: &[usize]) -> Result<Vec<usize>, NoMemory>
        ensures { IfOk result (λ new. new.items ≡ map (number_at self.now) types.now) }
    {
        let mut new = Vec::new(alloc);
        for i in 0..types.len() {
            new.push(self.at(types[i]))?;
        }
        Ok(new)
    }

    /// Of variables with their types.
    pub fn parameters(
        &self,
        alloc: Global,
        parameters: &[Parameter],
    ) -> Result<Vec<Parameter>, NoMemory>
        ensures { IfOk result (λ new. new.items ≡ map (parameter_at self.now) parameters.now) }
    {
        let mut new = Vec::new(alloc);
        for i in 0..parameters.len() {
            new.push(self.parameter(parameters[i]))?;
        }
        Ok(new)
    }
}

/// The same variables in memory of their own.
pub fn copy_variables(alloc: Global, variables: &[usize]) -> Result<Vec<usize>, NoMemory>
    ensures { IfOk result (λ new. new.items ≡ variables.now) }
{
    Ok(Vec::from_slice(alloc, variables)?)
}
