// The tables of a program.
ghost use Rattle.std.specs.Prelude.{◌≡◌, [], IfOk};
ghost use Rattle.ir_tables.specs.Tables.{initial_of, constructors_of, parameters_of, strings_of, parameters_at, string_at};

use crate::constructors::Constructors;
use ir_poly::ty_core::scheme::Quantified;
use mlc_base::memory::NoMemory;
use std::alloc::Global;
use ty_table::mlc_names::names::Name;
use ty_table::types::Types;

/// A constant. A string is that of its number in the tables.
#[derive(Clone, Copy)]
pub enum Constant {
    Int(i32),
    Word(u32),
    Char(u8),
    Text(usize),
}

/// What a program names by number: types; constructors of its datatypes; lists of parameters, each with its mark; strings. And the identifiers of the
/// exceptions of the initial basis.
#[derive(Drop)]
pub struct Tables {
    pub types: Types,
    pub initial: Vec<Name>,
    pub constructors: Constructors,
    pub parameters: Vec<Vec<Quantified>>,
    pub strings: Vec<Vec<u8>>,
}

impl Tables {
    /// Nothing in any of them.
    pub fn new(alloc: Global) -> Result<Tables, NoMemory>
        ensures types { IfOk result (λ tables. tables.types ≡ []) }
        ensures initial { IfOk result (λ tables. initial_of tables ≡ []) }
        ensures constructors { IfOk result (λ tables. constructors_of tables ≡ []) }
        ensures parameters { IfOk result (λ tables. parameters_of tables ≡ []) }
        ensures strings { IfOk result (λ tables. strings_of tables ≡ []) }
    {
        Ok(Tables {
            types: Types::new(alloc)?,
            initial: Vec::new(alloc),
            constructors: Constructors::new(alloc),
            parameters: Vec::new(alloc),
            strings: Vec::new(alloc),
        })
    }

    /// The parameters of this number, none where there are none of it.
    pub fn parameters(&self, number: usize) -> &[Quantified]
        ensures { result.now ≡ parameters_at (parameters_of self.now) number }
    {
        if number < self.parameters.len() {
            self.parameters[number].as_slice()
        } else {
            &[]
        }
    }

    /// The string of this number, empty where there is none of it.
    pub fn string(&self, number: usize) -> &[u8]
        ensures { result.now ≡ string_at (strings_of self.now) number }
    {
        if number < self.strings.len() {
            self.strings[number].as_slice()
        } else {
            &[]
        }
    }
}
