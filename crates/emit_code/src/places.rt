// Where what code names stands.

ghost use Rattle.std.specs.Prelude.{◌≡◌, ◌+◌, IfOk, get_or};
ghost use Rattle.first_values.specs.Equality.{opaque};
ghost use Rattle.first_tables.specs.TablesOf.{callee_of, constant_of, shape_of, tables_of};
ghost use Rattle.machine_routines.specs.EqualCode.{is_word};
ghost use Rattle.emit_rows.specs.of_machine_code.Code.{callee_at, constant_word};
ghost use Rattle.emit_code.specs.PlacesOf.{places_of};

use crate::fault::EmitFault;
use emit_rows::push::Packets;
use first_tables::operation::{Callee, Constant};
use first_tables::tables::{Shape, Tables};
use mlc_names::names::Name;

/// The addresses of strings, of identifiers' texts and of the first exceptions' names and packets, the places of functions, of routines of sets and of
/// comparisons, each with the place behind the last, and the places of labels, as far as they are known.
#[derive(Drop)]
pub struct Places {
    pub texts: Vec<u32>,
    pub names: Vec<u32>,
    pub initial: u32,
    pub packets: Packets,
    pub funs: Vec<u32>,
    pub funs_end: u32,
    pub sets: Vec<u32>,
    pub sets_end: u32,
    pub types: Vec<u32>,
    pub types_end: u32,
    pub labels: Vec<u32>,
}

/// The element of this number, or another.
fn number_in(numbers: &[u32], number: usize, other: u32) -> u32
    ensures { result ≡ get_or numbers.now number other }
{
    match numbers.get(number) {
        Some(found) => *found,
        None => other,
    }
}

impl Places {
    pub fn text(&self, number: usize) -> u32
        ensures { result ≡ get_or self.now.texts.items number 0 }
    {
        number_in(&self.texts, number, 0)
    }

    pub fn name(&self, name: Name) -> u32
        ensures { result ≡ get_or self.now.names.items name 0 }
    {
        number_in(&self.names, name.number() as usize, 0)
    }

    pub fn initial(&self, number: usize) -> Result<u32, EmitFault>
        ensures { IfOk result (λ place. place ≡ self.now.initial + number) }
    {
        match u32::try_from(number) {
            Ok(number) => match self.initial.checked_add(number) {
                Some(place) => Ok(place),
                None => Err(EmitFault::NoWord),
            },
            Err(_) => Err(EmitFault::NoWord),
        }
    }

    pub fn type_place(&self, number: usize) -> u32
        ensures { result ≡ get_or self.now.types.items number self.now.types_end }
    {
        number_in(&self.types, number, self.types_end)
    }

    pub fn label(&self, number: usize) -> u32
        ensures { result ≡ get_or self.now.labels.items number 0 }
    {
        number_in(&self.labels, number, 0)
    }

    /// What a call enters.
    pub fn callee(&self, tables: &Tables, callee: Callee) -> u32
        ensures { result ≡ callee_at (places_of tables.now self.now) (callee_of callee) }
    {
        match callee {
            Callee::Known(function) => number_in(&self.funs, function, self.funs_end),
            Callee::OneOf { set, closure: _ } => number_in(&self.sets, set, self.sets_end),
        }
    }

    /// The word of a constant.
    pub fn constant(&self, tables: &Tables, constant: Constant) -> u32
        ensures { result ≡ constant_word (places_of tables.now self.now) (constant_of constant) }
    {
        match constant {
            Constant::Int(value) => value.cast_unsigned(),
            Constant::Word(value) => value,
            Constant::Char(value) => u32::from(value),
            Constant::Text(number) => self.text(number),
            Constant::Truth(value) => u32::from(value),
        }
    }
}

/// Whether the values of a type are compared as words.
pub fn are_words(tables: &Tables, number: usize) -> bool
    ensures { result ≡ is_word (get_or (tables_of tables.now).types number opaque) }
{
    match tables.types.get(number) {
        Some(shape) => is_word_shape(shape),
        None => false,
    }
}

pub fn is_word_shape(shape: &Shape) -> bool
    ensures { result ≡ is_word (shape_of shape.now) }
{
    match shape {
        Shape::Numbers => true,
        Shape::Texts => false,
        Shape::Cells(_) => false,
        Shape::References => true,
        Shape::Opaque => false,
    }
}
