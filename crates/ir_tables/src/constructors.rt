// Constructors of a program's datatypes.
ghost use Rattle.std.specs.Prelude.{◌≡◌, ◌++◌, ◌∷◌, [], List, length, slice_get, option_copied, OnOk, OnErr};
ghost use Rattle.std.specs.Option.{option_map};
ghost use Rattle.ir_poly.specs.of_ty_core.Types.{Typ};
ghost use Rattle.ir_poly.specs.Types.{find};
ghost use Rattle.ir_tables.specs.Rows.{find_row, constructor_at, constructors_at};

use indexmap::IndexMap;
use ir_poly::ty_core::name::TyName;
use mlc_base::memory::NoMemory;
use std::alloc::Global;
use std::marker::Model;

/// A constructor: its datatype, its number, and the type of its argument, if it has one.
#[derive(Clone, Copy)]
pub struct Constructor {
    pub datatype: TyName,
    pub number: usize,
    pub argument: Option<usize>,
}

/// Constructors in order, found by the numbers of their datatype and their own.
#[derive(Drop)]
pub struct Constructors {
    rows: Vec<Constructor>,
    first: IndexMap<(u32, usize), Constructor>,
}

impl Model for Constructors {
    ghost use Rattle.std.specs.Prelude.{List};
    ghost use Rattle.ir_tables.specs.declared.constructors.Constructor.{Constructor};
    ghost use Rattle.ir_tables.specs.Rows.{IsIndex};

    ghost Value = { List Constructor };

    ghost view = { λ t. t.rows.items };

    ghost invariant = { λ t. IsIndex t.rows.items t.first.entries };
}

impl Constructors {
    /// None.
    pub fn new(alloc: Global) -> Constructors
        ensures { result ≡ [] }
    {
        Constructors {
            rows: Vec::new(alloc),
            first: IndexMap::new(alloc),
        }
    }

    /// All of them, in order.
    pub fn rows(&self) -> &[Constructor]
        ensures { result.now ≡ self.now }
    {
        self.rows.as_slice()
    }

    /// One more.
    pub fn push(&mut self, constructor: Constructor) -> Result<(), NoMemory>
        ensures ok { OnOk result (self.new ≡ self.old ++ constructor ∷ []) }
        ensures err { OnErr result (self.new ≡ self.old) }
    {
        let key = (constructor.datatype.stamp, constructor.number);
        self.rows.push(constructor)?;
        if self.first.contains_key(&key) {
            return Ok(());
        }
        match self.first.insert(key, constructor) {
            Ok(_) => Ok(()),
            Err(_) => {
                self.rows.pop();
                Err(NoMemory)
            }
        }
    }

    /// The first constructor of this number of the datatype.
    pub fn find(&self, datatype: TyName, number: usize) -> Option<Constructor>
        ensures row { result ≡ find_row self.now datatype.stamp number }
        ensures found { (types : List Typ) → find (constructors_at types self.now) datatype number ≡ option_map (constructor_at types) result }
    {
        match self.first.get(&(datatype.stamp, number)) {
            Some(constructor) => Some(*constructor),
            None => None,
        }
    }
}
