// Atoms: variables of one type that are bound in the same function.
ghost use Rattle.std.specs.Prelude.{◌≡◌, ◌↔◌, [], List, map, Some, ℕ, true, false, IsTrue, IfOk, MatchOption};
ghost use Rattle.ty_core.specs.Types.{Typ};
ghost use Rattle.ty_table.specs.TypeAt.{type_at};
ghost use Rattle.ir_poly.specs.Tests.{inst};
ghost use Rattle.mlc_names.specs.declared.label.Label.{Label as AnyLabel};
ghost use Rattle.plain_tree.specs.TreeOf.{atoms_of, row_of};
ghost use Rattle.tests_check.specs.Fits.{AtomFits, AtomsFit, RowFits};
ghost use Rattle.tests_check.specs.Reads.{reading};
ghost use Rattle.tests_check.specs.Walk.{local};

use ir_known::ask::same_type;
use ir_known::known::Known;
use ir_known::scope::Scope;
use ir_tables::tables::Tables;
use mlc_base::memory::NoMemory;
use mlc_names::label::Label;
use plain_tree::tree::Field;

/// The type of an atom.
pub fn atom_type(tables: &Tables, scope: &Scope, atom: usize) -> Option<usize>
    ensures { MatchOption result ((u : Typ) → AtomFits (local tables.now scope.now) (inst atom []) u → ⊥)
        (λ k. (u : Typ) → AtomFits (local tables.now scope.now) (inst atom []) u ↔ (u ≡ type_at tables.now.types k)) }
{
    match scope.find_local(atom) {
        Some(known) => match known {
            Known::OfType(ty) => Some(ty),
            Known::General {
                parameters: _,
                ty: _,
            } => None,
            Known::Own(_) => None,
            Known::Exception(_) => None,
        },
        None => None,
    }
}

/// Whether an atom is of a type.
pub fn is_atom(tables: &Tables, scope: &Scope, atom: usize, ty: usize) -> bool
    ensures { IsTrue result ↔ AtomFits (local tables.now scope.now) (inst atom []) (type_at tables.now.types ty) }
{
    match atom_type(tables, scope, atom) {
        Some(found) => same_type(&tables.types, ty, found),
        None => false,
    }
}

/// Puts the types of atoms behind those found before, where each is of one.
pub fn push_atom_types(
    tables: &Tables,
    scope: &Scope,
    atoms: &[usize],
    found: &mut Vec<usize>,
) -> Result<bool, NoMemory>
    ensures yes { IfOk result (λ yes. yes ≡ true → found.old.items ≡ [] → (ts : List Typ)
        → AtomsFit (local tables.now scope.now) (atoms_of (reading tables.now) atoms.now) ts ↔ (ts ≡ map (type_at tables.now.types) found.new.items)) }
    ensures no { IfOk result (λ yes. yes ≡ false → (ts : List Typ) → AtomsFit (local tables.now scope.now) (atoms_of (reading tables.now) atoms.now) ts → ⊥) }
{
    for i in 0..atoms.len() {
        let atom = atoms[i];
        match atom_type(tables, scope, atom) {
            Some(ty) => found.push(ty)?,
            None => return Ok(false),
        }
    }
    Ok(true)
}

/// Puts the labels of fields with the types of their atoms behind those found before, where each is of one.
pub fn push_field_types(
    tables: &Tables,
    scope: &Scope,
    fields: &[Field],
    found: &mut Vec<(Label, usize)>,
) -> Result<bool, NoMemory>
    ensures yes { IfOk result (λ yes. yes ≡ true → found.old.items ≡ [] → (r : List (AnyLabel × Typ))
        → RowFits (local tables.now scope.now) (row_of (reading tables.now) fields.now) r
        ↔ (r ≡ map (λ f. (f.0, type_at tables.now.types f.1)) found.new.items)) }
    ensures no { IfOk result (λ yes. yes ≡ false → (r : List (AnyLabel × Typ))
        → RowFits (local tables.now scope.now) (row_of (reading tables.now) fields.now) r → ⊥) }
{
    for i in 0..fields.len() {
        let field = fields[i];
        match atom_type(tables, scope, field.atom) {
            Some(ty) => found.push((field.label, ty))?,
            None => return Ok(false),
        }
    }
    Ok(true)
}
