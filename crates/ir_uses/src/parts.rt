// What a type begins with, and its parts.
ghost use Rattle.std.specs.Prelude.{◌≡◌, ◌↔◌, List, [], ◌∷◌, map, IsTrue, MatchOption};
ghost use Rattle.mlc_names.specs.declared.label.Label.{Label};
ghost use Rattle.ty_core.specs.Types.{Typ, Typs, con, name, labels as labels_symbol};
ghost use Rattle.ty_table.specs.TypeAt.{type_at, types_at};
ghost use Rattle.ir_known.specs.of_ir_poly.Types.{function_type};

use ir_known::ask::same_type;
use mlc_names::label::Label;
use ty_core::name::TyName;
use ty_core::ty::Head;
use ty_table::types::{Types, View};

/// The type name of a type, and its arguments.
pub fn named_parts(types: &Types, t: usize) -> Option<(TyName, &[usize])>
    ensures { MatchOption result ((n : TyName) (us : Typs) → type_at types.now t ≡ con (name n) us → ⊥)
        (λ r. type_at types.now t ≡ con (name r.0) (types_at types.now r.1.now)) }
{
    match types.view(t) {
        View::Var(_) => None,
        View::Apply(head, parts) => match head {
            Head::Named(found) => Some((*found, parts)),
            Head::Function => None,
            Head::Record(_) => None,
        },
    }
}

/// The labels of a record's type, and the types of its fields.
pub fn record_parts(types: &Types, t: usize) -> Option<(&[Label], &[usize])>
    ensures { MatchOption result ((ls : List Label) (us : Typs) → type_at types.now t ≡ con (labels_symbol ls) us → ⊥)
        (λ r. type_at types.now t ≡ con (labels_symbol r.0.now) (types_at types.now r.1.now)) }
{
    match types.view(t) {
        View::Var(_) => None,
        View::Apply(head, parts) => match head {
            Head::Record(labels) => Some((labels.as_slice(), parts)),
            Head::Function => None,
            Head::Named(_) => None,
        },
    }
}

/// What a function's type is from and to.
pub fn function_parts(types: &Types, t: usize) -> Option<(usize, usize)>
    ensures { MatchOption result ((u v : Typ) → type_at types.now t ≡ function_type u v → ⊥)
        (λ p. type_at types.now t ≡ function_type (type_at types.now p.0) (type_at types.now p.1)) }
{
    match types.view(t) {
        View::Var(_) => None,
        View::Apply(head, parts) => match head {
            Head::Function => {
                if parts.len() != 2 {
                    return None;
                }
                Some((parts[0], parts[1]))
            }
            Head::Named(_) => None,
            Head::Record(_) => None,
        },
    }
}

/// Whether two labels are one.
pub fn is_label(label: Label, other: Label) -> bool
    ensures { IsTrue result ↔ (label ≡ other) }
{
    label == other
}

/// Whether the only label is 1.
pub fn is_single(labels: &[Label]) -> bool
    ensures { IsTrue result ↔ (labels.now ≡ Label.Number 1 ∷ []) }
{
    if labels.len() != 1 {
        return false;
    }
    is_label(labels[0], Label::Number(1))
}

/// Whether labels are those of a pair.
pub fn are_pair(labels: &[Label]) -> bool
    ensures { IsTrue result ↔ (labels.now ≡ Label.Number 1 ∷ Label.Number 2 ∷ []) }
{
    if labels.len() != 2 {
        return false;
    }
    if !is_label(labels[0], Label::Number(1)) {
        return false;
    }
    is_label(labels[1], Label::Number(2))
}

/// Whether labels are those of a tuple of three.
pub fn are_triple(labels: &[Label]) -> bool
    ensures { IsTrue result ↔ (labels.now ≡ Label.Number 1 ∷ Label.Number 2 ∷ Label.Number 3 ∷ []) }
{
    if labels.len() != 3 {
        return false;
    }
    if !is_label(labels[0], Label::Number(1)) {
        return false;
    }
    if !is_label(labels[1], Label::Number(2)) {
        return false;
    }
    is_label(labels[2], Label::Number(3))
}

/// Whether two lists of numbers stand for the same types.
pub fn same_types(types: &Types, ts: &[usize], us: &[usize]) -> bool
    ensures { IsTrue result ↔ (map (type_at types.now) ts.now ≡ map (type_at types.now) us.now) }
{
    if ts.len() != us.len() {
        return false;
    }
    for i in 0..ts.len() {
        if !same_type(types, ts[i], us[i]) {
            return false;
        }
    }
    true
}
