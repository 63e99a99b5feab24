// Laws of values, as contracts.

ghost use Rattle.ir_values.specs.Laws.{Forms, EqualityAgrees, PrimitivesAgree, CallsAgree, ReferencesAgree, FieldsAgree, TestsAgree};

/// Two forms, with a relation of their values that says of functions what it wants.
pub trait Related {
    ghost forms: { Forms };
}

/// Whatever is done with related values agrees: equality, primitives, calls where those of related closures do, references, fields, and each test of a
/// pattern.
pub fn values_agree<R: Related>()
    ensures equality { EqualityAgrees R.forms }
    ensures primitives { PrimitivesAgree R.forms }
    ensures calls { CallsAgree R.forms }
    ensures references { ReferencesAgree R.forms }
    ensures fields { FieldsAgree R.forms }
    ensures tests { TestsAgree R.forms }
{}
