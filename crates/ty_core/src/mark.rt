// What is asked of a type variable.
ghost use Rattle.std.specs.Prelude.{◌≡◌, ◌≢◌, ◌<◌, ◌↔◌, ℕ, Bool, true, false, IsTrue, MatchOption, IfSome, IfNone};
ghost use Rattle.ty_core.specs.Types.{Typ, con, name as named, none};
ghost use Rattle.ty_core.specs.Marks.{Allows, IsMeet, IsOf, has, is_inhabited, rank_of};

use crate::name::{Equality, TyName};

/// A class of overloaded types: which of the four it has.
#[derive(Clone, Copy, PartialEq, Eq, Debug)]
pub struct Class {
    pub int: bool,
    pub word: bool,
    pub char: bool,
    pub string: bool,
}

/// What a type variable's types are.
#[derive(Clone, Copy, PartialEq, Eq, Debug)]
pub enum Mark {
    /// Any types.
    Any,
    /// Those that admit equality.
    Equality,
    /// Those of a class.
    Class(Class),
}

/// Whether the class has the overloaded type of this number.
fn has_number(class: Class, number: u32) -> bool
    ensures { result ≡ has class number }
{
    match number {
        0 => class.int,
        1 => class.word,
        2 => class.char,
        3 => class.string,
        _ => false,
    }
}

/// Whether a class has no type.
fn is_empty(class: Class) -> bool
    ensures { IsTrue result ↔ (is_inhabited (Mark.Class class) ≡ false) }
{
    !(class.int || class.word || class.char || class.string)
}

/// Whether a type name with no arguments is a type of the class.
pub fn is_of(class: Class, name: TyName) -> bool
    ensures { IsTrue result ↔ IsOf class (con (named name) none) }
{
    if name.arity != 0 || name.equality != Equality::Always {
        return false;
    }
    has_number(class, name.stamp)
}

/// The types that two classes have in common.
fn common(class: Class, other: Class) -> Class
    ensures meets { IsMeet (Mark.Class class) (Mark.Class other) (Mark.Class result) }
    ensures lower { Mark.Class result ≢ Mark.Class class → rank_of (Mark.Class result) < rank_of (Mark.Class class) }
{
    Class {
        int: class.int && other.int,
        word: class.word && other.word,
        char: class.char && other.char,
        string: class.string && other.string,
    }
}

/// The mark that allows what both allow, or none where no type is allowed by both.
pub fn meet(mark: Mark, other: Mark) -> Option<Mark>
    ensures meets { IfSome result (IsMeet mark other) }
    ensures inhabited { IfSome result (λ r. is_inhabited mark ≡ true → is_inhabited other ≡ true → is_inhabited r ≡ true) }
    ensures lower { IfSome result (λ r. r ≢ mark → rank_of r < rank_of mark) }
    ensures nothing_in_common { MatchOption result ((m : ℕ → Bool) (t : Typ) → Allows mark m t → Allows other m t → ⊥) (λ _. Unit {0}) }
{
    match mark {
        Mark::Any => Some(other),
        Mark::Equality => match other {
            Mark::Any => Some(mark),
            Mark::Equality => Some(mark),
            Mark::Class(_) => Some(other),
        },
        Mark::Class(class) => match other {
            Mark::Any => Some(mark),
            Mark::Equality => Some(mark),
            Mark::Class(another) => {
                let both = common(class, another);
                if is_empty(both) {
                    None
                } else {
                    Some(Mark::Class(both))
                }
            }
        },
    }
}
