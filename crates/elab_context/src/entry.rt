// What is kept of identifiers.
ghost use Rattle.std.specs.Prelude.{◌≡◌};
ghost use Rattle.vid_scope.specs.of_core_rules.Restrictions.{is_kept as is_kept_vid};
ghost use Rattle.elab_context.specs.Entries.{constructor_entry, is_free as is_free_entry};

use mlc_names::names::Name;
use mlc_names::words;
use mlc_prims::basis::BasisPrimitive;
use sml_tree::ident::Vid;
use ty_core::mark::Mark;
use ty_core::name::TyName;

/// A constructor: `ref`, or one of a datatype, by its name.
#[derive(Clone, Copy)]
pub enum Built {
    Ref,
    Declared(Name, TyName),
}

/// A closed scheme: its parameters are the first variables of its body. And the constructor that it is of, if it is of one.
#[derive(Drop)]
pub struct Scheme {
    pub marks: Vec<Mark>,
    pub body: usize,
    pub constructor: Option<Built>,
}

/// What an identifier is, and what it is in the program. Schemes, types and lists of parameters are numbers.
#[derive(Clone, Copy)]
pub enum Entry {
    /// A constructor: its scheme, the number of its identifier, and its datatype.
    Constructor(usize, usize, TyName),
    /// `ref`, with its scheme.
    Reference(usize),
    /// An exception of the initial basis: its scheme and its number.
    Initial(usize, usize),
    /// A primitive, and its scheme.
    Primitive(usize, BasisPrimitive),
    /// An exception of a declaration: its variable, and the type of its argument.
    Raised(usize, Option<usize>),
    /// A variable of one type.
    Single(usize, usize),
    /// A function inside its own group.
    Own(usize, usize),
    /// A variable of a declaration with a list of parameters: the list, its type, the variable, and whether the program's variable is over the list.
    General(usize, usize, usize, bool),
}

/// The identifier of a constructor, and what it is with the scheme of a number.
pub fn constructor_with(scheme: usize, built: Built) -> (Vid, Entry)
    ensures { result ≡ constructor_entry scheme built }
{
    match built {
        Built::Ref => (
            Vid::Named(Name::standard(words::REF)),
            Entry::Reference(scheme),
        ),
        Built::Declared(name, datatype) => (
            Vid::Named(name),
            Entry::Constructor(scheme, name.number() as usize, datatype),
        ),
    }
}

/// Whether a pattern binds an identifier, and doesn't match it.
pub fn is_free(entry: Option<Entry>) -> bool
    ensures { result ≡ is_free_entry entry }
{
    match entry {
        None => true,
        Some(Entry::Primitive(_, _)) => true,
        Some(Entry::Single(_, _)) => true,
        Some(Entry::Own(_, _)) => true,
        Some(Entry::General(_, _, _, _)) => true,
        Some(_) => false,
    }
}

/// Whether an identifier is never bound.
pub fn is_kept(vid: Vid) -> bool
    ensures { result ≡ is_kept_vid vid }
{
    match vid {
        Vid::Named(name) => {
            let number = name.number();
            number == words::TRUE
                || number == words::FALSE
                || number == words::NIL
                || number == words::CONS
                || number == words::REF
        }
        Vid::Equals => true,
        Vid::Fresh(_) => false,
    }
}
