// Expressions that are a `fn`.
ghost use Rattle.std.specs.Prelude.{◌≡◌};
ghost use Rattle.mlc_base.specs.declared.place.Place.{Place as PlaceOf};
ghost use Rattle.sml_tree.specs.BareTree.{Pat as BarePat};
ghost use Rattle.sml_tree.specs.Phrases.{bind};
ghost use Rattle.sml_tree.specs.TreeOf.{exp_of};
ghost use Rattle.core_rules.specs.Restrictions.{unless_fn};
ghost use Rattle.restrictions.specs.Nodes.{takes};
ghost use Rattle.restrictions.specs.Found.{place_in};

use mlc_base::place::Place;
use sml_tree::tree::{Clause, Exp};

/// Where an expression begins that is no `fn`.
pub fn begin_unless_fn(exp: &Exp) -> Option<Place>
    ensures { (p : PlaceOf) (a : BarePat) → place_in result ≡ unless_fn (bind p a (exp_of exp.now)) }
{
    match exp {
        Exp::Constant(place, _) => Some(*place),
        Exp::Vid(place, _) => Some(*place),
        Exp::BuiltIn(place, _) => Some(*place),
        Exp::Record(place, _) => Some(*place),
        Exp::Tuple(place, _) => Some(*place),
        Exp::List(place, _) => Some(*place),
        Exp::Sequence(place, first, rest) => {
            if rest.len() == 0 {
                begin_unless_fn(first)
            } else {
                Some(*place)
            }
        }
        Exp::Let(place, _, _) => Some(*place),
        Exp::Apply(place, function, arguments) => {
            if arguments.len() == 0 {
                begin_unless_fn(function)
            } else {
                Some(*place)
            }
        }
        Exp::Chain(place, _, first, parts) => {
            if parts.len() == 0 {
                begin_unless_fn(first)
            } else {
                Some(*place)
            }
        }
        Exp::Typed(place, _, _) => Some(*place),
        Exp::Handle(place, _, _) => Some(*place),
        Exp::Raise(place, _) => Some(*place),
        Exp::Fn(_, _) => None,
    }
}

/// Whether the first clause has a pattern.
pub fn take_something(clauses: &[Clause]) -> bool
    ensures { result ≡ takes clauses.now }
{
    if clauses.len() == 0 {
        return false;
    }
    let clause = &clauses[0];
    clause.pats.len() > 0
}
