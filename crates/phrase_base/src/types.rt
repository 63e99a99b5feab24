// What reads types and type variables.

ghost use Rattle.std.specs.Prelude.{◌≡◌, ◌<◌};
ghost use Rattle.sml_grammar.specs.Types.{read_ty};
ghost use Rattle.sml_grammar.specs.Bindings.{read_tyvars, read_type_binds};
ghost use Rattle.phrase_base.specs.Gives.{Gives};
ghost use Rattle.phrase_base.specs.Left.{left};
ghost use Rattle.phrase_base.specs.TypesRead.{IsTy, IsTyvars, IsTypeBinds};

use crate::got::Got;
use crate::source::Source;
use crate::stop::Stop;
use mlc_names::token::Token;
use sml_tree::ident::Tyvar;
use sml_tree::tree::{Ty, TypeBind};
use std::alloc::Global;

/// A reader of types, type variables and bindings of types, whose functions answer as the reading functions do.
pub trait TypeReader {
    /// A type, at most `n` deep.
    fn read_ty<'a>(
        alloc: Global,
        source: &Source,
        n: u32,
        tokens: &'a [Token],
    ) -> Result<Got<'a, Ty>, Stop>
        requires { n < 1000 }
        ensures gives { Gives (λ x r. IsTy source.now n (left source.now tokens.now) x.it x.depth x.rest.now r)
            result (read_ty n 0 (left source.now tokens.now)) };

    /// Type variables: none, one, or some in brackets.
    fn read_tyvars<'a>(
        alloc: Global,
        source: &Source,
        tokens: &'a [Token],
    ) -> Result<Got<'a, Vec<Tyvar>>, Stop>
        ensures gives { Gives (λ x r. IsTyvars source.now (left source.now tokens.now) x.it.items x.rest.now r)
            result (read_tyvars (left source.now tokens.now)) };

    /// Bindings of types, one or more.
    fn read_type_binds<'a>(
        alloc: Global,
        source: &Source,
        n: u32,
        tokens: &'a [Token],
    ) -> Result<Got<'a, Vec<TypeBind>>, Stop>
        requires { n < 1000 }
        ensures gives { Gives (λ x r. IsTypeBinds source.now n (left source.now tokens.now) x.it.items x.depth x.rest.now r)
            result (read_type_binds n (left source.now tokens.now)) };
}
