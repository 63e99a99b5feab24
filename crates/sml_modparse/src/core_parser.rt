// The readers of the core, as readers of modules ask for them.

ghost use Rattle.std.specs.Prelude.{◌≡◌, [], map, IfOk};
ghost use Rattle.sml_tree.specs.BareTree as bare;
ghost use Rattle.sml_tree.specs.TreeOf.{dec_of, decs_of, exp_of};
ghost use Rattle.sml_tree.specs.declared.ident.Vid.TheVariants.{Named};

use mlc_base::make::one;
use mlc_base::memory::NoMemory;
use mlc_base::place::Place;
use mlc_names::names::Name;
use mlc_names::token::Token;
use phrase_base::got::Got;
use phrase_base::source::Source;
use phrase_base::stop::Stop;
use phrase_base::tokens::place_at;
use phrase_base::types::TypeReader;
use sml_phrases::{bindings, declarations, expressions, nodes, types};
use sml_tree::fixity::Fixities;
use sml_tree::ident::{LongVid, Tyvar, Vid};
use sml_tree::tree::{Dec, Exp, Pat, Ty, TypeBind, TyvarSeq};
use std::alloc::Global;
use str_phrases::reader::CoreReader;

/// The parser of the core.
pub struct CoreParser;

impl TypeReader for CoreParser {
    fn read_ty<'a>(
        alloc: Global,
        source: &Source,
        n: u32,
        tokens: &'a [Token],
    ) -> Result<Got<'a, Ty>, Stop> {
        types::read_ty(alloc, source, n, 0, tokens)
    }

    fn read_tyvars<'a>(
        alloc: Global,
        source: &Source,
        tokens: &'a [Token],
    ) -> Result<Got<'a, Vec<Tyvar>>, Stop> {
        bindings::read_tyvars(alloc, source, tokens)
    }

    fn read_type_binds<'a>(
        alloc: Global,
        source: &Source,
        n: u32,
        tokens: &'a [Token],
    ) -> Result<Got<'a, Vec<TypeBind>>, Stop> {
        bindings::read_type_binds(alloc, source, n, tokens)
    }
}

impl CoreReader for CoreParser {
    type Dec = Dec;

    ghost dec_of = { dec_of };

    fn read_dec<'a>(
        alloc: Global,
        source: &Source,
        fix: &mut Fixities,
        n: u32,
        tokens: &'a [Token],
    ) -> Result<Got<'a, Option<Dec>>, Stop> {
        declarations::read_dec(alloc, source, fix, n, tokens)
    }

    fn read_it<'a>(
        alloc: Global,
        source: &Source,
        fix: &Fixities,
        it: Name,
        n: u32,
        tokens: &'a [Token],
    ) -> Result<Got<'a, Dec>, Stop> {
        let place = place_at(source, tokens);
        let Got {
            it: exp,
            depth,
            rest,
        } = expressions::read_exp(alloc, source, fix, n, 0, tokens)?;
        let made = bound(alloc, place, it, exp)?;
        Ok(Got {
            it: made,
            depth,
            rest,
        })
    }

    fn local(place: Place, first: Vec<Dec>, second: Vec<Dec>) -> Dec
        ensures made { dec_of result ≡ bare.local_dec place (decs_of (map dec_of first.items)) (decs_of (map dec_of second.items)) }
    {
        nodes::local(place, first, second)
    }
}

/// `val it = exp`
fn bound(alloc: Global, place: Place, it: Name, exp: Exp) -> Result<Dec, NoMemory>
    ensures { IfOk result (λ d. dec_of d ≡ bare.val_dec place place []
        (bare.bind place (bare.vid_pat place (record { qualifiers = []; vid = Named it })) (exp_of exp) bare.no_binds) bare.no_binds) }
{
    let vid = LongVid {
        qualifiers: Vec::new(alloc),
        vid: Vid::Named(it),
    };
    let binds = one(alloc, nodes::bind(place, Pat::Vid(place, vid), exp))?;
    let tyvars = TyvarSeq {
        place,
        tyvars: Vec::new(alloc),
    };
    Ok(nodes::val(place, tyvars, binds, Vec::new(alloc)))
}
