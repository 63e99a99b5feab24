// Expressions whose types may be generalised.
ghost use Rattle.std.specs.Prelude.{◌≡◌, Some, IfSome};
ghost use Rattle.core_rules.specs.Objects.{long_value_in};
ghost use Rattle.core_rules.specs.Typing.{is_conexp_in};
ghost use Rattle.prog_known.specs.Lists.{all_hold};
ghost use Rattle.sml_tree.specs.TreeOf.{exp_of, long_vid_of};
ghost use Rattle.elab_context.specs.Telling.{IsContext, IsHeld};
ghost use Rattle.general_decs.specs.Values.{
  IsConexpAs,
  IsNonExpansiveAs,
  IsRight,
  applied_is,
  exp_is,
  field_is,
  is_nil,
  joint_makes,
  makes as makes_what,
  makes_if,
  part_is,
  vid_makes,
};

use elab_context::context::Context;
use elab_context::entry::Entry;
use elab_state::state::State;
use elab_steps::step::is_function;
use prog_known::answers::both;
use sml_tree::ident::{LongVid, Vid};
use sml_tree::tree::{Exp, ExpField, Joint, Part};

/// The number of the type of references.
const REFERENCE: u32 = 4;

/// Whether an identifier makes what it is applied to, and no reference.
fn makes(state: &State, context: &Context, entry: Entry) -> bool
    requires { IsHeld state.now context.now entry }
    ensures { result ≡ makes_what state.now context.now entry }
{
    match entry {
        Entry::Constructor(scheme, _, name) => {
            let function = is_function(state, context.schemes.at(scheme).body);
            !both(name.stamp == REFERENCE, function)
        }
        Entry::Reference(_) => false,
        Entry::Initial(_, _) => true,
        Entry::Primitive(_, _) => false,
        Entry::Raised(_, _) => true,
        Entry::Single(_, _) => false,
        Entry::Own(_, _) => false,
        Entry::General(_, _, _, _) => false,
    }
}

/// The same of one that may not be bound.
fn may_make(state: &State, context: &Context, entry: Option<Entry>) -> bool
    requires { IfSome entry (IsHeld state.now context.now) }
    ensures { result ≡ makes_if state.now context.now entry }
{
    match entry {
        Some(entry) => makes(state, context, entry),
        None => false,
    }
}

/// Whether a long identifier makes what it is applied to.
fn long_makes(state: &State, context: &Context, long: &LongVid) -> bool
    requires context { IsContext state.now context.now }
    ensures { IsRight state.now context.now (λ E. is_conexp_in (long_value_in E (long_vid_of long.now))) result }
{
    may_make(state, context, context.find(long))
}

/// The same of an infix identifier.
fn infix_makes(state: &State, context: &Context, vid: Vid) -> bool
    requires context { IsContext state.now context.now }
    ensures { IsRight state.now context.now (λ E. vid_makes E vid) result }
{
    may_make(state, context, context.values.find(vid))
}

/// Whether what joins two operands makes something of them.
fn joins(state: &State, context: &Context, joint: Joint) -> bool
    requires context { IsContext state.now context.now }
    ensures { IsRight state.now context.now (λ E. joint_makes E joint) result }
{
    match joint {
        Joint::AndAlso => false,
        Joint::OrElse => false,
        Joint::Infix(_, vid) => infix_makes(state, context, vid),
    }
}

/// Whether a list has nothing.
fn is_nothing<T>(list: &[T]) -> bool
    ensures { result ≡ is_nil list.now }
{
    list.is_empty()
}

/// Whether an expression is a constructor of something else than references.
pub fn constructs(state: &State, context: &Context, exp: &Exp) -> bool
    requires context { IsContext state.now context.now }
    ensures { IsConexpAs state.now context.now (exp_of exp.now) result }
{
    match exp {
        Exp::Constant(_, _) => false,
        Exp::Vid(_, long) => long_makes(state, context, long),
        Exp::BuiltIn(_, _) => true,
        Exp::Record(_, _) => false,
        Exp::Tuple(_, _) => false,
        Exp::List(_, elements) => is_nothing(elements),
        Exp::Sequence(_, first, rest) => {
            both(is_nothing(rest), constructs(state, context, first))
        }
        Exp::Let(_, _, _) => false,
        Exp::Apply(_, function, arguments) => {
            both(is_nothing(arguments), constructs(state, context, function))
        }
        Exp::Chain(_, _, first, parts) => {
            both(is_nothing(parts), constructs(state, context, first))
        }
        Exp::Typed(_, body, _) => constructs(state, context, body),
        Exp::Handle(_, _, _) => false,
        Exp::Raise(_, _) => false,
        Exp::Fn(_, _) => false,
    }
}

/// Whether an expression is non-expansive: it needs no turns but those of constructions.
#[cycle(values)]
pub fn is_non_expansive(state: &State, context: &Context, exp: &Exp) -> bool
    requires context { IsContext state.now context.now }
    ensures { IsNonExpansiveAs state.now context.now (exp_of exp.now) result }
{
    match exp {
        Exp::Constant(_, _) => true,
        Exp::Vid(_, _) => true,
        Exp::BuiltIn(_, _) => true,
        Exp::Record(_, fields) => are_fields(state, context, fields),
        Exp::Tuple(_, parts) => are_all(state, context, parts),
        Exp::List(_, elements) => are_all(state, context, elements),
        Exp::Sequence(_, first, rest) => {
            both(is_nothing(rest), is_non_expansive(state, context, first))
        }
        Exp::Let(_, _, _) => false,
        Exp::Apply(_, function, arguments) => is_applied(
            state,
            context,
            arguments,
            is_non_expansive(state, context, function),
            constructs(state, context, function),
        ),
        Exp::Chain(_, _, first, parts) => both(
            is_non_expansive(state, context, first),
            are_parts(state, context, parts),
        ),
        Exp::Typed(_, body, _) => is_non_expansive(state, context, body),
        Exp::Handle(_, _, _) => false,
        Exp::Raise(_, _) => false,
        Exp::Fn(_, _) => true,
    }
}

/// Whether an application to these operands is non-expansive: a construction of one, or the function alone.
#[cycle(values)]
fn is_applied(state: &State, context: &Context, arguments: &[Exp], alone: bool, made: bool) -> bool
    requires context { IsContext state.now context.now }
    ensures { IsRight state.now context.now (λ E. applied_is E alone made arguments.now) result }
{
    if arguments.is_empty() {
        return alone;
    }
    if arguments.len() > 1 {
        return false;
    }
    both(made, is_non_expansive(state, context, &arguments[0]))
}

#[cycle(values)]
fn are_fields(state: &State, context: &Context, fields: &[ExpField]) -> bool
    requires context { IsContext state.now context.now }
    ensures { IsRight state.now context.now (λ E. all_hold (field_is E) fields.now) result }
{
    let mut so_far = true;
    for i in 0..fields.len() {
        let field = &fields[i];
        let one = is_non_expansive(state, context, &field.exp);
        so_far = both(so_far, one);
    }
    so_far
}

#[cycle(values)]
fn are_all(state: &State, context: &Context, exps: &[Exp]) -> bool
    requires context { IsContext state.now context.now }
    ensures { IsRight state.now context.now (λ E. all_hold (exp_is E) exps.now) result }
{
    let mut so_far = true;
    for i in 0..exps.len() {
        let one = is_non_expansive(state, context, &exps[i]);
        so_far = both(so_far, one);
    }
    so_far
}

#[cycle(values)]
fn are_parts(state: &State, context: &Context, parts: &[Part]) -> bool
    requires context { IsContext state.now context.now }
    ensures { IsRight state.now context.now (λ E. all_hold (part_is E) parts.now) result }
{
    let mut so_far = true;
    for i in 0..parts.len() {
        let part = &parts[i];
        let joined = joins(state, context, part.joint);
        let one = is_non_expansive(state, context, &part.exp);
        so_far = both(so_far, both(joined, one));
    }
    so_far
}
