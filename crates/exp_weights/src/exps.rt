// The nodes of expressions, but for those of rules, clauses and bindings inside them, which are counted where these are.
ghost use Rattle.std.specs.Prelude.{◌≡◌, ◌∷◌, [], length, map, sum_by};
ghost use Rattle.mlc_base.specs.declared.place.Place.{Place as SourcePlace};
ghost use Rattle.sml_tree.specs.Derived.{clause_rules, first_pats};
ghost use Rattle.sml_tree.specs.TreeOf.{clause_of, function_of, pat_of};
ghost use Rattle.exp_weights.specs.Nodes.{bound_count, capped, exp_count, rules_count};
ghost use Rattle.exp_weights.specs.Own.{head_count, own_of, with_head};
ghost use Rattle.exp_weights.specs.Sums.{exp_field_nodes, exp_nodes, joint_nodes, part_nodes};

use crate::decs::decs_nodes;
use crate::pats::{constant_nodes, pat_nodes, pats_nodes};
use sml_tree::tree::{Clause, Exp, ExpField, Function, Joint, Part, Pat};

#[cycle(exps)]
fn fields_nodes(fields: &[ExpField]) -> usize
    ensures { result ≡ capped (sum_by exp_field_nodes fields.now) }
{
    let mut nodes: usize = 0;
    for i in 0..fields.len() {
        nodes = nodes.saturating_add(exp_nodes(&fields[i].exp));
    }
    nodes
}

#[cycle(exps)]
fn parts_nodes(parts: &[Exp]) -> usize
    ensures { result ≡ capped (sum_by exp_nodes parts.now) }
{
    let mut nodes: usize = 0;
    for i in 0..parts.len() {
        nodes = nodes.saturating_add(exp_nodes(&parts[i]));
    }
    nodes
}

/// What an operand of a chain makes besides: an application of an identifier to a record, or a function of two rules that is applied.
fn joint_nodes(joint: &Joint) -> usize
    ensures { result ≡ joint_nodes joint.now }
{
    match joint {
        Joint::Infix(_, _) => 3,
        Joint::AndAlso | Joint::OrElse => 7,
    }
}

#[cycle(exps)]
fn chain_nodes(parts: &[Part]) -> usize
    ensures { result ≡ capped (sum_by part_nodes parts.now) }
{
    let mut nodes: usize = 0;
    for i in 0..parts.len() {
        let operand = exp_nodes(&parts[i].exp);
        nodes = nodes
            .saturating_add(operand)
            .saturating_add(joint_nodes(&parts[i].joint));
    }
    nodes
}

/// The nodes of an expression, without those of rules and bindings that have counts of their own.
#[cycle(exps)]
pub fn exp_nodes(exp: &Exp) -> usize
    ensures { result ≡ capped (exp_count (own_of exp.now)) }
{
    match exp {
        Exp::Constant(_, constant) => constant_nodes(constant),
        Exp::Vid(_, _) | Exp::BuiltIn(_, _) | Exp::Fn(_, _) => 1,
        Exp::Record(_, fields) => fields_nodes(fields).saturating_add(1),
        Exp::Tuple(_, parts) => parts_nodes(parts).saturating_add(1),
        // Each element makes an application of a constructor to a record, and `nil` is at the end.
        Exp::List(_, parts) => parts_nodes(parts)
            .saturating_add(parts.len().saturating_mul(3))
            .saturating_add(1),
        // Each after the first is the right side of a function of one rule that is applied.
        Exp::Sequence(_, first, rest) => exp_nodes(first)
            .saturating_add(parts_nodes(rest))
            .saturating_add(rest.len().saturating_mul(4)),
        Exp::Let(_, decs, body) => decs_nodes(decs)
            .saturating_add(exp_nodes(body))
            .saturating_add(1),
        Exp::Apply(_, operator, arguments) => exp_nodes(operator)
            .saturating_add(parts_nodes(arguments))
            .saturating_add(arguments.len()),
        Exp::Chain(_, _, first, parts) => exp_nodes(first).saturating_add(chain_nodes(parts)),
        Exp::Typed(_, inner, _) => exp_nodes(inner).saturating_add(1),
        Exp::Handle(_, body, _) => exp_nodes(body).saturating_add(1),
        Exp::Raise(_, packet) => exp_nodes(packet).saturating_add(1),
    }
}

/// A rule or a binding: itself, its pattern, and its right side.
pub fn bound_nodes(pat: &Pat, exp: &Exp) -> usize
    ensures { result ≡ capped (bound_count (pat_of pat.now) (own_of exp.now)) }
{
    exp_nodes(exp)
        .saturating_add(pat_nodes(pat))
        .saturating_add(1)
}

/// A clause: a rule, on a tuple of its patterns unless it has one.
pub fn clause_nodes(pats: &[Pat], exp: &Exp) -> usize
    ensures { (p : SourcePlace) → result ≡ capped (rules_count (clause_rules (record { place = p; pats = map pat_of pats.now; body = own_of exp.now } ∷ []))) }
{
    let inside = pats_nodes(pats).saturating_add(exp_nodes(exp));
    if pats.len() == 1 {
        return inside.saturating_add(1);
    }
    inside.saturating_add(2)
}

/// How many parameters the clauses of a function have.
fn first_count(clauses: &[Clause]) -> usize
    ensures { result ≡ length (first_pats (map clause_of clauses.now)) }
{
    if clauses.is_empty() {
        return 0;
    }
    let pats: &[Pat] = &clauses[0].pats;
    pats.len()
}

/// The head of a function of `fun`: its binding and its name, and a function of one rule for each parameter, the last of which applies a function to the
/// parameters' record, or to the one parameter.
pub fn head_nodes(function: &Function) -> usize
    ensures { result ≡ capped (head_count (function_of function.now)) }
{
    let count = first_count(&function.clauses);
    if count == 1 {
        return 8;
    }
    count.saturating_mul(4).saturating_add(5)
}

/// The nodes of one of the rules or clauses of a function: those of the function's head are counted with the first.
pub fn with_head(head: usize, at: usize, nodes: usize) -> usize
    ensures { result ≡ capped (with_head head at nodes) }
{
    if at == 0 {
        return head.saturating_add(nodes);
    }
    nodes
}
