// What stands of expressions before the next word.

use crate::make::{
    Made, PLACE, add, apply, case, counted, handle, infix, let_in, named, raise, sequence, test,
};
use crate::patterns::{Form, Patterns};
use ir_tables::tables::Constant;
use mlc_base::make::{boxed, one, two};
use mlc_names::label::Label;
use mlc_runs::pass::Check;
use prog_tree::tree::{Atom, Dec, Exp, Function, Join, Parameter, Rule, Side, Used};
use std::alloc::Global;
use std::mem;

/// The number of the integers' type, in the tests' tables.
const INT: usize = 0;

/// A word that makes a phrase, or a part of one, of the last ones. The last number is mostly that of its type.
#[derive(Clone, Copy)]
pub enum Word {
    /// The integer 3.
    Three,
    Atom(Atom, usize),
    /// At no types, at one and at two.
    Use(Used, usize),
    UseAt(Used, usize, usize),
    UseAtTwo(Used, usize, usize, usize),
    /// The last expression is a field of the next record.
    Field(Label),
    Record(usize),
    /// The last expression is an argument of the next application, which has this type then.
    Argument(usize),
    Apply,
    /// The last two are an operator and an operand of the next chain, with the types of the pair and the result.
    Join(usize, usize),
    Infix(Side),
    /// A word that makes a pattern.
    Pat(Form),
    /// The last pattern before the last expression, in the next match.
    Rule,
    Case(usize),
    Handle(usize),
    Raise(usize),
    /// The last expression stands before others in the next sequence or test.
    Before,
    Sequence(usize),
    Test(bool, usize),
    /// A variable and its type: a parameter of the next function before the last one, and the last one.
    Parameter(usize, usize),
    Named(usize, usize),
    /// The types of the argument and of the result.
    ByRules(usize, usize),
    /// The last function as a value.
    Fn(usize),
    Counted(usize, usize),
    /// The last declaration before the last expression.
    Let(usize),
    /// The last pattern is bound to the last expression in the next declaration: whether generalised, and the type.
    Bind(bool, usize),
    /// A variable has the last function in the next declaration, of this type.
    Member(usize, usize),
    /// Bindings and functions over a list of parameters.
    Val(usize),
    /// A variable has the last expression, of this type.
    Plain(usize, usize),
    Exception(usize, Option<usize>),
    Weight(usize),
    /// What the checker says of the program that ends here.
    Says(Check),
}

#[derive(Drop)]
pub struct Expressions {
    pub patterns: Patterns,
    exps: Vec<Exp>,
    fields: Vec<(Label, Exp)>,
    arguments: Vec<(usize, Exp)>,
    joins: Vec<(Join, Exp, Exp)>,
    before: Vec<Exp>,
    rules: Vec<Rule>,
    parameters: Vec<Parameter>,
    functions: Vec<Function>,
    /// Whether an expression was asked for where there was none.
    short: bool,
}

/// The integer 3.
fn three() -> Exp {
    Exp::Atom(Atom::Constant(Constant::Int(3)), INT)
}

/// A use at types.
fn used_at(used: Used, types: Made<Vec<usize>>, ty: usize) -> Made<Exp> {
    match types {
        Ok(types) => Ok(Exp::Use(used, types, ty)),
        Err(e) => Err(e),
    }
}

impl Expressions {
    pub fn new(alloc: Global) -> Expressions {
        Expressions {
            patterns: Patterns::new(alloc),
            exps: Vec::new(alloc),
            fields: Vec::new(alloc),
            arguments: Vec::new(alloc),
            joins: Vec::new(alloc),
            before: Vec::new(alloc),
            rules: Vec::new(alloc),
            parameters: Vec::new(alloc),
            functions: Vec::new(alloc),
            short: false,
        }
    }

    fn parts_are_done(&self) -> bool {
        let lists = self.fields.is_empty() && self.arguments.is_empty() && self.joins.is_empty();
        lists && self.before.is_empty() && self.rules.is_empty()
    }

    /// Whether all parts were taken, and no further ones asked for.
    pub fn are_done(&self) -> bool {
        let functions = self.parameters.is_empty() && self.functions.is_empty();
        let exps = self.exps.is_empty() && !self.short;
        self.patterns.are_done() && self.parts_are_done() && functions && exps
    }

    /// The last expression.
    pub fn last(&mut self) -> Exp {
        match self.exps.pop() {
            Some(exp) => exp,
            None => {
                self.short = true;
                three()
            }
        }
    }

    fn boxed_last(&mut self, alloc: Global) -> Made<Box<Exp>> {
        boxed(alloc, self.last())
    }

    /// The last function.
    pub fn last_function(&mut self, alloc: Global) -> Function {
        match self.functions.pop() {
            Some(function) => function,
            None => {
                self.short = true;
                Function::ByRules(Vec::new(alloc), PLACE, INT, INT, Vec::new(alloc))
            }
        }
    }

    /// The last pattern and the last expression.
    pub fn last_rule(&mut self) -> Rule {
        let pat = self.patterns.last();
        let exp = self.last();
        Rule { pat, exp }
    }

    fn rules(&mut self, alloc: Global) -> Vec<Rule> {
        mem::replace(&mut self.rules, Vec::new(alloc))
    }

    pub fn push(&mut self, exp: Exp) -> Made<()> {
        self.exps.push(exp)?;
        Ok(())
    }

    fn put_use_at(&mut self, alloc: Global, used: Used, at: usize, ty: usize) -> Made<()> {
        add(&mut self.exps, used_at(used, one(alloc, at), ty))
    }

    fn put_use_at_two(
        &mut self,
        alloc: Global,
        used: Used,
        at: (usize, usize),
        ty: usize,
    ) -> Made<()> {
        add(&mut self.exps, used_at(used, two(alloc, at.0, at.1), ty))
    }

    fn put_field(&mut self, label: Label) -> Made<()> {
        let exp = self.last();
        self.fields.push((label, exp))?;
        Ok(())
    }

    fn put_record(&mut self, alloc: Global, ty: usize) -> Made<()> {
        let fields = mem::replace(&mut self.fields, Vec::new(alloc));
        self.push(Exp::Record(ty, fields))
    }

    /// A `let` of declarations round the last expression.
    pub fn put_let(&mut self, alloc: Global, ty: usize, declarations: Made<Vec<Dec>>) -> Made<()> {
        let body = self.boxed_last(alloc);
        add(&mut self.exps, let_in(ty, declarations, body))
    }

    fn put_argument(&mut self, ty: usize) -> Made<()> {
        let exp = self.last();
        self.arguments.push((ty, exp))?;
        Ok(())
    }

    fn put_apply(&mut self, alloc: Global) -> Made<()> {
        let function = self.boxed_last(alloc);
        let arguments = mem::replace(&mut self.arguments, Vec::new(alloc));
        add(&mut self.exps, apply(function, arguments))
    }

    fn put_join(&mut self, pair: usize, ty: usize) -> Made<()> {
        let operand = self.last();
        let operator = self.last();
        let join = Join {
            place: PLACE,
            ty,
            pair,
        };
        self.joins.push((join, operator, operand))?;
        Ok(())
    }

    fn put_infix(&mut self, alloc: Global, side: Side) -> Made<()> {
        let first = self.boxed_last(alloc);
        let joins = mem::replace(&mut self.joins, Vec::new(alloc));
        add(&mut self.exps, infix(side, first, joins))
    }

    fn put_rule(&mut self) -> Made<()> {
        let rule = self.last_rule();
        self.rules.push(rule)?;
        Ok(())
    }

    fn put_case(&mut self, alloc: Global, ty: usize) -> Made<()> {
        let of = self.boxed_last(alloc);
        let rules = self.rules(alloc);
        add(&mut self.exps, case(ty, of, rules))
    }

    fn put_handle(&mut self, alloc: Global, ty: usize) -> Made<()> {
        let body = self.boxed_last(alloc);
        let rules = self.rules(alloc);
        add(&mut self.exps, handle(ty, body, rules))
    }

    fn put_raise(&mut self, alloc: Global, ty: usize) -> Made<()> {
        let packet = self.boxed_last(alloc);
        add(&mut self.exps, raise(ty, packet))
    }

    fn put_before(&mut self) -> Made<()> {
        let exp = self.last();
        self.before.push(exp)?;
        Ok(())
    }

    fn put_sequence(&mut self, alloc: Global, ty: usize) -> Made<()> {
        let last = self.boxed_last(alloc);
        let before = mem::replace(&mut self.before, Vec::new(alloc));
        add(&mut self.exps, sequence(ty, before, last))
    }

    fn put_test(&mut self, alloc: Global, all: bool, ty: usize) -> Made<()> {
        let last = self.boxed_last(alloc);
        let operands = mem::replace(&mut self.before, Vec::new(alloc));
        add(&mut self.exps, test(all, ty, operands, last))
    }

    fn parameters(&mut self, alloc: Global) -> Vec<Parameter> {
        mem::replace(&mut self.parameters, Vec::new(alloc))
    }

    fn put_parameter(&mut self, variable: usize, ty: usize) -> Made<()> {
        self.parameters.push(Parameter { variable, ty })?;
        Ok(())
    }

    fn put_named(&mut self, alloc: Global, variable: usize, ty: usize) -> Made<()> {
        let parameters = self.parameters(alloc);
        let body = self.boxed_last(alloc);
        let last = Parameter { variable, ty };
        add(&mut self.functions, named(parameters, last, body))
    }

    fn put_by_rules(&mut self, alloc: Global, of: usize, ty: usize) -> Made<()> {
        let parameters = self.parameters(alloc);
        let rules = self.rules(alloc);
        let function = Function::ByRules(parameters, PLACE, of, ty, rules);
        self.functions.push(function)?;
        Ok(())
    }

    fn put_fn(&mut self, alloc: Global, ty: usize) -> Made<()> {
        let function = self.last_function(alloc);
        self.push(Exp::Fn(ty, function))
    }

    fn put_counted(&mut self, alloc: Global, count: usize, ty: usize) -> Made<()> {
        let body = self.boxed_last(alloc);
        add(&mut self.exps, counted(count, ty, body))
    }

    /// A word that makes a function, or a part of one.
    fn put_function(&mut self, alloc: Global, word: Word) -> Made<()> {
        match word {
            Word::Parameter(variable, ty) => self.put_parameter(variable, ty),
            Word::Named(variable, ty) => self.put_named(alloc, variable, ty),
            Word::ByRules(of, ty) => self.put_by_rules(alloc, of, ty),
            Word::Fn(ty) => self.put_fn(alloc, ty),
            Word::Counted(count, ty) => self.put_counted(alloc, count, ty),
            _ => Ok(()),
        }
    }

    /// A word that makes a part of an expression.
    fn put_part(&mut self, alloc: Global, word: Word) -> Made<()> {
        match word {
            Word::Field(label) => self.put_field(label),
            Word::Argument(ty) => self.put_argument(ty),
            Word::Join(pair, ty) => self.put_join(pair, ty),
            Word::Rule => self.put_rule(),
            Word::Before => self.put_before(),
            Word::Pat(form) => self.patterns.put(alloc, form),
            _ => self.put_function(alloc, word),
        }
    }

    /// A word that makes an expression of others.
    fn put_holder(&mut self, alloc: Global, word: Word) -> Made<()> {
        match word {
            Word::Record(ty) => self.put_record(alloc, ty),
            Word::Apply => self.put_apply(alloc),
            Word::Infix(side) => self.put_infix(alloc, side),
            Word::Case(ty) => self.put_case(alloc, ty),
            Word::Handle(ty) => self.put_handle(alloc, ty),
            Word::Raise(ty) => self.put_raise(alloc, ty),
            Word::Sequence(ty) => self.put_sequence(alloc, ty),
            Word::Test(all, ty) => self.put_test(alloc, all, ty),
            _ => self.put_part(alloc, word),
        }
    }

    /// The next word.
    pub fn put(&mut self, alloc: Global, word: Word) -> Made<()> {
        match word {
            Word::Three => self.push(three()),
            Word::Atom(atom, ty) => self.push(Exp::Atom(atom, ty)),
            Word::Use(used, ty) => self.push(Exp::Use(used, Vec::new(alloc), ty)),
            Word::UseAt(used, at, ty) => self.put_use_at(alloc, used, at, ty),
            Word::UseAtTwo(used, first, second, ty) => {
                self.put_use_at_two(alloc, used, (first, second), ty)
            }
            _ => self.put_holder(alloc, word),
        }
    }
}
