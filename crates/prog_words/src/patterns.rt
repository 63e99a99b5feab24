// What stands of patterns before the next word.

use crate::make::{Made, add, before, chain, layered};
use ir_tables::tables::Constant;
use mlc_base::make::boxed;
use mlc_names::label::Label;
use prog_tree::tree::{Exception, Head, Pair, Pat, PatField, PatPart, Side};
use std::alloc::Global;
use std::mem;

/// A word that makes a pattern, or a part of one of the last pattern.
#[derive(Clone, Copy)]
pub enum Form {
    Any,
    Variable(usize),
    Constant(Constant),
    Constructor(usize),
    Exception(Exception),
    /// Before the last pattern.
    Before(Head, usize),
    /// The last pattern is a field of the next record.
    Field(Label, usize),
    Record(bool),
    As(usize),
    /// The last pattern is a further operand of the next chain.
    Part(Head, Pair),
    Chain(Side),
}

#[derive(Drop)]
pub struct Patterns {
    pats: Vec<Pat>,
    fields: Vec<PatField>,
    parts: Vec<PatPart>,
    /// Whether a pattern was asked for where there was none.
    short: bool,
}

impl Patterns {
    pub fn new(alloc: Global) -> Patterns {
        Patterns {
            pats: Vec::new(alloc),
            fields: Vec::new(alloc),
            parts: Vec::new(alloc),
            short: false,
        }
    }

    /// Whether all patterns were taken, and no further ones asked for.
    pub fn are_done(&self) -> bool {
        let fields = self.fields.is_empty() && self.parts.is_empty();
        fields && self.pats.is_empty() && !self.short
    }

    /// The last pattern.
    pub fn last(&mut self) -> Pat {
        match self.pats.pop() {
            Some(pat) => pat,
            None => {
                self.short = true;
                Pat::Any
            }
        }
    }

    fn push(&mut self, pat: Pat) -> Made<()> {
        self.pats.push(pat)?;
        Ok(())
    }

    fn put_before(&mut self, alloc: Global, head: Head, argument: usize) -> Made<()> {
        let pat = boxed(alloc, self.last());
        add(&mut self.pats, before(head, argument, pat))
    }

    fn put_field(&mut self, label: Label, ty: usize) -> Made<()> {
        let pat = self.last();
        self.fields.push(PatField { label, ty, pat })?;
        Ok(())
    }

    fn put_record(&mut self, alloc: Global, further: bool) -> Made<()> {
        let fields = mem::replace(&mut self.fields, Vec::new(alloc));
        self.push(Pat::Record(further, fields))
    }

    fn put_as(&mut self, alloc: Global, variable: usize) -> Made<()> {
        let pat = boxed(alloc, self.last());
        add(&mut self.pats, layered(variable, pat))
    }

    fn put_part(&mut self, head: Head, pair: Pair) -> Made<()> {
        let pat = self.last();
        self.parts.push(PatPart { head, pair, pat })?;
        Ok(())
    }

    fn put_chain(&mut self, alloc: Global, side: Side) -> Made<()> {
        let first = boxed(alloc, self.last());
        let parts = mem::replace(&mut self.parts, Vec::new(alloc));
        add(&mut self.pats, chain(side, first, parts))
    }

    /// One that holds others.
    fn put_holder(&mut self, alloc: Global, form: Form) -> Made<()> {
        match form {
            Form::Before(head, argument) => self.put_before(alloc, head, argument),
            Form::Field(label, ty) => self.put_field(label, ty),
            Form::Record(further) => self.put_record(alloc, further),
            Form::As(variable) => self.put_as(alloc, variable),
            Form::Part(head, pair) => self.put_part(head, pair),
            Form::Chain(side) => self.put_chain(alloc, side),
            _ => Ok(()),
        }
    }

    pub fn put(&mut self, alloc: Global, form: Form) -> Made<()> {
        match form {
            Form::Any => self.push(Pat::Any),
            Form::Variable(variable) => self.push(Pat::Variable(variable)),
            Form::Constant(constant) => self.push(Pat::Constant(constant)),
            Form::Constructor(number) => self.push(Pat::Constructor(number)),
            Form::Exception(exception) => self.push(Pat::Exception(exception)),
            _ => self.put_holder(alloc, form),
        }
    }
}
