// What stands before the next word: programs as words.

use crate::expressions::{Expressions, Word};
use crate::make::{Made, PLACE, add, member};
use crate::patterns::Form;
use mlc_base::make::one;
use mlc_names::names::Name;
use prog_tree::tree::{Binding, Dec, Function, Rule};
use std::alloc::Global;
use std::mem;

/// The number of the list that has no parameters, in the tests' tables.
const NONE: usize = 0;

/// What stands before the next word.
#[derive(Drop)]
pub struct Text {
    expressions: Expressions,
    binds: Vec<(Binding, Rule)>,
    functions: Vec<(Vec<usize>, usize, Function)>,
    declarations: Vec<Dec>,
    /// Whether a declaration was asked for where there was none.
    short: bool,
}

fn binding(general: bool, ty: usize) -> Binding {
    Binding {
        place: PLACE,
        general,
        ty,
    }
}

fn over(parameters: usize, binds: Made<Vec<(Binding, Rule)>>, alloc: Global) -> Made<Dec> {
    match binds {
        Ok(binds) => Ok(Dec::Val(parameters, binds, Vec::new(alloc))),
        Err(e) => Err(e),
    }
}

impl Text {
    pub fn new(alloc: Global) -> Text {
        Text {
            expressions: Expressions::new(alloc),
            binds: Vec::new(alloc),
            functions: Vec::new(alloc),
            declarations: Vec::new(alloc),
            short: false,
        }
    }

    /// Whether all parts were taken, and no further ones asked for.
    pub fn is_done(&self) -> bool {
        let parts = self.binds.is_empty() && self.functions.is_empty();
        parts && !self.short && self.expressions.are_done()
    }

    fn declare(&mut self, declaration: Dec) -> Made<()> {
        self.declarations.push(declaration)?;
        Ok(())
    }

    fn last(&mut self) -> Dec {
        match self.declarations.pop() {
            Some(declaration) => declaration,
            None => {
                self.short = true;
                Dec::Weight(0)
            }
        }
    }

    fn put_let(&mut self, alloc: Global, ty: usize) -> Made<()> {
        let declarations = one(alloc, self.last());
        self.expressions.put_let(alloc, ty, declarations)
    }

    fn put_bind(&mut self, general: bool, ty: usize) -> Made<()> {
        let rule = self.expressions.last_rule();
        self.binds.push((binding(general, ty), rule))?;
        Ok(())
    }

    fn put_member(&mut self, alloc: Global, variable: usize, ty: usize) -> Made<()> {
        let function = self.expressions.last_function(alloc);
        add(&mut self.functions, member(alloc, variable, ty, function))
    }

    fn put_val(&mut self, alloc: Global, parameters: usize) -> Made<()> {
        let binds = mem::replace(&mut self.binds, Vec::new(alloc));
        let functions = mem::replace(&mut self.functions, Vec::new(alloc));
        self.declare(Dec::Val(parameters, binds, functions))
    }

    fn put_plain(&mut self, alloc: Global, variable: usize, ty: usize) -> Made<()> {
        self.expressions
            .patterns
            .put(alloc, Form::Variable(variable))?;
        let rule = self.expressions.last_rule();
        let binds = one(alloc, (binding(false, ty), rule));
        add(&mut self.declarations, over(NONE, binds, alloc))
    }

    fn put_exception(&mut self, variable: usize, argument: Option<usize>) -> Made<()> {
        self.declare(Dec::Exception(variable, Name::standard(0), argument))
    }

    /// The next word.
    pub fn put(&mut self, alloc: Global, word: Word) -> Made<()> {
        match word {
            Word::Let(ty) => self.put_let(alloc, ty),
            Word::Bind(general, ty) => self.put_bind(general, ty),
            Word::Member(variable, ty) => self.put_member(alloc, variable, ty),
            Word::Val(parameters) => self.put_val(alloc, parameters),
            Word::Plain(variable, ty) => self.put_plain(alloc, variable, ty),
            Word::Exception(variable, argument) => self.put_exception(variable, argument),
            Word::Weight(count) => self.declare(Dec::Weight(count)),
            Word::Says(_) => Ok(()),
            _ => self.expressions.put(alloc, word),
        }
    }

    /// All declarations.
    pub fn body(&mut self, alloc: Global) -> Vec<Dec> {
        mem::replace(&mut self.declarations, Vec::new(alloc))
    }
}
