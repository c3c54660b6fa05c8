//! The productions call those of the next level of nesting by a function value, so that each is proved by itself.

ghost use Rattle.std.specs.Prelude.{◌≡◌, ◌+◌, ◌<◌, ◌≤◌, MatchResult};
ghost use Rattle.lua_grammar.specs.Classes as class;
ghost use Rattle.lua_grammar.specs.Things as thing;
ghost use Rattle.lua_grammar.specs.Contexts as context;
ghost use Rattle.lua_grammar.specs.declared.kinds.SyntaxKind.TheVariants as fault;
ghost use Rattle.lua_parse.specs.Nests.{Finds, Nests};
ghost use Rattle.lua_parse.specs.Halts.{Reads};

use crate::limits::MAX_LEVEL;
use crate::reader::Reader;
use crate::stops::Halt;
use lua_grammar::{Block, Context, Expr, Field, SyntaxKind};
use sqlite_items::Items;
use std::alloc::Global;

/// What is read a level deeper.
#[derive(Clone, Copy)]
pub enum Wanted {
    Expression,
    List,
    Fields,
    /// The operand of a unary operator.
    Operand,
    Block,
}

/// What was read there.
#[derive(Drop)]
pub enum Found {
    Expression(Expr),
    List(Items<Expr>),
    Fields(Items<Field>),
    Block(Block),
}

/// The productions in a context.
#[derive(Clone, Copy)]
pub struct Grammar<F> {
    pub alloc: Global,
    pub context: Context,
    pub nested: F,
}

/// What is wanted, in a context.
pub fn read(
    alloc: Global,
    reader: &mut Reader<'_>,
    context: Context,
    wanted: Wanted,
) -> Result<Found, Halt>
    requires { context.level ≤ 60 }
    ensures { Finds wanted context result reader.old reader.new }
{
    let grammar = Grammar {
        alloc,
        context,
        nested: read,
    };
    match wanted {
        Wanted::Expression => Ok(Found::Expression(grammar.expression(reader)?)),
        Wanted::List => Ok(Found::List(grammar.list(reader)?)),
        Wanted::Fields => Ok(Found::Fields(grammar.fields(reader)?)),
        Wanted::Operand => Ok(Found::Expression(grammar.power(reader)?)),
        Wanted::Block => Ok(Found::Block(grammar.block(reader)?)),
    }
}

impl<F: Fn(Global, &mut Reader<'_>, Context, Wanted) -> Result<Found, Halt>> Grammar<F> {
    /// Refuses the next word where nothing may nest any deeper.
    pub fn room(&self, reader: &Reader<'_>) -> Result<(), Halt>
        ensures { MatchResult result (λ _. self.now.context.level < 60) (λ halt. (halt ≡ Halt.Syntax fault.TooDeep)
            × (60 ≤ self.now.context.level)) }
    {
        if self.context.level >= MAX_LEVEL {
            return Err(Halt::Syntax(SyntaxKind::TooDeep));
        }
        Ok(())
    }

    // What is wanted in this context, which is a level deeper.
    fn nest(&self, reader: &mut Reader<'_>, context: Context, wanted: Wanted) -> Result<Found, Halt>
        requires nests { Nests self.now.context.level (F.pre self.now.nested) (F.post self.now.nested) }
        requires room { self.now.context.level < 60 }
        requires level { context.level ≡ self.now.context.level + 1 }
        ensures { Finds wanted context result reader.old reader.new }
    {
        (self.nested)(self.alloc, reader, context, wanted)
    }

    pub fn inner_expression(&self, reader: &mut Reader<'_>) -> Result<Expr, Halt>
        requires nests { Nests self.now.context.level (F.pre self.now.nested) (F.post self.now.nested) }
        requires room { self.now.context.level < 60 }
        ensures { Reads (context.inner self.now.context) class.expression thing.expression result reader.old
            reader.new }
    {
        match self.nest(reader, self.context.inner(), Wanted::Expression)? {
            Found::Expression(expression) => Ok(expression),
            _ => unreachable!(),
        }
    }

    pub fn inner_list(&self, reader: &mut Reader<'_>) -> Result<Items<Expr>, Halt>
        requires nests { Nests self.now.context.level (F.pre self.now.nested) (F.post self.now.nested) }
        requires room { self.now.context.level < 60 }
        ensures { Reads (context.inner self.now.context) class.list thing.list result reader.old reader.new }
    {
        match self.nest(reader, self.context.inner(), Wanted::List)? {
            Found::List(list) => Ok(list),
            _ => unreachable!(),
        }
    }

    pub fn inner_fields(&self, reader: &mut Reader<'_>) -> Result<Items<Field>, Halt>
        requires nests { Nests self.now.context.level (F.pre self.now.nested) (F.post self.now.nested) }
        requires room { self.now.context.level < 60 }
        ensures { Reads (context.inner self.now.context) class.fields thing.fields result reader.old reader.new }
    {
        match self.nest(reader, self.context.inner(), Wanted::Fields)? {
            Found::Fields(fields) => Ok(fields),
            _ => unreachable!(),
        }
    }

    pub fn inner_operand(&self, reader: &mut Reader<'_>) -> Result<Expr, Halt>
        requires nests { Nests self.now.context.level (F.pre self.now.nested) (F.post self.now.nested) }
        requires room { self.now.context.level < 60 }
        ensures { Reads (context.inner self.now.context) (class.operand 7) (thing.operand 7) result reader.old
            reader.new }
    {
        match self.nest(reader, self.context.inner(), Wanted::Operand)? {
            Found::Expression(expression) => Ok(expression),
            _ => unreachable!(),
        }
    }

    /// The block in this context, which is a level deeper.
    pub fn block_in(&self, reader: &mut Reader<'_>, context: Context) -> Result<Block, Halt>
        requires nests { Nests self.now.context.level (F.pre self.now.nested) (F.post self.now.nested) }
        requires room { self.now.context.level < 60 }
        requires level { context.level ≡ self.now.context.level + 1 }
        ensures { Reads context class.block thing.block result reader.old reader.new }
    {
        match self.nest(reader, context, Wanted::Block)? {
            Found::Block(block) => Ok(block),
            _ => unreachable!(),
        }
    }
}
