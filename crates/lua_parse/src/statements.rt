//! Blocks, and statements that hold none.

ghost use Rattle.std.specs.Prelude.{◌≡◌, ◌≤◌, ◌<◌, true, false, MatchResult};
ghost use Rattle.lua_lex.specs.declared.kinds.TokenKind.TheVariants as kind;
ghost use Rattle.lua_grammar.specs.declared.context.Context.{Context};
ghost use Rattle.lua_grammar.specs.Contexts.{every_rule};
ghost use Rattle.lua_grammar.specs.Positions as at;
ghost use Rattle.lua_grammar.specs.Positions.{Position};
ghost use Rattle.lua_grammar.specs.Classes as class;
ghost use Rattle.lua_grammar.specs.Things as thing;
ghost use Rattle.lua_grammar.specs.Grammar.{Spelled};
ghost use Rattle.lua_parse.specs.Fronts.{IsFront};
ghost use Rattle.lua_grammar.specs.Productions.{begins_chain, begins_last};
ghost use Rattle.lua_parse.specs.Nests.{EndsBlock, IsMethod, Nests};
ghost use Rattle.lua_parse.specs.Halts.{IsMethodRefused, IsRefused, Reads};
ghost use Rattle.lua_parse.specs.Sought.{sought_of};

use crate::grammar::{Found, Grammar, Wanted};
use crate::kinds::begins_last;
use crate::lists::names;
use crate::reader::Reader;
use crate::sought::Sought;
use crate::stops::Halt;
use crate::trees::{Front, exact, made_front, returned};
use lua_grammar::{
    Block, Context, Deed, Expr, Name, Stat, SyntaxKind, Target, ends_block, ends_return,
};
use lua_lex::TokenKind;
use sqlite_items::Items;
use std::alloc::Global;

impl<F: Fn(Global, &mut Reader<'_>, Context, Wanted) -> Result<Found, Halt>> Grammar<F> {
    /// The statements up to the end of the block.
    pub fn block(&self, reader: &mut Reader<'_>) -> Result<Block, Halt>
        requires nests { Nests self.now.context.level (F.pre self.now.nested) (F.post self.now.nested) }
        ensures { Reads self.now.context class.block thing.block result reader.old reader.new }
    {
        let mut block = Items::new(self.alloc);
        'more: while !ends_block(reader.peek()) {
            if begins_last(reader.peek()) {
                block.push(self.last(reader)?)?;
                return Ok(exact(self.alloc, block)?);
            }
            block.push(self.statement(reader)?)?;
        }
        Ok(exact(self.alloc, block)?)
    }

    /// stat [;]
    fn statement(&self, reader: &mut Reader<'_>) -> Result<Stat, Halt>
        requires nests { Nests self.now.context.level (F.pre self.now.nested) (F.post self.now.nested) }
        ensures { Reads self.now.context class.statement thing.statement result reader.old reader.new }
    {
        let line = reader.name().line;
        let deed = self.deed(reader)?;
        reader.pass_semicolon();
        Ok(Stat { line, deed })
    }

    /// last [;], with the end of the block behind it
    fn last(&self, reader: &mut Reader<'_>) -> Result<Stat, Halt>
        requires nests { Nests self.now.context.level (F.pre self.now.nested) (F.post self.now.nested) }
        requires begins { begins_last (at.kind reader.old) ≡ true }
        ensures { MatchResult result (λ last. EndsBlock self.now.context last reader.old reader.new)
            (λ halt. IsRefused halt self.now.context class.block reader.old reader.new) }
    {
        let line = reader.name().line;
        let deed = self.last_deed(reader)?;
        reader.pass_semicolon();
        if !ends_block(reader.peek()) {
            return reader.unexpected();
        }
        Ok(Stat { line, deed })
    }

    fn last_deed(&self, reader: &mut Reader<'_>) -> Result<Deed, Halt>
        requires nests { Nests self.now.context.level (F.pre self.now.nested) (F.post self.now.nested) }
        requires begins { begins_last (at.kind reader.old) ≡ true }
        ensures { Reads self.now.context class.last_deed thing.last_deed result reader.old reader.new }
    {
        if reader.sees(TokenKind::Break) {
            return self.break_statement(reader);
        }
        reader.take(TokenKind::Return)?;
        if ends_return(reader.peek()) {
            return Ok(Deed::Return(Items::new(self.alloc)));
        }
        let values = self.list(reader)?;
        Ok(returned(self.alloc, values)?)
    }

    fn break_statement(&self, reader: &mut Reader<'_>) -> Result<Deed, Halt>
        requires seen { at.Sees kind.Break reader.old }
        ensures { Reads self.now.context class.last_deed thing.last_deed result reader.old reader.new }
    {
        if !self.context.in_loop {
            return Err(Halt::Syntax(SyntaxKind::NoLoop));
        }
        reader.take(TokenKind::Break)?;
        Ok(Deed::Break)
    }

    fn deed(&self, reader: &mut Reader<'_>) -> Result<Deed, Halt>
        requires nests { Nests self.now.context.level (F.pre self.now.nested) (F.post self.now.nested) }
        ensures { Reads self.now.context class.deed thing.deed result reader.old reader.new }
    {
        match reader.peek() {
            Some(TokenKind::Do) => self.do_block(reader),
            Some(TokenKind::While) => self.while_loop(reader),
            Some(TokenKind::Repeat) => self.repeat_loop(reader),
            Some(TokenKind::If) => self.if_statement(reader),
            Some(TokenKind::For) => self.for_loop(reader),
            Some(TokenKind::Function) => self.function_statement(reader),
            Some(TokenKind::Local) => self.local(reader),
            Some(TokenKind::Name | TokenKind::LeftParen) => self.chain_statement(reader),
            _ => reader.unexpected(),
        }
    }

    /// function Name {. Name} [: Name] body
    fn function_statement(&self, reader: &mut Reader<'_>) -> Result<Deed, Halt>
        requires nests { Nests self.now.context.level (F.pre self.now.nested) (F.post self.now.nested) }
        requires seen { at.Sees kind.Function reader.old }
        ensures { Reads self.now.context class.deed thing.deed result reader.old reader.new }
    {
        self.room(reader)?;
        let line = reader.name().line;
        reader.take(TokenKind::Function)?;
        let name = reader.take_name()?;
        let path = path(self.alloc, reader)?;
        if reader.eat(TokenKind::Colon) {
            let deed = self.method_statement(reader, line, name, path)?;
            return Ok(deed);
        }
        let number = self.function_body(reader, line, false)?;
        Ok(Deed::Function(name, path, number))
    }

    /// Name body, behind `:`
    fn method_statement(
        &self,
        reader: &mut Reader<'_>,
        line: u32,
        name: Name,
        mut path: Items<Name>,
    ) -> Result<Deed, Halt>
        requires nests { Nests self.now.context.level (F.pre self.now.nested) (F.post self.now.nested) }
        requires room { self.now.context.level < 60 }
        ensures { MatchResult result (λ deed. IsMethod self.now.context line name path deed reader.old reader.new)
            (λ halt. IsMethodRefused halt self.now.context line reader.old reader.new) }
    {
        path.push(reader.take_name()?)?;
        let path = exact(self.alloc, path)?;
        let number = self.function_body(reader, line, true)?;
        Ok(Deed::Function(name, path, number))
    }

    fn local(&self, reader: &mut Reader<'_>) -> Result<Deed, Halt>
        requires nests { Nests self.now.context.level (F.pre self.now.nested) (F.post self.now.nested) }
        requires seen { at.Sees kind.Local reader.old }
        ensures { Reads self.now.context class.deed thing.deed result reader.old reader.new }
    {
        reader.take(TokenKind::Local)?;
        if reader.sees(TokenKind::Function) {
            let deed = self.local_function(reader)?;
            return Ok(deed);
        }
        let names = names(self.alloc, reader)?;
        Ok(Deed::Local(names, self.values(reader)?))
    }

    /// function Name body, behind `local`
    fn local_function(&self, reader: &mut Reader<'_>) -> Result<Deed, Halt>
        requires nests { Nests self.now.context.level (F.pre self.now.nested) (F.post self.now.nested) }
        requires seen { at.Sees kind.Function reader.old }
        ensures { (start : Position) → at.Takes kind.Local start reader.old
            → Reads self.now.context class.deed thing.deed result start reader.new }
    {
        self.room(reader)?;
        let line = reader.name().line;
        reader.take(TokenKind::Function)?;
        let name = reader.take_name()?;
        let number = self.function_body(reader, line, false)?;
        Ok(Deed::LocalFunction(name, number))
    }

    /// [= exps]
    fn values(&self, reader: &mut Reader<'_>) -> Result<Items<Expr>, Halt>
        requires nests { Nests self.now.context.level (F.pre self.now.nested) (F.post self.now.nested) }
        ensures { Reads self.now.context class.values thing.values result reader.old reader.new }
    {
        if !reader.eat(TokenKind::Assign) {
            return Ok(Items::new(self.alloc));
        }
        let values = self.list(reader)?;
        Ok(values)
    }

    /// A call, or an assignment.
    fn chain_statement(&self, reader: &mut Reader<'_>) -> Result<Deed, Halt>
        requires nests { Nests self.now.context.level (F.pre self.now.nested) (F.post self.now.nested) }
        requires begins { begins_chain (at.kind reader.old) ≡ true }
        ensures { Reads self.now.context class.deed thing.deed result reader.old reader.new }
    {
        match self.front(reader, Sought::Front)? {
            Front::Call(function, how) => Ok(Deed::Call(function, how)),
            Front::Target(target) => {
                let deed = self.assignment(reader, target)?;
                Ok(deed)
            }
            Front::Neither => reader.unexpected(),
        }
    }

    // A name or a parenthesis with its suffixes, as an expression of its own.
    fn front(&self, reader: &mut Reader<'_>, sought: Sought) -> Result<Front, Halt>
        requires nests { Nests self.now.context.level (F.pre self.now.nested) (F.post self.now.nested) }
        ensures { MatchResult result (λ front. IsFront self.now.context (sought_of sought) front reader.old reader.new)
            (λ halt. IsRefused halt self.now.context (class.own_chain (sought_of sought)) reader.old reader.new) }
    {
        let counts = reader.begin_expression();
        let (head, suffixes) = self.chain(reader, sought)?;
        reader.resume_expression(counts);
        Ok(made_front(self.alloc, head, suffixes)?)
    }

    /// vars = exps, behind the first of them
    fn assignment(&self, reader: &mut Reader<'_>, first: Target) -> Result<Deed, Halt>
        requires nests { Nests self.now.context.level (F.pre self.now.nested) (F.post self.now.nested) }
        ensures { (start : Position) → Spelled every_rule self.now.context (thing.target first) start reader.old
            → Reads self.now.context class.deed thing.deed result start reader.new }
    {
        let mut targets = Items::new(self.alloc);
        targets.push(first)?;
        'more: while reader.eat(TokenKind::Comma) {
            targets.push(self.target(reader)?)?;
        }
        reader.take(TokenKind::Assign)?;
        let values = self.list(reader)?;
        let targets = exact(self.alloc, targets)?;
        Ok(Deed::Assign(targets, values))
    }

    // A call among its suffixes has another suffix behind it.
    fn target(&self, reader: &mut Reader<'_>) -> Result<Target, Halt>
        requires nests { Nests self.now.context.level (F.pre self.now.nested) (F.post self.now.nested) }
        ensures { Reads self.now.context class.target thing.target result reader.old reader.new }
    {
        match self.front(reader, Sought::Target)? {
            Front::Target(target) => Ok(target),
            _ => reader.unexpected(),
        }
    }
}

// {. Name}
fn path(alloc: Global, reader: &mut Reader<'_>) -> Result<Items<Name>, Halt>
    ensures { (c : Context) → Reads c class.path thing.path result reader.old reader.new }
{
    let mut path = Items::new(alloc);
    'more: while reader.eat(TokenKind::Dot) {
        path.push(reader.take_name()?)?;
    }
    Ok(exact(alloc, path)?)
}
