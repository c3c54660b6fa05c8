//! Statements that hold blocks.

ghost use Rattle.std.specs.Prelude.{◌≡◌, ◌<◌, true, false, List, ◌∷◌, MatchResult};
ghost use Rattle.lua_lex.specs.declared.kinds.TokenKind.TheVariants as kind;
ghost use Rattle.lua_grammar.specs.declared.statements.Branch.{Branch};
ghost use Rattle.lua_grammar.specs.Contexts.{every_rule};
ghost use Rattle.lua_grammar.specs.Positions as at;
ghost use Rattle.lua_grammar.specs.Classes as class;
ghost use Rattle.lua_grammar.specs.Things as thing;
ghost use Rattle.lua_grammar.specs.Grammar.{Spelled};
ghost use Rattle.lua_parse.specs.Nests.{Nests};
ghost use Rattle.lua_parse.specs.Halts.{IsRefused, Reads};

use crate::grammar::{Found, Grammar, Wanted};
use crate::kinds::is_named;
use crate::lists::names;
use crate::reader::Reader;
use crate::stops::Halt;
use crate::trees::exact;
use lua_grammar::{Block, Branch, Context, Deed, Expr};
use lua_lex::TokenKind;
use sqlite_items::Items;
use std::alloc::Global;

impl<F: Fn(Global, &mut Reader<'_>, Context, Wanted) -> Result<Found, Halt>> Grammar<F> {
    /// do block end
    pub fn do_block(&self, reader: &mut Reader<'_>) -> Result<Deed, Halt>
        requires nests { Nests self.now.context.level (F.pre self.now.nested) (F.post self.now.nested) }
        requires seen { at.Sees kind.Do reader.old }
        ensures { Reads self.now.context class.deed thing.deed result reader.old reader.new }
    {
        self.room(reader)?;
        reader.take(TokenKind::Do)?;
        let block = self.block_in(reader, self.context.inner())?;
        reader.take(TokenKind::End)?;
        Ok(Deed::Do(block))
    }

    /// while exp do block end
    pub fn while_loop(&self, reader: &mut Reader<'_>) -> Result<Deed, Halt>
        requires nests { Nests self.now.context.level (F.pre self.now.nested) (F.post self.now.nested) }
        requires seen { at.Sees kind.While reader.old }
        ensures { Reads self.now.context class.deed thing.deed result reader.old reader.new }
    {
        self.room(reader)?;
        reader.take(TokenKind::While)?;
        let test = self.expression(reader)?;
        Ok(Deed::While(test, self.loop_block(reader)?))
    }

    /// repeat block until exp
    pub fn repeat_loop(&self, reader: &mut Reader<'_>) -> Result<Deed, Halt>
        requires nests { Nests self.now.context.level (F.pre self.now.nested) (F.post self.now.nested) }
        requires seen { at.Sees kind.Repeat reader.old }
        ensures { Reads self.now.context class.deed thing.deed result reader.old reader.new }
    {
        self.room(reader)?;
        reader.take(TokenKind::Repeat)?;
        let block = self.block_in(reader, self.context.looped())?;
        reader.take(TokenKind::Until)?;
        let test = self.expression(reader)?;
        Ok(Deed::Repeat(block, test))
    }

    /// if branch {elseif branch} [else block] end
    pub fn if_statement(&self, reader: &mut Reader<'_>) -> Result<Deed, Halt>
        requires nests { Nests self.now.context.level (F.pre self.now.nested) (F.post self.now.nested) }
        requires seen { at.Sees kind.If reader.old }
        ensures { Reads self.now.context class.deed thing.deed result reader.old reader.new }
    {
        self.room(reader)?;
        reader.take(TokenKind::If)?;
        let first = self.branch(reader)?;
        let branches = self.branches(reader, first)?;
        let otherwise = self.otherwise(reader)?;
        reader.take(TokenKind::End)?;
        Ok(Deed::If(branches, otherwise))
    }

    // The first branch, and those of `elseif` behind it.
    fn branches(&self, reader: &mut Reader<'_>, first: Branch) -> Result<Items<Branch>, Halt>
        requires nests { Nests self.now.context.level (F.pre self.now.nested) (F.post self.now.nested) }
        requires room { self.now.context.level < 60 }
        ensures { MatchResult result (λ all. (more : List Branch) × (all ≡ first ∷ more)
            × Spelled every_rule self.now.context (thing.branches more) reader.old reader.new)
            (λ halt. IsRefused halt self.now.context class.branches reader.old reader.new) }
    {
        let mut branches = Items::new(self.alloc);
        branches.push(first)?;
        'more: while reader.eat(TokenKind::ElseIf) {
            branches.push(self.branch(reader)?)?;
        }
        Ok(exact(self.alloc, branches)?)
    }

    /// exp then block
    fn branch(&self, reader: &mut Reader<'_>) -> Result<Branch, Halt>
        requires nests { Nests self.now.context.level (F.pre self.now.nested) (F.post self.now.nested) }
        requires room { self.now.context.level < 60 }
        ensures { Reads self.now.context class.branch thing.branch result reader.old reader.new }
    {
        let test = self.expression(reader)?;
        reader.take(TokenKind::Then)?;
        let block = self.block_in(reader, self.context.inner())?;
        Ok(Branch { test, block })
    }

    /// [else block]
    fn otherwise(&self, reader: &mut Reader<'_>) -> Result<Block, Halt>
        requires nests { Nests self.now.context.level (F.pre self.now.nested) (F.post self.now.nested) }
        requires room { self.now.context.level < 60 }
        ensures { Reads self.now.context class.otherwise thing.otherwise result reader.old reader.new }
    {
        if !reader.eat(TokenKind::Else) {
            return Ok(Items::new(self.alloc));
        }
        let block = self.block_in(reader, self.context.inner())?;
        Ok(block)
    }

    pub fn for_loop(&self, reader: &mut Reader<'_>) -> Result<Deed, Halt>
        requires nests { Nests self.now.context.level (F.pre self.now.nested) (F.post self.now.nested) }
        requires seen { at.Sees kind.For reader.old }
        ensures { Reads self.now.context class.deed thing.deed result reader.old reader.new }
    {
        self.room(reader)?;
        reader.take(TokenKind::For)?;
        let deed = self.for_range(reader)?;
        Ok(deed)
    }

    /// A `for` without its first word.
    fn for_range(&self, reader: &mut Reader<'_>) -> Result<Deed, Halt>
        requires nests { Nests self.now.context.level (F.pre self.now.nested) (F.post self.now.nested) }
        requires room { self.now.context.level < 60 }
        ensures { Reads self.now.context class.for_range thing.for_range result reader.old reader.new }
    {
        if is_named(reader.peek(), reader.peek_behind()) {
            self.numeric_for(reader)
        } else {
            self.generic_for(reader)
        }
    }

    /// Name = exp , exp [, exp] do block end
    fn numeric_for(&self, reader: &mut Reader<'_>) -> Result<Deed, Halt>
        requires nests { Nests self.now.context.level (F.pre self.now.nested) (F.post self.now.nested) }
        requires room { self.now.context.level < 60 }
        requires named { at.names_field reader.old ≡ true }
        ensures { Reads self.now.context class.for_range thing.for_range result reader.old reader.new }
    {
        let name = reader.take_name()?;
        reader.take(TokenKind::Assign)?;
        let begin = self.expression(reader)?;
        reader.take(TokenKind::Comma)?;
        let limit = self.expression(reader)?;
        let step = self.step(reader)?;
        let block = self.loop_block(reader)?;
        Ok(Deed::For(name, begin, limit, step, block))
    }

    /// [, exp]
    fn step(&self, reader: &mut Reader<'_>) -> Result<Option<Expr>, Halt>
        requires nests { Nests self.now.context.level (F.pre self.now.nested) (F.post self.now.nested) }
        ensures { Reads self.now.context class.step thing.step result reader.old reader.new }
    {
        if !reader.eat(TokenKind::Comma) {
            return Ok(None);
        }
        Ok(Some(self.expression(reader)?))
    }

    /// names in exps do block end
    fn generic_for(&self, reader: &mut Reader<'_>) -> Result<Deed, Halt>
        requires nests { Nests self.now.context.level (F.pre self.now.nested) (F.post self.now.nested) }
        requires room { self.now.context.level < 60 }
        requires unnamed { at.names_field reader.old ≡ false }
        ensures { Reads self.now.context class.for_range thing.for_range result reader.old reader.new }
    {
        let names = names(self.alloc, reader)?;
        reader.take(TokenKind::In)?;
        let list = self.list(reader)?;
        let block = self.loop_block(reader)?;
        Ok(Deed::ForIn(names, list, block))
    }

    /// do block end, of a loop
    fn loop_block(&self, reader: &mut Reader<'_>) -> Result<Block, Halt>
        requires nests { Nests self.now.context.level (F.pre self.now.nested) (F.post self.now.nested) }
        requires room { self.now.context.level < 60 }
        ensures { Reads self.now.context class.loop_block thing.loop_block result reader.old reader.new }
    {
        reader.take(TokenKind::Do)?;
        let block = self.block_in(reader, self.context.looped())?;
        reader.take(TokenKind::End)?;
        Ok(block)
    }
}
