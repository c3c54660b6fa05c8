//! Lists with commas between their items.

ghost use Rattle.lua_grammar.specs.declared.context.Context.{Context};
ghost use Rattle.lua_grammar.specs.Classes as class;
ghost use Rattle.lua_grammar.specs.Things as thing;
ghost use Rattle.lua_parse.specs.Nests.{Nests};
ghost use Rattle.lua_parse.specs.Halts.{Reads};

use crate::grammar::{Found, Grammar, Wanted};
use crate::reader::Reader;
use crate::stops::Halt;
use crate::trees::exact;
use lua_grammar::{Context, Expr, Name};
use lua_lex::TokenKind;
use sqlite_items::Items;
use std::alloc::Global;

impl<F: Fn(Global, &mut Reader<'_>, Context, Wanted) -> Result<Found, Halt>> Grammar<F> {
    /// exp {, exp}
    pub fn list(&self, reader: &mut Reader<'_>) -> Result<Items<Expr>, Halt>
        requires nests { Nests self.now.context.level (F.pre self.now.nested) (F.post self.now.nested) }
        ensures { Reads self.now.context class.list thing.list result reader.old reader.new }
    {
        let mut list = Items::new(self.alloc);
        'more: loop {
            list.push(self.expression(reader)?)?;
            if !reader.eat(TokenKind::Comma) {
                return Ok(exact(self.alloc, list)?);
            }
        }
    }
}

/// Name {, Name}
pub fn names(alloc: Global, reader: &mut Reader<'_>) -> Result<Items<Name>, Halt>
    ensures { (c : Context) → Reads c class.names thing.names result reader.old reader.new }
{
    let mut names = Items::new(alloc);
    'more: loop {
        names.push(reader.take_name()?)?;
        if !reader.eat(TokenKind::Comma) {
            return Ok(exact(alloc, names)?);
        }
    }
}
