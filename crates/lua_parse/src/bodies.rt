//! The bodies of functions.

ghost use Rattle.std.specs.Prelude.{◌<◌};
ghost use Rattle.lua_grammar.specs.declared.context.Context.{Context};
ghost use Rattle.lua_grammar.specs.Classes as class;
ghost use Rattle.lua_grammar.specs.Things as thing;
ghost use Rattle.lua_parse.specs.Nests.{Nests};
ghost use Rattle.lua_parse.specs.Halts.{Reads};

use crate::grammar::{Found, Grammar, Wanted};
use crate::reader::Reader;
use crate::stops::Halt;
use crate::trees::exact;
use lua_grammar::{Body, Context, Name};
use lua_lex::TokenKind;
use sqlite_items::Items;
use std::alloc::Global;

impl<F: Fn(Global, &mut Reader<'_>, Context, Wanted) -> Result<Found, Halt>> Grammar<F> {
    /// ( [params] ) block end, of the word `function` on this line. Gives the number of the body.
    pub fn function_body(
        &self,
        reader: &mut Reader<'_>,
        line: u32,
        method: bool,
    ) -> Result<u32, Halt>
        requires nests { Nests self.now.context.level (F.pre self.now.nested) (F.post self.now.nested) }
        requires room { self.now.context.level < 60 }
        ensures { Reads self.now.context (class.function_body line method) (thing.function_body line method) result
            reader.old reader.new }
    {
        let number = reader.begin_body(self.alloc)?;
        let (parameters, varargs) = parameters(self.alloc, reader)?;
        reader.take(TokenKind::RightParen)?;
        let block = self.block_in(reader, self.context.function(varargs))?;
        reader.take(TokenKind::End)?;
        reader.end_body(
            number,
            Body {
                line,
                method,
                parameters,
                varargs,
                block,
            },
        );
        Ok(number)
    }
}

// The parameters, and whether `...` is the last of them.
fn parameters(alloc: Global, reader: &mut Reader<'_>) -> Result<(Items<Name>, bool), Halt>
    ensures { (c : Context) → Reads c class.parameters (λ x. thing.parameters x.0 x.1) result reader.old reader.new }
{
    let mut names = Items::new(alloc);
    if reader.sees(TokenKind::RightParen) {
        return Ok((names, false));
    }
    'more: loop {
        if reader.eat(TokenKind::Dots) {
            return Ok((exact(alloc, names)?, true));
        }
        names.push(reader.take_name()?)?;
        if !reader.eat(TokenKind::Comma) {
            return Ok((exact(alloc, names)?, false));
        }
    }
}
