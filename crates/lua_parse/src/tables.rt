//! Table constructors.

ghost use Rattle.std.specs.Prelude.{◌≡◌, true};
ghost use Rattle.lua_lex.specs.declared.kinds.TokenKind.TheVariants as kind;
ghost use Rattle.lua_grammar.specs.Positions as at;
ghost use Rattle.lua_grammar.specs.Classes as class;
ghost use Rattle.lua_grammar.specs.Things as thing;
ghost use Rattle.lua_parse.specs.Nests.{Nests};
ghost use Rattle.lua_parse.specs.Halts.{Reads};

use crate::grammar::{Found, Grammar, Wanted};
use crate::kinds::{is_named, is_separator};
use crate::reader::Reader;
use crate::stops::Halt;
use crate::trees::exact;
use lua_grammar::{Context, Field};
use lua_lex::TokenKind;
use sqlite_items::Items;
use std::alloc::Global;

impl<F: Fn(Global, &mut Reader<'_>, Context, Wanted) -> Result<Found, Halt>> Grammar<F> {
    /// { [field {sep field} [sep]] }
    pub fn constructor(&self, reader: &mut Reader<'_>) -> Result<Items<Field>, Halt>
        requires nests { Nests self.now.context.level (F.pre self.now.nested) (F.post self.now.nested) }
        requires seen { at.Sees kind.LeftBrace reader.old }
        ensures { Reads self.now.context class.constructor thing.constructor result reader.old reader.new }
    {
        self.room(reader)?;
        reader.take(TokenKind::LeftBrace)?;
        let fields = self.inner_fields(reader)?;
        reader.take(TokenKind::RightBrace)?;
        Ok(fields)
    }

    /// The fields of a constructor, up to its `}`.
    pub fn fields(&self, reader: &mut Reader<'_>) -> Result<Items<Field>, Halt>
        requires nests { Nests self.now.context.level (F.pre self.now.nested) (F.post self.now.nested) }
        ensures { Reads self.now.context class.fields thing.fields result reader.old reader.new }
    {
        let mut fields = Items::new(self.alloc);
        'more: while !reader.sees(TokenKind::RightBrace) {
            fields.push(self.field(reader)?)?;
            if !is_separator(reader.peek()) {
                return Ok(exact(self.alloc, fields)?);
            }
            reader.pass();
        }
        Ok(exact(self.alloc, fields)?)
    }

    fn field(&self, reader: &mut Reader<'_>) -> Result<Field, Halt>
        requires nests { Nests self.now.context.level (F.pre self.now.nested) (F.post self.now.nested) }
        ensures { Reads self.now.context class.field thing.field result reader.old reader.new }
    {
        if reader.sees(TokenKind::LeftBracket) {
            return self.keyed(reader);
        }
        if is_named(reader.peek(), reader.peek_behind()) {
            return self.named(reader);
        }
        Ok(Field::Plain(self.expression(reader)?))
    }

    /// [ exp ] = exp
    fn keyed(&self, reader: &mut Reader<'_>) -> Result<Field, Halt>
        requires nests { Nests self.now.context.level (F.pre self.now.nested) (F.post self.now.nested) }
        requires seen { at.Sees kind.LeftBracket reader.old }
        ensures { Reads self.now.context class.field thing.field result reader.old reader.new }
    {
        reader.take(TokenKind::LeftBracket)?;
        let key = self.expression(reader)?;
        reader.take(TokenKind::RightBracket)?;
        reader.take(TokenKind::Assign)?;
        Ok(Field::Keyed(key, self.expression(reader)?))
    }

    /// Name = exp
    fn named(&self, reader: &mut Reader<'_>) -> Result<Field, Halt>
        requires nests { Nests self.now.context.level (F.pre self.now.nested) (F.post self.now.nested) }
        requires named { at.names_field reader.old ≡ true }
        ensures { Reads self.now.context class.field thing.field result reader.old reader.new }
    {
        let name = reader.take_name()?;
        reader.take(TokenKind::Assign)?;
        Ok(Field::Named(name, self.expression(reader)?))
    }
}
