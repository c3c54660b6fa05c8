//! Names and parentheses, and what goes on with them.

ghost use Rattle.std.specs.Prelude.{◌≡◌, ◌<◌, ◌≤◌, true, MatchResult};
ghost use Rattle.lua_lex.specs.declared.kinds.TokenKind.TheVariants as kind;
ghost use Rattle.lua_grammar.specs.Contexts.{every_rule};
ghost use Rattle.lua_grammar.specs.Grammar.{Spelled};
ghost use Rattle.lua_grammar.specs.Positions as at;
ghost use Rattle.lua_grammar.specs.Classes as class;
ghost use Rattle.lua_grammar.specs.Stuck.{IsNearCall, nests_suffix};
ghost use Rattle.lua_grammar.specs.Things as thing;
ghost use Rattle.lua_grammar.specs.Words.{begins_suffix};
ghost use Rattle.lua_parse.specs.Nests.{AreSuffixes, HasSuffixRoom, IsChain, IsCounted, Nests};
ghost use Rattle.lua_parse.specs.Halts.{IsRefused, Reads};
ghost use Rattle.lua_parse.specs.Sought.{sought_of};

use crate::grammar::{Found, Grammar, Wanted};
use crate::kinds::spared_behind;
use crate::reader::Reader;
use crate::sought::Sought;
use crate::stops::Halt;
use crate::trees::{exact, only};
use lua_grammar::{Call, Context, Expr, Key, Suffix, begins_suffix};
use lua_lex::TokenKind;
use sqlite_items::{Boxed, Items};
use std::alloc::Global;

impl<F: Fn(Global, &mut Reader<'_>, Context, Wanted) -> Result<Found, Halt>> Grammar<F> {
    /// A name or a parenthesis, and all that goes on with it. Where a target is sought, a call leaves a suffix to come.
    pub fn chain(
        &self,
        reader: &mut Reader<'_>,
        sought: Sought,
    ) -> Result<(Expr, Items<Suffix>), Halt>
        requires nests { Nests self.now.context.level (F.pre self.now.nested) (F.post self.now.nested) }
        ensures { MatchResult result (λ x. IsChain self.now.context (sought_of sought) x.0 x.1 reader.old reader.new)
            (λ halt. IsRefused halt self.now.context (class.chain (sought_of sought)) reader.old reader.new) }
    {
        let head = self.head(reader)?;
        let suffixes = self.suffixes(reader, sought)?;
        Ok((head, suffixes))
    }

    fn suffixes(&self, reader: &mut Reader<'_>, sought: Sought) -> Result<Items<Suffix>, Halt>
        requires nests { Nests self.now.context.level (F.pre self.now.nested) (F.post self.now.nested) }
        ensures { MatchResult result (λ all. AreSuffixes self.now.context (sought_of sought) all reader.old reader.new)
            (λ halt. IsRefused halt self.now.context (class.suffixes (sought_of sought)) reader.old reader.new) }
    {
        let mut suffixes = Items::new(self.alloc);
        'more: while begins_suffix(reader.peek()) {
            suffixes.push(self.counted_suffix(reader, sought)?)?;
        }
        Ok(exact(self.alloc, suffixes)?)
    }

    fn head(&self, reader: &mut Reader<'_>) -> Result<Expr, Halt>
        requires nests { Nests self.now.context.level (F.pre self.now.nested) (F.post self.now.nested) }
        ensures { Reads self.now.context class.head thing.head result reader.old reader.new }
    {
        if reader.sees(TokenKind::LeftParen) {
            return self.parenthesis(reader);
        }
        Ok(Expr::Name(reader.take_name()?))
    }

    /// ( exp )
    fn parenthesis(&self, reader: &mut Reader<'_>) -> Result<Expr, Halt>
        requires nests { Nests self.now.context.level (F.pre self.now.nested) (F.post self.now.nested) }
        requires seen { at.Sees kind.LeftParen reader.old }
        ensures { Reads self.now.context class.head thing.head result reader.old reader.new }
    {
        self.room(reader)?;
        reader.take(TokenKind::LeftParen)?;
        let inside = self.inner_expression(reader)?;
        reader.take(TokenKind::RightParen)?;
        Ok(Expr::Paren(Boxed::new(self.alloc, inside)?))
    }

    fn counted_suffix(&self, reader: &mut Reader<'_>, sought: Sought) -> Result<Suffix, Halt>
        requires nests { Nests self.now.context.level (F.pre self.now.nested) (F.post self.now.nested) }
        requires begins { begins_suffix (at.kind reader.old) ≡ true }
        ensures { MatchResult result (λ suffix. IsCounted self.now.context (sought_of sought) suffix reader.old
            reader.new)
            (λ halt. IsRefused halt self.now.context (class.suffixes (sought_of sought)) reader.old reader.new) }
    {
        self.suffix_room(reader)?;
        reader.count_suffix(spared_behind(reader.peek(), sought))?;
        let suffix = self.suffix(reader)?;
        Ok(suffix)
    }

    // What the first word of a suffix is refused for before the count of suffixes.
    fn suffix_room(&self, reader: &Reader<'_>) -> Result<(), Halt>
        ensures { MatchResult result (λ _. HasSuffixRoom self.now.context reader.now) (λ halt. (sought : class.Sought)
            → IsRefused halt self.now.context (class.suffixes sought) reader.now reader.now) }
    {
        match reader.peek() {
            Some(TokenKind::LeftParen) => {
                reader.near()?;
                self.room(reader)
            }
            Some(TokenKind::LeftBrace | TokenKind::LeftBracket) => self.room(reader),
            _ => Ok(()),
        }
    }

    fn suffix(&self, reader: &mut Reader<'_>) -> Result<Suffix, Halt>
        requires nests { Nests self.now.context.level (F.pre self.now.nested) (F.post self.now.nested) }
        requires begins { begins_suffix (at.kind reader.old) ≡ true }
        requires room { HasSuffixRoom self.now.context reader.old }
        ensures { Reads self.now.context class.suffix thing.suffix result reader.old reader.new }
    {
        match reader.peek() {
            Some(TokenKind::Dot) => Ok(Suffix::Key(self.member(reader)?)),
            Some(TokenKind::LeftBracket) => Ok(Suffix::Key(self.index(reader)?)),
            Some(TokenKind::Colon) => Ok(Suffix::Call(self.method(reader)?)),
            _ => Ok(Suffix::Call(Call::Plain(self.arguments(reader)?))),
        }
    }

    /// . Name
    fn member(&self, reader: &mut Reader<'_>) -> Result<Key, Halt>
        requires { at.Sees kind.Dot reader.old }
        ensures { Reads self.now.context class.suffix (λ key. thing.suffix (Suffix.Key key)) result reader.old
            reader.new }
    {
        reader.take(TokenKind::Dot)?;
        Ok(Key::Field(reader.take_name()?))
    }

    /// [ exp ]
    fn index(&self, reader: &mut Reader<'_>) -> Result<Key, Halt>
        requires nests { Nests self.now.context.level (F.pre self.now.nested) (F.post self.now.nested) }
        requires seen { at.Sees kind.LeftBracket reader.old }
        requires room { self.now.context.level < 60 }
        ensures { Reads self.now.context class.suffix (λ key. thing.suffix (Suffix.Key key)) result reader.old
            reader.new }
    {
        reader.take(TokenKind::LeftBracket)?;
        let index = self.inner_expression(reader)?;
        reader.take(TokenKind::RightBracket)?;
        Ok(Key::Index(index))
    }

    /// : Name args
    fn method(&self, reader: &mut Reader<'_>) -> Result<Call, Halt>
        requires nests { Nests self.now.context.level (F.pre self.now.nested) (F.post self.now.nested) }
        requires seen { at.Sees kind.Colon reader.old }
        ensures { Reads self.now.context class.suffix (λ how. thing.suffix (Suffix.Call how)) result reader.old
            reader.new }
    {
        reader.take(TokenKind::Colon)?;
        let name = reader.take_name()?;
        Ok(Call::Method(name, self.arguments(reader)?))
    }

    fn arguments(&self, reader: &mut Reader<'_>) -> Result<Items<Expr>, Halt>
        requires nests { Nests self.now.context.level (F.pre self.now.nested) (F.post self.now.nested) }
        ensures { Reads self.now.context class.arguments thing.arguments result reader.old reader.new }
    {
        match reader.peek() {
            Some(TokenKind::LeftParen) => self.listed_arguments(reader),
            Some(TokenKind::LeftBrace) => self.table_argument(reader),
            Some(TokenKind::Text) => self.text_argument(reader),
            _ => reader.unexpected(),
        }
    }

    fn table_argument(&self, reader: &mut Reader<'_>) -> Result<Items<Expr>, Halt>
        requires nests { Nests self.now.context.level (F.pre self.now.nested) (F.post self.now.nested) }
        requires seen { at.Sees kind.LeftBrace reader.old }
        ensures { Reads self.now.context class.arguments thing.arguments result reader.old reader.new }
    {
        let fields = self.constructor(reader)?;
        Ok(only(self.alloc, Expr::Table(fields))?)
    }

    fn text_argument(&self, reader: &mut Reader<'_>) -> Result<Items<Expr>, Halt>
        requires { at.Sees kind.Text reader.old }
        ensures { Reads self.now.context class.arguments thing.arguments result reader.old reader.new }
    {
        let number = reader.name().text;
        reader.pass();
        Ok(only(self.alloc, Expr::Text(number))?)
    }

    /// ( [exps] )
    fn listed_arguments(&self, reader: &mut Reader<'_>) -> Result<Items<Expr>, Halt>
        requires nests { Nests self.now.context.level (F.pre self.now.nested) (F.post self.now.nested) }
        requires seen { at.Sees kind.LeftParen reader.old }
        ensures { Reads self.now.context class.arguments thing.arguments result reader.old reader.new }
    {
        reader.near()?;
        self.room(reader)?;
        reader.take(TokenKind::LeftParen)?;
        if reader.eat(TokenKind::RightParen) {
            return Ok(Items::new(self.alloc));
        }
        let arguments = self.inner_list(reader)?;
        reader.take(TokenKind::RightParen)?;
        Ok(arguments)
    }
}
