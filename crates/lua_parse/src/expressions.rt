//! Expressions, by precedence.

ghost use Rattle.std.specs.Prelude.{◌≡◌, ◌≤◌, Some, true, false, MatchResult};
ghost use Rattle.lua_lex.specs.declared.kinds.TokenKind.TheVariants as kind;
ghost use Rattle.lua_grammar.specs.declared.context.Context.{Context};
ghost use Rattle.lua_grammar.specs.Positions as at;
ghost use Rattle.lua_grammar.specs.Classes as class;
ghost use Rattle.lua_grammar.specs.Things as thing;
ghost use Rattle.lua_grammar.specs.Contexts.{every_rule};
ghost use Rattle.lua_grammar.specs.Grammar.{Spelled};
ghost use Rattle.lua_grammar.specs.Productions.{begins_chain};
ghost use Rattle.lua_parse.specs.Nests.{Nests, begins_other};
ghost use Rattle.lua_parse.specs.Halts.{IsRefused, Reads};

use crate::grammar::{Found, Grammar, Wanted};
use crate::reader::Reader;
use crate::sought::Sought;
use crate::stops::Halt;
use crate::trees::{exact, row, suffixed};
use lua_grammar::{Context, Expr, Link, SyntaxKind, Unary};
use lua_lex::TokenKind;
use sqlite_items::{Boxed, Items};
use std::alloc::Global;

impl<F: Fn(Global, &mut Reader<'_>, Context, Wanted) -> Result<Found, Halt>> Grammar<F> {
    /// exp: its operators and suffixes are counted by themselves.
    pub fn expression(&self, reader: &mut Reader<'_>) -> Result<Expr, Halt>
        requires nests { Nests self.now.context.level (F.pre self.now.nested) (F.post self.now.nested) }
        ensures { Reads self.now.context class.expression thing.expression result reader.old reader.new }
    {
        let counts = reader.begin_expression();
        let expression = self.operand(reader, 1)?;
        reader.resume_expression(counts);
        Ok(expression)
    }

    /// Operands of the next rank, with operators of this rank between them.
    #[cycle(operand)]
    fn operand(&self, reader: &mut Reader<'_>, rank: u8) -> Result<Expr, Halt>
        requires nests { Nests self.now.context.level (F.pre self.now.nested) (F.post self.now.nested) }
        requires rank { rank ≤ 7 }
        ensures { Reads self.now.context (class.operand rank) (thing.operand rank) result reader.old reader.new }
    {
        if rank >= 7 {
            return self.power(reader);
        }
        let first = self.operand(reader, rank + 1)?;
        let links = self.links(reader, rank)?;
        Ok(row(self.alloc, first, links)?)
    }

    /// The operators of this rank that come, each with the operand behind it.
    #[cycle(operand)]
    fn links(&self, reader: &mut Reader<'_>, rank: u8) -> Result<Items<Link>, Halt>
        requires nests { Nests self.now.context.level (F.pre self.now.nested) (F.post self.now.nested) }
        requires rank { rank ≤ 6 }
        ensures { Reads self.now.context (class.links rank) (thing.links rank) result reader.old reader.new }
    {
        let mut links = Items::new(self.alloc);
        'more: while let Some(by) = reader.joint(rank) {
            reader.pass_operator()?;
            links.push(Link {
                by,
                operand: self.operand(reader, rank + 1)?,
            })?;
        }
        Ok(exact(self.alloc, links)?)
    }

    /// unop exp, or a row of `^`.
    pub fn power(&self, reader: &mut Reader<'_>) -> Result<Expr, Halt>
        requires nests { Nests self.now.context.level (F.pre self.now.nested) (F.post self.now.nested) }
        ensures { Reads self.now.context (class.operand 7) (thing.operand 7) result reader.old reader.new }
    {
        if let Some(by) = reader.sign() {
            return self.unary(reader, by);
        }
        let base = self.simple(reader)?;
        let links = self.powers(reader)?;
        Ok(row(self.alloc, base, links)?)
    }

    /// Each `^` that comes, with the exponent behind it.
    fn powers(&self, reader: &mut Reader<'_>) -> Result<Items<Link>, Halt>
        requires nests { Nests self.now.context.level (F.pre self.now.nested) (F.post self.now.nested) }
        ensures { Reads self.now.context (class.links 7) (thing.links 7) result reader.old reader.new }
    {
        let mut links = Items::new(self.alloc);
        'more: while let Some(by) = reader.joint(7) {
            reader.pass_operator()?;
            links.push(Link {
                by,
                operand: self.exponent(reader)?,
            })?;
        }
        Ok(exact(self.alloc, links)?)
    }

    /// What stands behind `^`.
    fn exponent(&self, reader: &mut Reader<'_>) -> Result<Expr, Halt>
        requires nests { Nests self.now.context.level (F.pre self.now.nested) (F.post self.now.nested) }
        ensures { Reads self.now.context (class.operand 8) (thing.operand 8) result reader.old reader.new }
    {
        if let Some(by) = reader.sign() {
            return self.unary(reader, by);
        }
        let operand = self.simple(reader)?;
        Ok(operand)
    }

    /// unop exp: the operand is a level deeper.
    fn unary(&self, reader: &mut Reader<'_>, by: Unary) -> Result<Expr, Halt>
        requires nests { Nests self.now.context.level (F.pre self.now.nested) (F.post self.now.nested) }
        requires sign { at.sign reader.old ≡ Some by }
        ensures operand { Reads self.now.context (class.operand 7) (thing.operand 7) result reader.old reader.new }
        ensures exponent { Reads self.now.context (class.operand 8) (thing.operand 8) result reader.old reader.new }
    {
        self.room(reader)?;
        reader.pass();
        let operand = self.inner_operand(reader)?;
        Ok(Expr::Unary(by, Boxed::new(self.alloc, operand)?))
    }

    /// An operand without operators.
    fn simple(&self, reader: &mut Reader<'_>) -> Result<Expr, Halt>
        requires nests { Nests self.now.context.level (F.pre self.now.nested) (F.post self.now.nested) }
        ensures { Reads self.now.context class.simple thing.simple result reader.old reader.new }
    {
        let Some(kind) = reader.peek() else {
            return reader.unexpected();
        };
        match kind {
            TokenKind::Name | TokenKind::LeftParen => self.prefix(reader),
            TokenKind::LeftBrace => self.table(reader),
            TokenKind::Function => self.function(reader),
            TokenKind::Dots => self.varargs(reader),
            _ => constant(reader, kind),
        }
    }

    /// A name or a parenthesis, with all that goes on with it.
    fn prefix(&self, reader: &mut Reader<'_>) -> Result<Expr, Halt>
        requires nests { Nests self.now.context.level (F.pre self.now.nested) (F.post self.now.nested) }
        requires begins { begins_chain (at.kind reader.old) ≡ true }
        ensures { Reads self.now.context class.simple thing.simple result reader.old reader.new }
    {
        let (head, suffixes) = self.chain(reader, Sought::Anything)?;
        Ok(suffixed(self.alloc, head, suffixes)?)
    }

    fn table(&self, reader: &mut Reader<'_>) -> Result<Expr, Halt>
        requires nests { Nests self.now.context.level (F.pre self.now.nested) (F.post self.now.nested) }
        requires seen { at.Sees kind.LeftBrace reader.old }
        ensures { Reads self.now.context class.simple thing.simple result reader.old reader.new }
    {
        Ok(Expr::Table(self.constructor(reader)?))
    }

    fn varargs(&self, reader: &mut Reader<'_>) -> Result<Expr, Halt>
        requires { at.Sees kind.Dots reader.old }
        ensures { Reads self.now.context class.simple thing.simple result reader.old reader.new }
    {
        if !self.context.varargs {
            return Err(Halt::Syntax(SyntaxKind::NoVararg));
        }
        reader.pass();
        Ok(Expr::Varargs)
    }

    /// function body
    fn function(&self, reader: &mut Reader<'_>) -> Result<Expr, Halt>
        requires nests { Nests self.now.context.level (F.pre self.now.nested) (F.post self.now.nested) }
        requires seen { at.Sees kind.Function reader.old }
        ensures { Reads self.now.context class.simple thing.simple result reader.old reader.new }
    {
        self.room(reader)?;
        let line = reader.name().line;
        reader.pass();
        let number = self.function_body(reader, line, false)?;
        Ok(Expr::Function(number))
    }
}

// nil, false, true, a number or a string.
fn constant(reader: &mut Reader<'_>, kind: TokenKind) -> Result<Expr, Halt>
    requires { at.kind reader.old ≡ Some kind }
    ensures { (c : Context) → MatchResult result (λ e. Spelled every_rule c (thing.simple e) reader.old reader.new)
        (λ halt. begins_other kind ≡ false → IsRefused halt c class.simple reader.old reader.new) }
{
    let text = reader.name().text;
    match kind {
        TokenKind::Nil => Ok(passed(reader, Expr::Nil)),
        TokenKind::False => Ok(passed(reader, Expr::False)),
        TokenKind::True => Ok(passed(reader, Expr::True)),
        TokenKind::Number(number) => Ok(passed(reader, Expr::Number(number))),
        TokenKind::Text => Ok(passed(reader, Expr::Text(text))),
        _ => reader.unexpected(),
    }
}

// The constant, behind the next word.
fn passed(reader: &mut Reader<'_>, constant: Expr) -> Expr
    ensures value { result ≡ constant }
    ensures behind { reader.new ≡ at.next reader.old }
{
    reader.pass();
    constant
}
