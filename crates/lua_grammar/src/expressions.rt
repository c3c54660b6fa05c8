use crate::{Binary, Unary};
use rs_whole::Whole;
use sqlite_items::{Boxed, Items};

/// A name where it is written: the number of its bytes among the texts of the chunk, its line, and the place of its
/// first
/// byte, which no other name of the text has.
#[derive(Clone, Copy, Debug, PartialEq, Eq)]
pub struct Name {
    pub text: u32,
    pub line: u32,
    pub start: u32,
}

/// An expression (Lua 5.1 manual, 2.5). Each gives a list of values: a call and `...` any number, every other one.
#[cycle(expression)]
#[derive(Drop)]
pub enum Expr {
    Nil,
    False,
    True,
    Number(Whole),
    /// A string: the number of its bytes among the texts of the chunk.
    Text(u32),
    /// `...`
    Varargs,
    /// `function body`: the number of the body among those of the chunk.
    Function(u32),
    Name(Name),
    /// `( exp )`, which gives one value.
    Paren(Boxed<Expr>),
    /// A name or a parenthesis, and what follows it: indexes, fields, calls and methods, one or more, in order.
    Suffixed(Boxed<Expr>, Items<Suffix>),
    Table(Items<Field>),
    Unary(Unary, Boxed<Expr>),
    /// The first operand of a row of binary operators of one precedence, and each operator with the operand behind it,
    /// one
    /// or more, in order. A row of `..` or of `^` is grouped to the right, every other to the left.
    Row(Boxed<Expr>, Items<Link>),
}

/// A binary operator and the operand behind it.
#[cycle(expression)]
#[derive(Drop)]
pub struct Link {
    pub by: Binary,
    pub operand: Expr,
}

/// What goes on with a name or a parenthesis.
#[cycle(expression)]
#[derive(Drop)]
pub enum Suffix {
    Key(Key),
    Call(Call),
}

/// Which of a table's values is meant.
#[cycle(expression)]
#[derive(Drop)]
pub enum Key {
    /// `. Name`
    Field(Name),
    /// `[ exp ]`
    Index(Expr),
}

/// How a value is called, and with what. `f'x'` and `f{..}` have one argument.
#[cycle(expression)]
#[derive(Drop)]
pub enum Call {
    /// `args`
    Plain(Items<Expr>),
    /// `: Name args`
    Method(Name, Items<Expr>),
}

/// A field of a table constructor (Lua 5.1 manual, 2.5.7).
#[cycle(expression)]
#[derive(Drop)]
pub enum Field {
    /// `[ exp ] = exp`
    Keyed(Expr, Expr),
    /// `Name = exp`
    Named(Name, Expr),
    /// `exp`
    Plain(Expr),
}
