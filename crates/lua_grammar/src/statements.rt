use crate::{Call, Expr, Key, Name};
use rs_base::Words;
use sqlite_items::Items;

/// A statement, and the line on which it begins.
#[cycle(statement)]
#[derive(Drop)]
pub struct Stat {
    pub line: u32,
    pub deed: Deed,
}

/// Statements in order. `return` and `break` stand last.
pub type Block = Items<Stat>;

/// What a statement does (Lua 5.1 manual, 2.4).
#[cycle(statement)]
#[derive(Drop)]
pub enum Deed {
    /// `local names [= exps]`
    Local(Items<Name>, Items<Expr>),
    /// `local function Name body`: the number of the body. The name is in scope in it.
    LocalFunction(Name, u32),
    /// `function Name {. Name} [: Name] body`: the name, the fields behind it, that of the method last, and the number
    /// of
    /// the body, which says whether it is a method's.
    Function(Name, Items<Name>, u32),
    /// `vars = exps`
    Assign(Items<Target>, Items<Expr>),
    /// A call as a statement: what is called, and how.
    Call(Expr, Call),
    /// `do block end`
    Do(Items<Stat>),
    /// `while exp do block end`
    While(Expr, Items<Stat>),
    /// `repeat block until exp`: the locals of the block are in scope in the expression.
    Repeat(Items<Stat>, Expr),
    /// `if`, each `elseif`, and the block of `else`, which is empty where there is none.
    If(Items<Branch>, Items<Stat>),
    /// `for Name = exp , exp [, exp] do block end`
    For(Name, Expr, Expr, Option<Expr>, Items<Stat>),
    /// `for names in exps do block end`
    ForIn(Items<Name>, Items<Expr>, Items<Stat>),
    /// `return [exps]`, but for a single call
    Return(Items<Expr>),
    /// `return` and a single call, which takes the place of the running function: what is called, and how.
    ReturnCall(Expr, Call),
    Break,
}

/// `exp then block`
#[cycle(statement)]
#[derive(Drop)]
pub struct Branch {
    pub test: Expr,
    pub block: Items<Stat>,
}

/// What is assigned to.
#[derive(Drop)]
pub enum Target {
    Name(Name),
    /// What the table that the expression gives has at the key.
    Index(Expr, Key),
}

/// `( [params] ) block end`
#[derive(Drop)]
pub struct Body {
    /// The line of the word `function`.
    pub line: u32,
    /// Whether the function has the first parameter `self`, which is none of `parameters`.
    pub method: bool,
    pub parameters: Items<Name>,
    /// Whether `...` stands last among the parameters.
    pub varargs: bool,
    pub block: Items<Stat>,
}

/// The tree of a text.
#[derive(Drop)]
pub struct Chunk {
    /// The bytes of the names and strings, distinct, in order of first appearance.
    pub texts: Words,
    /// The main text.
    pub block: Items<Stat>,
    /// The bodies of the functions, in the order of their words `function`.
    pub bodies: Items<Body>,
}
