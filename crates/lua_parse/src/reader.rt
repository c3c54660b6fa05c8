//! A cursor over the words of a text, with the counts of the expression at hand and the bodies of the functions so far.

ghost use Rattle.std.specs.Prelude.{◌≡◌, ◌<◌, ◌^◌, ◌≤◌, ◌+◌, ◌↔◌, [], length, suc, true, false, IsTrue, Err, IfOk};
ghost use Rattle.std.specs.Prelude.{IfErr, OnOk, MatchResult};
ghost use Rattle.lua_lex.specs.declared.kinds.TokenKind.TheVariants as mark;
ghost use Rattle.lua_grammar.specs.Positions as at;
ghost use Rattle.lua_grammar.specs.Trees.{start};
ghost use Rattle.lua_grammar.specs.declared.kinds.SyntaxKind.TheVariants as fault;
ghost use Rattle.lua_parse.specs.Steps as step;

use crate::limits::{MAX_OPERATORS, MAX_SUFFIXES};
use crate::stops::Halt;
use lua_grammar::{Binary, Body, Name, SyntaxKind, Unary, Word, binary_operator, unary_operator};
use lua_lex::TokenKind;
use sqlite_items::Items;
use std::alloc::Global;
use std::marker::Model;

#[derive(Drop)]
pub struct Reader<'a> {
    words: &'a [Word],
    // The line of the word before, 0 at the front of the text.
    line: u32,
    operators: usize,
    suffixes: usize,
    bodies: Items<Body>,
}

impl<'a> Model for Reader<'a> {
    ghost use Rattle.lua_grammar.specs.Positions.{Position};
    ghost use Rattle.lua_parse.specs.Cursor.{position_code};

    ghost Value = { Position };

    ghost coded = { position_code };

    ghost use Rattle.lua_parse.specs.Views.{position_of, HasPlaces};

    ghost view = { position_of };

    ghost invariant = { HasPlaces };
}

/// How many binary operators and suffixes an expression has so far.
#[derive(Clone, Copy)]
pub struct Counts {
    operators: usize,
    suffixes: usize,
}

impl<'a> Reader<'a> {
    pub fn new(alloc: Global, words: &'a [Word]) -> Reader<'a>
        requires { length words.now < 2 ^ 31 }
        ensures { result ≡ start words.now }
    {
        Reader {
            words,
            line: 0,
            operators: 0,
            suffixes: 0,
            bodies: Items::new(alloc),
        }
    }

    /// The kind of the next word; none at the end of the text.
    pub fn peek(&self) -> Option<TokenKind>
        ensures { result ≡ at.kind self.now }
    {
        match self.words {
            [word, ..] => Some(word.kind),
            [] => None,
        }
    }

    /// The kind of the word behind the next one.
    pub fn peek_behind(&self) -> Option<TokenKind>
        ensures { result ≡ at.kind (at.next self.now) }
    {
        match self.words {
            [_, word, ..] => Some(word.kind),
            _ => None,
        }
    }

    /// The next word as a name: the number of its text, its line and its place; all 0 at the end of the text.
    pub fn name(&self) -> Name
        ensures { result ≡ at.name self.now }
    {
        match self.words {
            [word, ..] => Name {
                text: word.text,
                line: word.line,
                start: word.start,
            },
            [] => Name {
                text: 0,
                line: 0,
                start: 0,
            },
        }
    }

    /// The binary operator of this precedence that comes next.
    pub fn joint(&self, rank: u8) -> Option<Binary>
        ensures { result ≡ at.joint rank self.now }
    {
        let operator = binary_operator(self.peek()?)?;
        if operator.rank == rank {
            Some(operator.by)
        } else {
            None
        }
    }

    /// The unary operator that comes next.
    pub fn sign(&self) -> Option<Unary>
        ensures { result ≡ at.sign self.now }
    {
        unary_operator(self.peek()?)
    }

    /// The line of the next word; none at the end of the text.
    pub fn next_line(&self) -> Option<u32>
        ensures { result ≡ step.next_line self.now }
    {
        match self.words {
            [word, ..] => Some(word.line),
            [] => None,
        }
    }

    pub fn unexpected<T>(&self) -> Result<T, Halt>
        ensures { result ≡ Err (Halt.Syntax fault.Unexpected) }
    {
        Err(Halt::Syntax(SyntaxKind::Unexpected))
    }

    /// Whether the next word is of this kind.
    pub fn sees(&self, kind: TokenKind) -> bool
        requires { step.IsMark kind }
        ensures { IsTrue result ↔ at.Sees kind self.now }
    {
        self.peek() == Some(kind)
    }

    /// Goes behind the next word.
    pub fn pass(&mut self)
        ensures { self.new ≡ at.next self.old }
    {
        if let [word, words @ ..] = self.words {
            self.line = word.line;
            self.words = words;
        }
    }

    /// Goes behind the next word, which has to be of this kind.
    pub fn take(&mut self, kind: TokenKind) -> Result<(), Halt>
        requires { step.IsMark kind }
        ensures { MatchResult result (λ _. at.Takes kind self.old self.new)
            (λ halt. step.Lacks kind halt self.old self.new) }
    {
        if !self.sees(kind) {
            return self.unexpected();
        }
        self.pass();
        Ok(())
    }

    /// Goes behind the next word, if it is of this kind.
    pub fn eat(&mut self, kind: TokenKind) -> bool
        requires { step.IsMark kind }
        ensures seen { IsTrue result → at.Takes kind self.old self.new }
        ensures unseen { result ≡ false → (self.new ≡ self.old) × at.SeesNot kind self.old }
    {
        let seen = self.sees(kind);
        if seen {
            self.pass();
        }
        seen
    }

    /// Goes behind a `;`, if it comes next.
    pub fn pass_semicolon(&mut self)
        ensures { at.PassesSemicolon self.old self.new }
    {
        if let Some(TokenKind::Semicolon) = self.peek() {
            self.pass();
        }
    }

    pub fn take_name(&mut self) -> Result<Name, Halt>
        ensures { MatchResult result (λ name. at.TakesName name self.old self.new)
            (λ halt. step.Lacks mark.Name halt self.old self.new) }
    {
        let name = self.name();
        self.take(TokenKind::Name)?;
        Ok(name)
    }

    /// Begins the counts of an expression of its own. Gives those of the expression around it.
    pub fn begin_expression(&mut self) -> Counts
        ensures counts { result ≡ step.counts_of self.old }
        ensures begun { at.BeginsExpression self.old self.new }
    {
        let counts = Counts {
            operators: self.operators,
            suffixes: self.suffixes,
        };
        self.operators = 0;
        self.suffixes = 0;
        counts
    }

    /// Goes on with the counts of the expression around.
    pub fn resume_expression(&mut self, counts: Counts)
        ensures { self.new ≡ step.resumed counts self.old }
    {
        self.operators = counts.operators;
        self.suffixes = counts.suffixes;
    }

    /// Counts the binary operator that comes next, and goes behind it.
    pub fn pass_operator(&mut self) -> Result<(), Halt>
        ensures short { OnOk result (self.old.operators < 1000) }
        ensures passed { OnOk result (self.new ≡ at.next (record self.old { operators = suc self.old.operators })) }
        ensures long { IfErr result (λ halt. step.IsTooLong halt 0 self.old.operators self.old self.new) }
    {
        if self.operators >= MAX_OPERATORS {
            return Err(Halt::Syntax(SyntaxKind::TooLong));
        }
        self.operators += 1;
        self.pass();
        Ok(())
    }

    /// Counts the suffix that begins here; `spared` suffixes are left to come.
    pub fn count_suffix(&mut self, spared: usize) -> Result<(), Halt>
        requires { spared ≤ 1 }
        ensures short { OnOk result (self.old.suffixes < 1000) }
        ensures counted { OnOk result (at.CountsSuffix self.old self.new) }
        ensures spared { OnOk result (self.old.suffixes + spared < 1000) }
        ensures long { IfErr result (λ halt. step.IsTooLong halt spared self.old.suffixes self.old self.new) }
    {
        if self.suffixes >= MAX_SUFFIXES || self.suffixes + spared >= MAX_SUFFIXES {
            return Err(Halt::Syntax(SyntaxKind::TooLong));
        }
        self.suffixes += 1;
        Ok(())
    }

    /// Refuses a next word that is not on the line of the word before it.
    pub fn near(&self) -> Result<(), Halt>
        ensures { MatchResult result (λ _. at.IsNear self.now) (λ halt. (halt ≡ Halt.Syntax fault.Ambiguous)
            × (at.IsNear self.now → ⊥)) }
    {
        if self.name().line != self.line {
            return Err(Halt::Syntax(SyntaxKind::Ambiguous));
        }
        Ok(())
    }

    /// Keeps a place for the body of a function, whose parameters' `(` comes next, and goes behind that. Gives the
    /// number of
    /// the place.
    pub fn begin_body(&mut self, alloc: Global) -> Result<u32, Halt>
        ensures { MatchResult result (λ number. step.OpensBody number self.old self.new)
            (λ halt. step.OpensNone halt self.old self.new) }
    {
        // Read for its length: as many bodies can begin yet, so that their number fits.
        let _words = self.words;
        self.take(TokenKind::LeftParen)?;
        let number = self.bodies.len() as u32;
        self.bodies.push(Body {
            line: 0,
            method: false,
            parameters: Items::new(alloc),
            varargs: false,
            block: Items::new(alloc),
        })?;
        Ok(number)
    }

    /// Puts the body of a function into its place.
    pub fn end_body(&mut self, number: u32, body: Body)
        requires { number < length self.old.bodies }
        ensures { at.EndsBody number body self.old self.new }
    {
        self.bodies.set(number as usize, body);
    }

    /// The bodies of the functions, in the order of their numbers.
    pub fn into_bodies(self) -> Items<Body>
        ensures { result ≡ self.entry.bodies }
    {
        let Reader { bodies, .. } = self;
        bodies
    }
}
