//! The words of a text: its tokens, with the number of each name and string among the distinct ones.

ghost use Rattle.std.specs.Prelude.{◌≡◌, ◌+◌, ◌<◌, ◌≤◌, ◌^◌, [], length, IfOk, OnOk};
ghost use Rattle.lua_lex.specs.Tokens.{HasTokens};
ghost use Rattle.lua_grammar.specs.Trees.{AreWords, IsNumbered, noted, number_of, spelling};
ghost use Rattle.lua_lex.specs.declared.kinds.TokenKind.TheVariants as kind;
ghost use Rattle.lua_parse.specs.Numbers.{IsIn, IsSomeString, texts_of};

use indexmap::IndexSet;
use lua_grammar::Word;
use lua_lex::{Token, TokenKind, string_bytes};
use rs_base::{Bytes, NoMemory, Words};
use std::alloc::Global;

/// Distinct texts, numbered in order of first appearance.
#[derive(Drop)]
pub struct Texts {
    known: IndexSet<Vec<u8>>,
}

impl Texts {
    pub fn new(alloc: Global) -> Texts
        ensures { texts_of result ≡ [] }
    {
        Texts {
            known: IndexSet::new(alloc),
        }
    }

    /// The number of these bytes.
    fn number(&mut self, alloc: Global, bytes: &[u8]) -> Result<u32, NoMemory>
        requires { length (texts_of self.old) < 2 ^ 31 }
        ensures number { IfOk result (λ number. number ≡ number_of bytes.now (texts_of self.old)) }
        ensures noted { OnOk result (texts_of self.new ≡ noted bytes.now (texts_of self.old)) }
    {
        if let Some(at) = self.known.get_index_of(bytes) {
            return Ok(at as u32);
        }
        let (at, _) = self.known.insert_full(Vec::from_slice(alloc, bytes)?)?;
        Ok(at as u32)
    }

    // The number of what a token names, or 0.
    fn number_in(&mut self, alloc: Global, text: &[u8], token: Token) -> Result<u32, NoMemory>
        requires few { length (texts_of self.old) < 2 ^ 31 }
        requires within { IsIn text.now token }
        ensures { IfOk result (λ number. IsNumbered token.kind (spelling text.now token) (texts_of self.old) number
            (texts_of self.new)) }
    {
        let kind = token.kind;
        let spelling = spelled(text, token);
        match kind {
            TokenKind::Name => {
                let number = self.number(alloc, spelling)?;
                Ok(number)
            }
            TokenKind::Text => {
                let number = self.number_of_string(alloc, spelling)?;
                Ok(number)
            }
            _ => Ok(0),
        }
    }

    fn number_of_string(&mut self, alloc: Global, spelling: &[u8]) -> Result<u32, NoMemory>
        requires few { length (texts_of self.old) < 2 ^ 31 }
        requires string { IsSomeString spelling.now }
        ensures { IfOk result (λ number. IsNumbered kind.Text spelling.now (texts_of self.old) number
            (texts_of self.new)) }
    {
        let Some(bytes) = string_bytes(alloc, spelling)? else {
            unreachable!();
        };
        let number = self.number(alloc, bytes.as_slice())?;
        Ok(number)
    }

    /// The words that the tokens of the text are.
    pub fn words(
        &mut self,
        alloc: Global,
        text: &[u8],
        tokens: &[Token],
    ) -> Result<Vec<Word>, NoMemory>
        requires empty { texts_of self.old ≡ [] }
        requires tokens { HasTokens text.now tokens.now }
        requires len { length text.now < 2 ^ 31 }
        ensures { IfOk result (λ words. AreWords text.now tokens.now words.items (texts_of self.new)) }
    {
        let mut words = Vec::new(alloc);
        let mut rest = tokens;
        'more: while let Some((token, behind)) = rest.split_first() {
            let number = self.number_in(alloc, text, *token)?;
            words.push(Word {
                kind: token.kind,
                text: number,
                line: token.line,
                start: token.start,
            })?;
            rest = behind;
        }
        Ok(words)
    }

    /// The texts in order.
    pub fn to_words(&self, alloc: Global) -> Result<Words, NoMemory>
        ensures { IfOk result (λ texts. texts ≡ texts_of self.now) }
    {
        let mut texts = Words::new(alloc);
        let mut rest = self.known.as_slice();
        'more: while let Some((bytes, behind)) = rest.split_first() {
            texts.push(Bytes::from_slice(alloc, bytes.as_slice())?)?;
            rest = behind;
        }
        Ok(texts)
    }
}

// The bytes of a token.
fn spelled<'a>(text: &'a [u8], token: Token) -> &'a [u8]
    requires { IsIn text.now token }
    ensures { result.now ≡ spelling text.now token }
{
    let (_, from) = text.split_at(token.start as usize);
    let (bytes, _) = from.split_at((token.stop - token.start) as usize);
    bytes
}
