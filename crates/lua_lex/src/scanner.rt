ghost use Rattle.std.specs.Prelude.{◌≡◌, ◌<◌, ◌^◌, ◌+◌, ◌++◌, ◌⊎◌, ℕ, List, Err, length, OnOk, IfOk, IfErr};
ghost use Rattle.std.specs.Prelude.{MatchResult};
ghost use Rattle.lua_lex.specs.declared.kinds.Token.{Token};
ghost use Rattle.lua_lex.specs.declared.kinds.LexKind.{LexKind};
ghost use Rattle.lua_lex.specs.Tokens.{HasTokens, StopsAt, token_from};

use crate::items::{Item, first_item};
use crate::lines::Lines;
use crate::{LexStop, Token, TokenList};
use rs_base::NoMemory;
use std::alloc::Global;

/// The tokens of a Lua text (Lua 5.1 manual, 2.1), or its first fault. A text has at most one list of tokens
/// (`one_token_list`), and one first fault or none.
pub fn tokens(alloc: Global, text: &[u8]) -> Result<TokenList, LexStop>
    requires { length text.now < 2 ^ 31 }
    ensures found { IfOk result (HasTokens text.now) }
    ensures only { (list : List Token) → HasTokens text.now list → IfErr result (λ stop. stop ≡ LexStop.NoMemory) }
    ensures stop { (line : ℕ) (kind : LexKind) → result ≡ Err (LexStop.Bad line kind) → StopsAt text.now line kind }
    ensures only_stop { (line : ℕ) (kind : LexKind) → StopsAt text.now line kind
        → MatchResult result (λ _. ⊥) (λ stop. (stop ≡ LexStop.Bad line kind) ⊎ (stop ≡ LexStop.NoMemory)) }
{
    let mut tokens = TokenList::new(alloc);
    let mut lines = Lines::new();
    let mut rest = text;
    while !rest.is_empty() {
        let line = lines.breaks + 1;
        let item = match first_item(rest) {
            Ok(item) => item,
            Err(kind) => return Err(LexStop::Bad { line, kind }),
        };
        let (bytes, more) = rest.split_at(item.len);
        push_token(&mut tokens, text.len() - rest.len(), line, item)?;
        lines = lines.pass(bytes);
        rest = more;
    }
    Ok(tokens)
}

fn push_token(tokens: &mut TokenList, start: usize, line: u32, item: Item) -> Result<(), NoMemory>
    requires { start + item.len < 2 ^ 31 }
    ensures { OnOk result (tokens.new ≡ tokens.old ++ token_from start line item) }
{
    let Item { kind, len } = item;
    if let Some(kind) = kind {
        tokens.push(Token {
            kind,
            start: start as u32,
            stop: (start + len) as u32,
            line,
        })?;
    }
    Ok(())
}

/// A text has one list of tokens.
pub fn one_token_list()
    ensures { (text : List ℕ) (list other : List Token) → HasTokens text list → HasTokens text other → list ≡ other }
{}
