ghost use Rattle.std.specs.Prelude.{◌≡◌, ◌+◌, ◌<◌, ◌^◌, [], length, unwrap_or, MatchResult};
ghost use Rattle.lua_lex.specs.Lines.{breaks};
ghost use Rattle.lua_grammar.specs.Classes as class;
ghost use Rattle.lua_grammar.specs.Contexts.{every_rule, main_text};
ghost use Rattle.lua_grammar.specs.Grammar.{Spelled};
ghost use Rattle.lua_grammar.specs.Things as thing;
ghost use Rattle.lua_grammar.specs.Trees.{HasTree};
ghost use Rattle.lua_parse.specs.Halts.{HaltsBy, Reads};
ghost use Rattle.lua_parse.specs.Steps.{next_line};
ghost use Rattle.lua_parse.specs.Stops.{IsStop};

use crate::grammar::{Found, Wanted, read};
use crate::interner::Texts;
use crate::reader::Reader;
use crate::stops::{Halt, ParseKind, ParseStop};
use lua_grammar::{Block, Chunk, Context};
use lua_lex::{last_line, tokens};
use std::alloc::Global;

/// The tree of a Lua text (Lua 5.1 manual, 8), or the first place where no text goes on as this one does, with its line
/// and
/// why. A lexical fault comes before any other.
pub fn parse(alloc: Global, text: &[u8]) -> Result<Chunk, ParseStop>
    requires { length text.now < 2 ^ 31 }
    ensures { MatchResult result (HasTree text.now) (IsStop text.now) }
{
    let tokens = tokens(alloc, text)?;
    let mut texts = Texts::new(alloc);
    let words = texts.words(alloc, text, tokens.as_slice())?;
    drop(tokens);
    let texts = texts.to_words(alloc)?;
    let mut reader = Reader::new(alloc, words.as_slice());
    match whole_block(alloc, &mut reader) {
        Ok(block) => Ok(Chunk {
            texts,
            block,
            bodies: reader.into_bodies(),
        }),
        Err(Halt::Syntax(kind)) => Err(ParseStop::Bad {
            line: stop_line(&reader, text),
            kind: ParseKind::Syntax(kind),
        }),
        Err(Halt::NoMemory) => Err(ParseStop::NoMemory),
    }
}

// The line of the next word, or the last line behind all words.
fn stop_line(reader: &Reader<'_>, text: &[u8]) -> u32
    requires { length text.now < 2 ^ 31 }
    ensures { result ≡ unwrap_or (next_line reader.now) (1 + breaks text.now) }
{
    match reader.next_line() {
        Some(line) => line,
        None => last_line(text),
    }
}

// The statements of the main text, behind which no word is left.
fn whole_block(alloc: Global, reader: &mut Reader<'_>) -> Result<Block, Halt>
    ensures { MatchResult result (λ block. Spelled every_rule main_text (thing.block block) reader.old reader.new
        × (reader.new.words ≡ [])) (λ halt. HaltsBy halt reader.old reader.new) }
{
    let block = main_block(alloc, reader)?;
    if reader.peek().is_some() {
        return reader.unexpected();
    }
    Ok(block)
}

fn main_block(alloc: Global, reader: &mut Reader<'_>) -> Result<Block, Halt>
    ensures { Reads main_text class.block thing.block result reader.old reader.new }
{
    match read(alloc, reader, Context::main_text(), Wanted::Block)? {
        Found::Block(block) => Ok(block),
        _ => unreachable!(),
    }
}
