use lua_grammar::SyntaxKind;
use lua_lex::{LexKind, LexStop};
use rs_base::NoMemory;
use std::alloc::{AllocError, AllocFailed};
use thiserror::Error;

/// What is wrong with a text that has no tree.
#[derive(Clone, Copy, Debug, PartialEq, Eq, Error)]
pub enum ParseKind {
    #[error("{0}")]
    Lex(LexKind),
    #[error("{0}")]
    Syntax(SyntaxKind),
}

/// Why a text has no tree, and the line on which it stops.
#[derive(Clone, Copy, Debug, PartialEq, Eq, Error)]
pub enum ParseStop {
    #[error("line {line}: {kind}")]
    Bad { line: u32, kind: ParseKind },
    #[error("out of memory")]
    NoMemory,
}

impl From<NoMemory> for ParseStop {
    ghost use Rattle.std.specs.Prelude.{◌≡◌};
    ghost use Rattle.lua_parse.specs.declared.stops.ParseStop.{ParseStop};

    ghost from_gives = { λ _ stop. stop ≡ ParseStop.NoMemory };

    fn from(_error: NoMemory) -> ParseStop {
        ParseStop::NoMemory
    }
}

impl From<LexStop> for ParseStop {
    ghost use Rattle.std.specs.Prelude.{◌≡◌};
    ghost use Rattle.lua_parse.specs.Stops.{of_lexical};

    ghost from_gives = { λ lexical stop. stop ≡ of_lexical lexical };

    fn from(stop: LexStop) -> ParseStop {
        match stop {
            LexStop::Bad { line, kind } => ParseStop::Bad {
                line,
                kind: ParseKind::Lex(kind),
            },
            LexStop::NoMemory => ParseStop::NoMemory,
        }
    }
}

/// Why a production was not read: the fault of the next word, or of the end of the text, or want of memory.
#[derive(Clone, Copy)]
pub enum Halt {
    Syntax(SyntaxKind),
    NoMemory,
}

impl From<NoMemory> for Halt {
    ghost use Rattle.std.specs.Prelude.{◌≡◌};
    ghost use Rattle.lua_parse.specs.declared.stops.Halt.{Halt};

    ghost from_gives = { λ _ halt. halt ≡ Halt.NoMemory };

    fn from(_error: NoMemory) -> Halt {
        Halt::NoMemory
    }
}

impl From<AllocError> for Halt {
    ghost use Rattle.std.specs.Prelude.{◌≡◌};
    ghost use Rattle.lua_parse.specs.declared.stops.Halt.{Halt};

    ghost from_gives = { λ _ halt. halt ≡ Halt.NoMemory };

    fn from(_error: AllocError) -> Halt {
        Halt::NoMemory
    }
}
