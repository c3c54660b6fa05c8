ghost use Rattle.std.specs.Prelude.{◌≡◌, ◌↔◌, IsTrue, IfOk};
ghost use Rattle.cmd_glob.specs.Patterns.{parts_of};
ghost use Rattle.cmd_glob.specs.Matching.{Matches};

use crate::matching::matches_from;
use crate::parsing::parts_of;
use crate::part::Part;
use crate::symbol::symbols_of;
use rs_base::{NoMemory, Seq};
use std::alloc::Global;
use std::marker::Model;

/// A glob-style pattern. Contracts see it as the list of its parts.
#[derive(Drop)]
pub struct Glob {
    parts: Seq<Part>,
}

impl Model for Glob {
    ghost use Rattle.std.specs.Prelude.{List};
    ghost use Rattle.cmd_glob.specs.declared.part.Part.{Part};

    ghost Value = { List Part };

    ghost view = { λ glob. glob.parts };
}

impl Glob {
    /// The pattern that this text writes. `?` matches any one byte, `*` any row of bytes, `[..]` one of the bytes
    /// that it lists, ranges as `a-z` among them, or with a `^` first any byte that it does not list, and a byte
    /// behind a backslash itself. Each text is a pattern: a `[` without a `]` lists all that follows, and a last
    /// backslash is itself.
    pub fn new(alloc: Global, pattern: &[u8]) -> Result<Glob, NoMemory>
        ensures { IfOk result (λ glob. glob ≡ parts_of pattern.now) }
    {
        let symbols = symbols_of(alloc, pattern)?;
        let parts = parts_of(alloc, symbols.as_slice())?;
        Ok(Glob { parts })
    }

    /// Whether the pattern matches the whole text. It takes no memory, and its time is at most in proportion to the
    /// length of the text times that of the pattern.
    pub fn matches(&self, text: &[u8]) -> bool
        ensures { IsTrue result ↔ Matches self.now text.now }
    {
        matches_from(self.parts.as_slice(), text)
    }
}
