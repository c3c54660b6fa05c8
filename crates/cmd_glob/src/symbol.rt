ghost use Rattle.std.specs.Prelude.{◌≡◌, IfOk, OnOk, ◌++◌, ◌∷◌, []};
ghost use Rattle.cmd_glob.specs.Symbols.{symbols_of, is_mark};

use rs_base::NoMemory;
use std::alloc::Global;

/// A byte of a pattern.
#[derive(Clone, Copy)]
pub struct Symbol {
    pub byte: u8,
    /// A backslash stands before it, so that it is only itself.
    pub escaped: bool,
}

impl Symbol {
    /// Whether it is this byte, without a backslash before it.
    pub fn is_mark(self, mark: u8) -> bool
        ensures { result ≡ is_mark mark self }
    {
        !self.escaped && self.byte == mark
    }
}

/// The bytes of a pattern, without the backslashes that stand before another byte.
pub fn symbols_of(alloc: Global, pattern: &[u8]) -> Result<Vec<Symbol>, NoMemory>
    ensures { IfOk result (λ symbols. symbols.items ≡ symbols_of pattern.now) }
{
    let mut symbols = Vec::new(alloc);
    let mut escaped = false;
    for byte in pattern {
        if *byte == b'\\' && !escaped {
            escaped = true;
        } else {
            symbols.push(Symbol {
                byte: *byte,
                escaped,
            })?;
            escaped = false;
        }
    }
    if escaped {
        symbols.push(Symbol {
            byte: b'\\',
            escaped: false,
        })?;
    }
    Ok(symbols)
}
