ghost use Rattle.std.specs.Prelude.{◌≡◌, ◌+◌, ◌<◌, ◌^◌, length};
ghost use Rattle.lua_lex.specs.Lines.{breaks, is_break, is_pair};

/// The line breaks of the bytes that were passed: CR, LF, CR LF and LF CR are each one. `pending` is the break byte
/// that
/// was passed last and may still begin a pair, or 0.
#[derive(Clone, Copy)]
pub struct Lines {
    pub breaks: u32,
    pub pending: u8,
}

impl Lines {
    ghost use Rattle.lua_lex.specs.Lines.{pass, pass_byte};

    pub fn new() -> Lines
        ensures { result ≡ record { breaks = 0; pending = 0 } }
    {
        Lines {
            breaks: 0,
            pending: 0,
        }
    }

    pub fn pass(self, bytes: &[u8]) -> Lines
        requires { self.breaks + length bytes.now < 2 ^ 32 }
        ensures { result ≡ pass self bytes.now }
    {
        let mut lines = self;
        for byte in bytes {
            lines = lines.pass_byte(*byte);
        }
        lines
    }

    fn pass_byte(self, byte: u8) -> Lines
        requires { self.breaks + 1 < 2 ^ 32 }
        ensures { result ≡ pass_byte self byte }
    {
        if is_break(byte) && !is_pair(self.pending, byte) {
            Lines {
                breaks: self.breaks + 1,
                pending: byte,
            }
        } else {
            Lines {
                breaks: self.breaks,
                pending: 0,
            }
        }
    }
}

/// The line that the end of the text is on, counted from 1.
pub fn last_line(text: &[u8]) -> u32
    requires { length text.now < 2 ^ 31 }
    ensures { result ≡ 1 + breaks text.now }
{
    1 + Lines::new().pass(text).breaks
}

pub fn is_break(byte: u8) -> bool
    ensures { result ≡ is_break byte }
{
    byte == b'\n' || byte == b'\r'
}

/// Whether the bytes are CR LF or LF CR.
pub fn is_pair(first: u8, second: u8) -> bool
    ensures { result ≡ is_pair first second }
{
    is_break(first) && is_break(second) && first != second
}
