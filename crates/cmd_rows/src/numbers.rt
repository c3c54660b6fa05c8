ghost use Rattle.std.specs.Prelude.{◌≡◌};
ghost use Rattle.cmd_rows.specs.Numbers.{number};

use cmd_args::Refusal;
use rs_base::Bytes;
use rs_whole::integer;

/// The integer that a word spells, within 64 signed bits. Any other word, also one with a leading zero or a `+`, is
/// refused.
pub fn number(word: &Bytes) -> Result<i64, Refusal>
    ensures { result ≡ number word.now }
{
    match integer(word.as_slice()) {
        Some(n) => Ok(n),
        None => Err(Refusal::NotInteger),
    }
}
