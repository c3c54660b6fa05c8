ghost use Rattle.std.specs.Prelude.{◌≡◌, ◌-◌, ◌^◌, length, min};
ghost use Rattle.std.specs.List.{list_all, sum_by};
ghost use Rattle.fx_record.specs.RecordWords.{is_short, are_within_limits};

use rs_base::Words;

/// How many words a command or a record may have.
pub const MAX_WORDS: usize = 65_536;

/// How many bytes a word may have, and so a key or a string.
pub const MAX_TEXT_BYTES: usize = 16_777_216;

/// How many bytes all words of a command or a record may have.
pub const MAX_BYTES: usize = 67_108_864;

/// Whether words are within the limits of a command, and so of a record: at most 65,536 words, each of at most
/// 16,777,216 bytes, and 67,108,864 bytes in all.
pub fn are_within_limits(words: &Words) -> bool
    ensures { result ≡ are_within_limits words.now }
{
    words.len() <= MAX_WORDS && are_short(words) && bytes_in(words) <= MAX_BYTES
}

fn are_short(words: &Words) -> bool
    ensures { result ≡ list_all is_short words.now }
{
    words
        .as_slice()
        .iter()
        .all(|word| word.len() <= MAX_TEXT_BYTES)
}

// How many bytes there are in all words, as far as it can be counted.
fn bytes_in(words: &Words) -> usize
    ensures { result ≡ min (sum_by length words.now) (2 ^ 64 - 1) }
{
    let mut bytes = 0usize;
    for word in words.as_slice() {
        bytes = bytes.saturating_add(word.len());
    }
    bytes
}
