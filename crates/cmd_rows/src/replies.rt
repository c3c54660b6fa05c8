ghost use Rattle.std.specs.Prelude.{◌≡◌, Ok, Err, IfOk, MatchResult, option_copied, drop};
ghost use Rattle.cmd_rows.specs.Outcomes.{word_at, ok};
ghost use Rattle.cmd_rows.specs.Strings.{bulk_or_null};

use cmd_args::Refusal;
use resp_reply::Reply;
use rs_base::{Bytes, NoMemory, Words};
use std::alloc::Global;

/// The word at a place, that of the name being 0. Refused where there is none.
pub fn word(words: &Words, place: usize) -> Result<&Bytes, Refusal>
    ensures { MatchResult result (λ word. word_at words.now place ≡ Ok word.now)
        (λ why. word_at words.now place ≡ Err why) }
{
    words.get(place).ok_or(Refusal::Syntax)
}

/// The status OK.
pub fn ok(alloc: Global) -> Result<Reply, NoMemory>
    ensures { IfOk result (λ reply. reply ≡ ok) }
{
    Reply::status(alloc, b"OK")
}

/// A string as a bulk, and none as the null bulk.
pub fn bulk_or_null(text: Option<&Bytes>) -> Result<Reply, NoMemory>
    ensures { IfOk result (λ reply. reply ≡ bulk_or_null (option_copied text.entry)) }
{
    match text {
        Some(text) => Ok(Reply::Bulk(text.clone()?)),
        None => Ok(Reply::NullBulk),
    }
}

/// The words from a place on, that of the name being 0.
pub fn words_from(words: &Words, place: usize) -> &[Bytes]
    ensures { result.now ≡ drop place words.now }
{
    words.as_slice().get(place..).unwrap_or(&[])
}
