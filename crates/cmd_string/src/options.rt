ghost use Rattle.std.specs.Prelude.{◌≡◌, IfOk};
ghost use Rattle.ks_space.specs.Store.{IsDeadline};
ghost use Rattle.cmd_string.specs.Options.{is_word, expiry_named, set_word, with_option, with_word, with_words};
ghost use Rattle.cmd_string.specs.Options.{no_option, complete, set_options, deadline_read, set_effect};

use cmd_args::{CmdId, Refusal, StringCmd};
use cmd_rows::{Expiry, deadline, number, set_until};
use fx_record::Record;
use rs_base::Bytes;

/// Which keys SET writes.
#[derive(Clone, Copy)]
pub(crate) enum Condition {
    /// NX: a key that is absent.
    IfAbsent,
    /// XX: a key that is there.
    IfThere,
}

/// How long a string stays that SET writes with an option for it.
#[derive(Clone, Copy)]
pub(crate) enum Lasting {
    /// KEEPTTL: until the deadline that the key has, if it has one.
    Keeping,
    /// EX, PX, EXAT, PXAT: until the deadline that the number gives. `None` where the word was no integer.
    Until(Expiry, Option<i64>),
}

/// The options of SET that stand.
#[derive(Clone, Copy)]
pub(crate) struct SetOptions {
    pub(crate) condition: Option<Condition>,
    /// GET: the reply is the string that the key held.
    pub(crate) get: bool,
    pub(crate) lasting: Option<Lasting>,
}

/// An option word of SET.
#[derive(Clone, Copy)]
pub(crate) enum SetWord {
    /// NX or XX.
    When(Condition),
    Get,
    /// KEEPTTL.
    Keep,
    /// EX, PX, EXAT or PXAT, whose number is the next word.
    Expire(Expiry),
}

/// The options that were read so far.
#[derive(Clone, Copy)]
pub(crate) struct Reading {
    pub(crate) options: SetOptions,
    /// What the number counts that comes next, if one does.
    pub(crate) waiting: Option<Expiry>,
}

impl Reading {
    // No option yet.
    fn new() -> Reading
        ensures { result ≡ no_option }
    {
        Reading::of(SetOptions {
            condition: None,
            get: false,
            lasting: None,
        })
    }

    fn of(options: SetOptions) -> Reading
        ensures { result ≡ record { options = options; waiting = None } }
    {
        Reading {
            options,
            waiting: None,
        }
    }

    fn with_word(self, word: &Bytes) -> Result<Reading, Refusal>
        ensures { result ≡ with_word self.waiting self.options word.now }
    {
        let Some(kind) = self.waiting else {
            return self
                .options
                .with_option(set_word(word).ok_or(Refusal::Syntax)?);
        };
        Ok(Reading::of(SetOptions {
            lasting: Some(Lasting::Until(kind, number(word).ok())),
            ..self.options
        }))
    }

    fn complete(self) -> Result<SetOptions, Refusal>
        ensures { result ≡ complete self }
    {
        if self.waiting.is_none() {
            Ok(self.options)
        } else {
            Err(Refusal::Syntax)
        }
    }
}

impl SetOptions {
    // With one more option. Refused where it stands already, or excludes one that does.
    fn with_option(self, word: SetWord) -> Result<Reading, Refusal>
        ensures { result ≡ with_option self word }
    {
        match word {
            SetWord::When(condition) if self.condition.is_none() => Ok(Reading::of(SetOptions {
                condition: Some(condition),
                ..self
            })),
            SetWord::Get if !self.get => Ok(Reading::of(SetOptions { get: true, ..self })),
            SetWord::Keep if self.lasting.is_none() => Ok(Reading::of(SetOptions {
                lasting: Some(Lasting::Keeping),
                ..self
            })),
            SetWord::Expire(kind) if self.lasting.is_none() => Ok(Reading {
                options: self,
                waiting: Some(kind),
            }),
            _ => Err(Refusal::Syntax),
        }
    }
}

/// The options of SET that words are, in any order. Refused for a word that is none, for one that stands twice or
/// beside one that excludes it, and for one at the end that wants a number.
pub(crate) fn set_options(words: &[Bytes]) -> Result<SetOptions, Refusal>
    ensures { result ≡ set_options words.now }
{
    let mut reading = Reading::new();
    for word in words {
        reading = reading.with_word(word)?;
    }
    reading.complete()
}

/// Whether the word is this one, in letters of either case.
pub(crate) fn is_word(word: &Bytes, name: &[u8]) -> bool
    ensures { result ≡ is_word word.now name.now }
{
    word.as_slice().eq_ignore_ascii_case(name)
}

/// What the number behind EX, PX, EXAT or PXAT counts. `None` for any other word.
pub(crate) fn expiry_named(word: &Bytes) -> Option<Expiry>
    ensures { result ≡ expiry_named word.now }
{
    if is_word(word, b"EX") {
        Some(Expiry::InSeconds)
    } else if is_word(word, b"PX") {
        Some(Expiry::InMillis)
    } else if is_word(word, b"EXAT") {
        Some(Expiry::AtSecond)
    } else if is_word(word, b"PXAT") {
        Some(Expiry::AtMillis)
    } else {
        None
    }
}

fn set_word(word: &Bytes) -> Option<SetWord>
    ensures { result ≡ set_word word.now }
{
    if is_word(word, b"NX") {
        Some(SetWord::When(Condition::IfAbsent))
    } else if is_word(word, b"XX") {
        Some(SetWord::When(Condition::IfThere))
    } else if is_word(word, b"GET") {
        Some(SetWord::Get)
    } else if is_word(word, b"KEEPTTL") {
        Some(SetWord::Keep)
    } else {
        let kind = expiry_named(word)?;
        Some(SetWord::Expire(kind))
    }
}

/// The deadline that a number gives. Refused where the word was no integer, and then as the command refuses it.
pub(crate) fn deadline_read(
    command: CmdId,
    now: u64,
    kind: Expiry,
    read: Option<i64>,
) -> Result<u64, Refusal>
    ensures value { result ≡ deadline_read command now kind read }
    ensures within { IfOk result IsDeadline }
{
    let n = read.ok_or(Refusal::NotInteger)?;
    deadline(command, kind, now, n)
}

/// What SET does to the key.
pub(crate) fn set_effect(
    now: u64,
    key: Bytes,
    value: Bytes,
    lasting: Option<Lasting>,
) -> Result<Record, Refusal>
    ensures { result ≡ set_effect now key value lasting }
{
    match lasting {
        None => Ok(Record::Set { key, value }),
        Some(Lasting::Keeping) => Ok(Record::SetKeeping { key, value }),
        Some(Lasting::Until(kind, read)) => {
            let at = deadline_read(CmdId::Strings(StringCmd::Set), now, kind, read)?;
            Ok(set_until(key, value, now, at))
        }
    }
}
