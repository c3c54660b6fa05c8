use crate::answers::put_words;
use crate::cuts::{Pieces, put_cuts};
use resp_read::{BadFrame, Command, FeedStop, Reader};
use rs_base::{Bytes, NoMemory, write_decimal};
use std::alloc::Global;

/// A reader of requests.
#[derive(Drop)]
pub struct Requests {
    alloc: Global,
    reader: Reader,
}

impl Requests {
    pub fn new(alloc: Global) -> Requests {
        Requests {
            alloc,
            reader: Reader::new(alloc),
        }
    }

    /// The calls of readers.
    pub fn answer(
        &mut self,
        name: &[u8],
        args: &[Bytes],
        out: &mut Bytes,
    ) -> Result<bool, NoMemory> {
        match (name, args) {
            (b"feed", pieces) => self.feed_all(pieces, out)?,
            (b"cut", [text]) => put_cuts::<Requests>(self.alloc, text.as_slice(), out)?,
            _ => return Ok(false),
        }
        Ok(true)
    }

    fn feed_all(&mut self, pieces: &[Bytes], out: &mut Bytes) -> Result<(), NoMemory> {
        for piece in pieces {
            if !self.feed(piece.as_slice(), out)? {
                out.append(b"Failed ")?;
            }
        }
        self.put_rest(out)
    }
}

impl Pieces for Requests {
    fn start(alloc: Global) -> Requests {
        Requests::new(alloc)
    }

    // Nothing is added for a piece without commands.
    fn feed(&mut self, piece: &[u8], out: &mut Bytes) -> Result<bool, NoMemory> {
        match self.reader.feed(piece) {
            Ok(commands) => put_commands(commands.as_slice(), out)?,
            Err(
                FeedStop::Bad {
                    before,
                    place,
                    kind,
                },
            ) => {
                put_commands(before.as_slice(), out)?;
                put_bad(place, kind, out)?;
            }
            Err(FeedStop::Failed) => return Ok(false),
            Err(FeedStop::NoMemory) => return Err(NoMemory),
        }
        Ok(true)
    }

    // How many bytes wait.
    fn put_rest(&self, out: &mut Bytes) -> Result<(), NoMemory> {
        out.append(b"+")?;
        write_decimal(self.reader.waiting(), out)
    }
}

// Adds `@PLACE`, and the words, of each command.
fn put_commands(commands: &[Command], out: &mut Bytes) -> Result<(), NoMemory> {
    for command in commands {
        out.append(b"@")?;
        write_decimal(command.place, out)?;
        out.append(b" ")?;
        put_words(command.words.as_slice(), out)?;
        out.append(b" ")?;
    }
    Ok(())
}

fn name_of(kind: BadFrame) -> &'static [u8] {
    match kind {
        BadFrame::NoStar => b"NoStar",
        BadFrame::Count => b"Count",
        BadFrame::NoDollar => b"NoDollar",
        BadFrame::Length => b"Length",
        BadFrame::NoEnd => b"NoEnd",
    }
}

fn put_bad(place: u64, kind: BadFrame, out: &mut Bytes) -> Result<(), NoMemory> {
    out.append(b"bad ")?;
    write_decimal(place, out)?;
    out.append(b" ")?;
    out.append(name_of(kind))?;
    out.append(b" ")
}
