//! Texts that come in pieces: where they are cut makes no difference.

use rs_base::{Bytes, NoMemory, write_decimal};
use std::alloc::Global;

/// What takes a text in pieces.
pub trait Pieces {
    /// Before any piece.
    fn start(alloc: Global) -> Self;

    /// Takes a piece, and adds what it answers. `Ok(false)`, and nothing added, where an earlier piece was bad.
    fn feed(&mut self, piece: &[u8], out: &mut Bytes) -> Result<bool, NoMemory>;

    /// Adds what is left behind all pieces.
    fn put_rest(&self, out: &mut Bytes) -> Result<(), NoMemory>;
}

/// Adds what is answered to a text, and each answer to it in two pieces that is another, behind its cut. The text is
/// cut at each place in turn, and the second piece comes whole and byte by byte.
pub fn put_cuts<P: Pieces + Drop>(
    alloc: Global,
    text: &[u8],
    out: &mut Bytes,
) -> Result<(), NoMemory> {
    let whole = told::<P>(alloc, text, b"", 1)?;
    out.append(whole.as_slice())?;
    for at in 0..text.len() {
        let (first, rest) = text.split_at(at);
        for size in [1, text.len()] {
            let answer = told::<P>(alloc, first, rest, size)?;
            if answer != whole {
                out.append(b" but cut at ")?;
                write_decimal(at as u64, out)?;
                out.append(b" ")?;
                out.append(answer.as_slice())?;
            }
        }
    }
    Ok(())
}

// What is answered to `first`, then to the rest in pieces of `size` bytes, and behind them.
fn told<P: Pieces + Drop>(
    alloc: Global,
    first: &[u8],
    rest: &[u8],
    size: usize,
) -> Result<Bytes, NoMemory> {
    let mut pieces = P::start(alloc);
    let mut out = Bytes::new(alloc);
    pieces.feed(first, &mut out)?;
    if size > 0 {
        for piece in rest.chunks(size) {
            pieces.feed(piece, &mut out)?;
        }
    }
    pieces.put_rest(&mut out)?;
    Ok(out)
}
