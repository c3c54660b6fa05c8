ghost use Rattle.std.specs.Prelude.{◌≡◌, ◌<◌, ◌^◌, length, IfOk};

use rs_base::{Bytes, NoMemory};
use std::alloc::Global;

/// The numbers below 2^32, each once, in an order that has nothing to do with their size.
pub fn scattered(i: u64) -> u64
    ensures { result < 2 ^ 32 }
{
    i.wrapping_mul(2_654_435_761) & 0xffff_ffff
}

/// A text of 16 bytes that ends with the last twelve digits of `n`.
pub fn text(alloc: Global, n: u64) -> Result<Bytes, NoMemory>
    ensures { IfOk result (λ text. length text ≡ 16) }
{
    let mut text = *b"key:000000000000";
    let mut left = n;
    for place in 0..12usize {
        text[15 - place] = b'0' + (left % 10) as u8;
        left /= 10;
    }
    Bytes::from_slice(alloc, &text)
}
