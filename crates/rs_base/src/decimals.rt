ghost use Rattle.std.specs.Prelude.{◌≡◌, ℕ, ◌^◌, ◌<◌, length, [], ◌∷◌, ◌++◌, List, Some, false, decimal, position};
ghost use Rattle.std.specs.Prelude.{not, IfSome, IsSomeAnd, OnOk};
ghost use Rattle.std.specs.Char.{is_ascii_digit};
ghost use Rattle.rs_base.specs.Decimals.{NoDigitFirst};

use crate::{Bytes, NoMemory};
use itoa::Buffer;

/// Adds the digits of `n`, without leading zeros, at the end of `out`.
pub fn write_decimal(n: u64, out: &mut Bytes) -> Result<(), NoMemory>
    ensures { OnOk result (out.new ≡ out.old ++ decimal n) }
{
    let mut buffer = Buffer::new();
    out.append(buffer.format(n).as_bytes())?;
    Ok(())
}

/// The number below 2^64 that `text` writes in digits, without sign or leading zero. `None` exactly where there is
/// none.
pub fn parse_decimal(text: &[u8]) -> Option<u64>
    ensures found { IfSome result (λ n. text.now ≡ decimal n) }
    ensures only { (n : ℕ) → n < 2 ^ 64 → text.now ≡ decimal n → result ≡ Some n }
{
    let Ok(digits) = str::from_utf8(text) else {
        return None;
    };
    let Ok(n) = digits.parse::<u64>() else {
        return None;
    };
    // `parse` takes a sign and leading zeros as well: only the one spelling is a number here.
    let mut buffer = Buffer::new();
    if buffer.format(n).as_bytes() == text {
        Some(n)
    } else {
        None
    }
}

/// The number that the digits at the front of `text` write, and what follows them. `None` exactly where those digits
/// are no number as `parse_decimal` reads it.
pub fn decimal_prefix(text: &[u8]) -> Option<(u64, &[u8])>
    ensures found { IfSome result (λ x. text.now ≡ decimal x.0 ++ x.1.now) }
    ensures ends { IfSome result (λ x. NoDigitFirst x.1.now) }
    ensures only { (n end : ℕ) (rest : List ℕ) → n < 2 ^ 64 → is_ascii_digit end ≡ false
        → text.now ≡ decimal n ++ end ∷ rest → IsSomeAnd result (λ x. (x.0 ≡ n) × (x.1.now ≡ end ∷ rest)) }
    ensures whole { (n : ℕ) → n < 2 ^ 64 → text.now ≡ decimal n → IsSomeAnd result (λ x. (x.0 ≡ n) × (x.1.now ≡ [])) }
{
    let end = first_non_digit(text).unwrap_or(text.len());
    let (digits, rest) = text.split_at(end);
    let n = parse_decimal(digits)?;
    Some((n, rest))
}

fn first_non_digit(text: &[u8]) -> Option<usize>
    ensures value { result ≡ position (λ b. not (is_ascii_digit b)) text.now }
    ensures within { IfSome result (λ i. i < length text.now) }
{
    text.iter().position(|byte| !byte.is_ascii_digit())
}
