ghost use Rattle.std.specs.Prelude.{◌≡◌, ℕ, ◌+◌, ◌*◌, ◌^◌, ◌≤◌, ◌++◌, length, ◌==◌, Some, IfSome};
ghost use Rattle.std.specs.List.{list_all};
ghost use Rattle.std.specs.Str.Parse.{AllDigits, digits_value};
ghost use Rattle.rs_whole.specs.Digits.{Finds};
ghost use Rattle.rs_whole.specs.Numerals.{Exponent, IsExponent, exponent_text};
ghost use Rattle.rs_whole.specs.Shifts.{shift_of, up_to_last, signed_shift, places, rises_by, falls_by};

use crate::digits::{are_zeros, number_after, number_up_to_last, split_digits};
use crate::whole::MAX_WHOLE;

/// By how many places an exponent moves the point, at most the last `u64`.
#[derive(Clone, Copy, Debug, PartialEq, Eq)]
pub enum Shift {
    Rises(u64),
    Falls(u64),
}

/// The shift of the exponent that `text` is; the empty text is one that shifts by nothing. `None` exactly where it is
/// none.
pub fn read_shift(text: &[u8]) -> Option<Shift>
    ensures found { IfSome result (λ s. (exponent : Exponent) × IsExponent exponent
        × (text.now ≡ exponent_text exponent)) }
    ensures only { (exponent : Exponent) → IsExponent exponent → text.now ≡ exponent_text exponent
        → result ≡ Some (shift_of exponent) }
{
    let Some((letter, rest)) = text.split_first() else {
        return Some(Shift::Rises(0));
    };
    if *letter != b'e' && *letter != b'E' {
        return None;
    }
    signed_shift(rest)
}

// The shift of what stands behind the letter.
fn signed_shift(text: &[u8]) -> Option<Shift>
    ensures { result ≡ signed_shift text.now }
{
    match text.split_first() {
        Some((b'-', digits)) => Some(Shift::Falls(places(digits)?)),
        Some((b'+', digits)) => Some(Shift::Rises(places(digits)?)),
        _ => Some(Shift::Rises(places(text)?)),
    }
}

fn places(text: &[u8]) -> Option<u64>
    ensures { result ≡ places text.now }
{
    let (digits, rest) = split_digits(10, text);
    if digits.is_empty() || !rest.is_empty() {
        return None;
    }
    Some(number_up_to_last(digits))
}

/// The number of the digits of both, the point between them, and moved by `shift`. `None` exactly where it is not whole
/// or passes 2^53.
pub fn shifted(whole: &[u8], fraction: &[u8], shift: Shift) -> Option<u64>
    requires whole { AllDigits 10 whole.now }
    requires fraction { AllDigits 10 fraction.now }
    ensures { Finds (λ n. n * 10 ^ (length fraction.now + falls_by shift)
        ≡ digits_value 10 (whole.now ++ fraction.now) * 10 ^ rises_by shift) result }
{
    match shift {
        Shift::Rises(by) => risen(whole, fraction, by),
        Shift::Falls(by) => fallen(whole, fraction, by),
    }
}

fn fallen(whole: &[u8], fraction: &[u8], by: u64) -> Option<u64>
    requires whole { AllDigits 10 whole.now }
    requires fraction { AllDigits 10 fraction.now }
    ensures { Finds (λ n. n * 10 ^ (length fraction.now + by) ≡ digits_value 10 (whole.now ++ fraction.now)) result }
{
    let kept = (whole.len() as u64).saturating_sub(by);
    let (kept, cut) = whole.split_at(kept as usize);
    if !both_are_zeros(cut, fraction) {
        return None;
    }
    number_after(10, 0, kept)
}

fn both_are_zeros(front: &[u8], back: &[u8]) -> bool
    ensures { result ≡ list_all (λ b. b == 48) (front.now ++ back.now) }
{
    are_zeros(front) && are_zeros(back)
}

fn risen(whole: &[u8], fraction: &[u8], by: u64) -> Option<u64>
    requires whole { AllDigits 10 whole.now }
    requires fraction { AllDigits 10 fraction.now }
    ensures { Finds (λ n. n * 10 ^ length fraction.now ≡ digits_value 10 (whole.now ++ fraction.now) * 10 ^ by) result }
{
    let places = by.min(fraction.len() as u64);
    let (kept, cut) = fraction.split_at(places as usize);
    if !are_zeros(cut) {
        return None;
    }
    raised(number(whole, kept)?, by - places)
}

// The number that the digits of both write.
fn number(front: &[u8], back: &[u8]) -> Option<u64>
    requires front { AllDigits 10 front.now }
    requires back { AllDigits 10 back.now }
    ensures { Finds (λ n. n ≡ digits_value 10 (front.now ++ back.now)) result }
{
    number_after(10, number_after(10, 0, front)?, back)
}

// The number with `zeros` zeros behind it.
fn raised(n: u64, zeros: u64) -> Option<u64>
    requires { n ≤ 2 ^ 53 }
    ensures { Finds (λ m. m ≡ n * 10 ^ zeros) result }
{
    if n == 0 {
        return Some(0);
    }
    let mut raised = n;
    for _ in 0..zeros {
        raised *= 10;
        if raised > MAX_WHOLE {
            return None;
        }
    }
    Some(raised)
}
