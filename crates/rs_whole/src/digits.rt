ghost use Rattle.std.specs.Prelude.{◌≡◌, ℕ, ◌^◌, ◌<◌, ◌≤◌, ◌-◌, ◌++◌, length, min, not, position, unwrap_or, ◌==◌};
ghost use Rattle.std.specs.Prelude.{IfSome};
ghost use Rattle.std.specs.Char.{digit_value, is_digit};
ghost use Rattle.std.specs.List.{list_all};
ghost use Rattle.std.specs.Str.Parse.{AllDigits, digits_value, digits_value_after};
ghost use Rattle.rs_whole.specs.Digits.{Finds, NoDigitFirst};

use crate::whole::MAX_WHOLE;

/// The digits at the front of `text`, and what follows them.
pub fn split_digits(radix: u32, text: &[u8]) -> (&[u8], &[u8])
    requires low { 2 ≤ radix }
    requires high { radix ≤ 16 }
    ensures joined { text.now ≡ result.0.now ++ result.1.now }
    ensures digits { AllDigits radix result.0.now }
    ensures ends { NoDigitFirst radix result.1.now }
{
    let end = first_other(radix, text).unwrap_or(text.len());
    text.split_at(end)
}

fn first_other(radix: u32, text: &[u8]) -> Option<usize>
    requires low { 2 ≤ radix }
    requires high { radix ≤ 16 }
    ensures value { result ≡ position (λ b. not (is_digit b radix)) text.now }
    ensures within { IfSome result (λ i. i < length text.now) }
{
    text.iter()
        .position(|byte| !char::from(*byte).is_digit(radix))
}

/// The number that `digits` write behind those of `start`. `None` exactly where it passes 2^53.
pub fn number_after(radix: u32, start: u64, digits: &[u8]) -> Option<u64>
    requires low { 2 ≤ radix }
    requires high { radix ≤ 16 }
    requires start { start ≤ 2 ^ 53 }
    requires digits { AllDigits radix digits.now }
    ensures { Finds (λ n. n ≡ digits_value_after radix start digits.now) result }
{
    let mut n = start;
    for byte in digits {
        n = n * u64::from(radix) + digit(radix, *byte);
        if n > MAX_WHOLE {
            return None;
        }
    }
    Some(n)
}

/// The number that `digits` write in tens, or the last `u64` where it is past that.
pub fn number_up_to_last(digits: &[u8]) -> u64
    requires { AllDigits 10 digits.now }
    ensures { result ≡ min (digits_value 10 digits.now) (2 ^ 64 - 1) }
{
    let mut n = 0u64;
    for byte in digits {
        n = n.saturating_mul(10).saturating_add(digit(10, *byte));
    }
    n
}

/// Whether `digits` are zeros.
pub fn are_zeros(digits: &[u8]) -> bool
    ensures { result ≡ list_all (λ b. b == 48) digits.now }
{
    digits.iter().all(|byte| *byte == b'0')
}

fn digit(radix: u32, byte: u8) -> u64
    requires low { 2 ≤ radix }
    requires high { radix ≤ 16 }
    requires digit { digit_value byte < radix }
    ensures { result ≡ digit_value byte }
{
    u64::from(char::from(byte).to_digit(radix).unwrap_or(0))
}
