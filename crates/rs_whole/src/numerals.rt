ghost use Rattle.std.specs.Prelude.{◌≡◌, ℕ, ℤ, pos, ◌≤◌, ◌<◌, ◌+◌, ◌^◌, ◌++◌, [], ◌∷◌, List, Option, length, not};
ghost use Rattle.std.specs.Prelude.{position, IfSome, OnSome, IsSomeAnd, OnOk, IsErr, Ok, MatchOption, MatchResult};
ghost use Rattle.std.specs.Prelude.{neg_ℤ};
ghost use Rattle.std.specs.Str.Parse.{AllDigits, IsNumeral as AreDigits, digits_value};
ghost use Rattle.rs_whole.specs.Wholes.{Computes};
ghost use Rattle.rs_whole.specs.Numerals.{Numeral, Exponent, Sign, Holds, IsProper, StandsFor, SignedStandsFor};
ghost use Rattle.rs_whole.specs.Numerals.{AreSpaces, numeral_text, sign_text, fraction_text, fraction_digits};
ghost use Rattle.rs_whole.specs.Numerals.{is_space};
ghost use Rattle.rs_whole.specs.Digits.{NoFractionFirst};
ghost use Rattle.rs_whole.specs.Spaces.{NoSpaceFirst, NoSpaceLast};

use crate::digits::{number_after, split_digits};
use crate::shifts::{read_shift, shifted};
use crate::{NotWhole, Whole};

/// The number that the numeral `text` stands for (Lua 5.1 manual, 2.1). `None` exactly where `text` is no numeral.
pub fn literal(text: &[u8]) -> Option<Result<Whole, NotWhole>>
    ensures found { OnSome result ((numeral : Numeral) × IsProper numeral × (text.now ≡ numeral_text numeral)) }
    ensures only { (numeral : Numeral) → IsProper numeral → text.now ≡ numeral_text numeral
        → IsSomeAnd result (Computes (StandsFor numeral)) }
{
    match text.strip_prefix(b"0x") {
        Some(digits) => by_sixteens(digits),
        None => by_tens(text),
    }
}

fn by_sixteens(text: &[u8]) -> Option<Result<Whole, NotWhole>>
    ensures found { OnSome result (AreDigits 16 text.now) }
    ensures only { AreDigits 16 text.now
        → IsSomeAnd result (Computes (λ z. (n : ℕ) × (z ≡ pos n) × (n ≡ digits_value 16 text.now))) }
{
    let (digits, rest) = split_digits(16, text);
    if digits.is_empty() || !rest.is_empty() {
        return None;
    }
    Some(found(number_after(16, 0, digits)))
}

fn by_tens(text: &[u8]) -> Option<Result<Whole, NotWhole>>
    ensures found { OnSome result ((numeral : Numeral) × IsProper numeral × (text.now ≡ numeral_text numeral)) }
    ensures only { (whole : List ℕ) (fraction : Option (List ℕ)) (exponent : Exponent)
        → IsProper (Numeral.by_tens whole fraction exponent)
        → text.now ≡ numeral_text (Numeral.by_tens whole fraction exponent)
        → IsSomeAnd result (Computes (StandsFor (Numeral.by_tens whole fraction exponent))) }
{
    let (whole, rest) = split_digits(10, text);
    let (fraction, rest) = split_fraction(rest);
    if whole.is_empty() && fraction.is_empty() {
        return None;
    }
    let shift = read_shift(rest)?;
    Some(found(shifted(whole, fraction, shift)))
}

// The digits behind the point at the front of `text`, and what follows them; no digits where there is no point.
fn split_fraction(text: &[u8]) -> (&[u8], &[u8])
    ensures found { (fraction : Option (List ℕ)) × (text.now ≡ fraction_text fraction ++ result.1.now)
        × (result.0.now ≡ fraction_digits fraction) × AllDigits 10 result.0.now }
    ensures only { (fraction : Option (List ℕ)) (rest : List ℕ) → AllDigits 10 (fraction_digits fraction)
        → NoFractionFirst rest → text.now ≡ fraction_text fraction ++ rest
        → (result.0.now ≡ fraction_digits fraction) × (result.1.now ≡ rest) }
{
    match text.strip_prefix(b".") {
        Some(digits) => split_digits(10, digits),
        None => text.split_at(0),
    }
}

fn found(number: Option<u64>) -> Result<Whole, NotWhole>
    requires { IfSome number (λ n. n ≤ 2 ^ 53) }
    ensures { MatchOption number (IsErr result) (λ n. result ≡ Ok (pos n)) }
{
    match number {
        Some(n) => Ok(Whole::from_number(n)),
        None => Err(NotWhole),
    }
}

/// The number that the numeral in `text` stands for, with a sign before it or none, and white space round both. `None`
/// exactly where `text` is nothing of the kind.
pub fn numeral(text: &[u8]) -> Option<Result<Whole, NotWhole>>
    ensures found { OnSome result ((sign : Sign) × (numeral : Numeral) × Holds text.now sign numeral) }
    ensures only { (sign : Sign) (numeral : Numeral) → Holds text.now sign numeral
        → IsSomeAnd result (Computes (SignedStandsFor sign numeral)) }
{
    signed(trim_end(trim_start(text)))
}

fn signed(text: &[u8]) -> Option<Result<Whole, NotWhole>>
    ensures found { OnSome result ((sign : Sign) × (numeral : Numeral) × IsProper numeral
        × (text.now ≡ sign_text sign ++ numeral_text numeral)) }
    ensures only { (sign : Sign) (numeral : Numeral) → IsProper numeral
        → text.now ≡ sign_text sign ++ numeral_text numeral
        → IsSomeAnd result (Computes (SignedStandsFor sign numeral)) }
{
    match text.split_first() {
        Some((b'-', rest)) => Some(negated(literal(rest)?)),
        Some((b'+', rest)) => literal(rest),
        _ => literal(text),
    }
}

fn negated(number: Result<Whole, NotWhole>) -> Result<Whole, NotWhole>
    ensures { MatchResult number (λ z. result ≡ Ok (neg_ℤ z)) (λ _. IsErr result) }
{
    Ok(number?.neg())
}

fn trim_start(text: &[u8]) -> &[u8]
    ensures spaces { (before : List ℕ) × AreSpaces before × (text.now ≡ before ++ result.now) }
    ensures ends { NoSpaceFirst result.now }
{
    let mut rest = text;
    while let Some((first, more)) = rest.split_first() {
        if !is_space(*first) {
            break;
        }
        rest = more;
    }
    rest
}

fn trim_end(text: &[u8]) -> &[u8]
    ensures spaces { (after : List ℕ) × AreSpaces after × (text.now ≡ result.now ++ after) }
    ensures ends { NoSpaceLast result.now }
{
    let mut rest = text;
    while let Some((last, more)) = rest.split_last() {
        if !is_space(*last) {
            break;
        }
        rest = more;
    }
    rest
}

// VT is white space to Lua, and not to `is_ascii_whitespace`.
fn is_space(byte: u8) -> bool
    ensures { result ≡ is_space byte }
{
    matches!(byte, b' ' | b'\t'..=b'\r')
}
