ghost use Rattle.std.specs.Prelude.{◌≡◌, ℤ, pos, negsuc, ℕ, suc, ◌<◌, ◌≤◌, ◌^◌, ◌+◌, Some, IfSome, FitsSigned};
ghost use Rattle.std.specs.Int.{w64};
ghost use Rattle.std.specs.Option.{SomeIff};
ghost use Rattle.rs_whole.specs.Integers.{integer_text};

use rs_base::parse_decimal;

/// The integer of 64 bits that `text` writes: `0`, or digits that begin with 1 to 9, behind a `-` below 0. `None`
/// exactly where there is none.
pub fn integer(text: &[u8]) -> Option<i64>
    ensures found { IfSome result (λ z. text.now ≡ integer_text z) }
    ensures only { (z : ℤ) → FitsSigned w64 z → text.now ≡ integer_text z → result ≡ Some z }
{
    match text.strip_prefix(b"-") {
        Some(digits) => negative(parse_decimal(digits)?),
        None => positive(parse_decimal(text)?),
    }
}

fn positive(n: u64) -> Option<i64>
    ensures { SomeIff result (n < 2 ^ 63) (pos n) }
{
    i64::try_from(n).ok()
}

fn negative(n: u64) -> Option<i64>
    ensures found { IfSome result (λ z. (m : ℕ) × (n ≡ suc m) × (z ≡ negsuc m)) }
    ensures only { (m : ℕ) → m < 2 ^ 63 → n ≡ suc m → result ≡ Some (negsuc m) }
{
    let below = positive(n.checked_sub(1)?)?;
    Some(-1 - below)
}
