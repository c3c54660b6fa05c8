ghost use Rattle.std.specs.Prelude.{◌≡◌, ◌≤◌, ◌^◌, ℤ, pos, ◌+ℤ◌, ◌-ℤ◌, ◌*ℤ◌, neg_ℤ};
ghost use Rattle.std.specs.Option.{SomeIff};
ghost use Rattle.std.specs.Int.{int_pow};
ghost use Rattle.rs_whole.specs.Wholes.{IsWhole, Computes, IsQuotient, IsModulo, IsPower};
ghost use Rattle.rs_whole.specs.Exponents.{short_exponent};

use std::marker::Model;
use thiserror::Error;

/// The greatest magnitude of a `Whole`, 2^53.
pub const MAX_WHOLE: u64 = 9_007_199_254_740_992;

/// A result that is no whole number of magnitude at most 2^53.
#[derive(Clone, Copy, Debug, PartialEq, Eq, Error)]
#[error("number is not whole or beyond 53 bits")]
pub struct NotWhole;

/// A whole number of magnitude at most 2^53. Contracts see it as the integer.
#[derive(Clone, Copy, Debug, PartialEq, Eq, PartialOrd, Ord)]
pub struct Whole {
    n: i64,
}

impl Model for Whole {
    ghost use Rattle.std.specs.Prelude.{ℤ};
    ghost use Rattle.rs_whole.specs.Wholes.{IsWhole};

    ghost Value = { ℤ };

    ghost view = { λ w. w.n };

    ghost invariant = { λ w. IsWhole w.n };

    ghost inverse = { λ z. record { n = z } };
}

impl Whole {
    /// The number `n`. `None` exactly where its magnitude passes 2^53.
    pub fn new(n: i64) -> Option<Whole>
        ensures { SomeIff result (IsWhole n) n }
    {
        if n.unsigned_abs() <= MAX_WHOLE {
            Some(Whole { n })
        } else {
            None
        }
    }

    pub(crate) fn from_number(n: u64) -> Whole
        requires { n ≤ 2 ^ 53 }
        ensures { result ≡ pos n }
    {
        Whole { n: n as i64 }
    }

    pub fn get(self) -> i64
        ensures value { result ≡ self }
        ensures bound { IsWhole result }
    {
        self.n
    }

    pub fn neg(self) -> Whole
        ensures { result ≡ neg_ℤ self }
    {
        Whole { n: -self.n }
    }

    pub fn add(self, other: Whole) -> Result<Whole, NotWhole>
        ensures { Computes (λ z. z ≡ self +ℤ other) result }
    {
        Whole::new(self.n + other.n).ok_or(NotWhole)
    }

    pub fn sub(self, other: Whole) -> Result<Whole, NotWhole>
        ensures { Computes (λ z. z ≡ self -ℤ other) result }
    {
        Whole::new(self.n - other.n).ok_or(NotWhole)
    }

    pub fn mul(self, other: Whole) -> Result<Whole, NotWhole>
        ensures { Computes (λ z. z ≡ self *ℤ other) result }
    {
        let Some(n) = self.n.checked_mul(other.n) else {
            return Err(NotWhole);
        };
        Whole::new(n).ok_or(NotWhole)
    }

    pub fn div(self, other: Whole) -> Result<Whole, NotWhole>
        ensures { Computes (IsQuotient self other) result }
    {
        if other.n == 0 {
            return Err(NotWhole);
        }
        if self.n % other.n != 0 {
            return Err(NotWhole);
        }
        Ok(Whole {
            n: self.n / other.n,
        })
    }

    /// `self - floor(self / other) * other`: 0, or between 0 and `other` and of its sign.
    pub fn modulo(self, other: Whole) -> Result<Whole, NotWhole>
        ensures { Computes (IsModulo self other) result }
    {
        if other.n == 0 {
            return Err(NotWhole);
        }
        let rest = self.n.rem_euclid(other.n);
        if rest != 0 && other.n < 0 {
            return Ok(Whole { n: rest + other.n });
        }
        Ok(Whole { n: rest })
    }

    pub fn pow(self, other: Whole) -> Result<Whole, NotWhole>
        ensures { Computes (IsPower self other) result }
    {
        // Only 1 and -1 have a whole power there, and it is its own reciprocal.
        if other.n < 0 && self.n.unsigned_abs() != 1 {
            return Err(NotWhole);
        }
        power(self.n, other.n.unsigned_abs())
    }
}

fn power(base: i64, exponent: u64) -> Result<Whole, NotWhole>
    ensures { Computes (λ z. z ≡ int_pow base exponent) result }
{
    let Some(n) = base.checked_pow(short_exponent(exponent)) else {
        return Err(NotWhole);
    };
    Whole::new(n).ok_or(NotWhole)
}

// From 64 on a power of 0, 1 or -1 depends on the parity alone, and any other passes 2^53.
fn short_exponent(exponent: u64) -> u32
    ensures { result ≡ short_exponent exponent }
{
    if exponent < 64 {
        exponent as u32
    } else {
        64 + (exponent % 2) as u32
    }
}
