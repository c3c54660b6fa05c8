ghost use Rattle.std.specs.Prelude.{◌≡◌, ◌∷◌, [], ◌<◌, IfOk, IfSome, MatchOption, option_map, length};
ghost use Rattle.std.specs.List.{list_any};
ghost use Rattle.cmd_glob.specs.Sets.{range, is_within, is_in, ranges_of, set_of, range_end};

use crate::symbol::Symbol;
use rs_base::{NoMemory, Seq};
use std::alloc::Global;

/// The bytes from `low` to `high`, both among them.
#[derive(Clone, Copy)]
pub struct ByteRange {
    pub low: u8,
    pub high: u8,
}

/// A set `[..]` of a pattern.
#[derive(Drop)]
pub struct ByteSet {
    /// It has the bytes that are in none of the ranges.
    pub negated: bool,
    pub ranges: Seq<ByteRange>,
}

impl ByteRange {
    /// The range between two bytes, which stand in either order.
    fn between(one: u8, other: u8) -> ByteRange
        ensures { result ≡ range one other }
    {
        ByteRange {
            low: one.min(other),
            high: one.max(other),
        }
    }

    fn has(self, byte: u8) -> bool
        ensures { result ≡ is_within self byte }
    {
        self.low <= byte && byte <= self.high
    }
}

impl ByteSet {
    /// The set of what stands between its brackets.
    pub fn new(alloc: Global, symbols: &[Symbol]) -> Result<ByteSet, NoMemory>
        ensures { IfOk result (λ set. set ≡ set_of symbols.now) }
    {
        let (negated, listed) = match symbols.split_first() {
            Some((first, rest)) if first.is_mark(b'^') => (true, rest),
            _ => (false, symbols),
        };
        Ok(ByteSet {
            negated,
            ranges: ranges_of(alloc, listed)?,
        })
    }

    pub fn has(&self, byte: u8) -> bool
        ensures { result ≡ is_in self.now byte }
    {
        let listed = is_listed(self.ranges.as_slice(), byte);
        if self.negated { !listed } else { listed }
    }
}

fn is_listed(ranges: &[ByteRange], byte: u8) -> bool
    ensures { result ≡ list_any (λ range. is_within range byte) ranges.now }
{
    ranges.iter().any(|range| range.has(byte))
}

fn ranges_of(alloc: Global, symbols: &[Symbol]) -> Result<Seq<ByteRange>, NoMemory>
    ensures { IfOk result (λ ranges. ranges ≡ ranges_of symbols.now) }
{
    let mut ranges = Seq::new(alloc);
    let mut rest = symbols;
    while let Some((range, more)) = first_range(rest) {
        ranges.push(range)?;
        rest = more;
    }
    Ok(ranges)
}

// The first range or byte that is listed, and what is listed behind it.
fn first_range(symbols: &[Symbol]) -> Option<(ByteRange, &[Symbol])>
    ensures listed { MatchOption result (symbols.now ≡ []) (λ x. ranges_of symbols.now ≡ x.0 ∷ ranges_of x.1.now) }
    ensures shorter { IfSome result (λ x. length x.1.now < length symbols.now) }
{
    let (first, rest) = symbols.split_first()?;
    match range_end(rest) {
        Some((last, more)) => Some((ByteRange::between(first.byte, last), more)),
        None => Some((ByteRange::between(first.byte, first.byte), rest)),
    }
}

// Behind a byte: the other end of a range, where a `-` and a byte follow, and what stands behind it.
fn range_end(symbols: &[Symbol]) -> Option<(u8, &[Symbol])>
    ensures { option_map (λ x. (x.0, x.1.now)) result ≡ range_end symbols.now }
{
    let (dash, rest) = symbols.split_first()?;
    if !dash.is_mark(b'-') {
        return None;
    }
    let (last, rest) = rest.split_first()?;
    Some((last.byte, rest))
}
