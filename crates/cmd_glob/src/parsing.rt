ghost use Rattle.std.specs.Prelude.{◌≡◌, ◌<◌, false, length, position, IfOk, IfSome};
ghost use Rattle.std.specs.List.{before_first, after_first};
ghost use Rattle.cmd_glob.specs.Symbols.{is_mark};
ghost use Rattle.cmd_glob.specs.Patterns.{part_of, parts_from};

use crate::byte_set::ByteSet;
use crate::part::Part;
use crate::symbol::Symbol;
use rs_base::{NoMemory, Seq};
use std::alloc::Global;

/// The parts of a pattern.
pub fn parts_of(alloc: Global, symbols: &[Symbol]) -> Result<Seq<Part>, NoMemory>
    ensures { IfOk result (λ parts. parts ≡ parts_from false symbols.now) }
{
    let mut parts = Seq::new(alloc);
    let mut rest = symbols;
    while let Some((first, more)) = rest.split_first() {
        if first.is_mark(b'[') {
            let (inside, behind) = split_set(more);
            parts.push(Part::OneOf(ByteSet::new(alloc, inside)?))?;
            rest = behind;
        } else {
            parts.push(part_of(*first))?;
            rest = more;
        }
    }
    Ok(parts)
}

fn part_of(symbol: Symbol) -> Part
    ensures { result ≡ part_of symbol }
{
    if symbol.is_mark(b'*') {
        Part::Stars
    } else if symbol.is_mark(b'?') {
        Part::Any
    } else {
        Part::Byte(symbol.byte)
    }
}

// Behind a `[`: what the set lists, and what stands behind its `]`.
fn split_set(symbols: &[Symbol]) -> (&[Symbol], &[Symbol])
    ensures inside { result.0.now ≡ before_first (is_mark 93) symbols.now }
    ensures behind { result.1.now ≡ after_first (is_mark 93) symbols.now }
{
    match set_len(symbols) {
        Some(len) => (&symbols[..len], &symbols[len + 1..]),
        None => (symbols, &[]),
    }
}

// Behind a `[`: how many symbols stand before the `]` that ends the set.
fn set_len(symbols: &[Symbol]) -> Option<usize>
    ensures value { result ≡ position (λ symbol. is_mark 93 symbol) symbols.now }
    ensures within { IfSome result (λ len. len < length symbols.now) }
{
    symbols.iter().position(|symbol| symbol.is_mark(b']'))
}
