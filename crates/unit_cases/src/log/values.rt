ghost use Rattle.std.specs.Prelude.{IfOk, IfSome};
ghost use Rattle.ks_space.specs.Store.{IsValue};

use crate::words::is_short;
use ks_space::Value;
use ks_value::{HashValue, ListValue, SetValue};
use ks_zset::Zset;
use rs_base::{Bytes, NoMemory};
use rs_whole::{Whole, integer};
use std::alloc::Global;

/// The value of this kind that the words are, if a store may hold it.
pub fn value_of(alloc: Global, kind: &[u8], words: &[Bytes]) -> Result<Option<Value>, NoMemory>
    ensures { IfOk result (λ found. IfSome found IsValue) }
{
    match kind {
        b"string" => string(words),
        b"list" => list(alloc, words),
        b"hash" => hash(alloc, words),
        b"set" => set(alloc, words),
        b"zset" => sorted(alloc, words),
        _ => Ok(None),
    }
}

fn string(words: &[Bytes]) -> Result<Option<Value>, NoMemory>
    ensures { IfOk result (λ found. IfSome found IsValue) }
{
    let [text] = words else {
        return Ok(None);
    };
    if !is_short(text) {
        return Ok(None);
    }
    Ok(Some(Value::Str(text.clone()?)))
}

fn list(alloc: Global, words: &[Bytes]) -> Result<Option<Value>, NoMemory>
    ensures { IfOk result (λ found. IfSome found IsValue) }
{
    let mut items = ListValue::new(alloc);
    for item in words {
        if !is_short(item) {
            return Ok(None);
        }
        items.push_back(item.clone()?)?;
    }
    if items.is_empty() {
        return Ok(None);
    }
    Ok(Some(Value::List(items)))
}

fn hash(alloc: Global, words: &[Bytes]) -> Result<Option<Value>, NoMemory>
    ensures { IfOk result (λ found. IfSome found IsValue) }
{
    let mut pairs = HashValue::new(alloc);
    for pair in words.chunks(2) {
        let [field, value] = pair else {
            return Ok(None);
        };
        if !is_short(field) || !is_short(value) {
            return Ok(None);
        }
        pairs.set(field.clone()?, value.clone()?)?;
    }
    if pairs.is_empty() {
        return Ok(None);
    }
    Ok(Some(Value::Hash(pairs)))
}

fn set(alloc: Global, words: &[Bytes]) -> Result<Option<Value>, NoMemory>
    ensures { IfOk result (λ found. IfSome found IsValue) }
{
    let mut members = SetValue::new(alloc);
    for member in words {
        if !is_short(member) {
            return Ok(None);
        }
        members.insert(member.clone()?)?;
    }
    if members.is_empty() {
        return Ok(None);
    }
    Ok(Some(Value::Set(members)))
}

fn sorted(alloc: Global, words: &[Bytes]) -> Result<Option<Value>, NoMemory>
    ensures { IfOk result (λ found. IfSome found IsValue) }
{
    let mut scores = Zset::new(alloc);
    for scored in words.chunks(2) {
        let [score, member] = scored else {
            return Ok(None);
        };
        let Some(score) = score_of(score.as_slice()) else {
            return Ok(None);
        };
        if !is_short(member) {
            return Ok(None);
        }
        scores.insert(member.clone()?, score)?;
    }
    if scores.is_empty() {
        return Ok(None);
    }
    Ok(Some(Value::Sorted(scores)))
}

fn score_of(text: &[u8]) -> Option<Whole> {
    Whole::new(integer(text)?)
}
