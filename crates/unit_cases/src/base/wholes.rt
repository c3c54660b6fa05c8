use crate::base::texts::put_ordering;
use itoa::Buffer;
use rs_base::{Bytes, NoMemory};
use rs_whole::{NotWhole, Whole, integer, literal, numeral};
use std::alloc::Global;

/// The calls of whole numbers, and of the texts that stand for them.
pub fn answer(
    alloc: Global,
    name: &[u8],
    args: &[Bytes],
    out: &mut Bytes,
) -> Result<bool, NoMemory> {
    match (name, args) {
        (b"literal", [text]) => put_found(literal(text.as_slice()), out)?,
        (b"numeral", [text]) => put_found(numeral(text.as_slice()), out)?,
        (b"integer", [text]) => put_integer(integer(text.as_slice()), out)?,
        (b"NotWhole", []) => out.append(NotWhole.to_string(alloc)?.as_bytes())?,
        (_, [number]) => return answer_one(name, number, out),
        (_, [left, right]) => return answer_two(name, left, right, out),
        _ => return Ok(false),
    }
    Ok(true)
}

fn answer_one(name: &[u8], number: &Bytes, out: &mut Bytes) -> Result<bool, NoMemory> {
    let Some(n) = integer(number.as_slice()) else {
        return Ok(false);
    };
    let whole = Whole::new(n);
    match name {
        b"new" => put_integer(whole.map(Whole::get), out)?,
        b"neg" => put_integer(whole.map(|whole| whole.neg().get()), out)?,
        _ => return Ok(false),
    }
    Ok(true)
}

fn answer_two(name: &[u8], left: &Bytes, right: &Bytes, out: &mut Bytes) -> Result<bool, NoMemory> {
    let (Some(left), Some(right)) = (whole_of(left), whole_of(right)) else {
        return Ok(false);
    };
    match computed(name, left, right) {
        Some(number) => put_whole(number, out)?,
        None => return answer_order(name, left, right, out),
    }
    Ok(true)
}

fn whole_of(text: &Bytes) -> Option<Whole> {
    Whole::new(integer(text.as_slice())?)
}

fn computed(name: &[u8], left: Whole, right: Whole) -> Option<Result<Whole, NotWhole>> {
    match name {
        b"add" => Some(left.add(right)),
        b"sub" => Some(left.sub(right)),
        b"mul" => Some(left.mul(right)),
        b"div" => Some(left.div(right)),
        b"modulo" => Some(left.modulo(right)),
        b"pow" => Some(left.pow(right)),
        _ => None,
    }
}

fn answer_order(name: &[u8], left: Whole, right: Whole, out: &mut Bytes) -> Result<bool, NoMemory> {
    match name {
        b"order" => put_ordering(left.cmp(&right), out)?,
        _ => return Ok(false),
    }
    Ok(true)
}

fn put_found(found: Option<Result<Whole, NotWhole>>, out: &mut Bytes) -> Result<(), NoMemory> {
    match found {
        Some(number) => put_whole(number, out),
        None => out.append(b"None"),
    }
}

fn put_whole(number: Result<Whole, NotWhole>, out: &mut Bytes) -> Result<(), NoMemory> {
    match number {
        Ok(whole) => put_integer(Some(whole.get()), out),
        Err(NotWhole) => out.append(b"NotWhole"),
    }
}

fn put_integer(number: Option<i64>, out: &mut Bytes) -> Result<(), NoMemory> {
    match number {
        Some(n) => out.append(Buffer::new().format(n).as_bytes()),
        None => out.append(b"None"),
    }
}
