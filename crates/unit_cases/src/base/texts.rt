use rs_base::{
    Bytes, NoMemory, Seq, decimal_prefix, escape, parse_decimal, unescape, write_decimal,
};
use std::alloc::Global;
use std::cmp::Ordering;

/// The calls of decimals, of the escape, and of the order of strings.
pub fn answer(
    alloc: Global,
    name: &[u8],
    args: &[Bytes],
    out: &mut Bytes,
) -> Result<bool, NoMemory> {
    match (name, args) {
        (b"decimal", [text]) => put_number(parse_decimal(text.as_slice()), out)?,
        (b"front", [text]) => put_front(text.as_slice(), out)?,
        (b"escape", numbers) => {
            let Some(bytes) = bytes_of(alloc, numbers)? else {
                return Ok(false);
            };
            escape(bytes.as_slice(), out)?;
        }
        (b"unescape", [text]) => put_unescaped(alloc, text.as_slice(), out)?,
        (b"compare", [left, right]) => put_order(left, right, out)?,
        (b"numbers", numbers) => return put_numbers(alloc, numbers, out),
        (b"shown", [text]) => out.append(format!(in alloc; "{text:?}")?.as_bytes())?,
        (b"NoMemory", []) => out.append(NoMemory.to_string(alloc)?.as_bytes())?,
        _ => return Ok(false),
    }
    Ok(true)
}

fn put_number(number: Option<u64>, out: &mut Bytes) -> Result<(), NoMemory> {
    match number {
        Some(n) => write_decimal(n, out),
        None => out.append(b"None"),
    }
}

fn put_front(text: &[u8], out: &mut Bytes) -> Result<(), NoMemory> {
    let Some((n, rest)) = decimal_prefix(text) else {
        return out.append(b"None");
    };
    write_decimal(n, out)?;
    out.append(b" ")?;
    escape(rest, out)
}

// The bytes with these numbers, if each is a byte's.
fn bytes_of(alloc: Global, numbers: &[Bytes]) -> Result<Option<Bytes>, NoMemory> {
    let mut bytes = Bytes::new(alloc);
    for number in numbers {
        let Some(n) = parse_decimal(number.as_slice()) else {
            return Ok(None);
        };
        let Ok(byte) = u8::try_from(n) else {
            return Ok(None);
        };
        bytes.push(byte)?;
    }
    Ok(Some(bytes))
}

fn put_unescaped(alloc: Global, text: &[u8], out: &mut Bytes) -> Result<(), NoMemory> {
    match unescape(alloc, text)? {
        Some(bytes) => out.append(format!(in alloc; "{:?}", bytes.as_slice())?.as_bytes()),
        None => out.append(b"None"),
    }
}

/// Adds the name of an order.
pub fn put_ordering(order: Ordering, out: &mut Bytes) -> Result<(), NoMemory> {
    match order {
        Ordering::Less => out.append(b"Less"),
        Ordering::Equal => out.append(b"Equal"),
        Ordering::Greater => out.append(b"Greater"),
    }
}

fn put_order(left: &Bytes, right: &Bytes, out: &mut Bytes) -> Result<(), NoMemory> {
    put_ordering(left.cmp(right), out)?;
    if left < right {
        out.append(b" below")?;
    }
    if left == right {
        out.append(b" equal")?;
    }
    Ok(())
}

// Shows the numbers as a list, and says where a copy of it is another.
fn put_numbers(alloc: Global, numbers: &[Bytes], out: &mut Bytes) -> Result<bool, NoMemory> {
    let mut list = Seq::<u64>::new(alloc);
    for number in numbers {
        let Some(n) = parse_decimal(number.as_slice()) else {
            return Ok(false);
        };
        list.push(n)?;
    }
    out.append(format!(in alloc; "{list:?}")?.as_bytes())?;
    let copy = list.clone()?;
    if copy != list {
        out.append(b" and another copy")?;
    }
    Ok(true)
}
