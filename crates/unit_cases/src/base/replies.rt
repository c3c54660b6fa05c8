use crate::answers::put_flag;
use resp_reply::{Replies, Reply, put};
use rs_base::{Bytes, NoMemory, escape, parse_decimal};
use rs_whole::integer;
use std::alloc::Global;

/// The calls of replies.
pub fn answer(
    alloc: Global,
    name: &[u8],
    args: &[Bytes],
    out: &mut Bytes,
) -> Result<bool, NoMemory> {
    match name {
        b"reply" => put_reply(alloc, args, out),
        b"equal" => put_equal(alloc, args, out),
        _ => Ok(false),
    }
}

fn put_reply(alloc: Global, parts: &[Bytes], out: &mut Bytes) -> Result<bool, NoMemory> {
    let Some(replies) = replies_of(alloc, parts)? else {
        return Ok(false);
    };
    let [reply] = replies.as_slice() else {
        return Ok(false);
    };
    let mut text = Bytes::new(alloc);
    put(reply, &mut text)?;
    escape(text.as_slice(), out)?;
    Ok(true)
}

fn put_equal(alloc: Global, parts: &[Bytes], out: &mut Bytes) -> Result<bool, NoMemory> {
    let Some(replies) = replies_of(alloc, parts)? else {
        return Ok(false);
    };
    let [left, right] = replies.as_slice() else {
        return Ok(false);
    };
    put_flag(left == right, out)
}

// The replies that the parts are, if they are some.
fn replies_of(alloc: Global, parts: &[Bytes]) -> Result<Option<Vec<Reply>>, NoMemory> {
    let mut replies = Vec::new(alloc);
    let mut rest = parts.iter();
    while let Some(name) = rest.next() {
        let reply = match name.as_slice() {
            b"null" => Some(Reply::NullBulk),
            b"no_array" => Some(Reply::NullArray),
            b"array" => array_of(alloc, &mut replies, rest.next())?,
            name => reply_of(alloc, name, rest.next())?,
        };
        match reply {
            Some(reply) => replies.push(reply)?,
            None => return Ok(None),
        }
    }
    Ok(Some(replies))
}

// The reply of a name and the word behind it.
fn reply_of(alloc: Global, name: &[u8], word: Option<&Bytes>) -> Result<Option<Reply>, NoMemory> {
    let Some(word) = word else {
        return Ok(None);
    };
    let text = word.as_slice();
    match name {
        b"status" => Ok(Some(Reply::status(alloc, text)?)),
        b"fault" => Ok(Some(Reply::fault(alloc, text)?)),
        b"bulk" => Ok(Some(Reply::bulk(alloc, text)?)),
        b"int" => Ok(integer(text).map(Reply::Int)),
        _ => Ok(None),
    }
}

// The array of the last of the replies, as many as the word says.
fn array_of(
    alloc: Global,
    replies: &mut Vec<Reply>,
    word: Option<&Bytes>,
) -> Result<Option<Reply>, NoMemory> {
    let Some(count) = word.and_then(|word| parse_decimal(word.as_slice())) else {
        return Ok(None);
    };
    let mut items = Vec::new(alloc);
    for _ in 0..count {
        let Some(reply) = replies.pop() else {
            return Ok(None);
        };
        items.push(reply)?;
    }
    items.reverse();
    Ok(Some(Reply::Array(Replies::from_vec(items))))
}
