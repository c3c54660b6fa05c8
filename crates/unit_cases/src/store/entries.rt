use crate::answers::put_flag;
use ks_space::{Entry, Value};
use ks_value::{HashValue, ListValue, SetValue};
use ks_zset::Zset;
use rs_base::{Bytes, NoMemory};
use rs_whole::Whole;
use std::alloc::Global;

/// Makes an entry with a value of this kind, which has these items, and says whether it is equal to a copy of itself.
pub fn answer(
    alloc: Global,
    kind: &[u8],
    items: &[Bytes],
    out: &mut Bytes,
) -> Result<bool, NoMemory> {
    let Some(value) = value_of(alloc, kind, items)? else {
        return Ok(false);
    };
    let entry = Entry {
        value,
        deadline: Some(1),
    };
    let copy = entry.clone()?;
    put_flag(copy == entry, out)
}

fn value_of(alloc: Global, kind: &[u8], items: &[Bytes]) -> Result<Option<Value>, NoMemory> {
    let value = match (kind, items) {
        (b"string", []) => Value::Str(Bytes::new(alloc)),
        (b"string", [text]) => Value::Str(text.clone()?),
        (b"list", items) => Value::List(list_of(alloc, items)?),
        (b"hash", items) => Value::Hash(hash_of(alloc, items)?),
        (b"set", items) => Value::Set(set_of(alloc, items)?),
        (b"zset", items) => Value::Sorted(zset_of(alloc, items)?),
        _ => return Ok(None),
    };
    Ok(Some(value))
}

fn list_of(alloc: Global, items: &[Bytes]) -> Result<ListValue, NoMemory> {
    let mut list = ListValue::new(alloc);
    for item in items {
        list.push_back(item.clone()?)?;
    }
    Ok(list)
}

// Each item is a field and its value.
fn hash_of(alloc: Global, items: &[Bytes]) -> Result<HashValue, NoMemory> {
    let mut hash = HashValue::new(alloc);
    for item in items {
        hash.set(item.clone()?, item.clone()?)?;
    }
    Ok(hash)
}

fn set_of(alloc: Global, items: &[Bytes]) -> Result<SetValue, NoMemory> {
    let mut set = SetValue::new(alloc);
    for item in items {
        set.insert(item.clone()?)?;
    }
    Ok(set)
}

// Each item is a member whose score is the number of its bytes, of those that have a score.
fn zset_of(alloc: Global, items: &[Bytes]) -> Result<Zset, NoMemory> {
    let mut set = Zset::new(alloc);
    for item in items {
        if let Ok(bytes) = i64::try_from(item.len())
            && let Some(score) = Whole::new(bytes)
        {
            set.insert(item.clone()?, score)?;
        }
    }
    Ok(set)
}
