use ks_value::{HashValue, ListValue, SetValue};
use ks_zset::Zset;
use rs_base::Bytes;
use std::alloc::AllocError;

/// What a key holds (Redis manual, data types).
#[derive(Debug, Drop, PartialEq, Eq)]
pub enum Value {
    /// A string of bytes.
    Str(Bytes),
    /// A list of strings.
    List(ListValue),
    /// Fields with a value each, in order of first insertion.
    Hash(HashValue),
    /// Members, in byte order.
    Set(SetValue),
    /// Members with a score each, in order of score and then of their bytes.
    Sorted(Zset),
}

/// A value, and its deadline: the last millisecond, counted from the Unix epoch, at which the key is still there, or
/// none.
#[derive(Debug, Drop, PartialEq, Eq)]
pub struct Entry {
    pub value: Value,
    pub deadline: Option<u64>,
}

impl Clone for Value {
    ghost use Rattle.std.specs.Prelude.{◌≡◌};

    ghost is_clone = { λ old new. new ≡ old };

    fn clone(&self) -> Result<Value, AllocError> {
        match self {
            Value::Str(text) => Ok(Value::Str(text.clone()?)),
            Value::List(items) => Ok(Value::List(items.clone()?)),
            Value::Hash(fields) => Ok(Value::Hash(fields.clone()?)),
            Value::Set(members) => Ok(Value::Set(members.clone()?)),
            Value::Sorted(scores) => Ok(Value::Sorted(scores.clone()?)),
        }
    }
}

impl Clone for Entry {
    ghost use Rattle.std.specs.Prelude.{◌≡◌};

    ghost is_clone = { λ old new. new ≡ old };

    fn clone(&self) -> Result<Entry, AllocError> {
        Ok(Entry {
            value: self.value.clone()?,
            deadline: self.deadline,
        })
    }
}
