ghost use Rattle.std.specs.Prelude.{◌≡◌, ◌++◌, codes, OnOk};
ghost use Rattle.std.specs.List.{flat_map};
ghost use Rattle.std.specs.Fmt.{signed_decimal};
ghost use Rattle.ks_zset.specs.Zset.{ranking_of};
ghost use Rattle.fx_log.specs.Dump.{dump, line_at, entry_line, deadline_text, kind_text, word_text};
ghost use Rattle.fx_log.specs.Dump.{pair_text, scored_text, contents_text};

use itoa::Buffer;
use ks_space::{Entry, Space, Value};
use ks_value::{HashValue, ListValue, SetValue};
use ks_zset::Zset;
use rs_base::{Bytes, NoMemory, escape, write_decimal};
use rs_whole::Whole;

/// Adds the dump of a store: a line for each key, in the order of the keys' bytes.
pub fn dump(space: &Space, out: &mut Bytes) -> Result<(), NoMemory>
    ensures { OnOk result (out.new ≡ out.old ++ dump space.now) }
{
    for key in space.keys()?.as_slice() {
        write_line(space, key.as_slice(), out)?;
    }
    Ok(())
}

// Adds a key's line, where the key is there.
fn write_line(space: &Space, key: &[u8], out: &mut Bytes) -> Result<(), NoMemory>
    ensures { OnOk result (out.new ≡ out.old ++ line_at space.now key.now) }
{
    match space.get(key) {
        Some(entry) => write_entry(key, entry, out),
        None => Ok(()),
    }
}

// Adds the line of a key with this entry.
fn write_entry(key: &[u8], entry: &Entry, out: &mut Bytes) -> Result<(), NoMemory>
    ensures { OnOk result (out.new ≡ out.old ++ entry_line (key.now, entry.now)) }
{
    escape(key, out)?;
    out.append(b" ")?;
    out.append(kind(&entry.value))?;
    out.append(b" ")?;
    write_deadline(entry.deadline, out)?;
    write_contents(&entry.value, out)?;
    out.append(b"\n")
}

fn kind(value: &Value) -> &'static [u8]
    ensures { result.now ≡ kind_text value.now }
{
    match value {
        Value::Str(_) => b"string",
        Value::List(_) => b"list",
        Value::Hash(_) => b"hash",
        Value::Set(_) => b"set",
        Value::Sorted(_) => b"zset",
    }
}

fn write_deadline(deadline: Option<u64>, out: &mut Bytes) -> Result<(), NoMemory>
    ensures { OnOk result (out.new ≡ out.old ++ deadline_text deadline) }
{
    match deadline {
        None => out.append(b"-"),
        Some(deadline) => write_decimal(deadline, out),
    }
}

fn write_contents(value: &Value, out: &mut Bytes) -> Result<(), NoMemory>
    ensures { OnOk result (out.new ≡ out.old ++ contents_text value.now) }
{
    match value {
        Value::Str(bytes) => write_word(bytes.as_slice(), out),
        Value::List(items) => write_items(items, out),
        Value::Hash(pairs) => write_pairs(pairs, out),
        Value::Set(members) => write_members(members, out),
        Value::Sorted(scores) => write_scored(scores, out),
    }
}

fn write_items(items: &ListValue, out: &mut Bytes) -> Result<(), NoMemory>
    ensures { OnOk result (out.new ≡ out.old ++ flat_map word_text items.now) }
{
    for item in items.iter() {
        write_word(item.as_slice(), out)?;
    }
    Ok(())
}

fn write_pairs(pairs: &HashValue, out: &mut Bytes) -> Result<(), NoMemory>
    ensures { OnOk result (out.new ≡ out.old ++ flat_map pair_text pairs.now) }
{
    for (field, value) in pairs.iter() {
        write_word(field, out)?;
        write_word(value.as_slice(), out)?;
    }
    Ok(())
}

fn write_members(members: &SetValue, out: &mut Bytes) -> Result<(), NoMemory>
    ensures { OnOk result (out.new ≡ out.old ++ flat_map word_text members.now) }
{
    for member in members.iter() {
        write_word(member, out)?;
    }
    Ok(())
}

fn write_scored(scores: &Zset, out: &mut Bytes) -> Result<(), NoMemory>
    ensures { OnOk result (out.new ≡ out.old ++ flat_map scored_text (ranking_of scores.now)) }
{
    for (member, score) in scores.ranks(0, scores.len())?.as_slice() {
        write_score(*score, out)?;
        write_word(member.as_slice(), out)?;
    }
    Ok(())
}

fn write_score(score: Whole, out: &mut Bytes) -> Result<(), NoMemory>
    ensures { OnOk result (out.new ≡ out.old ++ codes " " ++ signed_decimal score) }
{
    let mut buffer = Buffer::new();
    out.append(b" ")?;
    out.append(buffer.format(score.get()).as_bytes())
}

fn write_word(text: &[u8], out: &mut Bytes) -> Result<(), NoMemory>
    ensures { OnOk result (out.new ≡ out.old ++ word_text text.now) }
{
    out.append(b" ")?;
    escape(text, out)
}
