use crate::answers::{put_count, put_done, put_end, put_flag, put_item};
use crate::words::place;
use ks_zset::Zset;
use rs_base::{Bytes, NoMemory, write_decimal};
use rs_whole::{Whole, numeral};
use std::alloc::Global;

/// A sorted set, and the copy that was made last.
#[derive(Drop)]
pub struct Zsets {
    set: Zset,
    copy: Zset,
}

impl Zsets {
    pub fn new(alloc: Global) -> Zsets {
        Zsets {
            set: Zset::new(alloc),
            copy: Zset::new(alloc),
        }
    }

    pub fn answer(
        &mut self,
        name: &[u8],
        args: &[Bytes],
        out: &mut Bytes,
    ) -> Result<bool, NoMemory> {
        match (name, args) {
            (_, []) => self.answer_alone(name, out),
            (_, [word]) => self.answer_of(name, word, out),
            (b"insert", [member, score]) => self.insert(member, score, out),
            (b"ranks", [from, to]) => self.ranks(from, to, out),
            _ => Ok(false),
        }
    }

    fn insert(&mut self, member: &Bytes, score: &Bytes, out: &mut Bytes) -> Result<bool, NoMemory> {
        let Some(score) = score_of(score) else {
            return Ok(false);
        };
        let old = self.set.insert(member.clone()?, score)?;
        put_score(old, out)
    }

    fn ranks(&self, from: &Bytes, to: &Bytes, out: &mut Bytes) -> Result<bool, NoMemory> {
        let (Some(from), Some(to)) = (place(from), place(to)) else {
            return Ok(false);
        };
        for (member, score) in self.set.ranks(from, to)?.as_slice() {
            put_item(member.as_slice(), out)?;
            out.push(b'=')?;
            write_score(*score, out)?;
        }
        put_end(out)
    }

    fn answer_of(&mut self, name: &[u8], word: &Bytes, out: &mut Bytes) -> Result<bool, NoMemory> {
        match name {
            b"score" => put_score(self.set.score(word.as_slice()), out),
            b"remove" => put_score(self.set.remove(word.as_slice()), out),
            b"rank" => put_rank(self.set.rank(word.as_slice()), out),
            b"below" => self.below(word, false, out),
            b"up_to" => self.below(word, true, out),
            _ => Ok(false),
        }
    }

    fn below(&self, score: &Bytes, or_equal: bool, out: &mut Bytes) -> Result<bool, NoMemory> {
        match score_of(score) {
            Some(score) => put_count(self.set.below(score, or_equal), out),
            None => Ok(false),
        }
    }

    fn answer_alone(&mut self, name: &[u8], out: &mut Bytes) -> Result<bool, NoMemory> {
        match name {
            b"len" => put_count(self.set.len(), out),
            b"is_empty" => put_flag(self.set.is_empty(), out),
            b"copy" => {
                self.copy = self.set.copy()?;
                put_done(out)
            }
            b"is_copy" => put_flag(self.set == self.copy, out),
            _ => Ok(false),
        }
    }
}

fn score_of(word: &Bytes) -> Option<Whole> {
    match numeral(word.as_slice()) {
        Some(Ok(score)) => Some(score),
        _ => None,
    }
}

fn put_score(score: Option<Whole>, out: &mut Bytes) -> Result<bool, NoMemory> {
    match score {
        Some(score) => write_score(score, out)?,
        None => out.append(b"none")?,
    }
    Ok(true)
}

fn write_score(score: Whole, out: &mut Bytes) -> Result<(), NoMemory> {
    if score.get() < 0 {
        out.push(b'-')?;
    }
    write_decimal(score.get().unsigned_abs(), out)
}

fn put_rank(rank: Option<usize>, out: &mut Bytes) -> Result<bool, NoMemory> {
    match rank {
        Some(rank) => put_count(rank, out),
        None => put_end(out),
    }
}
