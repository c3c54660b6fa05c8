//! Trees as text. What is left to write is a list of parts, so that no function leads back to itself.

mod expressions;
mod statements;

use expressions::{
    plan_call, plan_expr, plan_exprs, plan_fields, plan_key, plan_links, plan_suffixes,
};
use lua_grammar::{Body, Branch, Call, Chunk, Expr, Field, Key, Link, Name, Stat, Suffix, Target};
use rs_base::{Bytes, NoMemory, Words, escape, write_decimal};
use statements::{plan_branches, plan_stats, plan_targets};
use std::alloc::Global;

/// A part of what is written. A list has a text before its first item.
#[derive(Clone, Copy)]
pub enum Part<'a> {
    Text(&'static [u8]),
    Number(u64),
    Name(Name),
    /// The bytes of a string.
    Quoted(u32),
    /// The number of a body.
    Function(u32),
    Names(&'a [Name]),
    Stats(&'static [u8], &'a [Stat]),
    Block(&'a [Stat]),
    Branches(&'a [Branch]),
    Targets(&'a [Target]),
    Expr(&'a Expr),
    Exprs(&'static [u8], &'a [Expr]),
    Suffixes(&'a [Suffix]),
    Key(&'a Key),
    Call(&'a Call),
    Links(&'a [Link]),
    Fields(&'static [u8], &'a [Field]),
    Bodies(&'a [Body]),
}

/// What is left to write, the next part last.
#[derive(Drop)]
pub struct Plan<'a> {
    parts: Vec<Part<'a>>,
}

impl<'a> Plan<'a> {
    /// Puts these parts before all others.
    pub fn put(&mut self, parts: &[Part<'a>]) -> Result<(), NoMemory> {
        for part in parts.iter().rev() {
            self.parts.push(*part)?;
        }
        Ok(())
    }
}

/// The main text, and behind it the body of each function.
pub fn put_chunk(alloc: Global, chunk: &Chunk, out: &mut Bytes) -> Result<(), NoMemory> {
    if chunk.block.is_empty() {
        return out.append(b"none");
    }
    let mut plan = Plan {
        parts: Vec::new(alloc),
    };
    plan.put(&[
        Part::Stats(b"", chunk.block.as_slice()),
        Part::Bodies(chunk.bodies.as_slice()),
    ])?;
    // There is an end to the parts of a tree, which no proof is asked for.
    for _ in 0..u64::MAX {
        match plan.parts.pop() {
            Some(part) => put_part(part, &mut plan, &chunk.texts, out)?,
            None => return Ok(()),
        }
    }
    Ok(())
}

fn put_part<'a>(
    part: Part<'a>,
    plan: &mut Plan<'a>,
    texts: &Words,
    out: &mut Bytes,
) -> Result<(), NoMemory> {
    match part {
        Part::Text(text) => out.append(text),
        Part::Number(number) => write_decimal(number, out),
        Part::Name(name) => put_text(texts, name.text, out),
        Part::Quoted(number) => put_text(texts, number, out),
        Part::Function(body) => put_function(body, out),
        Part::Names(names) => put_names(texts, names, out),
        Part::Stats(front, stats) => plan_stats(front, stats, plan),
        Part::Block(stats) => plan.put(&[
            Part::Text(b"{"),
            Part::Stats(b"", stats),
            Part::Text(b"}"),
        ]),
        Part::Branches(branches) => plan_branches(branches, plan),
        Part::Targets(targets) => plan_targets(targets, plan),
        Part::Expr(value) => plan_expr(value, plan),
        Part::Exprs(front, values) => plan_exprs(front, values, plan),
        Part::Suffixes(suffixes) => plan_suffixes(suffixes, plan),
        Part::Key(key) => plan_key(key, plan),
        Part::Call(call) => plan_call(call, plan),
        Part::Links(links) => plan_links(links, plan),
        Part::Fields(front, fields) => plan_fields(front, fields, plan),
        Part::Bodies(bodies) => plan_bodies(bodies, plan),
    }
}

fn put_text(texts: &Words, number: u32, out: &mut Bytes) -> Result<(), NoMemory> {
    match texts.get(number as usize) {
        Some(text) => escape(text.as_slice(), out),
        None => out.push(b'?'),
    }
}

fn put_function(body: u32, out: &mut Bytes) -> Result<(), NoMemory> {
    out.push(b'#')?;
    write_decimal(u64::from(body), out)
}

// Each with a space behind it.
fn put_names(texts: &Words, names: &[Name], out: &mut Bytes) -> Result<(), NoMemory> {
    for name in names {
        put_text(texts, name.text, out)?;
        out.push(b' ')?;
    }
    Ok(())
}

fn plan_bodies<'a>(bodies: &'a [Body], plan: &mut Plan<'a>) -> Result<(), NoMemory> {
    let Some((body, rest)) = bodies.split_first() else {
        return Ok(());
    };
    plan.put(&[
        Part::Text(b" | "),
        Part::Number(u64::from(body.line)),
        Part::Text(if body.method { b":self(" } else { b":(" }),
        Part::Names(body.parameters.as_slice()),
        Part::Text(if body.varargs { b"...)" } else { b")" }),
        Part::Block(body.block.as_slice()),
        Part::Bodies(rest),
    ])
}
