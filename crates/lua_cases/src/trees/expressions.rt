use super::{Part, Plan};
use lua_grammar::{Binary, Call, Expr, Field, Key, Link, Suffix, Unary};
use rs_base::NoMemory;

pub fn plan_exprs<'a>(
    front: &'static [u8],
    values: &'a [Expr],
    plan: &mut Plan<'a>,
) -> Result<(), NoMemory> {
    let Some((value, rest)) = values.split_first() else {
        return Ok(());
    };
    plan.put(&[
        Part::Text(front),
        Part::Expr(value),
        Part::Exprs(b" ", rest),
    ])
}

pub fn plan_expr<'a>(value: &'a Expr, plan: &mut Plan<'a>) -> Result<(), NoMemory> {
    match value {
        Expr::Nil => plan.put(&[Part::Text(b"nil")]),
        Expr::False => plan.put(&[Part::Text(b"false")]),
        Expr::True => plan.put(&[Part::Text(b"true")]),
        Expr::Number(number) => plan.put(&[Part::Number(number.get().unsigned_abs())]),
        Expr::Text(number) => {
            plan.put(&[Part::Text(b"\""), Part::Quoted(*number), Part::Text(b"\"")])
        }
        Expr::Varargs => plan.put(&[Part::Text(b"...")]),
        Expr::Function(body) => plan.put(&[Part::Function(*body)]),
        Expr::Name(name) => plan.put(&[Part::Name(*name)]),
        Expr::Paren(inside) => {
            plan.put(&[Part::Text(b"<"), Part::Expr(inside.get()), Part::Text(b">")])
        }
        Expr::Suffixed(head, suffixes) => {
            plan.put(&[Part::Expr(head.get()), Part::Suffixes(suffixes.as_slice())])
        }
        Expr::Table(fields) => plan.put(&[
            Part::Text(b"{"),
            Part::Fields(b"", fields.as_slice()),
            Part::Text(b"}"),
        ]),
        Expr::Unary(by, operand) => plan.put(&[
            Part::Text(unary_word(*by)),
            Part::Expr(operand.get()),
            Part::Text(b")"),
        ]),
        Expr::Row(first, links) => plan.put(&[
            Part::Text(b"("),
            Part::Expr(first.get()),
            Part::Links(links.as_slice()),
            Part::Text(b")"),
        ]),
    }
}

pub fn plan_links<'a>(links: &'a [Link], plan: &mut Plan<'a>) -> Result<(), NoMemory> {
    let Some((link, rest)) = links.split_first() else {
        return Ok(());
    };
    plan.put(&[
        Part::Text(binary_word(link.by)),
        Part::Expr(&link.operand),
        Part::Links(rest),
    ])
}

pub fn plan_suffixes<'a>(suffixes: &'a [Suffix], plan: &mut Plan<'a>) -> Result<(), NoMemory> {
    let Some((suffix, rest)) = suffixes.split_first() else {
        return Ok(());
    };
    plan.put(&[Part::Suffixes(rest)])?;
    match suffix {
        Suffix::Key(key) => plan.put(&[Part::Key(key)]),
        Suffix::Call(call) => plan.put(&[Part::Call(call)]),
    }
}

pub fn plan_key<'a>(key: &'a Key, plan: &mut Plan<'a>) -> Result<(), NoMemory> {
    match key {
        Key::Field(name) => plan.put(&[Part::Text(b"."), Part::Name(*name)]),
        Key::Index(index) => plan.put(&[Part::Text(b"["), Part::Expr(index), Part::Text(b"]")]),
    }
}

pub fn plan_call<'a>(call: &'a Call, plan: &mut Plan<'a>) -> Result<(), NoMemory> {
    match call {
        Call::Plain(arguments) => plan.put(&[
            Part::Text(b"("),
            Part::Exprs(b"", arguments.as_slice()),
            Part::Text(b")"),
        ]),
        Call::Method(name, arguments) => plan.put(&[
            Part::Text(b":"),
            Part::Name(*name),
            Part::Text(b"("),
            Part::Exprs(b"", arguments.as_slice()),
            Part::Text(b")"),
        ]),
    }
}

pub fn plan_fields<'a>(
    front: &'static [u8],
    fields: &'a [Field],
    plan: &mut Plan<'a>,
) -> Result<(), NoMemory> {
    let Some((field, rest)) = fields.split_first() else {
        return Ok(());
    };
    plan.put(&[Part::Fields(b" ", rest)])?;
    match field {
        Field::Keyed(key, value) => plan.put(&[
            Part::Text(b"["),
            Part::Expr(key),
            Part::Text(b"]="),
            Part::Expr(value),
        ])?,
        Field::Named(name, value) => {
            plan.put(&[Part::Name(*name), Part::Text(b"="), Part::Expr(value)])?
        }
        Field::Plain(value) => plan.put(&[Part::Expr(value)])?,
    }
    plan.put(&[Part::Text(front)])
}

fn unary_word(by: Unary) -> &'static [u8] {
    match by {
        Unary::Not => b"(not ",
        Unary::Length => b"(# ",
        Unary::Minus => b"(- ",
    }
}

fn binary_word(by: Binary) -> &'static [u8] {
    match by {
        Binary::Or => b" or ",
        Binary::And => b" and ",
        Binary::Less => b" < ",
        Binary::Greater => b" > ",
        Binary::LessEqual => b" <= ",
        Binary::GreaterEqual => b" >= ",
        Binary::NotEqual => b" ~= ",
        Binary::Equal => b" == ",
        Binary::Concat => b" .. ",
        Binary::Add => b" + ",
        Binary::Subtract => b" - ",
        Binary::Multiply => b" * ",
        Binary::Divide => b" / ",
        Binary::Modulo => b" % ",
        Binary::Power => b" ^ ",
    }
}
