use super::{Part, Plan};
use lua_grammar::{Branch, Deed, Stat, Target};
use rs_base::NoMemory;

pub fn plan_stats<'a>(
    front: &'static [u8],
    stats: &'a [Stat],
    plan: &mut Plan<'a>,
) -> Result<(), NoMemory> {
    let Some((stat, rest)) = stats.split_first() else {
        return Ok(());
    };
    plan.put(&[Part::Stats(b"; ", rest)])?;
    plan_deed(&stat.deed, plan)?;
    if stat.line != 1 {
        plan.put(&[Part::Number(u64::from(stat.line)), Part::Text(b"@")])?;
    }
    plan.put(&[Part::Text(front)])
}

fn plan_deed<'a>(deed: &'a Deed, plan: &mut Plan<'a>) -> Result<(), NoMemory> {
    match deed {
        Deed::Local(names, values) => plan.put(&[
            Part::Text(b"local "),
            Part::Names(names.as_slice()),
            Part::Text(b"="),
            Part::Exprs(b" ", values.as_slice()),
        ]),
        Deed::LocalFunction(name, body) => plan.put(&[
            Part::Text(b"local function "),
            Part::Name(*name),
            Part::Function(*body),
        ]),
        Deed::Function(name, path, body) => plan.put(&[
            Part::Text(b"function "),
            Part::Name(*name),
            Part::Text(b" "),
            Part::Names(path.as_slice()),
            Part::Function(*body),
        ]),
        Deed::Assign(targets, values) => plan.put(&[
            Part::Targets(targets.as_slice()),
            Part::Text(b"="),
            Part::Exprs(b" ", values.as_slice()),
        ]),
        Deed::Call(function, how) => plan.put(&[Part::Expr(function), Part::Call(how)]),
        Deed::Return(values) => {
            plan.put(&[Part::Text(b"return"), Part::Exprs(b" ", values.as_slice())])
        }
        Deed::ReturnCall(function, how) => plan.put(&[
            Part::Text(b"return call "),
            Part::Expr(function),
            Part::Call(how),
        ]),
        Deed::Break => plan.put(&[Part::Text(b"break")]),
        deed => plan_blocks(deed, plan),
    }
}

// A statement with blocks.
fn plan_blocks<'a>(deed: &'a Deed, plan: &mut Plan<'a>) -> Result<(), NoMemory> {
    match deed {
        Deed::Do(block) => plan.put(&[Part::Text(b"do "), Part::Block(block.as_slice())]),
        Deed::While(test, block) => plan.put(&[
            Part::Text(b"while "),
            Part::Expr(test),
            Part::Block(block.as_slice()),
        ]),
        Deed::Repeat(block, test) => plan.put(&[
            Part::Text(b"repeat "),
            Part::Block(block.as_slice()),
            Part::Expr(test),
        ]),
        Deed::If(branches, otherwise) => plan.put(&[
            Part::Text(b"if "),
            Part::Branches(branches.as_slice()),
            Part::Block(otherwise.as_slice()),
        ]),
        Deed::For(name, begin, limit, step, block) => {
            plan.put(&[Part::Block(block.as_slice())])?;
            if let Some(step) = step {
                plan.put(&[Part::Text(b","), Part::Expr(step)])?;
            }
            plan.put(&[
                Part::Text(b"for "),
                Part::Name(*name),
                Part::Text(b"="),
                Part::Expr(begin),
                Part::Text(b","),
                Part::Expr(limit),
            ])
        }
        Deed::ForIn(names, values, block) => plan.put(&[
            Part::Text(b"for "),
            Part::Names(names.as_slice()),
            Part::Text(b"in "),
            Part::Exprs(b"", values.as_slice()),
            Part::Block(block.as_slice()),
        ]),
        _ => plan.put(&[Part::Text(b"?")]),
    }
}

pub fn plan_branches<'a>(branches: &'a [Branch], plan: &mut Plan<'a>) -> Result<(), NoMemory> {
    let Some((branch, rest)) = branches.split_first() else {
        return Ok(());
    };
    plan.put(&[
        Part::Expr(&branch.test),
        Part::Block(branch.block.as_slice()),
        Part::Branches(rest),
    ])
}

// Each with a space behind it.
pub fn plan_targets<'a>(targets: &'a [Target], plan: &mut Plan<'a>) -> Result<(), NoMemory> {
    let Some((target, rest)) = targets.split_first() else {
        return Ok(());
    };
    plan.put(&[Part::Text(b" "), Part::Targets(rest)])?;
    match target {
        Target::Name(name) => plan.put(&[Part::Name(*name)]),
        Target::Index(table, key) => plan.put(&[Part::Expr(table), Part::Key(key)]),
    }
}
