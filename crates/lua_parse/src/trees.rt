//! Trees put together from their parts.

ghost use Rattle.std.specs.Prelude.{◌≡◌, [], ◌∷◌, IfOk};
ghost use Rattle.lua_grammar.specs.declared.expressions.Expr.TheVariants as expr;
ghost use Rattle.lua_grammar.specs.Parts as part;
ghost use Rattle.lua_grammar.specs.Parts.{IsReturn};
ghost use Rattle.lua_parse.specs.Fronts.{FrontOf};

use lua_grammar::{Call, Deed, Expr, Link, Suffix, Target};
use sqlite_items::{Boxed, Items};
use std::alloc::{AllocError, Global};

/// A head with what goes on with it, as one expression.
pub fn suffixed(alloc: Global, head: Expr, suffixes: Items<Suffix>) -> Result<Expr, AllocError>
    ensures { IfOk result (λ e. e ≡ part.suffixed head suffixes) }
{
    if suffixes.is_empty() {
        return Ok(head);
    }
    Ok(Expr::Suffixed(Boxed::new(alloc, head)?, suffixes))
}

/// An operand with the operators behind it, as one expression.
pub fn row(alloc: Global, first: Expr, links: Items<Link>) -> Result<Expr, AllocError>
    ensures { IfOk result (λ e. e ≡ part.row first links) }
{
    if links.is_empty() {
        return Ok(first);
    }
    Ok(Expr::Row(Boxed::new(alloc, first)?, links))
}

/// What a name or a parenthesis with its suffixes is at the front of a statement.
#[derive(Drop)]
pub enum Front {
    Target(Target),
    Call(Expr, Call),
    /// A parenthesis alone.
    Neither,
}

pub fn made_front(
    alloc: Global,
    head: Expr,
    mut suffixes: Items<Suffix>,
) -> Result<Front, AllocError>
    ensures { IfOk result (FrontOf head suffixes) }
{
    match suffixes.pop() {
        Some(Suffix::Key(key)) => {
            Ok(Front::Target(Target::Index(suffixed(alloc, head, suffixes)?, key)))
        }
        Some(Suffix::Call(how)) => Ok(Front::Call(suffixed(alloc, head, suffixes)?, how)),
        None => match head {
            Expr::Name(name) => Ok(Front::Target(Target::Name(name))),
            _ => Ok(Front::Neither),
        },
    }
}

/// What a `return` with these values does.
pub fn returned(alloc: Global, mut values: Items<Expr>) -> Result<Deed, AllocError>
    ensures { IfOk result (IsReturn values) }
{
    if values.len() != 1 {
        return Ok(Deed::Return(values));
    }
    match values.pop() {
        None => Ok(Deed::Return(values)),
        Some(value) => returned_value(alloc, value),
    }
}

fn returned_value(alloc: Global, value: Expr) -> Result<Deed, AllocError>
    ensures { IfOk result (IsReturn (value ∷ [])) }
{
    match value {
        Expr::Suffixed(head, suffixes) => returned_chain(alloc, head, suffixes),
        other => Ok(Deed::Return(only(alloc, other)?)),
    }
}

fn returned_chain(
    alloc: Global,
    head: Boxed<Expr>,
    mut suffixes: Items<Suffix>,
) -> Result<Deed, AllocError>
    ensures { IfOk result (IsReturn (expr.Suffixed head suffixes ∷ [])) }
{
    match suffixes.pop() {
        Some(Suffix::Call(how)) => {
            let function = suffixed(alloc, head.into_inner(), suffixes)?;
            Ok(Deed::ReturnCall(function, how))
        }
        Some(Suffix::Key(key)) => {
            suffixes.push(Suffix::Key(key))?;
            Ok(Deed::Return(only(alloc, Expr::Suffixed(head, suffixes))?))
        }
        None => Ok(Deed::Return(only(alloc, Expr::Suffixed(head, suffixes))?)),
    }
}

/// The expression as a list.
pub fn only(alloc: Global, expression: Expr) -> Result<Items<Expr>, AllocError>
    ensures { IfOk result (λ list. list ≡ expression ∷ []) }
{
    let mut list = room_for(alloc, 1)?;
    list.push(expression)?;
    Ok(list)
}

/// The same items in a list of just their size: a tree has many short lists, and a list that grew has room to spare.
/// Who gathers a list for a tree ends with this.
pub fn exact<T: Drop>(alloc: Global, items: Items<T>) -> Result<Items<T>, AllocError>
    ensures { IfOk result (λ exact. exact ≡ items) }
{
    if items.is_empty() {
        return Ok(items);
    }
    let mut exact = room_for(alloc, items.len())?;
    exact.append(items)?;
    Ok(exact)
}

// No items, with room for so many.
fn room_for<T: Drop>(alloc: Global, count: usize) -> Result<Items<T>, AllocError>
    ensures { IfOk result (λ items. items ≡ []) }
{
    Ok(Items::from_vec(Vec::with_capacity(alloc, count)?))
}
