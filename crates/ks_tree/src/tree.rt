ghost use Rattle.std.specs.Prelude.{◌≡◌, ◌+◌, ◌-◌, ◌*◌, ◌<◌, ◌≤◌, ◌↔◌, ◌^◌, [], ◌∷◌, ◌++◌, Bool, List, Some, length};
ghost use Rattle.std.specs.Prelude.{IsTrue, IfOk, OnOk, insert, remove, count_by, slice_get, slice_range};
ghost use Rattle.std.specs.Option.{option_copied};
ghost use Rattle.std.specs.Fn.{ComputesKey};
ghost use Rattle.std.specs.List.{AllZip};
ghost use Rattle.std.specs.List.Sorted.{IsPartitionedBy};
ghost use Rattle.ks_tree.specs.Weights.{AreInBalance, AreNearBalance, HasRoom, IsShallow};

use rs_base::{NoMemory, Seq};
use std::alloc::{AllocError, AllocFailed, Global};
use std::marker::Model;
use std::mem;

/// A tree of items in order. Contracts see it as their list.
///
/// The trees are weight-balanced in the manner of Adams, with the parameters 3 and 2 (Hirai and Yamamoto, Balancing
/// weight-balanced trees, 2011): a tree's weight is one more than its length, of two sides neither weighs more than
/// three times the other, and so the depth is at most 2.41 times the binary logarithm of the weight.
#[cycle(tree)]
#[derive(Debug, Drop)]
pub struct Tree<T> {
    root: Root<T>,
    /// How many items it has. It stands beside the root, not in it, so that a look at a side's length does not reach
    /// for that side's memory.
    len: usize,
}

#[cycle(tree)]
#[derive(Debug, Drop)]
enum Root<T> {
    Empty,
    Full(Box<Node<T>>),
}

#[cycle(tree)]
#[derive(Debug, Drop)]
pub struct Node<T> {
    left: Tree<T>,
    item: T,
    right: Tree<T>,
}

impl<T> Model for Tree<T> {
    ghost use Rattle.std.specs.Prelude.{◌≡◌, List, length};
    ghost use Rattle.std.specs.Coded.{coded_list};

    ghost Value = { List T };

    ghost coded = { coded_list T.code };

    ghost use Rattle.ks_tree.specs.Trees.{items, IsBalanced};

    ghost view = { λ t. items t.root };

    ghost invariant = { λ t. (t.len ≡ length (items t.root)) × IsBalanced t.root };

    ghost size = { length };

    ghost use Rattle.std.proofs.Common.{arith, length-append};

    ghost size_decreases = { λ t h. Prim.grind (arith, length-append) };
}

/// The two sides with the node's item between them, in the node's own memory.
fn link<T: Drop>(left: Tree<T>, mut node: Box<Node<T>>, right: Tree<T>) -> Tree<T>
    requires balanced { AreInBalance (length left) (length right) }
    requires fits { length left + length right + 1 < 2 ^ 64 }
    ensures { result ≡ left ++ node.value.item ∷ right }
{
    let len = left.len() + right.len() + 1;
    node.left = left;
    node.right = right;
    Tree {
        root: Root::Full(node),
        len,
    }
}

/// The same, where one side has gained or lost an item since they were in balance.
fn balance<T: Drop>(left: Tree<T>, node: Box<Node<T>>, right: Tree<T>) -> Tree<T>
    requires near { AreNearBalance (length left) (length right) }
    requires fits { length left + length right + 1 < 2 ^ 64 }
    ensures { result ≡ left ++ node.value.item ∷ right }
{
    if left.outweighs(&right) {
        lean_right(left, node, right)
    } else if right.outweighs(&left) {
        lean_left(left, node, right)
    } else {
        link(left, node, right)
    }
}

/// A rotation to the left, single or double.
fn lean_left<T: Drop>(left: Tree<T>, node: Box<Node<T>>, right: Tree<T>) -> Tree<T>
    requires heavy { 3 * (length left + 1) < length right + 1 }
    requires near { AreNearBalance (length left) (length right) }
    requires fits { length left + length right + 1 < 2 ^ 64 }
    ensures { result ≡ left ++ node.value.item ∷ right }
{
    let (inner, pivot, outer) = right.unlink();
    if inner.is_light_beside(&outer) {
        return link(link(left, node, inner), pivot, outer);
    }
    let (low, middle, high) = inner.unlink();
    link(link(left, node, low), middle, link(high, pivot, outer))
}

/// A rotation to the right, single or double.
fn lean_right<T: Drop>(left: Tree<T>, node: Box<Node<T>>, right: Tree<T>) -> Tree<T>
    requires heavy { 3 * (length right + 1) < length left + 1 }
    requires near { AreNearBalance (length left) (length right) }
    requires fits { length left + length right + 1 < 2 ^ 64 }
    ensures { result ≡ left ++ node.value.item ∷ right }
{
    let (outer, pivot, inner) = left.unlink();
    if inner.is_light_beside(&outer) {
        return link(outer, pivot, link(inner, node, right));
    }
    let (low, middle, high) = inner.unlink();
    link(link(outer, pivot, low), middle, link(high, node, right))
}

impl<T> Tree<T> {
    pub fn new() -> Tree<T>
        ensures { result ≡ [] }
    {
        Tree {
            root: Root::Empty,
            len: 0,
        }
    }

    pub fn len(&self) -> usize
        ensures { result ≡ length self.now }
    {
        self.len
    }

    /// How many items lie on the longest way down from the root: 0 where there is none.
    pub fn depth(&self) -> usize
        ensures room { HasRoom result (length self.now) }
        ensures shallow { IsShallow result (length self.now) }
        ensures within { result ≤ length self.now }
    {
        let Root::Full(node) = &self.root else {
            return 0;
        };
        // Asked, so that the length is known to fit.
        let _len = self.len();
        let left = node.left.depth();
        let right = node.right.depth();
        left.max(right) + 1
    }

    /// Whether it weighs more than three times the other.
    fn outweighs(&self, other: &Tree<T>) -> bool
        ensures { IsTrue result ↔ (3 * (length other.now + 1) < length self.now + 1) }
    {
        // a + 1 > 3 * (b + 1), without a number that could pass the type's end
        self.len() / 3 > other.len()
    }

    /// Whether it weighs less than twice the other.
    fn is_light_beside(&self, other: &Tree<T>) -> bool
        ensures { IsTrue result ↔ (length self.now + 1 < 2 * (length other.now + 1)) }
    {
        // a + 1 < 2 * (b + 1)
        self.len() / 2 + self.len() % 2 <= other.len()
    }

    /// The left side, the root's node, whose sides are then empty, and the right side.
    fn unlink(self) -> (Tree<T>, Box<Node<T>>, Tree<T>)
        requires { 0 < length self }
        ensures items { self ≡ result.0 ++ result.1.value.item ∷ result.2 }
        ensures balanced { AreInBalance (length result.0) (length result.2) }
        ensures fits { length self < 2 ^ 64 }
    {
        // Read, so that it is known to fit.
        let _len = self.len;
        let Root::Full(mut node) = self.root else {
            unreachable!()
        };
        let left = mem::replace(&mut node.left, Tree::new());
        let right = mem::replace(&mut node.right, Tree::new());
        (left, node, right)
    }

    /// The item at `at`, counted from 0.
    pub fn get(&self, at: usize) -> Option<&T>
        ensures { option_copied result ≡ slice_get self.now at }
    {
        let Root::Full(node) = &self.root else {
            return None;
        };
        let here = node.left.len();
        if at < here {
            node.left.get(at)
        } else if at > here {
            node.right.get(at - here - 1)
        } else {
            Some(&node.item)
        }
    }
}

impl<T> Node<T> {
    /// The item alone, which takes the only memory that an item takes.
    pub fn new(alloc: Global, item: T) -> Result<Box<Node<T>>, AllocFailed<Node<T>>>
        ensures { IfOk result (λ node. node.value.item ≡ item) }
    {
        Box::new(
            alloc,
            Node {
                left: Tree::new(),
                item,
                right: Tree::new(),
            },
        )
    }
}

impl<T: Drop> Node<T> {
    pub fn into_item(node: Box<Node<T>>) -> T
        ensures { result ≡ node.value.item }
    {
        let Node { item, .. } = Box::into_inner(node);
        item
    }
}

impl<T> Tree<T> {
    /// How many items pass a test that none passes behind one that fails it.
    pub fn partition_point<P: FnMut(&T) -> bool>(&self, mut pred: P) -> usize
        requires { P.IsAlwaysCallable pred }
        ensures within { result ≤ length self.now }
        ensures count { (p : T → Bool) → ComputesKey P.FnMut p pred → IsPartitionedBy p self.now
            → result ≡ count_by p self.now }
    {
        let mut count = self.len();
        let mut tree = self;
        while let Root::Full(node) = &tree.root {
            if pred(&node.item) {
                tree = &node.right;
            } else {
                count -= node.right.len() + 1;
                tree = &node.left;
            }
        }
        count
    }
}

impl<T: Clone + Drop> Node<T> {
    /// Adds a clone of the node's own item, where its place is from `from` up to and without `to`.
    fn copy_item(&self, from: usize, to: usize, copies: &mut Seq<T>) -> Result<(), NoMemory>
        ensures { OnOk result ((xs : List T) → AllZip T.is_clone xs copies.old
            → AllZip T.is_clone
            (xs ++ slice_range (self.now.item ∷ []) (from - length self.now.left) (to - length self.now.left))
            copies.new) }
    {
        let here = self.left.len();
        if from > here || to <= here {
            return Ok(());
        }
        copies.push(self.item.clone()?)
    }
}

impl<T: Clone + Drop> Tree<T> {
    /// Adds clones of the items from `from` up to and without `to`, of those that there are.
    pub fn copy_range(&self, from: usize, to: usize, copies: &mut Seq<T>) -> Result<(), NoMemory>
        ensures { OnOk result ((xs : List T) → AllZip T.is_clone xs copies.old
            → AllZip T.is_clone (xs ++ slice_range self.now from to) copies.new) }
    {
        let Root::Full(node) = &self.root else {
            return Ok(());
        };
        if from >= to || from >= self.len {
            return Ok(());
        }
        let here = node.left.len();
        node.left.copy_range(from, to, copies)?;
        node.copy_item(from, to, copies)?;
        node.right.copy_range(
            from.saturating_sub(here + 1),
            to.saturating_sub(here + 1),
            copies,
        )
    }

    /// Clones of the items, in a tree of the same shape.
    pub fn copy(&self, alloc: Global) -> Result<Tree<T>, AllocError>
        ensures { IfOk result (λ copy. AllZip T.is_clone self.now copy) }
    {
        let Root::Full(node) = &self.root else {
            return Ok(Tree::new());
        };
        let left = node.left.copy(alloc)?;
        let item = node.item.clone()?;
        let right = node.right.copy(alloc)?;
        let copy = Box::new(alloc, Node { left, item, right })?;
        Ok(Tree {
            root: Root::Full(copy),
            len: self.len,
        })
    }
}

impl<T: Drop> Tree<T> {
    /// With the node's item at `at`.
    pub fn insert(self, at: usize, node: Box<Node<T>>) -> Tree<T>
        requires within { at ≤ length self }
        requires fits { length self + 1 < 2 ^ 64 }
        ensures { result ≡ insert self at node.value.item }
    {
        if self.len() == 0 {
            return link(Tree::new(), node, Tree::new());
        }
        let (left, root, right) = self.unlink();
        let here = left.len();
        if at <= here {
            balance(left.insert(at, node), root, right)
        } else {
            balance(left, root, right.insert(at - here - 1, node))
        }
    }

    /// Without the first item, and the node that held it.
    fn without_first(self) -> (Box<Node<T>>, Tree<T>)
        requires { 0 < length self }
        ensures { self ≡ result.0.value.item ∷ result.1 }
    {
        let (left, root, right) = self.unlink();
        if left.len() == 0 {
            return (root, right);
        }
        let (first, left) = left.without_first();
        (first, balance(left, root, right))
    }

    /// Without the item at `at`, and the node that held it.
    pub fn remove(self, at: usize) -> (Box<Node<T>>, Tree<T>)
        requires { at < length self }
        ensures value { slice_get self at ≡ Some result.0.value.item }
        ensures rest { result.1 ≡ remove self at }
    {
        let (left, root, right) = self.unlink();
        let here = left.len();
        if at < here {
            let (gone, left) = left.remove(at);
            (gone, balance(left, root, right))
        } else if at > here {
            let (gone, right) = right.remove(at - here - 1);
            (gone, balance(left, root, right))
        } else {
            (root, merge(left, right))
        }
    }
}

/// The items of both, where they were the sides of one node.
fn merge<T: Drop>(left: Tree<T>, right: Tree<T>) -> Tree<T>
    requires balanced { AreInBalance (length left) (length right) }
    requires fits { length left + length right < 2 ^ 64 }
    ensures { result ≡ left ++ right }
{
    if right.len() == 0 {
        return left;
    }
    let (first, right) = right.without_first();
    balance(left, first, right)
}
