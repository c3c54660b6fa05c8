ghost use Rattle.std.specs.Prelude.{◌≡◌, ◌<◌, ◌≤◌, ◌↔◌, [], Bool, Some, length, IsTrue, IfOk, OnOk, OnErr, OnSome};
ghost use Rattle.std.specs.Prelude.{insert, remove, count_by, slice_get, slice_range};
ghost use Rattle.std.specs.Option.{option_copied};
ghost use Rattle.std.specs.Fn.{ComputesKey};
ghost use Rattle.std.specs.List.{AllZip};
ghost use Rattle.std.specs.List.Sorted.{IsPartitionedBy};
ghost use Rattle.ks_tree.specs.Weights.{HasRoom, IsShallow};

use crate::tree::{Node, Tree};
use rs_base::{NoMemory, Seq};
use std::alloc::{AllocError, Global};
use std::marker::Model;
use std::mem;

/// A sequence of items in order. Contracts see it as the list of the items.
#[derive(Debug, Drop)]
pub struct TreeList<T> {
    alloc: Global,
    tree: Tree<T>,
}

impl<T> Model for TreeList<T> {
    ghost use Rattle.std.specs.Prelude.{List};
    ghost use Rattle.std.specs.Coded.{coded_list};

    ghost Value = { List T };

    ghost coded = { coded_list T.code };

    ghost view = { λ l. l.tree };
}

impl<T> TreeList<T> {
    /// The empty sequence. It takes no memory.
    pub fn new(alloc: Global) -> TreeList<T>
        ensures { result ≡ [] }
    {
        TreeList {
            alloc,
            tree: Tree::new(),
        }
    }

    /// The number of items.
    pub fn len(&self) -> usize
        ensures { result ≡ length self.now }
    {
        self.tree.len()
    }

    pub fn is_empty(&self) -> bool
        ensures { IsTrue result ↔ (self.now ≡ []) }
    {
        self.tree.len() == 0
    }

    /// How many items lie on the longest way down the tree, which is what the other calls' time grows with: between the
    /// binary logarithm of the weight, which is one more than the length, and 2.41 times that. It visits each item.
    pub fn depth(&self) -> usize
        ensures room { HasRoom result (length self.now) }
        ensures shallow { IsShallow result (length self.now) }
    {
        self.tree.depth()
    }

    /// The item at `at`, counted from 0, in time of the length's logarithm. `None` exactly where `at` is not below the
    /// length.
    pub fn get(&self, at: usize) -> Option<&T>
        ensures value { option_copied result ≡ slice_get self.now at }
        ensures within { OnSome result (at < length self.now) }
    {
        self.tree.get(at)
    }

    /// How many items pass a test that none passes behind one that fails it, in time of the length's logarithm.
    pub fn partition_point<P: FnMut(&T) -> bool>(&self, pred: P) -> usize
        requires { P.IsAlwaysCallable pred }
        ensures within { result ≤ length self.now }
        ensures count { (p : T → Bool) → ComputesKey P.FnMut p pred → IsPartitionedBy p self.now
            → result ≡ count_by p self.now }
    {
        self.tree.partition_point(pred)
    }
}

impl<T: Drop> TreeList<T> {
    /// Puts an item at `at`, before those from there on, in time of the length's logarithm. After `NoMemory` the
    /// sequence is as it was, and the item is dropped.
    pub fn insert(&mut self, at: usize, item: T) -> Result<(), NoMemory>
        requires { at ≤ length self.old }
        ensures ok { OnOk result (self.new ≡ insert self.old at item) }
        ensures err { OnErr result (self.new ≡ self.old) }
    {
        if self.tree.len() == usize::MAX {
            return Err(NoMemory);
        }
        let node = Node::new(self.alloc, item)?;
        let tree = mem::replace(&mut self.tree, Tree::new());
        self.tree = tree.insert(at, node);
        Ok(())
    }

    /// Takes the item at `at` away, in time of the length's logarithm. It takes no memory.
    pub fn remove(&mut self, at: usize) -> T
        requires { at < length self.old }
        ensures value { slice_get self.old at ≡ Some result }
        ensures rest { self.new ≡ remove self.old at }
    {
        let tree = mem::replace(&mut self.tree, Tree::new());
        let (node, tree) = tree.remove(at);
        self.tree = tree;
        Node::into_item(node)
    }
}

impl<T: Clone + Drop> TreeList<T> {
    /// Clones of the items from `from` up to and without `to`, of those that there are, in time of the length's
    /// logarithm and their number.
    pub fn copy_range(&self, from: usize, to: usize) -> Result<Seq<T>, NoMemory>
        ensures { IfOk result (λ copies. AllZip T.is_clone (slice_range self.now from to) copies) }
    {
        let mut copies = Seq::new(self.alloc);
        self.tree.copy_range(from, to, &mut copies)?;
        Ok(copies)
    }
}

impl<T: Clone + Drop> Clone for TreeList<T> {
    ghost use Rattle.std.specs.List.{AllZip};

    ghost is_clone = { λ old new. AllZip T.is_clone old new };

    fn clone(&self) -> Result<TreeList<T>, AllocError> {
        Ok(TreeList {
            alloc: self.alloc,
            tree: self.tree.copy(self.alloc)?,
        })
    }
}
