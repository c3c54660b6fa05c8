ghost use Rattle.std.specs.Prelude.{◌≡◌, ◌<◌, nat_lt, Bool, not, ◌&&◌, ◌||◌, OnOk, OnErr, IfOk, IfSome, IfNone, Some};
ghost use Rattle.std.specs.Prelude.{[], ◌∷◌, filter};
ghost use Rattle.std.specs.List.Sorted.{IsStrictlySortedBy};
ghost use Rattle.ks_space.specs.Purge.{due_cmp};
ghost use Rattle.ks_space.specs.Index.{IsIndex, is_due, due_of};

use rs_base::{Bytes, NoMemory};
use std::alloc::{AllocError, Global};
use std::collections::BTreeSet;
use std::marker::Model;

/// A key and its deadline. The sooner deadline is the lesser, and of keys with one deadline the first in byte order.
#[derive(Debug, Drop, PartialEq, Eq, PartialOrd, Ord)]
pub struct Due {
    pub at: u64,
    pub key: Bytes,
}

impl Clone for Due {
    ghost use Rattle.std.specs.Prelude.{◌≡◌};

    ghost is_clone = { λ old new. new ≡ old };

    fn clone(&self) -> Result<Due, AllocError> {
        Ok(Due {
            at: self.at,
            key: self.key.clone()?,
        })
    }
}

impl Due {
    /// The key with its deadline, where it has one.
    pub(crate) fn of(key: Bytes, deadline: Option<u64>) -> Option<Due>
        ensures { result ≡ due_of key deadline }
    {
        match deadline {
            Some(at) => Some(Due { at, key }),
            None => None,
        }
    }
}

/// The keys that have a deadline, the soonest first. Contracts see it as their list in this order.
#[derive(Drop)]
pub struct Deadlines {
    dues: BTreeSet<Due>,
}

impl Model for Deadlines {
    ghost use Rattle.std.specs.Prelude.{List};
    ghost use Rattle.ks_space.specs.declared.deadlines.Due.{Due};

    ghost Value = { List Due };

    ghost view = { λ d. d.dues.keys };
}

impl Deadlines {
    ghost use Rattle.ks_space.specs.declared.deadlines.Due.{Due};

    pub fn new(alloc: Global) -> Deadlines
        ensures { result ≡ [] }
    {
        Deadlines {
            dues: BTreeSet::new(alloc),
        }
    }

    /// Adds a due, where there is one. After `NoMemory` the deadlines are as they were.
    pub fn enter(&mut self, due: &Option<Due>) -> Result<(), NoMemory>
        ensures ok { (test : Due → Bool) → IsIndex self.old test
            → OnOk result (IsIndex self.new (λ q. is_due due.now q || test q)) }
        ensures err { OnErr result (self.new ≡ self.old) }
    {
        if let Some(due) = due {
            self.dues.insert(due.clone()?)?;
        }
        Ok(())
    }

    /// Removes a due, where there is one.
    pub fn leave(&mut self, due: &Option<Due>)
        ensures { (test : Due → Bool) → IsIndex self.old test
            → IsIndex self.new (λ q. not (is_due due.now q) && test q) }
    {
        if let Some(due) = due {
            self.dues.remove(due);
        }
    }

    /// Takes the soonest due off, if its deadline is below the time.
    pub fn pop_before(&mut self, time: u64) -> Option<Due>
        ensures none { IfNone result (self.new ≡ self.old) }
        ensures all { IsStrictlySortedBy due_cmp self.old
            → IfNone result (filter (λ due. nat_lt due.at time) self.old ≡ []) }
        ensures first { IfSome result (λ due. self.old ≡ due ∷ self.new) }
        ensures below { IfSome result (λ due. due.at < time) }
        ensures rest { (test : Due → Bool) → IsIndex self.old test
            → IfSome result (λ due. IsIndex self.new (λ q. not (is_due (Some due) q) && test q)) }
    {
        let first = self.dues.first()?;
        if first.at < time {
            self.dues.pop_first()
        } else {
            None
        }
    }

    pub fn clear(&mut self)
        ensures { self.new ≡ [] }
    {
        self.dues.clear();
    }
}

impl Clone for Deadlines {
    ghost use Rattle.std.specs.Prelude.{◌≡◌};

    ghost is_clone = { λ old new. new ≡ old };

    fn clone(&self) -> Result<Deadlines, AllocError> {
        Ok(Deadlines {
            dues: self.dues.clone()?,
        })
    }
}
