//! Does work on a store or a value, so many items and rounds as the arguments say, which `bench/store.py` times: it
//! writes how much was found, and to standard error how many microseconds the work took.
#![tactic(auto)]

mod items;
mod scores;
mod store;
mod values;

use ks_space::Space;
use ks_zset::Zset;
use std::alloc::Global;
use std::env;
use std::process::ExitCode;
use std::time::Instant;

/// What is timed.
#[derive(Clone, Copy)]
enum Task {
    List,
    Hash,
    Set,
    /// Filling a sorted set.
    Scores,
    /// Asking a sorted set for ranks.
    Ranks,
    Put,
    Take,
    Purge,
}

/// A task with its size. `rounds` says how often a list, a hash or a set is filled anew, and how often is purged.
#[derive(Clone, Copy)]
struct Load {
    task: Task,
    items: u64,
    rounds: u64,
}

/// What a task begins with, made before the clock runs and let go after it.
#[derive(Drop)]
enum World {
    Nothing,
    Members(Zset),
    Keys(Space),
}

fn main(rt: HostRuntime) -> ExitCode {
    match time(&rt) {
        Some(()) => ExitCode::SUCCESS,
        None => ExitCode::FAILURE,
    }
}

// `None` where the arguments name no load, memory runs out, or the clock or a stream fails.
fn time(rt: &HostRuntime) -> Option<()> {
    let load = asked(rt)?;
    let mut world = prepared(rt.alloc(), load)?;
    let begun = Instant::now(rt).ok()?;
    let found = work(rt.alloc(), load, &mut world)?;
    let taken = begun.elapsed(rt).ok()?;
    println!(rt; "{found} found").ok()?;
    eprintln!(rt; "{}", taken.as_micros()).ok()
}

fn asked(rt: &HostRuntime) -> Option<Load> {
    let mut words = env::args(rt).ok()?.skip(1);
    let task = task_named(words.next()?.as_str())?;
    let items = words.next()?.parse::<u64>().ok()?;
    let rounds = words.next()?.parse::<u64>().ok()?;
    Some(Load {
        task,
        items,
        rounds,
    })
}

fn task_named(name: &str) -> Option<Task> {
    match name {
        "list" => Some(Task::List),
        "hash" => Some(Task::Hash),
        "set" => Some(Task::Set),
        "scores" => Some(Task::Scores),
        "ranks" => Some(Task::Ranks),
        "put" => Some(Task::Put),
        "take" => Some(Task::Take),
        "purge" => Some(Task::Purge),
        _ => None,
    }
}

fn prepared(alloc: Global, load: Load) -> Option<World> {
    match load.task {
        Task::List | Task::Hash | Task::Set => Some(World::Nothing),
        Task::Scores => Some(World::Members(Zset::new(alloc))),
        Task::Ranks => {
            let mut set = Zset::new(alloc);
            scores::fill(alloc, &mut set, load.items)?;
            Some(World::Members(set))
        }
        Task::Put => Some(World::Keys(Space::new(alloc))),
        Task::Take => {
            let mut space = Space::new(alloc);
            store::put(alloc, &mut space, load.items)?;
            Some(World::Keys(space))
        }
        Task::Purge => {
            let mut space = Space::new(alloc);
            store::put_with_deadlines(alloc, &mut space, load.items)?;
            Some(World::Keys(space))
        }
    }
}

// Answers how much was found.
fn work(alloc: Global, load: Load, world: &mut World) -> Option<u64> {
    match world {
        World::Nothing => work_on_values(alloc, load),
        World::Members(set) => work_on_members(alloc, load, set),
        World::Keys(space) => work_on_keys(alloc, load, space),
    }
}

fn work_on_values(alloc: Global, load: Load) -> Option<u64> {
    let mut found = 0u64;
    for _ in 0..load.rounds {
        let more = work_on_value(alloc, load)?;
        found = found.saturating_add(more);
    }
    Some(found)
}

fn work_on_value(alloc: Global, load: Load) -> Option<u64> {
    match load.task {
        Task::List => values::list(alloc, load.items),
        Task::Hash => values::hash(alloc, load.items),
        Task::Set => values::set(alloc, load.items),
        _ => None,
    }
}

fn work_on_members(alloc: Global, load: Load, set: &mut Zset) -> Option<u64> {
    match load.task {
        Task::Scores => scores::fill(alloc, set, load.items),
        Task::Ranks => scores::ranks(alloc, set, load.items),
        _ => None,
    }
}

fn work_on_keys(alloc: Global, load: Load, space: &mut Space) -> Option<u64> {
    match load.task {
        Task::Put => store::put(alloc, space, load.items),
        Task::Take => store::take(alloc, space, load.items),
        Task::Purge => store::purge(space, load.rounds),
        _ => None,
    }
}
