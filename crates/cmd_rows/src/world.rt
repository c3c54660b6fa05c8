ghost use Rattle.std.specs.Prelude.{◌≡◌};

use cmd_args::{Ctx, Draws};
use ks_space::Space;
use std::alloc::Global;
use std::marker::Model;

/// What a row reads: the store, the turn's time in milliseconds since the Unix epoch, and the turn's draws.
#[derive(Drop)]
pub struct World<'a> {
    pub space: &'a Space,
    pub time: u64,
    pub draws: &'a Draws,
}

impl<'a> Model for World<'a> {
    ghost use Rattle.cmd_rows.specs.Worlds.{World, world_code};

    ghost Value = { World };

    ghost coded = { world_code };

    ghost view = { λ w. record { store = w.space.now; time = w.time; draws = w.draws.now } };
}

impl<'a> World<'a> {
    /// The store and the draws at this moment.
    pub fn new(space: &'a Space, ctx: &Ctx, draws: &'a Draws) -> World<'a>
        ensures { result ≡ record { store = space.now; time = ctx.now.time; draws = draws.now } }
    {
        World {
            space,
            time: ctx.time,
            draws,
        }
    }

    /// The allocator from which the store takes its memory.
    pub fn alloc(&self) -> Global {
        self.space.alloc()
    }
}
