ghost use Rattle.std.specs.Prelude.{◌≡◌, [], max, OnOk, OnErr, IfOk};
ghost use Rattle.std.specs.FinMap as finite;
ghost use Rattle.ks_space.specs.Store.{IsStore};
ghost use Rattle.ks_space.specs.Purge.{gone, IsTimely};
ghost use Rattle.cmd_exec.specs.Worlds.{empty_world, begun, worked};
ghost use Rattle.cmd_exec.specs.Exec.{exec};

use crate::command::carry_out;
use crate::laws::commands_keep_the_world;
use cmd_args::{Ctx, Draws, Mode};
use fx_record::Effects;
use ks_space::Space;
use resp_reply::Reply;
use rs_base::{NoMemory, Words};
use std::alloc::Global;
use std::marker::Model;

/// A desk at which commands are carried out one by one, each as a whole: the store, the time of the turn, who calls,
/// the draws, and the records of what was done. No deadline of its store is below its time.
#[derive(Drop)]
pub struct Desk {
    space: Space,
    ctx: Ctx,
    mode: Mode,
    draws: Draws,
    effects: Effects,
}

impl Model for Desk {
    ghost use Rattle.std.specs.Prelude.{◌≡◌};
    ghost use Rattle.cmd_exec.specs.Worlds.{DeskState, IsWorld, desk_code};

    ghost Value = { DeskState };

    ghost coded = { desk_code };

    ghost view = { λ d. record {
      world = record { store = d.space; time = d.ctx.time; draws = d.draws };
      mode = d.mode;
      effects = d.effects;
    } };

    ghost invariant = { λ d. IsWorld (record { store = d.space; time = d.ctx.time; draws = d.draws }) };
}

impl Desk {
    /// An empty store, and time 0.
    pub fn new(alloc: Global, mode: Mode) -> Desk
        ensures { result ≡ record { world = empty_world; mode = mode; effects = [] } }
    {
        Desk::over(Space::new(alloc), Ctx { time: 0 }, mode, 0)
    }

    /// A desk over a store within its limits at a turn's time, at which no deadline of the store is past: draws begin
    /// at the turn's word, and no records wait.
    pub fn over(space: Space, ctx: Ctx, mode: Mode, word: u64) -> Desk
        requires limits { IsStore space }
        requires timely { IsTimely space ctx.time }
        ensures { result ≡ record {
          world = record { store = space; time = ctx.time; draws = word };
          mode = mode;
          effects = [];
        } }
    {
        let effects = Effects::new(space.alloc());
        Desk {
            space,
            ctx,
            mode,
            draws: Draws::new(word),
            effects,
        }
    }

    /// The store.
    pub fn space(&self) -> &Space
        ensures { result.now ≡ self.now.world.store }
    {
        &self.space
    }

    /// A turn begins: its time is the greater of the last one and the clock, draws begin at its word, and the keys
    /// leave whose deadline is below its time: these are answered, in the order of their deadlines and then of their
    /// bytes. After `NoMemory` the store is empty.
    pub fn begin(&mut self, clock: u64, word: u64) -> Result<Words, NoMemory>
        ensures keys { IfOk result (λ keys. keys ≡ gone self.old.world.store (max self.old.world.time clock)) }
        ensures desk { OnOk result (self.new ≡ record self.old { world = begun self.old.world clock word }) }
        ensures mode { self.new.mode ≡ self.old.mode }
        ensures effects { self.new.effects ≡ self.old.effects }
        ensures err { OnErr result (self.new.world.store ≡ finite.empty) }
    {
        self.ctx.time = self.ctx.time.max(clock);
        self.draws = Draws::new(word);
        match self.space.purge(self.ctx.time) {
            Ok(keys) => Ok(keys),
            Err(NoMemory) => {
                self.space.clear();
                Err(NoMemory)
            }
        }
    }

    /// Takes the records of what was done since they were last taken.
    pub fn take_effects(&mut self) -> Effects
        ensures taken { result ≡ self.old.effects }
        ensures left { self.new ≡ record self.old { effects = [] } }
    {
        let none = Effects::new(self.space.alloc());
        std::mem::replace(&mut self.effects, none)
    }
}

/// Carries out one command at a desk, or refuses it: its reply is the fault then, and nothing is done. Adds the records
/// of what it did. After `NoMemory` the store is empty, and no records are kept.
pub fn exec(desk: &mut Desk, words: &Words) -> Result<Reply, NoMemory>
    ensures reply { IfOk result (λ reply. reply ≡ (exec desk.old.world desk.old.mode words.now).reply) }
    ensures desk { OnOk result (desk.new ≡ worked desk.old (exec desk.old.world desk.old.mode words.now)) }
    ensures mode { desk.new.mode ≡ desk.old.mode }
    ensures err { OnErr result (desk.new.effects ≡ []) }
    ensures emptied { OnErr result (desk.new.world.store ≡ finite.empty) }
{
    commands_keep_the_world();
    match carry_out(
        &mut desk.space,
        &desk.ctx,
        desk.mode,
        words,
        &mut desk.draws,
        &mut desk.effects,
    ) {
        Ok(reply) => Ok(reply),
        Err(NoMemory) => {
            desk.space.clear();
            desk.effects = Effects::new(desk.space.alloc());
            Err(NoMemory)
        }
    }
}
