//! Cases of the crates below those that carry commands out. The first word of a call is its subject, which finds the
//! rest:
//!
//! - `base`: decimals, the escape, strings of bytes and lists; whole numbers; replies; requests.
//! - `outside`: the outside in memory.
//! - `store`: the objects that a store is made of.
//! - `log`: effect records and the effect log.
//! - `command`: what commands are told before they run, and the patterns of KEYS.
//!
//! Each subject's own module says its calls.
#![tactic(auto)]

mod answers;
mod base;
mod command;
mod cuts;
mod log;
mod outside;
mod store;
mod words;

use base::Base;
use command::Commands;
use log::Logging;
use outside::Outside;
use rs_base::{Bytes, NoMemory};
use rs_cases::{Subject, run_cases};
use std::alloc::Global;
use std::process::ExitCode;
use store::Objects;

/// The subjects.
#[derive(Drop)]
struct Units {
    base: Base,
    outside: Outside,
    objects: Objects,
    logging: Logging,
    commands: Commands,
}

impl Units {
    fn new(alloc: Global) -> Units {
        Units {
            base: Base::new(alloc),
            outside: Outside::new(alloc),
            objects: Objects::new(alloc),
            logging: Logging::new(alloc),
            commands: Commands::new(alloc),
        }
    }
}

impl Subject for Units {
    fn answer(&mut self, name: &[u8], args: &[Bytes], out: &mut Bytes) -> Result<bool, NoMemory> {
        let [call, args @ ..] = args else {
            return Ok(false);
        };
        let call = call.as_slice();
        match name {
            b"base" => self.base.answer(call, args, out),
            b"outside" => self.outside.answer(call, args, out),
            b"store" => self.objects.answer(call, args, out),
            b"log" => self.logging.answer(call, args, out),
            b"command" => self.commands.answer(call, args, out),
            _ => Ok(false),
        }
    }

    fn begin(&mut self) {
        self.base.begin();
        self.outside.begin();
        self.objects.begin();
        self.logging.begin();
        self.commands.begin();
    }
}

fn main(rt: HostRuntime) -> ExitCode {
    let mut units = Units::new(rt.alloc());
    run_cases(&rt, &mut units)
}
