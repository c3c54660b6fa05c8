ghost use Rattle.std.specs.Prelude.{◌≡◌, List, [], ◌∷◌, ◌++◌, map, fold, not, OnOk, IfOk};
ghost use Rattle.std.specs.FinMap as finite;
ghost use Rattle.rs_outside.specs.declared.turn.Go.{Go};
ghost use Rattle.rs_outside.specs.declared.turn.OutRow.{OutRow};
ghost use Rattle.fx_log.specs.declared.group.Group.{Group};
ghost use Rattle.cmd_rows.specs.Outcomes.{ok};
ghost use Rattle.cl_core.specs.Machine.{is_quit, reply_row};

use crate::client::{Client, Clients, Fed, MAX_CLIENTS};
use crate::grouping::{add_group, add_removals};
use crate::laws::turns_keep_validity;
use crate::sending::{dismiss, protocol_fault, send};
use cmd_args::{ClientCmd, CmdId, Mode};
use cmd_exec::{Desk, exec};
use cmd_rows::ok;
use fx_log::Groups;
use ks_space::Space;
use resp_read::{BadFrame, Commands};
use resp_reply::Reply;
use rs_base::{Bytes, NoMemory, Words};
use rs_outside::{Go, Outs, Turn, What};
use std::alloc::Global;
use std::collections::VecDeque;
use std::marker::Model;

/// The server: a desk at which the commands of clients are carried out, and the open clients. Contracts see it as the
/// store, the clients, the time of the last turn and the state of its draws.
#[derive(Drop)]
pub struct Server {
    alloc: Global,
    desk: Desk,
    clients: Clients,
}

impl Model for Server {
    ghost use Rattle.std.specs.Prelude.{◌≡◌};
    ghost use Rattle.cmd_args.specs.declared.turn.Mode.TheVariants.{Client};
    ghost use Rattle.cmd_exec.specs.Worlds.{IsIdle};
    ghost use Rattle.cl_core.specs.Machine.{State, state_code};

    ghost Value = { State };

    ghost coded = { state_code };

    ghost view = { λ s. record {
      store = s.desk.world.store;
      clients = s.clients;
      time = s.desk.world.time;
      draws = s.desk.world.draws;
    } };

    // Between commands nothing waits to be logged.
    ghost invariant = { λ s. (s.desk.mode ≡ Client) × IsIdle s.desk };
}

impl Server {
    ghost use Rattle.cl_core.specs.Machine.{State, beginning, step, turn_on, begun_at, with_command, opening};
    ghost use Rattle.cl_core.specs.Machine.{piece_of, before_quit, quits};
    ghost use Rattle.cl_core.specs.Valid.{IsValid};
    ghost use Rattle.cl_core.specs.Taken.{put_back, told_of};

    /// The store is empty, no client is open, and the time is 0.
    pub fn new(alloc: Global) -> Server
        ensures state { result ≡ beginning }
        ensures valid { IsValid result }
    {
        turns_keep_validity();
        Server {
            alloc,
            desk: Desk::new(alloc, Mode::Client),
            clients: Clients::new(alloc),
        }
    }

    /// Takes one turn. Adds its rows to `outs`, and the groups of the keys that leave and of its commands to `groups`.
    ///
    /// # Errors
    ///
    /// After `NoMemory` the server, `outs` and `groups` are only good for dropping.
    pub fn turn(
        &mut self,
        turn: &Turn,
        outs: &mut Outs,
        groups: &mut Groups,
    ) -> Result<Go, NoMemory>
        ensures state { OnOk result (self.new ≡ (step self.old turn.now).state) }
        ensures rows { OnOk result (outs.new ≡ outs.old ++ (step self.old turn.now).rows) }
        ensures groups { OnOk result (groups.new ≡ groups.old ++ (step self.old turn.now).groups) }
        ensures go { IfOk result (λ go. go ≡ Go.On) }
        ensures valid { IsValid self.old → OnOk result (IsValid self.new) }
    {
        self.take_turn(turn, outs, groups)?;
        turns_keep_validity();
        Ok(Go::On)
    }

    /// The store.
    pub fn space(&self) -> &Space
        ensures { result.now ≡ self.now.store }
    {
        self.desk.space()
    }

    // Takes one turn, on top of what stands in `outs` and `groups`.
    fn take_turn(
        &mut self,
        turn: &Turn,
        outs: &mut Outs,
        groups: &mut Groups,
    ) -> Result<(), NoMemory>
        ensures { OnOk result (record { state = self.new; rows = outs.new; groups = groups.new }
            ≡ turn_on (record { state = self.old; rows = outs.old; groups = groups.old }) turn.now) }
    {
        self.begin(turn.clock, turn.word, groups)?;
        match &turn.what {
            What::Opened => self.open(turn.client, outs),
            What::Piece(bytes) => self.take_piece(turn.client, bytes, outs, groups),
            What::Closed => {
                self.close(turn.client);
                Ok(())
            }
            What::Idle => Ok(()),
        }
    }

    // Begins a turn: the keys whose deadline is past leave, each with a group of its own.
    fn begin(&mut self, clock: u64, word: u64, groups: &mut Groups) -> Result<(), NoMemory>
        ensures same { (rows : List OutRow) → OnOk result (record { state = self.new; rows = rows; groups = groups.new }
            ≡ begun_at clock word (record { state = self.old; rows = rows; groups = groups.old })) }
    {
        let keys = self.desk.begin(clock, word)?;
        add_removals(self.alloc, keys, groups)
    }

    // Opens a client, or refuses it where the most are open.
    fn open(&mut self, client: u32, outs: &mut Outs) -> Result<(), NoMemory>
        ensures same { (groups : List Group)
            → OnOk result (record { state = self.new; rows = outs.new; groups = groups }
            ≡ opening client (record { state = self.old; rows = outs.old; groups = groups })) }
    {
        if self.clients.contains(client) {
            return Ok(());
        }
        if self.clients.len() < MAX_CLIENTS {
            return self.clients.put(client, Client::new(self.alloc));
        }
        let fault = Reply::fault(self.alloc, b"ERR max number of clients reached")?;
        dismiss(self.alloc, client, &fault, outs)
    }

    // Closes a client, where it is open.
    fn close(&mut self, client: u32)
        ensures { self.new ≡ record self.old { clients = finite.remove self.old.clients client } }
    {
        let _closed = self.clients.take(client);
    }

    // Takes what a client sent, where it is open.
    fn take_piece(
        &mut self,
        client: u32,
        bytes: &Bytes,
        outs: &mut Outs,
        groups: &mut Groups,
    ) -> Result<(), NoMemory>
        ensures { OnOk result (record { state = self.new; rows = outs.new; groups = groups.new }
            ≡ piece_of client bytes.now (finite.get self.old.clients client)
            (record { state = self.old; rows = outs.old; groups = groups.old })) }
    {
        let Some(reader) = self.clients.take(client) else {
            return Ok(());
        };
        match reader.feed(bytes.as_slice())? {
            Fed::Open(reader, commands) => self.take_good(client, reader, commands, outs, groups),
            Fed::Broken(commands, kind) => self.take_bad(client, commands, kind, outs, groups),
        }
    }

    // Takes the commands of a client that was taken out. It is put back, unless a QUIT is among them.
    fn take_good(
        &mut self,
        client: u32,
        reader: Client,
        commands: Commands,
        outs: &mut Outs,
        groups: &mut Groups,
    ) -> Result<(), NoMemory>
        ensures { OnOk result (record { state = self.new; rows = outs.new; groups = groups.new }
            ≡ put_back client reader (map (λ c. c.words) commands)
            (record { state = self.old; rows = outs.old; groups = groups.old })) }
    {
        if self.take_all(client, commands, outs, groups)? {
            self.clients.put(client, reader)
        } else {
            self.quit(client, outs)
        }
    }

    // Takes the commands of a client that was taken out, whose bytes went bad behind them. It is told so, unless a QUIT
    // is among them.
    fn take_bad(
        &mut self,
        client: u32,
        commands: Commands,
        kind: BadFrame,
        outs: &mut Outs,
        groups: &mut Groups,
    ) -> Result<(), NoMemory>
        ensures { OnOk result (record { state = self.new; rows = outs.new; groups = groups.new }
            ≡ told_of client kind (map (λ c. c.words) commands)
            (record { state = self.old; rows = outs.old; groups = groups.old })) }
    {
        if self.take_all(client, commands, outs, groups)? {
            let fault = protocol_fault(self.alloc, kind)?;
            dismiss(self.alloc, client, &fault, outs)
        } else {
            self.quit(client, outs)
        }
    }

    // Carries out commands one by one, up to a QUIT. Answers whether there was none.
    fn take_all(
        &mut self,
        client: u32,
        commands: Commands,
        outs: &mut Outs,
        groups: &mut Groups,
    ) -> Result<bool, NoMemory>
        ensures going { IfOk result (λ going. going ≡ not (quits (map (λ c. c.words) commands))) }
        ensures run { OnOk result (record { state = self.new; rows = outs.new; groups = groups.new }
            ≡ fold (with_command client) (record { state = self.old; rows = outs.old; groups = groups.old })
            (before_quit (map (λ c. c.words) commands))) }
    {
        let mut left = VecDeque::from_vec(commands.into_vec());
        while let Some(command) = left.pop_front() {
            if is_quit(&command.words) {
                return Ok(false);
            }
            self.take(client, &command.words, outs, groups)?;
        }
        Ok(true)
    }

    // Carries out one command: its reply, and its records as a group.
    fn take(
        &mut self,
        client: u32,
        words: &Words,
        outs: &mut Outs,
        groups: &mut Groups,
    ) -> Result<(), NoMemory>
        ensures { OnOk result (record { state = self.new; rows = outs.new; groups = groups.new }
            ≡ with_command client (record { state = self.old; rows = outs.old; groups = groups.old }) words.now) }
    {
        let reply = exec(&mut self.desk, words)?;
        let records = self.desk.take_effects();
        send(self.alloc, client, &reply, outs)?;
        add_group(records, groups)
    }

    // Answers a QUIT, and shuts the client.
    fn quit(&self, client: u32, outs: &mut Outs) -> Result<(), NoMemory>
        ensures { OnOk result (outs.new ≡ (outs.old ++ reply_row client ok ∷ []) ++ OutRow.Shut client ∷ []) }
    {
        let reply = ok(self.alloc)?;
        dismiss(self.alloc, client, &reply, outs)
    }
}

// Whether the words are QUIT alone.
fn is_quit(words: &Words) -> bool
    ensures { result ≡ is_quit words.now }
{
    match words.as_slice() {
        [name] => name
            .as_slice()
            .eq_ignore_ascii_case(CmdId::Client(ClientCmd::Quit).name()),
        _ => false,
    }
}
