ghost use Rattle.std.specs.Prelude.{◌≡◌, ◌++◌, ℕ, [], OnOk, IfOk};
ghost use Rattle.std.specs.FinMap as finite;
ghost use Rattle.resp_read.specs.Reading.{reading};

use resp_read::{BadFrame, Commands, FeedStop, Reader};
use rs_base::NoMemory;
use std::alloc::Global;
use std::collections::BTreeMap;
use std::marker::Model;

/// The most clients that may be open.
pub const MAX_CLIENTS: usize = 1_000;

/// An open client. Contracts see it as its bytes that are not taken yet.
#[derive(Drop)]
pub struct Client {
    reader: Reader,
}

impl Model for Client {
    ghost use Rattle.std.specs.Prelude.{ℕ, List};
    ghost use Rattle.resp_read.specs.Reading.{unfinished};
    ghost use Rattle.cl_core.specs.Kept.{IsWaiting};

    ghost Value = { List ℕ };

    ghost view = { λ c. unfinished c.reader };

    ghost invariant = { λ c. IsWaiting c.reader };
}

/// What a piece made of a client: open still, or its bytes went bad. The commands that came whole stand beside.
#[derive(Drop)]
pub enum Fed {
    Open(Client, Commands),
    Broken(Commands, BadFrame),
}

impl Client {
    ghost use Rattle.cl_core.specs.Reads.{IsFed};

    /// A client of which nothing came.
    pub fn new(alloc: Global) -> Client
        ensures { result ≡ [] }
    {
        Client {
            reader: Reader::new(alloc),
        }
    }

    /// Reads a piece behind the bytes that were left.
    pub fn feed(mut self, piece: &[u8]) -> Result<Fed, NoMemory>
        ensures { IfOk result (λ fed. IsFed fed (reading (self ++ piece.now))) }
    {
        match self.reader.feed(piece) {
            Ok(commands) => Ok(Fed::Open(self, commands)),
            Err(FeedStop::Bad { before, kind, .. }) => Ok(Fed::Broken(before, kind)),
            Err(FeedStop::Failed) => unreachable!(),
            Err(FeedStop::NoMemory) => Err(NoMemory),
        }
    }
}

/// The open clients by number.
#[derive(Drop)]
pub struct Clients {
    open: BTreeMap<u32, Client>,
}

impl Model for Clients {
    ghost use Rattle.std.specs.Prelude.{ℕ, List};
    ghost use Rattle.std.specs.Coded.{coded_list, coded_ℕ};
    ghost use Rattle.std.specs.Ordering.{nat_cmp};
    ghost use Rattle.std.specs.FinMap as finite;

    ghost Value = { finite.FinMap nat_cmp (List ℕ) };

    ghost coded = { finite.code coded_ℕ (coded_list coded_ℕ) };

    ghost view = { λ c. finite.from_entries c.open.entries };
}

impl Clients {
    /// No clients.
    pub fn new(alloc: Global) -> Clients
        ensures { result ≡ finite.empty }
    {
        Clients {
            open: BTreeMap::new(alloc),
        }
    }

    pub fn len(&self) -> usize
        ensures { result ≡ finite.len self.now }
    {
        self.open.len()
    }

    pub fn contains(&self, number: u32) -> bool
        ensures { result ≡ finite.contains_key self.now number }
    {
        self.open.contains_key(&number)
    }

    /// Puts a client in.
    pub fn put(&mut self, number: u32, client: Client) -> Result<(), NoMemory>
        ensures { OnOk result (self.new ≡ finite.insert self.old number client) }
    {
        self.open.insert(number, client)?;
        Ok(())
    }

    /// Takes a client out, where it is open.
    pub fn take(&mut self, number: u32) -> Option<Client>
        ensures client { result ≡ finite.get self.old number }
        ensures others { self.new ≡ finite.remove self.old number }
    {
        self.open.remove(&number)
    }
}
