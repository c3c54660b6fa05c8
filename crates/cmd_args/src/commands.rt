ghost use Rattle.std.specs.Prelude.{◌≡◌};
ghost use Rattle.cmd_args.specs.Table.{client_command, server_command, string_command, key_command};
ghost use Rattle.cmd_args.specs.Table.{commands, row_of, is_name, fits};
ghost use Rattle.cmd_args.specs.Entries.{Enters};

use crate::table::{Entry, reads, serves_clients, writes, writes_pairs};
use rs_base::Words;

/// A command, by its family.
#[derive(Clone, Copy, Debug, PartialEq, Eq)]
pub enum CmdId {
    Client(ClientCmd),
    Server(ServerCmd),
    Strings(StringCmd),
    Keys(KeyCmd),
}

/// Commands that a client alone may send (Redis manual, connection).
#[derive(Clone, Copy, Debug, PartialEq, Eq)]
pub enum ClientCmd {
    Quit,
}

impl ClientCmd {
    #[tactic(auto, unfolding(crate::specs::Table::client_command))]
    pub(crate) fn entry(self) -> Entry
        ensures { Enters result (client_command self) }
    {
        match self {
            ClientCmd::Quit => serves_clients(b"quit", 1, 1),
        }
    }
}

/// Commands on the connection and on the whole store (Redis manual, connection and server).
#[derive(Clone, Copy, Debug, PartialEq, Eq)]
pub enum ServerCmd {
    Ping,
    Echo,
    Select,
    Time,
    DbSize,
    FlushAll,
    FlushDb,
}

impl ServerCmd {
    #[tactic(auto, unfolding(crate::specs::Table::server_command))]
    pub(crate) fn entry(self) -> Entry
        ensures { Enters result (server_command self) }
    {
        match self {
            ServerCmd::Ping => reads(b"ping", 1, 2),
            ServerCmd::Echo => reads(b"echo", 2, 2),
            ServerCmd::Select => reads(b"select", 2, 2),
            ServerCmd::Time => reads(b"time", 1, 1),
            ServerCmd::DbSize => reads(b"dbsize", 1, 1),
            ServerCmd::FlushAll => writes(b"flushall", 1, 2),
            ServerCmd::FlushDb => writes(b"flushdb", 1, 2),
        }
    }
}

/// Commands on strings (Redis manual, string).
#[derive(Clone, Copy, Debug, PartialEq, Eq)]
pub enum StringCmd {
    Get,
    Set,
    SetNx,
    SetEx,
    PSetEx,
    GetSet,
    GetDel,
    GetEx,
    MGet,
    MSet,
    MSetNx,
    Append,
    StrLen,
    GetRange,
    SetRange,
    Incr,
    Decr,
    IncrBy,
    DecrBy,
}

impl StringCmd {
    #[tactic(auto, unfolding(crate::specs::Table::string_command))]
    pub(crate) fn entry(self) -> Entry
        ensures { Enters result (string_command self) }
    {
        match self {
            StringCmd::Get => reads(b"get", 2, 2),
            StringCmd::Set => writes(b"set", 3, 7),
            StringCmd::SetNx => writes(b"setnx", 3, 3),
            StringCmd::SetEx => writes(b"setex", 4, 4),
            StringCmd::PSetEx => writes(b"psetex", 4, 4),
            StringCmd::GetSet => writes(b"getset", 3, 3),
            StringCmd::GetDel => writes(b"getdel", 2, 2),
            StringCmd::GetEx => writes(b"getex", 2, 4),
            StringCmd::MGet => reads(b"mget", 2, u32::MAX),
            StringCmd::MSet => writes_pairs(b"mset", 3, u32::MAX),
            StringCmd::MSetNx => writes_pairs(b"msetnx", 3, u32::MAX),
            StringCmd::Append => writes(b"append", 3, 3),
            StringCmd::StrLen => reads(b"strlen", 2, 2),
            StringCmd::GetRange => reads(b"getrange", 4, 4),
            StringCmd::SetRange => writes(b"setrange", 4, 4),
            StringCmd::Incr => writes(b"incr", 2, 2),
            StringCmd::Decr => writes(b"decr", 2, 2),
            StringCmd::IncrBy => writes(b"incrby", 3, 3),
            StringCmd::DecrBy => writes(b"decrby", 3, 3),
        }
    }
}

/// Commands on keys with values of every kind (Redis manual, generic).
#[derive(Clone, Copy, Debug, PartialEq, Eq)]
pub enum KeyCmd {
    Del,
    Unlink,
    Exists,
    /// The command TYPE.
    TypeOf,
    Keys,
    RandomKey,
    Rename,
    RenameNx,
    Expire,
    PExpire,
    ExpireAt,
    PExpireAt,
    Persist,
    PTtl,
    Ttl,
    PExpireTime,
    ExpireTime,
}

impl KeyCmd {
    #[tactic(auto, unfolding(crate::specs::Table::key_command))]
    pub(crate) fn entry(self) -> Entry
        ensures { Enters result (key_command self) }
    {
        match self {
            KeyCmd::Del => writes(b"del", 2, u32::MAX),
            KeyCmd::Unlink => writes(b"unlink", 2, u32::MAX),
            KeyCmd::Exists => reads(b"exists", 2, u32::MAX),
            KeyCmd::TypeOf => reads(b"type", 2, 2),
            KeyCmd::Keys => reads(b"keys", 2, 2),
            KeyCmd::RandomKey => reads(b"randomkey", 1, 1),
            KeyCmd::Rename => writes(b"rename", 3, 3),
            KeyCmd::RenameNx => writes(b"renamenx", 3, 3),
            KeyCmd::Expire => writes(b"expire", 3, 3),
            KeyCmd::PExpire => writes(b"pexpire", 3, 3),
            KeyCmd::ExpireAt => writes(b"expireat", 3, 3),
            KeyCmd::PExpireAt => writes(b"pexpireat", 3, 3),
            KeyCmd::Persist => writes(b"persist", 2, 2),
            KeyCmd::PTtl => reads(b"pttl", 2, 2),
            KeyCmd::Ttl => reads(b"ttl", 2, 2),
            KeyCmd::PExpireTime => reads(b"pexpiretime", 2, 2),
            KeyCmd::ExpireTime => reads(b"expiretime", 2, 2),
        }
    }
}

/// Every command.
const COMMANDS: [CmdId; 44] = [
    CmdId::Server(ServerCmd::Ping),
    CmdId::Server(ServerCmd::Echo),
    CmdId::Server(ServerCmd::Select),
    CmdId::Server(ServerCmd::Time),
    CmdId::Server(ServerCmd::DbSize),
    CmdId::Server(ServerCmd::FlushAll),
    CmdId::Server(ServerCmd::FlushDb),
    CmdId::Client(ClientCmd::Quit),
    CmdId::Strings(StringCmd::Get),
    CmdId::Strings(StringCmd::Set),
    CmdId::Strings(StringCmd::SetNx),
    CmdId::Strings(StringCmd::SetEx),
    CmdId::Strings(StringCmd::PSetEx),
    CmdId::Strings(StringCmd::GetSet),
    CmdId::Strings(StringCmd::GetDel),
    CmdId::Strings(StringCmd::GetEx),
    CmdId::Strings(StringCmd::MGet),
    CmdId::Strings(StringCmd::MSet),
    CmdId::Strings(StringCmd::MSetNx),
    CmdId::Strings(StringCmd::Append),
    CmdId::Strings(StringCmd::StrLen),
    CmdId::Strings(StringCmd::GetRange),
    CmdId::Strings(StringCmd::SetRange),
    CmdId::Strings(StringCmd::Incr),
    CmdId::Strings(StringCmd::Decr),
    CmdId::Strings(StringCmd::IncrBy),
    CmdId::Strings(StringCmd::DecrBy),
    CmdId::Keys(KeyCmd::Del),
    CmdId::Keys(KeyCmd::Unlink),
    CmdId::Keys(KeyCmd::Exists),
    CmdId::Keys(KeyCmd::TypeOf),
    CmdId::Keys(KeyCmd::Keys),
    CmdId::Keys(KeyCmd::RandomKey),
    CmdId::Keys(KeyCmd::Rename),
    CmdId::Keys(KeyCmd::RenameNx),
    CmdId::Keys(KeyCmd::Expire),
    CmdId::Keys(KeyCmd::PExpire),
    CmdId::Keys(KeyCmd::ExpireAt),
    CmdId::Keys(KeyCmd::PExpireAt),
    CmdId::Keys(KeyCmd::Persist),
    CmdId::Keys(KeyCmd::PTtl),
    CmdId::Keys(KeyCmd::Ttl),
    CmdId::Keys(KeyCmd::PExpireTime),
    CmdId::Keys(KeyCmd::ExpireTime),
];

#[tactic(auto, unfolding(crate::specs::Table::commands))]
pub(crate) fn all_commands() -> &'static [CmdId]
    ensures { result.now ≡ commands }
{
    &COMMANDS
}

/// What a command's name stands for.
#[derive(Clone, Copy, Debug, PartialEq, Eq)]
pub struct Row {
    pub id: CmdId,
    /// The least number of words, the name counted.
    pub least: u32,
    /// The most words, the name counted; `u32::MAX` where the manual sets no limit.
    pub most: u32,
    /// Whether the command may change the store.
    pub writes: bool,
    /// Whether a script may call it.
    pub in_script: bool,
    /// Whether it is for clients alone.
    pub client_only: bool,
}

impl Row {
    /// Whether the command takes these words, its name the first: so many of them, and in its shape.
    pub fn fits(&self, words: &Words) -> bool
        ensures { result ≡ fits self.now words.now }
    {
        let count = words.len();
        let shape = self.id.entry().shape;
        self.least as usize <= count && count <= self.most as usize && shape.suits(words)
    }
}

impl CmdId {
    /// The command's row in the table.
    pub fn row(self) -> Row
        ensures { result ≡ row_of self }
    {
        let entry = self.entry();
        Row {
            id: self,
            least: entry.least,
            most: entry.most,
            writes: entry.writes,
            in_script: !entry.client_only,
            client_only: entry.client_only,
        }
    }

    pub(crate) fn is_named(self, word: &[u8]) -> bool
        ensures { result ≡ is_name word.now self }
    {
        word.eq_ignore_ascii_case(self.name())
    }
}
