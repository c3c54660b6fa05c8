use rs_base::{Bytes, Seq};

/// What one turn of the server's loop brings: something of one client, at a time, with a random word.
#[derive(Debug, Drop, PartialEq, Eq)]
pub struct Turn {
    /// The clock's reading, in milliseconds since the Unix epoch.
    pub clock: u64,
    /// A random word, from which the turn's draws are made.
    pub word: u64,
    /// The client's number; 0 in a turn of no client.
    pub client: u32,
    pub what: What,
}

/// What a client did.
#[derive(Debug, Drop, PartialEq, Eq)]
pub enum What {
    /// It opened its connection.
    Opened,
    /// It sent these bytes.
    Piece(Bytes),
    /// Its connection ended, by its own wish or by a fault of the connection.
    Closed,
    /// No client did anything: the time alone went on.
    Idle,
}

/// Turns in order.
pub type Turns = Seq<Turn>;

/// What a turn leaves the server to do.
#[derive(Clone, Copy, Debug, PartialEq, Eq)]
pub enum Go {
    /// It takes the next turn.
    On,
    /// It ends, since a client asked it to.
    Shutdown,
}

/// What the server gives to a client.
#[derive(Debug, Drop, PartialEq, Eq)]
pub enum OutRow {
    /// The bytes of one reply.
    Sent(u32, Bytes),
    /// The end of the connection.
    Shut(u32),
}

/// Rows in order.
pub type Outs = Seq<OutRow>;
