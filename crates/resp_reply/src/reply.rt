ghost use Rattle.std.specs.Prelude.{◌≡◌, IfOk};
ghost use Rattle.resp_reply.specs.declared.reply.Reply.{Reply};

use rs_base::{Bytes, NoMemory, Seq};
use std::alloc::Global;

/// A reply to a client. To write one, compare two or let one go recurses as deep as its arrays nest, so whoever makes
/// replies keeps that depth small: the server itself nests at most 60.
#[derive(Debug, Drop, PartialEq, Eq)]
pub enum Reply {
    /// A short text that says how a command went. Each CR and LF in it is written as a space.
    Status(Bytes),
    /// A short text that says why a command was refused. Each CR and LF in it is written as a space.
    Fault(Bytes),
    Int(i64),
    /// A string of any bytes.
    Bulk(Bytes),
    /// No string, where one could be.
    NullBulk,
    Array(Replies),
    /// No array, where one could be.
    NullArray,
}

/// Replies in order.
pub type Replies = Seq<Reply>;

impl Reply {
    /// A status of this text.
    pub fn status(alloc: Global, text: &[u8]) -> Result<Reply, NoMemory>
        ensures { IfOk result (λ reply. reply ≡ Reply.Status text.now) }
    {
        Ok(Reply::Status(Bytes::from_slice(alloc, text)?))
    }

    /// A fault of this text.
    pub fn fault(alloc: Global, text: &[u8]) -> Result<Reply, NoMemory>
        ensures { IfOk result (λ reply. reply ≡ Reply.Fault text.now) }
    {
        Ok(Reply::Fault(Bytes::from_slice(alloc, text)?))
    }

    /// A string of these bytes.
    pub fn bulk(alloc: Global, bytes: &[u8]) -> Result<Reply, NoMemory>
        ensures { IfOk result (λ reply. reply ≡ Reply.Bulk bytes.now) }
    {
        Ok(Reply::Bulk(Bytes::from_slice(alloc, bytes)?))
    }
}
