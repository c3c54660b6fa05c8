ghost use Rattle.std.specs.Prelude.{◌≡◌, [], ◌∷◌, ◌++◌, OnOk, IfOk};
ghost use Rattle.rs_outside.specs.declared.turn.OutRow.{OutRow};
ghost use Rattle.cl_core.specs.Machine.{reply_row, protocol_error};

use resp_read::BadFrame;
use resp_reply::{Reply, put};
use rs_base::{Bytes, NoMemory};
use rs_outside::{OutRow, Outs};
use std::alloc::Global;

/// Sends a reply.
pub(crate) fn send(
    alloc: Global,
    client: u32,
    reply: &Reply,
    outs: &mut Outs,
) -> Result<(), NoMemory>
    ensures { OnOk result (outs.new ≡ outs.old ++ reply_row client reply.now ∷ []) }
{
    let mut bytes = Bytes::new(alloc);
    put(reply, &mut bytes)?;
    outs.push(OutRow::Sent(client, bytes))
}

/// Sends a last reply, and shuts the client.
pub(crate) fn dismiss(
    alloc: Global,
    client: u32,
    reply: &Reply,
    outs: &mut Outs,
) -> Result<(), NoMemory>
    ensures { OnOk result (outs.new ≡ (outs.old ++ reply_row client reply.now ∷ []) ++ OutRow.Shut client ∷ []) }
{
    send(alloc, client, reply, outs)?;
    outs.push(OutRow::Shut(client))
}

/// The fault that tells a client where its bytes went bad.
pub(crate) fn protocol_fault(alloc: Global, kind: BadFrame) -> Result<Reply, NoMemory>
    ensures { IfOk result (λ reply. reply ≡ protocol_error kind) }
{
    let text = match kind {
        BadFrame::NoStar => b"ERR Protocol error: expected '*'".as_slice(),
        BadFrame::Count => b"ERR Protocol error: invalid multibulk length",
        BadFrame::NoDollar => b"ERR Protocol error: expected '$'",
        BadFrame::Length => b"ERR Protocol error: invalid bulk length",
        BadFrame::NoEnd => b"ERR Protocol error: missing CRLF after bulk",
    };
    Reply::fault(alloc, text)
}
