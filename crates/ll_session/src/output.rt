//! The lines of replies.

ghost use Rattle.std.specs.Prelude.{◌≡◌, IfErr, OnOk};
ghost use Rattle.std.specs.Io.KnownBytes.{Appends};
ghost use Rattle.ll_wire.specs.Devices.{IsWhole};
ghost use Rattle.ll_wire.specs.Reached.{Blames};
ghost use Rattle.ll_wire.specs.Grammar.{reply_line};
ghost use Rattle.ll_session.specs.KeptHistory.{AreKept};
ghost use Rattle.ll_session.specs.Progress.{IsOfRefusal};

use crate::Party;
use crate::keeper::Kept;
use ll_client::Shape;
use ll_seq::Reply;
use ll_wire::{Ends, SessionFault, reply_line, write_line};
use std::alloc::{AllocError, Global};

/// Writes the line of a reply. Errors: the output failed, or memory ran out.
pub fn write_reply<E: Ends>(alloc: Global, reply: &Reply, ends: &mut E) -> Result<(), SessionFault>
    requires { IsWhole (E.devices ends.old) }
    ensures ok { OnOk result (Appends (E.devices ends.old).contents (E.devices ends.new).contents
        (reply_line reply.now)) }
    ensures err { IfErr result (λ fault. IsOfRefusal fault (E.devices ends.old).contents (E.devices ends.new).contents
        (reply_line reply.now)) }
    ensures fault { IfErr result (λ fault. Blames fault (E.devices ends.old) (E.devices ends.new)) }
    ensures remaining { (E.devices ends.new).remaining ≡ (E.devices ends.old).remaining }
    ensures same { E.names ends.new ≡ E.names ends.old }
{
    let Ok(line) = reply_line(alloc, reply) else {
        return Err(SessionFault::NoMemory);
    };
    write_line(ends, line.as_str())
}

/// Writes the line of a reply to these clients, after everything that they know of was kept. Errors: the output failed,
/// or memory ran out.
pub fn tell_reply<N: Shape, E: Ends>(
    alloc: Global,
    reply: &Reply,
    party: &Party<N>,
    kept: Kept,
    ends: &mut E,
) -> Result<(), SessionFault>
    requires kept { AreKept kept party.now }
    requires whole { IsWhole (E.devices ends.old) }
    ensures ok { OnOk result (Appends (E.devices ends.old).contents (E.devices ends.new).contents
        (reply_line reply.now)) }
    ensures err { IfErr result (λ fault. IsOfRefusal fault (E.devices ends.old).contents (E.devices ends.new).contents
        (reply_line reply.now)) }
    ensures fault { IfErr result (λ fault. Blames fault (E.devices ends.old) (E.devices ends.new)) }
    ensures remaining { (E.devices ends.new).remaining ≡ (E.devices ends.old).remaining }
    ensures same { E.names ends.new ≡ E.names ends.old }
{
    let _ = party;
    let _ = kept;
    write_reply(alloc, reply, ends)
}
