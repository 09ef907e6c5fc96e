//! What comes before the first stream.

ghost use Rattle.std.specs.Prelude.{◌≡◌, ◌⊎◌, [], IfErr, IfOk, IfSome, OnOk, string_bytes};
ghost use Rattle.std.specs.Io.KnownBytes.{Appends};
ghost use Rattle.ll_program.specs.declared.failure.Failure.{Failure};
ghost use Rattle.ll_session.specs.Session.{AreOthers};
ghost use Rattle.ll_wire.specs.WriterGains.{AppendsFront};
ghost use Rattle.ll_commands.specs.Loader.{HasLoaded};
ghost use Rattle.ll_commands.specs.Service.{EndsEarly, listening};

use crate::loader::load;
use crate::port::Binds;
use ll_calls::Tree;
use ll_client::Shape;
use ll_program::{Failure, ServeOptions, write_text};
use ll_seq::Call;
use ll_session::Party;
use ll_walk::Gate;
use ll_wire::line_text;
use std::alloc::{AllocError, Global};
use std::io::Write;
use std::sync::Wait;

// Returns the line with the port.
fn port_line(alloc: Global, port: u16) -> Result<String, AllocError>
    ensures { IfOk result (λ line. string_bytes line ≡ listening port) }
{
    let number = port.to_string(alloc)?;
    line_text(alloc, "listening", &[number.as_str()])
}

// Writes the line with the port.
fn tell_port<W: Write>(alloc: Global, port: u16, out: &mut W) -> Result<(), Failure>
    ensures ok { OnOk result (Appends (W.contents out.old) (W.contents out.new) (listening port)) }
    ensures err { IfErr result (λ failure. ((failure ≡ Failure.NoMemory) × (W.contents out.new ≡ W.contents out.old))
        ⊎ ((failure ≡ Failure.Output)
        × AppendsFront (W.contents out.old) (W.contents out.new) (listening port))) }
{
    let Ok(line) = port_line(alloc, port) else {
        return Err(Failure::NoMemory);
    };
    write_text(line.as_str(), out)
}

/// Adds the loader to a new tree, if there is one, and makes its calls. Then binds the port, and writes its line.
/// Returns the listener, whose streams come next. Errors: a call of the loader is refused, the port can't be bound, the
/// output failed, or memory ran out.
pub(crate) fn listen<N: Shape, H: Wait, G: Gate<N>, B: Binds, W: Write>(
    rt: &H,
    alloc: Global,
    tree: &Tree<N, G>,
    party: &mut Party<N>,
    loader: Option<Vec<Call>>,
    options: &ServeOptions,
    net: &B,
    out: &mut W,
) -> Result<B::Listener, Failure>
    requires nobody { party.old ≡ [] }
    requires calls { IfSome loader (λ calls. AreOthers calls.items) }
    ensures loaded { OnOk result (HasLoaded N.limit loader party.new) }
    ensures told { OnOk result (Appends (W.contents out.old) (W.contents out.new) (listening options.now.port)) }
    ensures failure { IfErr result (λ failure.
        EndsEarly N.limit options.now.port loader party.new (W.contents out.old) (W.contents out.new) failure) }
{
    load(rt, tree, party, loader)?;
    let Some(listener) = net.bind(options.port, options.idle) else {
        return Err(Failure::Socket);
    };
    tell_port(alloc, options.port, out)?;
    Ok(listener)
}
