//! Serves connections, as the program does.

ghost use Rattle.std.specs.Prelude.{◌≡◌, ℕ, List, IfErr, IfOk, IfSome, OnOk};
ghost use Rattle.std.specs.Io.KnownBytes.{Appends};
ghost use Rattle.std.specs.List.{All};
ghost use Rattle.ll_wire.specs.Entries.{IsEntry};
ghost use Rattle.ll_program.specs.Options.{served_in};
ghost use Rattle.ll_commands.specs.Service.{IsDone, IsServed, MayFail, MayStop, listening};

use crate::log::Log;
use crate::port::Binds;
use crate::service::host_on;
use ll_program::{
    Failure, Recorded, ServeOptions, begin_record, header_of, save_history, setup_of,
};
use ll_session::{Chronicle, NoKeeper, Setup};
use ll_wire::Destination;
use std::alloc::Global;
use std::io::{Read, Write};
use std::sync::Wait;
use std::thread::Threads;

// Serves connections on a tree with this setup. Returns its history, and its record, if there is one.
fn host<H: Threads + Wait + Sync, B: Binds, D: Write + Drop + Send, W: Write, E: Write + Send>(
    rt: &H,
    alloc: Global,
    setup: Setup,
    options: &ServeOptions,
    net: &B,
    record: Option<D>,
    out: &mut W,
    log: &Log<'_, H, E>,
) -> Result<Recorded<D>, Failure>
    requires { setup.history ≡ options.now.tree.history }
    ensures served { IfOk result (λ it. IsServed setup it.history.entries) }
    ensures told { OnOk result (Appends (W.contents out.old) (W.contents out.new) (listening options.now.port)) }
    ensures entries { IfOk result (λ it. All IsEntry it.history.entries) }
    ensures failure { IfErr result
        (MayStop setup options.now.port (W.contents out.old) (W.contents out.new)) }
{
    let Some(draft) = record else {
        return match host_on(rt, alloc, setup, options, net, &NoKeeper, out, log) {
            Ok(history) => Ok(Recorded {
                history,
                record: None,
            }),
            Err(failure) => Err(failure),
        };
    };
    let chronicle = Chronicle::new(alloc, draft);
    match host_on(rt, alloc, setup, options, net, &chronicle, out, log) {
        Ok(history) => Ok(Recorded {
            history,
            record: Some(chronicle.into_parts().0),
        }),
        Err(failure) => Err(failure),
    }
}

/// Serves connections as the options ask. If they name a policy, `policy` reads it, the tree is set up by it, and its
/// loader comes first. Then the port is bound and written, and each stream that comes is served. At the end the tree is
/// closed with the clients of all streams and the loader. If the options name a file for the history, it is saved into
/// `file`, under the header of the tree. Errors: the first failure.
pub fn serve<
    H: Threads + Wait + Sync,
    B: Binds,
    P: Read,
    W: Write,
    E: Write + Send,
    F: Destination,
>(
    rt: &H,
    alloc: Global,
    options: &ServeOptions,
    net: &B,
    policy: &mut P,
    out: &mut W,
    log: &Log<'_, H, E>,
    file: &mut F,
) -> Result<(), Failure>
    ensures done { OnOk result ((text : List ℕ) × IfSome (P.remaining policy.old) (λ told. text ≡ told)
        × IsDone (served_in options.now) text (W.contents out.old) (W.contents out.new)
        (F.blank file.old) (F.contents file.old) (F.contents file.new)) }
    ensures failure { IfErr result (λ failure. (text : List ℕ) × IfSome (P.remaining policy.old) (λ told. text ≡ told)
        × MayFail (served_in options.now) text (W.contents out.old) (W.contents out.new)
        (F.contents file.old) (F.contents file.new) failure) }
{
    let setup = setup_of(alloc, &options.tree, policy)?;
    let record = begin_record(alloc, header_of(&setup), options.save, file);
    let header = header_of(&setup);
    let run = match host(rt, alloc, setup, options, net, record, out, log) {
        Ok(it) => it,
        Err(failure) => return Err(failure),
    };
    if options.save.is_none() {
        return Ok(());
    }
    save_history(alloc, header, run, file)
}
