//! Two streams in memory, served by two threads: the first one's call is held in a directory until the second has its
//! reply.

ghost use Rattle.std.specs.Prelude.{◌≡◌, ◌+◌, None, true};
ghost use Rattle.ll_rights.specs.declared.limits.TheConstants.{TREE_CLIENTS};

use crate::calls::{inode_at, makes};
use crate::clients::{bring, close};
use crate::fuse::Source;
use crate::watched::{TrialEnd, end_of_trial};
use crossbeam_channel::unbounded;
use ll_audit::audit;
use ll_calls::Tree;
use ll_client::{Account, Blank, Client, Locked, Shape};
use ll_rights::{Abi, Kind};
use ll_seq::Rules;
use ll_session::{
    Host, NoKeeper, Refusal, Served, Stream, Watches, add_all, gather, hand_over, serve_streams,
};
use ll_walk::Gate;
use std::alloc::Global;
use std::io;
use std::io::Write;
use std::marker::Brand;
use std::sync::atomic::{AtomicU64, Ordering};
use std::sync::{Arc, Wait};
use std::test::*;
use std::thread::{self, Threads};

const RULES: Rules = Rules {
    abi: Abi::NEWEST,
    copies: true,
};

const NODES: usize = 64;

const ENTRIES: usize = 100;

/// The most times that a held walk looks whether it may go on.
const TURNS: u64 = 10_000_000;

const HELD_LINES: &[u8] = b"make reg /a/x\nstat /a/x\n";

const HELD_REPLIES: &[u8] = b"ok\nstat 5 reg 0 1\n";

const FREE_LINES: &[u8] = b"make reg /b/x\n";

const FREE_REPLIES: &[u8] = b"ok\n";

/// The directory in which walks are held, whether the second stream has its first reply, and how many streams have all
/// theirs.
#[derive(Drop)]
struct Flags {
    inode: AtomicU64,
    is_answered: AtomicU64,
    right: AtomicU64,
}

/// Holds walks in one directory until the second stream has its first reply.
#[derive(Drop)]
struct Holding {
    flags: Arc<Flags, Global>,
}

impl<N: Shape> Gate<N> for Holding {
    fn held(&self, client: u64, inode: u64, slot: &Locked<N>) {
        let _ = client;
        let _ = slot;
        if inode != self.flags.inode.load(Ordering::SeqCst) {
            return;
        }
        for _ in 0..TURNS {
            if self.flags.is_answered.load(Ordering::SeqCst) != 0 {
                return;
            }
            thread::yield_now();
        }
    }
}

/// Keeps what is written. The second stream's sets a flag when it has a line.
#[derive(Drop)]
struct Paper {
    number: u64,
    text: Vec<u8>,
    flags: Arc<Flags, Global>,
}

impl Write for Paper {
    ghost contents = { λ paper. None };

    fn write(&mut self, buf: &[u8]) -> io::Result<usize> {
        let [first, ..] = buf else {
            return Ok(0);
        };
        self.text.push(*first)?;
        if *first == b'\n' && self.number == 2 {
            self.flags.is_answered.store(1, Ordering::SeqCst);
        }
        Ok(1)
    }

    fn flush(&mut self) -> io::Result<()> {
        Ok(())
    }
}

/// Checks the replies of each stream.
#[derive(Drop)]
struct Reader {
    flags: Arc<Flags, Global>,
}

impl Watches<Source<'static>, Paper> for Reader {
    fn came(&self, stream: &Stream<Source<'static>, Paper>) {
        let _ = stream;
    }

    fn went<N: Shape>(
        &self,
        stream: &Stream<Source<'static>, Paper>,
        served: &Served<N, Source<'static>, Paper>,
        refusal: Option<Refusal>,
    ) {
        let _ = refusal;
        let expected = if stream.number == 1 {
            HELD_REPLIES
        } else {
            FREE_REPLIES
        };
        if served.outcome.ended.is_ok() && stream.writer.text.as_slice() == expected {
            self.flags.right.fetch_add(1, Ordering::SeqCst);
        }
    }
}

/// The stream of this number, with these lines as its input.
fn stream(
    alloc: Global,
    flags: &Arc<Flags, Global>,
    number: u64,
    lines: &'static [u8],
) -> Option<Stream<Source<'static>, Paper>> {
    Some(Stream {
        number,
        reader: Source {
            rest: lines,
            calls: 1_000,
        },
        writer: Paper {
            number,
            text: Vec::new(alloc),
            flags: Arc::try_clone(flags).ok()?,
        },
    })
}

/// Whether the client creates `/a`, in which walks are held from now on, and `/b`.
fn furnishes<N: Shape>(
    rt: &impl Wait,
    alloc: Global,
    tree: &Tree<N, Holding>,
    me: &mut Client<N>,
    flags: &Flags,
) -> bool {
    if !makes(rt, alloc, tree, me, Kind::Dir, "/a")
        || !makes(rt, alloc, tree, me, Kind::Dir, "/b")
    {
        return false;
    }
    let inode = inode_at(rt, alloc, tree, me, "/a");
    flags.inode.store(inode, Ordering::SeqCst);
    true
}

/// Serves both streams with two threads. Returns what is left of them.
fn serve_both<N: Shape + Send + Sync, R: Threads + Wait + Sync>(
    rt: &R,
    alloc: Global,
    tree: &Tree<N, Holding>,
    flags: &Arc<Flags, Global>,
) -> Option<Vec<Vec<Served<N, Source<'static>, Paper>>>>
    requires limit { N.limit ≡ 100 }
{
    let (sender, streams) = unbounded(alloc).ok()?;
    let first = stream(alloc, flags, 1, HELD_LINES)?;
    let second = stream(alloc, flags, 2, FREE_LINES)?;
    hand_over(rt, &sender, first).ok()?;
    hand_over(rt, &sender, second).ok()?;
    drop(sender);
    let host = Host {
        tree,
        limit: 100,
        keeper: &NoKeeper,
        profile: &[],
    };
    let watch = Reader {
        flags: Arc::try_clone(flags).ok()?,
    };
    serve_streams(rt, alloc, &host, streams, &watch, 2, 2).ok()
}

/// Serves both streams beside a client of its own. Returns all clients, and whether both streams were served.
fn all_come<N: Shape + Send + Sync, R: Threads + Wait + Sync>(
    rt: &R,
    alloc: Global,
    tree: &Tree<N, Holding>,
    flags: &Arc<Flags, Global>,
) -> (Vec<Client<N>>, bool)
    requires limit { N.limit ≡ 100 }
{
    let mut clients = bring(rt, alloc, tree, 1);
    let is_furnished = match clients.get_mut(0) {
        Some(me) => furnishes(rt, alloc, tree, me, flags),
        None => false,
    };
    if !is_furnished {
        return (clients, false);
    }
    let Some(rooms) = serve_both(rt, alloc, tree, flags) else {
        return (clients, false);
    };
    let mut others = Vec::new(alloc);
    gather(rt, &mut others, rooms);
    add_all(rt, &mut clients, others);
    (clients, true)
}

/// Whether both streams got their replies.
fn both_are_answered<N: Shape + Send + Sync, R: Threads + Wait + Sync>(
    rt: &R,
    alloc: Global,
    blank: Blank<Account>,
) -> Option<bool>
    requires named { blank ≡ N.table }
    requires slots { N.slots ≡ 64 + TREE_CLIENTS }
    requires limit { N.limit ≡ 100 }
    requires rules { N.rules ≡ record { abi = 3; copies = true } }
{
    let flags = Arc::new(
        alloc,
        Flags {
            inode: AtomicU64::new(0),
            is_answered: AtomicU64::new(0),
            right: AtomicU64::new(0),
        },
    )
    .ok()?;
    let gate = Holding {
        flags: Arc::try_clone(&flags).ok()?,
    };
    let tree = Tree::<N, Holding>::open(alloc, blank, RULES, NODES, ENTRIES, gate).ok()?;
    let (clients, are_served) = all_come(rt, alloc, &tree, &flags);
    let history = close(rt, tree, clients);
    let is_right = flags.right.load(Ordering::SeqCst) == 2 && history.entries().len() == 9;
    Some(are_served && is_right && audit(alloc, RULES, NODES, &history).is_ok())
}

fn serves_both<R: Threads + Wait + Sync>(rt: &R, alloc: Global) -> bool {
    match Blank::new(alloc) {
        Ok(blank) => matches!(both_are_answered::<Brand, _>(rt, alloc, blank), Some(true)),
        Err(_) => false,
    }
}

#[test]
fn stream_answered_beside_one_that_is_held(rt: HostRuntime) {
    let alloc = rt.alloc();
    let ended = end_of_trial(&rt, alloc, move || serves_both(&rt, alloc));
    assert_eq!(rt; ended, TrialEnd::Right);
}
