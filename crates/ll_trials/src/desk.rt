//! A tree with one client and its child. The client's walk creates a directory, with two slots lent.

ghost use Rattle.std.specs.Prelude.{◌≡◌, ◌<◌, IsTrue, None, length, true};
ghost use Rattle.ll_client.specs.declared.lent.TheConstants.{LENT_SLOTS};

use crate::calls::target;
use ll_client::{
    Account, Blank, Client, Descent, Desk, Leaving, Left, Locked, Opened, Places, Rider, Shape,
    Tie, close, open,
};
use ll_journal::{Next, Progress};
use ll_rights::{Abi, Kind};
use ll_seq::{Call, ROOT, Reply, Rules};
use ll_session::dead_end;
use std::alloc::Global;
use std::marker::Brand;
use std::sync::{Mutex, Wait};

const RULES: Rules = Rules {
    abi: Abi::NEWEST,
    copies: true,
};

/// Whether the walk of the client's mkdir begins.
fn sets_out<N: Shape>(
    alloc: Global,
    tie: &Tie<N, Account>,
    desk: &mut Desk<N>,
    me: &mut Rider<N>,
) -> bool {
    let Some(path) = target(alloc, "/a") else {
        return false;
    };
    let begun = desk.begin(tie, me, Call::Make(Kind::Dir, path));
    let is_begun = begun.is_ok();
    drop(begun);
    is_begun
}

/// Whether the walk stands in the root, and its next step is its commit, with the root's slot and this one.
fn ends_with(descent: &Descent, spare: u64) -> bool {
    match &descent.next {
        Next::Commit(slots) => {
            descent.progress == Progress::Stands(ROOT) && slots.as_slice() == [0, spare].as_slice()
        }
        _ => false,
    }
}

/// Whether the directory is created. The client has no walk under way then.
fn makes<N: Shape>(
    alloc: Global,
    tie: &Tie<N, Account>,
    desk: &mut Desk<N>,
    me: &mut Rider<N>,
    root: &mut Locked<N>,
    others: &mut Places<'_, N>,
    spare: u64,
) -> bool
    requires { length others.old.items < LENT_SLOTS }
    ensures { IsTrue result → me.new.doing ≡ None }
{
    if !sets_out(alloc, tie, desk, me) {
        return false;
    }
    let descent = desk.enter(tie, me, root);
    let is_told = ends_with(&descent, spare);
    drop(descent);
    let left = desk.leave(tie, me, root, others, Leaving::Commit);
    match left {
        Left::Answered(Reply::Done) => is_told,
        other => {
            drop(other);
            false
        }
    }
}

/// Does this with the other slot behind this lock.
fn makes_behind<N: Shape>(
    rt: &impl Wait,
    alloc: Global,
    tie: &Tie<N, Account>,
    desk: &mut Desk<N>,
    me: &mut Rider<N>,
    root: &mut Locked<N>,
    lock: &Mutex<Locked<N>>,
    spare: u64,
) -> bool
    ensures { IsTrue result → me.new.doing ≡ None }
{
    let mut others = Places::new();
    others.push(Some(lock.lock(rt)));
    makes(alloc, tie, desk, me, root, &mut others, spare)
}

/// Compiles only if the value may go to another thread.
fn sent<T: Send>(value: &T) {
    let _ = value;
}

/// Opens a tree. Its last free slot is the first client's spare. Closes it with the client and the child. Waits forever
/// if the client's walk doesn't end, or the tree doesn't close.
fn begins<N: Shape + Send>(rt: &impl Wait, alloc: Global, blank: Blank<Account>) -> bool
    requires named { blank ≡ N.table }
    requires slots { N.slots ≡ 128 }
    requires limit { N.limit ≡ 10 }
    requires rules { N.rules ≡ record { abi = 3; copies = true } }
{
    let Ok(
        Opened {
            tie,
            mut desk,
            mut slots,
        },
    ) = open::<N>(alloc, blank, RULES, 64, 10)
    else {
        return false;
    };
    let Some(spare) = slots.pop() else {
        return false;
    };
    let Some(root) = slots.get_mut(0) else {
        return false;
    };
    let Ok(mut clients) = Vec::with_capacity(alloc, 2) else {
        return false;
    };
    let Ok(mut me) = desk.connect(&tie) else {
        clients.destroy_empty();
        return false;
    };
    sent(&me);
    sent(&spare);
    let child = desk.spawn(&tie, &mut me);
    let Client { mut rider } = me;
    let number = spare.number();
    let lock = Mutex::new(spare);
    if !makes_behind(rt, alloc, &tie, &mut desk, &mut rider, root, &lock, number) {
        dead_end(rt);
        unreachable!()
    }
    let spare = lock.into_inner();
    clients.push_reserved(Client { rider });
    let has_child = match child {
        Ok(child) => {
            clients.push_reserved(child);
            true
        }
        Err(_) => false,
    };
    match close(&tie, desk, clients) {
        Ok(history) => { has_child && spare.inode() == ROOT + 1 && history.entries().len() == 3 }
        Err(_back) => {
            dead_end(rt);
            unreachable!()
        }
    }
}

#[test]
fn desk(rt: HostRuntime) {
    let is_right = match Blank::new(rt.alloc()) {
        Ok(blank) => begins::<Brand>(&rt, rt.alloc(), blank),
        Err(_) => false,
    };
    assert!(rt; is_right);
}
