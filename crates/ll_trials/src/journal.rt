//! A journal without lent slots: two clients try to rename, and the first holds the gate.

use crate::calls::target;
use ll_journal::{Journal, Made, Progress, Station};
use ll_rights::Abi;
use ll_seq::{Call, Reply, Rules};
use std::alloc::Global;

const RULES: Rules = Rules {
    abi: Abi::NEWEST,
    copies: true,
};

/// Whether the client's spawn is answered, to the client and in the journal's last entry.
fn spawns(journal: &mut Journal, client: u64) -> bool {
    let answered = journal.client_step(client, Call::Spawn);
    let is_answered = matches!(&answered, Ok(Made::Replied(Reply::Spawned(2))));
    drop(answered);
    match journal.entries().last() {
        Some(entry) => is_answered && matches!(entry.reply, Reply::Spawned(2)),
        None => false,
    }
}

/// Whether the walk of the client's rename begins.
fn renames(journal: &mut Journal, alloc: Global, client: u64) -> bool {
    let Some(old) = target(alloc, "/a") else {
        return false;
    };
    let Some(new) = target(alloc, "/b") else {
        return false;
    };
    let begun = journal.begin(client, Call::Rename(old, new));
    let is_begun = begun.is_ok();
    drop(begun);
    is_begun
}

fn begins(journal: &mut Journal, alloc: Global) -> bool {
    matches!(journal.connect(), Ok(1))
        && spawns(journal, 1)
        && renames(journal, alloc, 1)
        && !renames(journal, alloc, 2)
        && journal.station(1) == Station::Above
        && journal.fork(1) == Progress::NotNow
}

#[test]
fn journal(rt: HostRuntime) {
    let is_right = match Journal::new(rt.alloc(), RULES, 64, 10) {
        Ok(mut journal) => {
            let is_right = begins(&mut journal, rt.alloc());
            drop(journal);
            is_right
        }
        Err(_) => false,
    };
    assert!(rt; is_right);
}
