//! A script and an audit over readers and writers in memory, which the program doesn't use.

use crate::fuse::Source;
use ll_audit::{Untold, run_audit};
use ll_rights::Abi;
use ll_seq::Rules;
use ll_session::{Setup, run_script};
use std::alloc::Global;
use std::sync::Wait;

fn setup(alloc: Global) -> Setup {
    Setup {
        rules: Rules {
            abi: Abi::NEWEST,
            copies: true,
        },
        nodes: 64,
        history: 10,
        loader: None,
        profile: Vec::new(alloc),
    }
}

/// Whether a script that is read byte by byte gets its replies.
fn is_answered<R: Wait>(rt: &R, alloc: Global) -> bool {
    let mut reader = Source {
        rest: b"make dir /a\nclose 9\n",
        calls: 1_000,
    };
    let mut told = Vec::new(alloc);
    let ended = run_script(rt, alloc, setup(alloc), &mut reader, &mut told);
    let is_well = ended.is_ok();
    drop(ended);
    is_well && told.as_slice() == b"ok\nrefused 11 EBADF\n".as_slice()
}

/// Whether a history is judged legal.
fn is_judged(alloc: Global) -> bool {
    let mut history: &[u8] = b"landtree-history 1 nodes 64\n1 connect = ok\n";
    let mut told = Vec::new(alloc);
    let ended = run_audit(alloc, &mut history, &mut told, &mut Untold);
    ended.is_ok() && told.as_slice() == b"legal 1\n".as_slice()
}

#[test]
fn script_and_audit_in_memory(rt: HostRuntime) {
    assert!(rt; is_answered(&rt, rt.alloc()));
    assert!(rt; is_judged(rt.alloc()));
}
