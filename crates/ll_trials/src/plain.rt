//! What layers grant on the inodes of a tree, which the program doesn't ask.

ghost use Rattle.std.specs.Prelude.{◌≡◌, ◌≢◌, ◌≤◌, ◌+◌, false, true};
ghost use Rattle.ll_rights.specs.Map.{has};
ghost use Rattle.ll_seq.specs.History.{is_connect};
ghost use Rattle.ll_seq.specs.declared.call.Call.{Call};

use crate::calls::target;
use ll_plain::Plain;
use ll_rights::{Abi, Access, Errno, Kind};
use ll_rules::{Domain, Ruleset};
use ll_seq::{Call, Reply, Rules};
use std::alloc::{AllocError, Global};
use std::process::Abort;

/// A tree with one client, and how many calls that has made.
#[derive(Drop)]
struct Yard {
    tree: Plain,
    calls: u64,
    ghost connected: { has tree.clients 1 ≡ true },
    ghost numbers: { tree.next ≤ calls + 3 },
}

impl Yard {
    fn new(alloc: Global, rules: Rules) -> Result<Yard, AllocError> {
        let mut tree = Plain::new(alloc, rules, 64)?;
        match tree.apply(1, &Call::Connect, 2) {
            Reply::Done => Ok(Yard { tree, calls: 0 }),
            _ => Err(AllocError),
        }
    }

    /// Makes the client's call, and answers whether it is done, or has made a ruleset.
    fn does(&mut self, rt: &impl Abort, call: &Call) -> bool
        requires connect { is_connect call.now ≡ false }
        requires spawn { call.now ≢ Call.Spawn }
    {
        assert!(rt; self.calls < 1_000);
        self.calls += 1;
        matches!(
            &self.tree.apply(1, call, 2),
            Reply::Done | Reply::Created(_)
        )
    }

    fn makes(&mut self, rt: &impl Abort, alloc: Global, kind: Kind, path: &str) -> bool {
        let Some(path) = target(alloc, path) else {
            return false;
        };
        let call = Call::Make(kind, path);
        let is_done = self.does(rt, &call);
        drop(call);
        is_done
    }

    fn links(&mut self, rt: &impl Abort, alloc: Global, old: &str, new: &str) -> bool {
        let (Some(old), Some(new)) = (target(alloc, old), target(alloc, new)) else {
            return false;
        };
        let call = Call::Link(old, new);
        let is_done = self.does(rt, &call);
        drop(call);
        is_done
    }

    /// What the domain's layer of this number grants on the inode.
    fn reach(&self, rt: &impl Abort, domain: &Domain, layer: usize, inode: u64) -> Option<Access> {
        assert!(rt; 1 <= layer && layer <= domain.len());
        self.tree.reach(domain, layer, inode)
    }
}

/// `/priv` is inode 2, the file in it 3, and `/pub` 4.
const YARD: &[(Kind, &str)] = &[
    (Kind::Dir, "/priv"),
    (Kind::Reg, "/priv/f"),
    (Kind::Dir, "/pub"),
];

/// A layer that handles read_file and refer, with refer on the root and read_file on `/pub`, and one that handles
/// execute, without a rule.
fn domain(alloc: Global) -> Result<Domain, Errno> {
    let mut public = Ruleset::create(alloc, Abi::NEWEST, Access(0x2004))?;
    public.allow(1, Kind::Dir, Access(0x2000))?;
    public.allow(4, Kind::Dir, Access(0x4))?;
    let mut domain = Domain::empty(alloc);
    domain.stack(&public)?;
    domain.stack(&Ruleset::create(alloc, Abi::NEWEST, Access(0x1))?)?;
    Ok(domain)
}

const RULES: Rules = Rules {
    abi: Abi::NEWEST,
    copies: true,
};

/// A layer's number, an inode's, and what the layer grants on the inode.
type Reach = (usize, u64, Option<Access>);

const ONE_NAME: &[Reach] = &[
    (1, 1, Some(Access(0x7ffb))),
    (1, 2, Some(Access(0x7ffb))),
    (1, 3, Some(Access(0x4003))),
    (1, 4, Some(Access(0x7fff))),
    (1, 9, None),
    (2, 3, Some(Access(0x4006))),
];

/// A second name adds to the first.
const TWO_NAMES: &[Reach] = &[(1, 3, Some(Access(0x4007)))];

/// A tree of these nodes.
fn made(rt: &impl Abort, alloc: Global) -> Option<Yard> {
    let mut yard = Yard::new(alloc, RULES).ok()?;
    for (kind, path) in YARD {
        if !yard.makes(rt, alloc, *kind, path) {
            return None;
        }
    }
    Some(yard)
}

fn reaches(rt: &impl Abort, yard: &Yard, domain: &Domain, wanted: &[Reach]) -> bool {
    for (layer, inode, want) in wanted {
        if yard.reach(rt, domain, *layer, *inode) != *want {
            return false;
        }
    }
    true
}

fn is_reached(rt: &impl Abort, alloc: Global) -> Option<bool> {
    let mut yard = made(rt, alloc)?;
    let domain = domain(alloc).ok()?;
    let is_one_name = reaches(rt, &yard, &domain, ONE_NAME);
    let is_linked = yard.links(rt, alloc, "/priv/f", "/pub/f");
    let is_two_names = reaches(rt, &yard, &domain, TWO_NAMES);
    Some(is_one_name && is_linked && is_two_names)
}

#[test]
fn reach(rt: HostRuntime) {
    assert!(rt; is_reached(&rt, rt.alloc()) == Some(true));
}
