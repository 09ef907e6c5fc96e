//! The counts of nodes, and copies of rulesets. The program doesn't use them.

use ll_rights::{Abi, Access, Kind};
use ll_rules::Ruleset;
use ll_seq::{Fact, NumberMap};
use std::alloc::{AllocError, Global};

/// The counts of a tree of the root and a file in it.
fn counts(alloc: Global) -> Result<NumberMap<Fact>, AllocError> {
    let mut facts = NumberMap::of_root(alloc)?;
    if facts.get(2).is_none() {
        facts.make(1, 2, Kind::Reg)?;
    }
    Ok(facts)
}

fn file(alloc: Global) -> Option<Fact> {
    counts(alloc).ok()?.get(2).copied()
}

/// The rights of the rule on inode 7, in the copy of a ruleset.
fn copied(alloc: Global) -> Option<Access> {
    let mut made = Ruleset::create(alloc, Abi::NEWEST, Access(0x6)).ok()?;
    made.allow(7, Kind::Reg, Access(0x4)).ok()?;
    let copy = made.copy().ok()?;
    Some(copy.layer().rule(7))
}

const ONE_NAME: Fact = Fact {
    kind: Kind::Reg,
    names: 0,
    links: 1,
    opens: 0,
};

#[test]
fn counts_and_copies(rt: HostRuntime) {
    assert!(rt; file(rt.alloc()) == Some(ONE_NAME));
    assert!(rt; copied(rt.alloc()) == Some(Access(0x4)));
}
