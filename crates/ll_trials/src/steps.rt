//! A list of steps, made at once. (worked/ has schedules, whose lines the program makes one by one.)

use crate::calls::target;
use ll_laws::Step;
use ll_rights::{Abi, Kind};
use ll_seq::{Call, Rules};
use ll_steps::{Report, World};
use std::alloc::Global;

const RULES: Rules = Rules {
    abi: Abi::NEWEST,
    copies: true,
};

/// A client comes, and makes a directory below the root; its walk has no name but the last.
fn steps(alloc: Global) -> Option<Vec<Step>> {
    let path = target(alloc, "/a")?;
    let mut steps = Vec::with_capacity(alloc, 5).ok()?;
    steps.push_reserved(Step::Join);
    steps.push_reserved(Step::Begin(1, Call::Make(Kind::Dir, path)));
    steps.push_reserved(Step::Fork(1));
    steps.push_reserved(Step::Descend(1));
    steps.push_reserved(Step::Commit(1));
    Some(steps)
}

fn reports(alloc: Global) -> Option<Vec<Report>> {
    let steps = steps(alloc)?;
    let mut world = World::new(alloc, RULES, 64, 10).ok()?;
    let reports = world.run(steps).ok();
    drop(world);
    reports
}

const TOLD: [Report; 5] = [
    Report::Joined(1),
    Report::Begun,
    Report::NotNow,
    Report::Stands(1),
    Report::Replied(1),
];

#[test]
fn steps_are_made(rt: HostRuntime) {
    let told = match reports(rt.alloc()) {
        Some(reports) => reports.as_slice() == TOLD.as_slice(),
        None => false,
    };
    assert!(rt; told);
}
