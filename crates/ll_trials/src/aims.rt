//! The paths on which calls collide.

ghost use Rattle.std.specs.Prelude.{◌<◌};

use crate::random::Random;
use ll_path::{Target, Word};
use std::alloc::Global;

/// The directories that each thread creates first.
pub const TOP: [&str; 4] = ["/a", "/b", "/c", "/d"];

/// The places in each of them: five for directories, then five for files. That makes forty paths, at most six names
/// deep.
const PLACES: [&str; 10] = [
    "",
    "/a",
    "/a/a",
    "/a/a/a",
    "/a/a/a/a",
    "/f",
    "/a/f",
    "/a/a/f",
    "/a/a/a/f",
    "/a/a/a/a/f",
];

/// One path in this many is drawn from all, whatever it is for.
const STRAYS: u64 = 48;

/// One pair in this many is drawn from all. It must be rare: a moved directory may end where no path leads on.
const STRAY_PAIRS: u64 = 400;

/// What a call expects under a path, or creates there.
#[derive(Clone, Copy, PartialEq, Eq)]
pub enum Aim {
    Directory,
    File,
    Any,
}

/// The text as a path argument.
pub fn target(alloc: Global, text: &str) -> Option<Target> {
    let text = String::from_str(alloc, text).ok()?;
    let word = Word::new(text).ok()?;
    Some(Target::read(word))
}

/// Draws a place, more often one that isn't deep.
fn place(random: &mut Random, aim: Aim) -> u64
    ensures { result < 10 }
{
    match aim {
        Aim::Directory => random.low(5),
        Aim::File => 5 + random.low(5),
        Aim::Any => random.below(10),
    }
}

fn path_at(alloc: Global, top: u64, place: u64) -> Option<Target>
    requires top { top < 4 }
    requires place { place < 10 }
{
    let mut text = String::from_str(alloc, TOP[top as usize]).ok()?;
    text.push_str(PLACES[place as usize]).ok()?;
    target(alloc, text.as_str())
}

/// Draws one of the forty paths, mostly one for this aim.
pub fn path(alloc: Global, random: &mut Random, aim: Aim) -> Option<Target> {
    let aim = if random.below(STRAYS) == 0 {
        Aim::Any
    } else {
        aim
    };
    let place = place(random, aim);
    path_at(alloc, random.below(4), place)
}

/// Draws two of the forty paths: mostly both for files, or one place of a directory in both.
pub fn two_paths(alloc: Global, random: &mut Random) -> Option<(Target, Target)> {
    let from = match random.below(STRAY_PAIRS) {
        0 => Aim::Any,
        1..=100 => Aim::Directory,
        _ => Aim::File,
    };
    let first = place(random, from);
    let second = match from {
        Aim::Directory => first,
        _ => place(random, from),
    };
    Some((
        path_at(alloc, random.below(4), first)?,
        path_at(alloc, random.below(4), second)?,
    ))
}
