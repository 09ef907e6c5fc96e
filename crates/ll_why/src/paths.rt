//! The nodes that a call needs rights on, as texts.

ghost use Rattle.std.specs.Prelude.{◌≡◌, ◌++◌, IfOk, OnOk, string_bytes, take};
ghost use Rattle.ll_decide.specs.Demands.{place_on, set_on};
ghost use Rattle.ll_path.specs.Path.{path_text};
ghost use Rattle.ll_seq.specs.Found.{or_root};
ghost use Rattle.ll_why.specs.Reasons.{chain_of};
ghost use Rattle.ll_why.specs.Names.{parted};
ghost use Rattle.ll_why.specs.Told.{asked_line, node_text, path_on, seat_text};

use crate::Asks;
use crate::text::{concat, rights_line};
use ll_decide::{Demands, On, Place};
use ll_path::Path;
use ll_rights::Access;
use ll_seq::{Call, first_path, second_path};
use std::alloc::{AllocError, Global};

/// Returns the path of this `On`: its node's, or its directory's. None means the root.
pub(crate) fn path_on(call: &Call, on: On) -> Option<&Path>
    ensures { or_root result ≡ path_on call.now on }
{
    match on {
        On::Itself | On::Parent | On::Left => first_path(call),
        On::Other | On::Entered => second_path(call),
    }
}

// Returns the inodes of its path.
fn chain_on(asks: &Asks, on: On) -> &[u64]
    ensures { result.now ≡ chain_of asks.now on }
{
    match on {
        On::Itself => asks.first.itself.as_slice(),
        On::Other => asks.second.itself.as_slice(),
        On::Parent | On::Left => asks.first.parent.as_slice(),
        On::Entered => asks.second.parent.as_slice(),
    }
}

/// Returns the place that a denial names for it.
pub(crate) fn place_on(on: On) -> Place
    ensures { result ≡ place_on on }
{
    match on {
        On::Itself | On::Parent => Place::At,
        On::Left => Place::Old,
        On::Other | On::Entered => Place::New,
    }
}

/// Returns the rights that are needed on it.
pub(crate) fn set_on(demands: &Demands, on: On) -> Access
    ensures { result.0 ≡ set_on demands.now on }
{
    match on {
        On::Itself => demands.itself,
        On::Other => demands.other,
        On::Parent => demands.parent,
        On::Left => demands.left,
        On::Entered => demands.entered,
    }
}

// Appends the name, after this many others.
fn push_name(text: &mut String, before: usize, name: &str) -> Result<(), AllocError>
    ensures { OnOk result (string_bytes text.new ≡ string_bytes text.old ++ parted before name.now) }
{
    if before > 0 {
        text.push_str("/")?;
    }
    text.push_str(name)
}

/// Returns the text of the node with this many of the path's names. Errors: memory ran out.
pub(crate) fn names_text(alloc: Global, path: &Path, count: usize) -> Result<String, AllocError>
    ensures { IfOk result (λ text. string_bytes text ≡ path_text (take count path.now)) }
{
    let mut text = String::from_str(alloc, "/")?;
    let mut names = path.names();
    for place in 0..count {
        let Some(name) = names.next() else {
            return Ok(text);
        };
        push_name(&mut text, place, name)?;
    }
    Ok(text)
}

/// Returns the text of the node with this many of the path's names. None means the root. Errors: memory ran out.
pub(crate) fn ancestor_text(
    alloc: Global,
    path: Option<&Path>,
    count: usize,
) -> Result<String, AllocError>
    ensures { IfOk result (λ text. string_bytes text ≡ path_text (take count (or_root path.entry))) }
{
    match path {
        Some(path) => names_text(alloc, path, count),
        None => String::from_str(alloc, "/"),
    }
}

/// Returns the text of the node with this many names of the path of this `On`.
pub(crate) fn upper_text(
    alloc: Global,
    call: &Call,
    on: On,
    count: usize,
) -> Result<String, AllocError>
    ensures { IfOk result (λ text. string_bytes text ≡ path_text (take count (path_on call.now on))) }
{
    ancestor_text(alloc, path_on(call, on), count)
}

/// Returns the text of the part of the path whose inodes exist.
pub(crate) fn node_text(
    alloc: Global,
    call: &Call,
    asks: &Asks,
    on: On,
) -> Result<String, AllocError>
    ensures { IfOk result (λ text. string_bytes text ≡ node_text call.now asks.now on) }
{
    let count = chain_on(asks, on).len().saturating_sub(1);
    upper_text(alloc, call, on, count)
}

/// Returns the text of the node, with the place that a denial names for it.
pub(crate) fn seat_text(
    alloc: Global,
    call: &Call,
    asks: &Asks,
    on: On,
) -> Result<String, AllocError>
    ensures { IfOk result (λ text. string_bytes text ≡ seat_text call.now asks.now on) }
{
    let node = node_text(alloc, call, asks, on)?;
    concat(alloc, &[node.as_str(), " (", place_on(on).text(), ")"])
}

/// Returns the line on the rights that are needed on it.
pub(crate) fn asked_line(
    alloc: Global,
    call: &Call,
    asks: &Asks,
    on: On,
) -> Result<String, AllocError>
    ensures { IfOk result (λ text. string_bytes text ≡ asked_line call.now asks.now on) }
{
    let seat = seat_text(alloc, call, asks, on)?;
    let words = concat(alloc, &["asked on ", seat.as_str()])?;
    rights_line(alloc, words.as_str(), set_on(&asks.demands, on))
}
