//! The part that several histories begin with.

ghost use Rattle.std.specs.Prelude.{◌≡◌, ◌<◌, ◌≤◌, ◌+◌, ◌^◌, ℕ, IfErr, IfNone, IfOk, IfSome, OnOk, drop, length, map};
ghost use Rattle.std.specs.Prelude.{take};
ghost use Rattle.ll_rights.specs.declared.limits.TheConstants.{TREE_NODES};
ghost use Rattle.ll_seq.specs.History.{IsLegal, state_after};
ghost use Rattle.ll_audit.specs.Saved.{opened};
ghost use Rattle.ll_learn.specs.Learned.{BeginsSo, IsCut, NeverConnects, connects_as};
ghost use Rattle.ll_learn.specs.Preface.{AreGathered, Gathers, IsUnbegun, IsUnlearnedOf, IsUnlearnedOfOne, IsUnopened};
ghost use Rattle.ll_learn.specs.Preface.{entry_behind, number_of, unlearned_by, unopened_by};

use crate::alike::are_alike;
use crate::fault::{LearnFault, Unlearned};
use crate::needs::{Needs, Origin};
use ll_audit::{AuditFault, follow};
use ll_plain::Plain;
use ll_seq::Entry;
use ll_wire::Header;
use std::alloc::Global;

// Reports whether the client connects.
fn connects_as(client: u64, entry: &Entry) -> bool
    ensures { result ≡ connects_as client entry.now }
{
    entry.client == client && entry.call.is_connect()
}

/// Returns the number of entries up to and including the client's first connect, or None if it doesn't connect.
pub fn cut_of(entries: &[Entry], client: u64) -> Option<usize>
    ensures some { IfSome result (λ cut. IsCut entries.now client cut × (cut ≤ length entries.now)) }
    ensures few { IfSome result (λ cut. cut < 2 ^ 63) }
    ensures none { IfNone result (NeverConnects entries.now client) }
{
    for (i, entry) in entries.iter().enumerate() {
        if connects_as(client, entry) {
            return Some(i + 1);
        }
    }
    None
}

// Converts the fault that an audit finds up to a cut.
fn unopened(fault: AuditFault, history: usize) -> Unlearned
    ensures { result ≡ unopened_by history fault }
{
    match fault {
        AuditFault::Illegal(entry) => Unlearned::Illegal(Origin { history, entry }),
        AuditFault::NoMemory => Unlearned::NoMemory,
    }
}

// Returns the entry with this number after a cut.
fn behind(cut: usize, history: usize, entry: usize) -> Origin
    requires { cut + entry < 2 ^ 64 }
    ensures { result ≡ entry_behind cut history entry }
{
    Origin {
        history,
        entry: cut + entry,
    }
}

/// The entries that histories begin with, up to a client's first connect, in a tree created with this header.
#[derive(Drop)]
pub(crate) struct Opening<'a> {
    pub header: &'a Header,
    pub client: u64,
    pub early: &'a [Entry],
}

impl Opening<'_> {
    /// Returns the tree after these entries, which are this history's.
    pub(crate) fn tree(&self, alloc: Global, history: usize) -> Result<Plain, Unlearned>
        requires some { 1 ≤ self.now.header.now.nodes }
        requires most { self.now.header.now.nodes ≤ TREE_NODES }
        ensures tree { IfOk result (λ tree. tree ≡ state_after (opened self.now.header.now) self.now.early.now) }
        ensures legal { OnOk result (IsLegal (opened self.now.header.now) self.now.early.now) }
        ensures next { IfOk result (λ tree. tree.next ≤ 2 + length self.now.early.now) }
        ensures fault { IfErr result (IsUnopened (opened self.now.header.now) self.now.early.now history) }
    {
        let Ok(mut tree) = Plain::new(alloc, self.header.version.rules(), self.header.nodes) else {
            return Err(Unlearned::NoMemory);
        };
        match follow(&mut tree, self.early) {
            Ok(()) => Ok(tree),
            Err(fault) => Err(unopened(fault, history)),
        }
    }

    // Returns the entries after the cut, of a history that must begin with the same entries.
    fn late<'b>(&self, entries: &'b [Entry], history: usize) -> Result<&'b [Entry], Unlearned>
        ensures begins { OnOk result (BeginsSo self.now.early.now self.now.client entries.now) }
        ensures late { IfOk result (λ late. late.now ≡ drop (length self.now.early.now) entries.now) }
        ensures len { IfOk result (λ late. length self.now.early.now + length late.now ≡ length entries.now) }
        ensures fault { IfErr result (IsUnbegun self.now.early.now self.now.client history entries.now) }
    {
        let Some(cut) = cut_of(entries, self.client) else {
            return Err(Unlearned::NoClient(history));
        };
        if are_alike(&entries[..cut], self.early) {
            Ok(&entries[cut..])
        } else {
            Err(Unlearned::Unlike(history))
        }
    }

    // Converts the fault that keeps a history's needs from being gathered.
    fn fault(&self, fault: LearnFault, history: usize) -> Unlearned
        requires { length self.now.early.now + number_of fault < 2 ^ 64 }
        ensures { result ≡ unlearned_by (length self.now.early.now) history fault }
    {
        let cut = self.early.len();
        match fault {
            LearnFault::NoClient => Unlearned::NoClient(history),
            LearnFault::Illegal(entry) => Unlearned::Illegal(behind(cut, history, entry)),
            LearnFault::Denied(entry) => Unlearned::Denied(behind(cut, history, entry)),
            LearnFault::Full(entry) => Unlearned::Full(behind(cut, history, entry)),
            LearnFault::NoMemory => Unlearned::NoMemory,
        }
    }

    // Adds a history's needs after the cut.
    fn gather(
        &self,
        alloc: Global,
        needs: &mut Needs,
        entries: &[Entry],
        history: usize,
    ) -> Result<(), Unlearned>
        requires some { 1 ≤ self.now.header.now.nodes }
        requires most { self.now.header.now.nodes ≤ TREE_NODES }
        ensures begins { OnOk result (BeginsSo self.now.early.now self.now.client entries.now) }
        ensures gathers { OnOk result (Gathers (state_after (opened self.now.header.now) self.now.early.now)
            self.now.client (drop (length self.now.early.now) entries.now) needs.old needs.new) }
        ensures fault { IfErr result (IsUnlearnedOf (opened self.now.header.now) self.now.early.now self.now.client
            history entries.now) }
    {
        let late = self.late(entries, history)?;
        let mut tree = self.tree(alloc, history)?;
        match needs.add(alloc, &mut tree, self.client, late, history) {
            Ok(()) => Ok(()),
            Err(fault) => Err(self.fault(fault, history)),
        }
    }

    /// Returns the tree after so many entries of a history behind the cut. None if the history doesn't begin with the
    /// same entries, isn't legal or has fewer, or memory ran out.
    pub(crate) fn tree_behind(
        &self,
        alloc: Global,
        entries: &[Entry],
        count: usize,
    ) -> Option<Plain>
        requires some { 1 ≤ self.now.header.now.nodes }
        requires most { self.now.header.now.nodes ≤ TREE_NODES }
        ensures tree { IfSome result (λ tree. tree
            ≡ state_after (state_after (opened self.now.header.now) self.now.early.now)
            (take count (drop (length self.now.early.now) entries.now))) }
        ensures legal { IfSome result (λ tree. IsLegal (opened self.now.header.now) self.now.early.now) }
    {
        let late = self.late(entries, 0).ok()?;
        let mut tree = self.tree(alloc, 0).ok()?;
        if late.len() < count {
            return None;
        }
        match follow(&mut tree, &late[..count]) {
            Ok(()) => Some(tree),
            Err(_) => None,
        }
    }

    /// Gathers the needs of all histories after the cut.
    pub(crate) fn needs(&self, alloc: Global, histories: &[&[Entry]]) -> Result<Needs, Unlearned>
        requires some { 1 ≤ self.now.header.now.nodes }
        requires most { self.now.header.now.nodes ≤ TREE_NODES }
        ensures gathered { IfOk result (AreGathered (opened self.now.header.now) self.now.early.now self.now.client
            (map (λ h. h.now) histories.now)) }
        ensures fault { IfErr result (IsUnlearnedOfOne (opened self.now.header.now) self.now.early.now self.now.client
            (map (λ h. h.now) histories.now)) }
    {
        let mut needs = Needs::new(alloc);
        for (history, entries) in histories.iter().enumerate() {
            self.gather(alloc, &mut needs, entries, history)?;
        }
        Ok(needs)
    }
}
