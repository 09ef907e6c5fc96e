//! The table of inodes.

ghost use Rattle.std.specs.Prelude.{◌≡◌, ◌<◌, ◌≤◌, ◌+◌, ◌-◌, ◌^◌, ◌∷◌, ◌++◌, ℕ, List, [], true, false, not, ◌&&◌, ◌==◌};
ghost use Rattle.std.specs.Prelude.{is_none, unwrap_or, if◌then◌else◌, length, replicate, vec_capacity, slice_get};
ghost use Rattle.std.specs.Prelude.{slice_set, Some, None, IfOk, OnOk, OnErr};
ghost use Rattle.std.specs.List.{range_with_len};
ghost use Rattle.ll_rights.specs.declared.limits.TheConstants.{TREE_CLIENTS, TREE_NODES};
ghost use Rattle.ll_rights.specs.Map.{get, has, insert, len, remove};
ghost use Rattle.ll_seq.specs.State.{State, root, start};
ghost use Rattle.ll_seq.specs.Facts.{AreKept, has_room, have_room};
ghost use Rattle.ll_seq.specs.Effects.{with_client, child_of, with_node, with_name, without_name, with_moved, renamed};
ghost use Rattle.ll_seq.specs.Effects.{let_go, lives};
ghost use Rattle.ll_seq.specs.Stages.{is_crowded, has_many_names};
ghost use Rattle.ll_seq.specs.declared.client.ClientRecord.{ClientRecord};
ghost use Rattle.ll_seq.specs.declared.client.Descriptor as file;
ghost use Rattle.ll_seq.specs.declared.dentries.Dentry.{Dentry};
ghost use Rattle.ll_seq.specs.declared.rules.Rules.{Rules};
ghost use Rattle.ll_node.specs.InodeTable.{ArePlaced, IsTable, without_inode};

use ll_rights::Kind;
use ll_rights::limits::TREE_CLIENTS;
use ll_seq::{Descriptor, Fact, NumberMap, ROOT};
use std::alloc::{AllocError, Global};
use std::marker::Model;

/// The slot of each inode, the counts of each node, the free slots, and the next inode number. Contracts see all four.
#[derive(Drop)]
pub struct Inodes {
    facts: NumberMap<Fact>,
    next: u64,
    inodes: Vec<u64>,
    places: NumberMap<u64>,
    // Has capacity for every slot.
    free: Vec<u64>,
}

impl Model for Inodes {
    ghost use Rattle.std.specs.Prelude.{◌≤◌, length};
    ghost use Rattle.std.specs.Vec.{vec_capacity};
    ghost use Rattle.ll_node.specs.InodeTable.{Table};
    ghost use Rattle.ll_node.specs.TableCodes.{coded_table};

    ghost Value = { Table };

    ghost coded = { coded_table };

    ghost view = { λ t. record
        { facts = t.facts; next = t.next; inodes = t.inodes.items; places = t.places; free = t.free.items } };

    ghost invariant = { λ t. length t.inodes.items ≤ vec_capacity t.free };
}

/// Returns the slots' inodes in a new tree: the root in the first slot, the others vacant.
fn root_alone(alloc: Global, others: usize) -> Result<Vec<u64>, AllocError>
    requires { others < TREE_NODES + TREE_CLIENTS }
    ensures { IfOk result (λ inodes. inodes.items ≡ root ∷ replicate others 0) }
{
    let mut inodes = Vec::with_capacity(alloc, others + 1)?;
    inodes.push(ROOT)?;
    inodes.resize(others + 1, 0)?;
    Ok(inodes)
}

/// Returns all slots but the first, with capacity for that one too.
fn all_free(alloc: Global, others: usize) -> Result<Vec<u64>, AllocError>
    requires { others < TREE_NODES + TREE_CLIENTS }
    ensures items { IfOk result (λ free. free.items ≡ range_with_len 1 others) }
    ensures room { IfOk result (λ free. others < vec_capacity free) }
{
    let mut free = Vec::with_capacity(alloc, others + 1)?;
    for slot in 0..others {
        free.push_reserved(slot as u64 + 1);
    }
    Ok(free)
}

/// Marks the slot as vacant.
fn clear(inodes: &mut Vec<u64>, slot: u64)
    ensures items { inodes.new.items ≡ slice_set inodes.old.items slot 0 }
{
    if let Some(inode) = inodes.get_mut(slot as usize) {
        *inode = 0;
    }
}

/// Appends the slot to the free ones, if there is capacity. Takes no memory.
fn put_back(free: &mut Vec<u64>, slot: u64)
    ensures items { length free.old.items < vec_capacity free.old → free.new.items ≡ free.old.items ++ slot ∷ [] }
    ensures capacity { vec_capacity free.new ≡ vec_capacity free.old }
{
    if free.len() < free.capacity() {
        free.push_reserved(slot);
    }
}

impl Inodes {
    /// Returns the table of a tree with only the root, for at most `nodes` nodes. The root is in the first slot. There
    /// is one more slot for each client that may connect. Errors: memory ran out.
    pub fn new(alloc: Global, nodes: usize) -> Result<Inodes, AllocError>
        requires some { 1 ≤ nodes }
        requires most { nodes ≤ TREE_NODES }
        ensures inodes { IfOk result (λ table. table.inodes ≡ root ∷ replicate (nodes + TREE_CLIENTS - 1) 0) }
        ensures free { IfOk result (λ table. table.free ≡ range_with_len 1 (nodes + TREE_CLIENTS - 1)) }
        ensures table { IfOk result (λ table. (rules : Rules) → IsTable (start rules nodes) [] table) }
    {
        let others = nodes + TREE_CLIENTS - 1;
        let mut places = NumberMap::new(alloc);
        places.insert(ROOT, 0)?;
        Ok(Inodes {
            facts: NumberMap::of_root(alloc)?,
            next: ROOT + 1,
            inodes: root_alone(alloc, others)?,
            places,
            free: all_free(alloc, others)?,
        })
    }

    /// Returns the counts of all nodes.
    pub fn facts(&self) -> &NumberMap<Fact>
        ensures { result.now ≡ self.now.facts }
    {
        &self.facts
    }

    /// Returns the counts of the node.
    pub fn fact(&self, inode: u64) -> Option<Fact>
        ensures { result ≡ get self.now.facts inode }
    {
        self.facts.get(inode).copied()
    }

    /// Returns the slot that holds the inode.
    pub fn slot(&self, inode: u64) -> Option<u64>
        ensures { result ≡ get self.now.places inode }
    {
        self.places.get(inode).copied()
    }

    /// Returns the number of the next inode.
    pub fn next(&self) -> u64
        ensures { result ≡ self.now.next }
    {
        self.next
    }

    /// Returns the number of live nodes.
    pub fn living(&self) -> usize
        ensures { (s : State) (spares : List ℕ) → IsTable s spares self.now → result ≡ len s.nodes }
    {
        self.facts.len()
    }

    /// Returns the last of the free slots.
    pub fn last_free(&self) -> u64
        requires { 0 < length self.now.free }
        ensures { (before : List ℕ) × (self.now.free ≡ before ++ result ∷ []) }
    {
        self.free[self.free.len() - 1]
    }

    /// Removes and returns the last of the free slots, as the spare of a new client.
    pub fn take_free(&mut self) -> u64
        requires { 0 < length self.old.free }
        ensures slot { self.old.free ≡ self.new.free ++ result ∷ [] }
        ensures rest { self.new ≡ record self.old { free = self.new.free } }
    {
        let Some(slot) = self.free.pop() else {
            unreachable!();
        };
        slot
    }

    /// Reports whether one more of each of these descriptors can be counted.
    pub fn have_room(&self, descriptors: &NumberMap<Descriptor>) -> bool
        ensures { result ≡ have_room self.now.facts descriptors.now }
    {
        self.facts.have_room(descriptors)
    }

    /// Counts the descriptors of a spawned client.
    pub fn open_all(&mut self, descriptors: &NumberMap<Descriptor>)
        requires { have_room self.old.facts descriptors.now ≡ true }
        ensures facts { (s : State) (client : ℕ) (c : ClientRecord) (fresh : ℕ) → AreKept s self.old.facts
            → get s.clients client ≡ Some c → has s.clients fresh ≡ false
            → (child_of s.rules c).descriptors ≡ descriptors.now
            → AreKept (with_client s fresh (child_of s.rules c)) self.new.facts }
        ensures rest { self.new ≡ record self.old { facts = self.new.facts } }
    {
        self.facts.open_all(descriptors);
    }

    /// Reports whether one more descriptor of the inode can be counted.
    pub fn has_room(&self, inode: u64) -> bool
        ensures { result ≡ has_room self.now.facts inode }
    {
        self.facts.has_room(inode)
    }

    /// Counts one more descriptor of the inode.
    pub fn open(&mut self, inode: u64)
        requires { has_room self.old.facts inode ≡ true }
        ensures table { (s : State) (spares : List ℕ) (client : ℕ) (c : ClientRecord) (fd : ℕ) (d : file.Descriptor)
            → IsTable s spares self.old → get s.clients client ≡ Some c → get c.descriptors fd ≡ None → d.inode ≡ inode
            → has s.nodes inode ≡ true
            → IsTable (with_client s client (record c { descriptors = insert c.descriptors fd d })) spares self.new }
        ensures inodes { self.new.inodes ≡ self.old.inodes }
        ensures free { self.new.free ≡ self.old.free }
    {
        self.facts.open(inode);
    }

    /// Adds a node in the client's spare slot, with a name in the directory. Returns the client's new spare slot, taken
    /// from the free ones. Errors: memory ran out, and nothing has changed.
    pub fn make(&mut self, directory: u64, kind: Kind, spare: u64) -> Result<u64, AllocError>
        requires next { self.old.next < 2 ^ 64 - 1 }
        requires free { 0 < length self.old.free }
        requires new { get self.old.facts self.old.next ≡ None }
        requires unplaced { get self.old.places self.old.next ≡ None }
        requires slot { spare < length self.old.inodes }
        ensures inodes { OnOk result (self.new.inodes ≡ slice_set self.old.inodes spare self.old.next) }
        ensures free { IfOk result (λ fresh. self.old.free ≡ self.new.free ++ fresh ∷ []) }
        ensures table { IfOk result (λ fresh. (s : State) (spares : List ℕ) (place : ℕ) (at : Dentry)
            → IsTable s spares self.old → slice_get spares place ≡ Some spare → at.directory ≡ directory
            → has s.nodes directory ≡ true → get s.entries at ≡ None → is_crowded s directory ≡ false
            → len s.nodes < s.room → IsTable (with_node s kind at) (slice_set spares place fresh) self.new) }
        ensures err { OnErr result (self.new ≡ self.old) }
    {
        let inode = self.next;
        self.places.insert(inode, spare)?;
        if let Err(error) = self.facts.make(directory, inode, kind) {
            self.places.remove(inode);
            return Err(error);
        }
        self.inodes[spare as usize] = inode;
        self.next = inode + 1;
        Ok(self.take_free())
    }

    /// Counts a further name of the inode, in the directory.
    pub fn name(&mut self, directory: u64, inode: u64)
        ensures table { (s : State) (spares : List ℕ) (at : Dentry) → IsTable s spares self.old
            → at.directory ≡ directory → has s.nodes directory ≡ true → has s.nodes inode ≡ true
            → get s.entries at ≡ None → is_crowded s directory ≡ false → has_many_names s inode ≡ false
            → IsTable (with_name s at inode) spares self.new }
        ensures inodes { self.new.inodes ≡ self.old.inodes }
        ensures free { self.new.free ≡ self.old.free }
    {
        self.facts.name(directory, inode);
    }

    /// Frees the inode's slot.
    fn vacate(&mut self, inode: u64)
        ensures inodes { ArePlaced self.old.inodes self.old.places
            → self.new.inodes ≡ without_inode self.old.inodes inode }
        ensures freed { (slot : ℕ) → ArePlaced self.old.inodes self.old.places
            → get self.old.places inode ≡ Some slot → length self.old.free < length self.old.inodes
            → self.new ≡ record self.old {
              inodes = without_inode self.old.inodes inode;
              places = remove self.old.places inode;
              free = self.old.free ++ slot ∷ [];
            } }
    {
        if let Some(slot) = self.places.get(inode).copied() {
            self.places.remove(inode);
            clear(&mut self.inodes, slot);
            put_back(&mut self.free, slot);
        }
    }

    /// Counts one name of the inode less, in the directory, and frees its slot if nothing keeps its node. Returns
    /// whether it did.
    pub fn unname(&mut self, directory: u64, inode: u64) -> bool
        ensures table { (s : State) (spares : List ℕ) (at : Dentry) → IsTable s spares self.old
            → at.directory ≡ directory → get s.entries at ≡ Some inode → has s.nodes inode ≡ true
            → IsTable (without_name s at inode) spares self.new }
        ensures goes { (s : State) (spares : List ℕ) (at : Dentry) → IsTable s spares self.old
            → at.directory ≡ directory → get s.entries at ≡ Some inode → has s.nodes inode ≡ true
            → result ≡ not (lives (record s { entries = remove s.entries at }) inode) }
        ensures inodes { (s : State) (spares : List ℕ) → IsTable s spares self.old
            → self.new.inodes ≡ (if result then without_inode self.old.inodes inode else self.old.inodes) }
        ensures free { (s : State) (spares : List ℕ) (slot : ℕ) → IsTable s spares self.old
            → get self.old.places inode ≡ Some slot
            → self.new.free ≡ (if result then self.old.free ++ slot ∷ [] else self.old.free) }
    {
        let goes = self.facts.unname(directory, inode);
        if goes {
            self.vacate(inode);
        }
        goes
    }

    /// Moves a name of the inode from one directory to the other, replacing another inode's name if given. Returns
    /// whether the replaced node goes, with its slot.
    pub fn rename(&mut self, from: u64, into: u64, inode: u64, replaced: Option<u64>) -> bool
        ensures table { (s : State) (spares : List ℕ) (old new : Dentry) → IsTable s spares self.old
            → old.directory ≡ from → new.directory ≡ into → has s.nodes into ≡ true → get s.entries old ≡ Some inode
            → get s.entries new ≡ replaced → ((node : ℕ) → replaced ≡ Some node → has s.nodes node ≡ true)
            → (is_none replaced && not (from == into) && is_crowded s into) ≡ false
            → IsTable (renamed s old new inode replaced) spares self.new }
        ensures goes { (s : State) (spares : List ℕ) (old new : Dentry) → IsTable s spares self.old
            → old.directory ≡ from → new.directory ≡ into → get s.entries old ≡ Some inode
            → get s.entries new ≡ replaced → (node : ℕ) → replaced ≡ Some node → has s.nodes node ≡ true
            → result ≡ (not (inode == node) && not (lives (with_moved s old new inode) node)) }
        ensures stays { replaced ≡ None → result ≡ false }
        ensures inodes { (s : State) (spares : List ℕ) → IsTable s spares self.old → self.new.inodes
            ≡ (if result then without_inode self.old.inodes (unwrap_or replaced 0) else self.old.inodes) }
        ensures free { (s : State) (spares : List ℕ) (slot : ℕ) → IsTable s spares self.old
            → get self.old.places (unwrap_or replaced 0) ≡ Some slot
            → self.new.free ≡ (if result then self.old.free ++ slot ∷ [] else self.old.free) }
        ensures still { replaced ≡ None → self.new.free ≡ self.old.free }
    {
        let goes = self.facts.rename(from, into, inode, replaced);
        if goes && let Some(node) = replaced {
            self.vacate(node);
        }
        goes
    }

    /// Counts one descriptor of the inode less, and frees its slot if nothing keeps its node. Returns whether it did.
    pub fn close(&mut self, inode: u64) -> bool
        ensures table { (s : State) (spares : List ℕ) (client : ℕ) (c : ClientRecord) (fd : ℕ) (d : file.Descriptor)
            → IsTable s spares self.old → get s.clients client ≡ Some c → get c.descriptors fd ≡ Some d
            → d.inode ≡ inode → has s.nodes inode ≡ true
            → IsTable (let_go (with_client s client (record c { descriptors = remove c.descriptors fd })) inode) spares
            self.new }
        ensures goes { (s : State) (spares : List ℕ) (client : ℕ) (c : ClientRecord) (fd : ℕ) (d : file.Descriptor)
            → IsTable s spares self.old → get s.clients client ≡ Some c → get c.descriptors fd ≡ Some d
            → d.inode ≡ inode → has s.nodes inode ≡ true
            → result ≡ not (lives (with_client s client (record c { descriptors = remove c.descriptors fd })) inode) }
        ensures inodes { (s : State) (spares : List ℕ) → IsTable s spares self.old
            → self.new.inodes ≡ (if result then without_inode self.old.inodes inode else self.old.inodes) }
        ensures free { (s : State) (spares : List ℕ) (slot : ℕ) → IsTable s spares self.old
            → get self.old.places inode ≡ Some slot
            → self.new.free ≡ (if result then self.old.free ++ slot ∷ [] else self.old.free) }
    {
        let goes = self.facts.close(inode);
        if goes {
            self.vacate(inode);
        }
        goes
    }
}
