//! Counts for each node, so that no call has to count again.

ghost use Rattle.std.specs.Prelude.{◌≡◌, ◌&&◌, ◌||◌, ◌==◌, ◌+◌, ◌-◌, ◌^◌, ℕ, Some, None, true, false, not, min};
ghost use Rattle.std.specs.Prelude.{is_none, if◌then◌else◌, option_map, IfOk, OnOk, OnErr};
ghost use Rattle.std.specs.Option.{option_map_or};
ghost use Rattle.ll_rights.specs.Map.{get, has, insert, remove};
ghost use Rattle.ll_seq.specs.State.{State, start};
ghost use Rattle.ll_seq.specs.Stages.{is_crowded, has_many_names};
ghost use Rattle.ll_seq.specs.Effects.{with_node, with_name, without_name, with_moved, renamed, with_client, child_of};
ghost use Rattle.ll_seq.specs.Effects.{lives, let_go};
ghost use Rattle.ll_seq.specs.Facts.{AreKept, has_room, have_room};
ghost use Rattle.ll_seq.specs.declared.client.ClientRecord as record_of;
ghost use Rattle.ll_seq.specs.declared.client.Descriptor as file;
ghost use Rattle.ll_seq.specs.declared.dentries.Dentry as place_of;
ghost use Rattle.ll_seq.specs.declared.facts.Fact as fact_type;
ghost use Rattle.ll_seq.specs.declared.rules.Rules as rules_of;

use crate::client::Descriptor;
use crate::number_map::{NumberMap, index_of};
use ll_rights::Kind;
use std::alloc::{AllocError, Global};

/// The root's inode.
pub const ROOT: u64 = 1;

/// More descriptors of one node than any machine has room for.
pub const MOST_OPENS: usize = 9223372036854775808;

/// The counts of a node: names in it (if it is a directory), names of it, and descriptors open on it.
#[derive(Drop, Clone, Copy, Debug, PartialEq, Eq)]
pub struct Fact {
    pub kind: Kind,
    pub names: usize,
    pub links: usize,
    pub opens: usize,
}

impl NumberMap<Fact> {
    fn fact(&self, inode: u64) -> Option<Fact>
        ensures { result ≡ get self.now inode }
    {
        self.get(inode).copied()
    }

    /// Sets the counts of the node. Does nothing if there is no such node.
    fn put(&mut self, inode: u64, fact: Fact)
        ensures { (q : ℕ) → get self.new q
            ≡ option_map (λ (f : fact_type.Fact). if inode == q then fact else f) (get self.old q) }
    {
        if let Some(i) = index_of(&self.rows, inode) {
            let row = &mut self.rows[i];
            row.1 = fact;
        }
    }

    fn add_name(&mut self, directory: u64)
        ensures { (q : ℕ) → get self.new q
            ≡ option_map (λ (f : fact_type.Fact). record f
            { names = if directory == q then min (f.names + 1) (2 ^ 64 - 1) else f.names }) (get self.old q) }
    {
        if let Some(mut fact) = self.fact(directory) {
            fact.names = fact.names.saturating_add(1);
            self.put(directory, fact);
        }
    }

    fn take_name(&mut self, directory: u64)
        ensures { (q : ℕ) → get self.new q
            ≡ option_map (λ (f : fact_type.Fact). record f { names = if directory == q then f.names - 1 else f.names })
            (get self.old q) }
    {
        if let Some(mut fact) = self.fact(directory) {
            fact.names = fact.names.saturating_sub(1);
            self.put(directory, fact);
        }
    }

    fn add_link(&mut self, inode: u64)
        ensures { (q : ℕ) → get self.new q
            ≡ option_map (λ (f : fact_type.Fact). record f
            { links = if inode == q then min (f.links + 1) (2 ^ 64 - 1) else f.links }) (get self.old q) }
    {
        if let Some(mut fact) = self.fact(inode) {
            fact.links = fact.links.saturating_add(1);
            self.put(inode, fact);
        }
    }

    fn take_link(&mut self, inode: u64)
        ensures { (q : ℕ) → get self.new q
            ≡ option_map (λ (f : fact_type.Fact). record f { links = if inode == q then f.links - 1 else f.links })
            (get self.old q) }
    {
        if let Some(mut fact) = self.fact(inode) {
            fact.links = fact.links.saturating_sub(1);
            self.put(inode, fact);
        }
    }

    fn add_open(&mut self, inode: u64)
        ensures { (q : ℕ) → get self.new q
            ≡ option_map (λ (f : fact_type.Fact). record f
            { opens = if inode == q then min (f.opens + 1) (2 ^ 64 - 1) else f.opens }) (get self.old q) }
    {
        if let Some(mut fact) = self.fact(inode) {
            fact.opens = fact.opens.saturating_add(1);
            self.put(inode, fact);
        }
    }

    fn take_open(&mut self, inode: u64)
        ensures { (q : ℕ) → get self.new q
            ≡ option_map (λ (f : fact_type.Fact). record f { opens = if inode == q then f.opens - 1 else f.opens })
            (get self.old q) }
    {
        if let Some(mut fact) = self.fact(inode) {
            fact.opens = fact.opens.saturating_sub(1);
            self.put(inode, fact);
        }
    }

    /// Forgets the node if nothing keeps it. Returns whether it was forgotten.
    fn let_go(&mut self, inode: u64) -> bool
        ensures dead { result ≡ option_map_or
            (λ (f : fact_type.Fact). not ((inode == 1) || not (f.links == 0) || not (f.opens == 0)))
            (get self.old inode) false }
        ensures left { self.new ≡ (if result then remove self.old inode else self.old) }
    {
        let Some(fact) = self.fact(inode) else {
            return false;
        };
        if inode == ROOT || fact.links != 0 || fact.opens != 0 {
            return false;
        }
        self.remove(inode);
        true
    }

    /// Adds the counts of a new node without a name.
    fn add(&mut self, inode: u64, kind: Kind) -> Result<(), AllocError>
        requires { get self.old inode ≡ None }
        ensures ok { OnOk result (self.new
            ≡ insert self.old inode (record { kind = kind; names = 0; links = 0; opens = 0 })) }
        ensures err { OnErr result (self.new ≡ self.old) }
    {
        let fact = Fact {
            kind,
            names: 0,
            links: 0,
            opens: 0,
        };
        self.insert(inode, fact)
    }

    /// Moves one name from one directory's count to the other's.
    fn move_name(&mut self, from: u64, into: u64)
        ensures { (q : ℕ) → get self.new q ≡ option_map (λ (f : fact_type.Fact). if from == into then f else record f {
          names = if into == q then min ((if from == q then f.names - 1 else f.names) + 1) (2 ^ 64 - 1) else
              if from == q then f.names - 1 else f.names;
        }) (get self.old q) }
    {
        if from != into {
            self.take_name(from);
            self.add_name(into);
        }
    }

    /// Returns the counts of a tree that has only the root. Errors: memory ran out.
    pub fn of_root(alloc: Global) -> Result<NumberMap<Fact>, AllocError>
        ensures { IfOk result (λ facts. (rules : rules_of.Rules) (room : ℕ) → AreKept (start rules room) facts) }
    {
        let mut facts = NumberMap::new(alloc);
        facts.add(ROOT, Kind::Dir)?;
        Ok(facts)
    }

    /// Adds a new node of this kind and number, with one name in the directory. Errors: memory ran out.
    pub fn make(&mut self, directory: u64, inode: u64, kind: Kind) -> Result<(), AllocError>
        requires { get self.old inode ≡ None }
        ensures ok { OnOk result ((s : State) (at : place_of.Dentry) → AreKept s self.old → s.next ≡ inode
            → at.directory ≡ directory
            → has s.nodes directory ≡ true → get s.entries at ≡ None → is_crowded s directory ≡ false
            → AreKept (with_node s kind at) self.new) }
        ensures err { OnErr result (self.new ≡ self.old) }
    {
        self.add(inode, kind)?;
        self.name(directory, inode);
        Ok(())
    }

    /// Counts a further name of the inode, in the directory.
    pub fn name(&mut self, directory: u64, inode: u64)
        ensures { (s : State) (at : place_of.Dentry) → AreKept s self.old → at.directory ≡ directory
            → has s.nodes directory ≡ true → has s.nodes inode ≡ true
            → get s.entries at ≡ None → is_crowded s directory ≡ false → has_many_names s inode ≡ false
            → AreKept (with_name s at inode) self.new }
    {
        self.add_name(directory);
        self.add_link(inode);
    }

    /// Counts one name of the inode less, in the directory. Returns whether its node goes with it.
    pub fn unname(&mut self, directory: u64, inode: u64) -> bool
        ensures kept { (s : State) (at : place_of.Dentry) → AreKept s self.old → at.directory ≡ directory
            → get s.entries at ≡ Some inode
            → AreKept (without_name s at inode) self.new }
        ensures goes { (s : State) (at : place_of.Dentry) → AreKept s self.old → at.directory ≡ directory
            → get s.entries at ≡ Some inode → has s.nodes inode ≡ true
            → result ≡ not (lives (record s { entries = remove s.entries at }) inode) }
    {
        self.take_name(directory);
        self.take_link(inode);
        self.let_go(inode)
    }

    /// Moves a name of the inode from one directory to the other, replacing another inode's name if given. Returns
    /// whether the replaced node goes.
    pub fn rename(&mut self, from: u64, into: u64, inode: u64, replaced: Option<u64>) -> bool
        ensures kept { (s : State) (old new : place_of.Dentry) → AreKept s self.old → old.directory ≡ from
            → new.directory ≡ into → has s.nodes into ≡ true
            → get s.entries old ≡ Some inode → get s.entries new ≡ replaced
            → (is_none replaced && not (from == into) && is_crowded s into) ≡ false
            → AreKept (renamed s old new inode replaced) self.new }
        ensures goes { (s : State) (old new : place_of.Dentry) → AreKept s self.old → old.directory ≡ from
            → new.directory ≡ into
            → get s.entries old ≡ Some inode → get s.entries new ≡ replaced → (node : ℕ) → replaced ≡ Some node
            → has s.nodes node ≡ true
            → result ≡ (not (inode == node) && not (lives (with_moved s old new inode) node)) }
        ensures stays { replaced ≡ None → result ≡ false }
    {
        match replaced {
            Some(node) if node == inode => false,
            Some(node) => {
                self.take_name(from);
                self.take_link(node);
                self.let_go(node)
            }
            None => {
                self.move_name(from, into);
                false
            }
        }
    }

    /// Reports whether one more descriptor of the inode can be counted.
    pub fn has_room(&self, inode: u64) -> bool
        ensures { result ≡ has_room self.now inode }
    {
        match self.get(inode) {
            None => true,
            Some(fact) => fact.opens < MOST_OPENS,
        }
    }

    /// Counts one more descriptor of the inode.
    pub fn open(&mut self, inode: u64)
        requires { has_room self.old inode ≡ true }
        ensures { (s : State) (client : ℕ) (c : record_of.ClientRecord) (fd : ℕ) (d : file.Descriptor)
            → AreKept s self.old → get s.clients client ≡ Some c
            → get c.descriptors fd ≡ None → d.inode ≡ inode → has s.nodes inode ≡ true
            → AreKept (with_client s client (record c { descriptors = insert c.descriptors fd d })) self.new }
    {
        self.add_open(inode);
    }

    /// Counts one descriptor of the inode less. Returns whether its node goes with it.
    pub fn close(&mut self, inode: u64) -> bool
        ensures kept { (s : State) (client : ℕ) (c : record_of.ClientRecord) (fd : ℕ) (d : file.Descriptor)
            → AreKept s self.old → get s.clients client ≡ Some c
            → get c.descriptors fd ≡ Some d → d.inode ≡ inode
            → AreKept (let_go (with_client s client (record c { descriptors = remove c.descriptors fd })) inode)
            self.new }
        ensures goes { (s : State) (client : ℕ) (c : record_of.ClientRecord) (fd : ℕ) (d : file.Descriptor)
            → AreKept s self.old → get s.clients client ≡ Some c
            → get c.descriptors fd ≡ Some d → d.inode ≡ inode → has s.nodes inode ≡ true
            → result ≡ not (lives (with_client s client (record c { descriptors = remove c.descriptors fd })) inode) }
    {
        self.take_open(inode);
        self.let_go(inode)
    }

    /// Reports whether one more of each of these descriptors can be counted.
    pub fn have_room(&self, descriptors: &NumberMap<Descriptor>) -> bool
        ensures { result ≡ have_room self.now descriptors.now }
    {
        for row in &descriptors.rows {
            if !self.has_room(row.1.inode) {
                return false;
            }
        }
        true
    }

    /// Counts the descriptors of a spawned client.
    pub fn open_all(&mut self, descriptors: &NumberMap<Descriptor>)
        requires { have_room self.old descriptors.now ≡ true }
        ensures { (s : State) (client : ℕ) (c : record_of.ClientRecord) (fresh : ℕ) → AreKept s self.old
            → get s.clients client ≡ Some c → has s.clients fresh ≡ false
            → (child_of s.rules c).descriptors ≡ descriptors.now
            → AreKept (with_client s fresh (child_of s.rules c)) self.new }
    {
        for row in &descriptors.rows {
            self.add_open(row.1.inode);
        }
    }
}
