//! The writes into the tables that one change makes.

ghost use Rattle.std.specs.Prelude.{◌≡◌, ◌<◌, ◌-◌, ◌+◌, ◌^◌, [], Some, true, OnOk, OnErr, IfOk, if◌then◌else◌, is_some};
ghost use Rattle.std.specs.Prelude.{length};
ghost use Rattle.ll_rights.specs.Map.{get, has, insert, remove};
ghost use Rattle.ll_seq.specs.State.{bytes_of, child};
ghost use Rattle.ll_seq.specs.Effects.{let_go, overwritten, resized, with_bytes, with_client, with_moved, with_name};
ghost use Rattle.ll_seq.specs.Effects.{with_node, without_name};
ghost use Rattle.ll_seq.specs.Stages.{lowest_free};
ghost use Rattle.ll_seq.specs.Step.{client_of};
ghost use Rattle.ll_seq.specs.Effect.{FitsExchange, FitsMove, FitsName, FitsReplace, HasRoom, dentry_at};

use crate::Plain;
use ll_path::Name;
use ll_rights::Kind;
use ll_seq::{At, Content, Descriptor, Node, NumberMap};
use std::alloc::AllocError;

/// Removes the node that lost a name or a descriptor, if it goes.
fn forget(nodes: &mut NumberMap<Node>, inode: u64, goes: bool)
    ensures { nodes.new ≡ (if goes then remove nodes.old inode else nodes.old) }
{
    if goes {
        nodes.remove(inode);
    }
}

impl Plain {
    /// Creates an empty node under this name. Errors: memory ran out.
    pub(crate) fn add(&mut self, at: &At<'_>, kind: Kind) -> Result<(), AllocError>
        requires next { self.old.next < 2 ^ 64 - 1 }
        requires room { HasRoom self.old at.now }
        ensures ok { OnOk result (self.new ≡ with_node self.old kind (dentry_at at.now)) }
        ensures err { OnErr result (self.new ≡ self.old) }
    {
        let name = Name::from_text(self.alloc, at.name)?;
        let node = Node {
            kind,
            bytes: Content::empty(self.alloc),
        };
        self.nodes.insert(self.next, node)?;
        if let Err(error) = self.entries.insert(at.directory, name, self.next) {
            self.nodes.remove(self.next);
            return Err(error);
        }
        if let Err(error) = self.facts.make(at.directory, self.next, kind) {
            self.entries.remove(at.directory, at.name);
            self.nodes.remove(self.next);
            return Err(error);
        }
        self.next += 1;
        Ok(())
    }

    /// Adds a further name for the node. Errors: memory ran out.
    pub(crate) fn add_name(&mut self, at: &At<'_>, inode: u64) -> Result<(), AllocError>
        requires { FitsName self.old at.now inode }
        ensures ok { OnOk result (self.new ≡ with_name self.old (dentry_at at.now) inode) }
        ensures err { OnErr result (self.new ≡ self.old) }
    {
        let name = Name::from_text(self.alloc, at.name)?;
        self.entries.insert(at.directory, name, inode)?;
        self.facts.name(at.directory, inode);
        Ok(())
    }

    /// Removes the name of the node, and the node if nothing keeps it.
    pub(crate) fn take_name(&mut self, at: &At<'_>, inode: u64)
        requires { child self.old at.now.directory at.now.name.now ≡ Some inode }
        ensures { self.new ≡ without_name self.old (dentry_at at.now) inode }
    {
        self.entries.remove(at.directory, at.name);
        let goes = self.facts.unname(at.directory, inode);
        forget(&mut self.nodes, inode, goes);
    }

    /// Moves the node from the old name to the new one, which no node has. Errors: memory ran out.
    pub(crate) fn move_name(
        &mut self,
        old: &At<'_>,
        new: &At<'_>,
        inode: u64,
    ) -> Result<(), AllocError>
        requires { FitsMove self.old old.now new.now inode }
        ensures ok { OnOk result (self.new ≡ with_moved self.old (dentry_at old.now) (dentry_at new.now) inode) }
        ensures err { OnErr result (self.new ≡ self.old) }
    {
        let name = Name::from_text(self.alloc, new.name)?;
        self.entries.insert(new.directory, name, inode)?;
        self.entries.remove(old.directory, old.name);
        let _ = self.facts.rename(old.directory, new.directory, inode, None);
        Ok(())
    }

    /// Moves the node from the old name to the new one, which another node loses. Removes that node if nothing keeps
    /// it.
    pub(crate) fn move_over(&mut self, old: &At<'_>, new: &At<'_>, inode: u64, replaced: u64)
        requires { FitsReplace self.old old.now new.now inode replaced }
        ensures { self.new ≡ let_go (with_moved self.old (dentry_at old.now) (dentry_at new.now) inode) replaced }
    {
        self.entries.replace(new.directory, new.name, inode);
        self.entries.remove(old.directory, old.name);
        let goes = self
            .facts
            .rename(old.directory, new.directory, inode, Some(replaced));
        forget(&mut self.nodes, replaced, goes);
    }

    /// Exchanges the names of two nodes.
    pub(crate) fn exchange(&mut self, old: &At<'_>, new: &At<'_>, inode: u64, other: u64)
        requires { FitsExchange self.old old.now new.now inode other }
        ensures { self.new ≡ with_name (with_name self.old (dentry_at new.now) inode) (dentry_at old.now) other }
    {
        self.entries.replace(new.directory, new.name, inode);
        self.entries.replace(old.directory, old.name, other);
    }

    /// Sets the length of the node's bytes. New bytes are zeros. Errors: memory ran out.
    pub(crate) fn set_len(&mut self, inode: u64, len: usize) -> Result<(), AllocError>
        ensures ok { OnOk result (self.new ≡ with_bytes self.old inode (resized (bytes_of self.old inode) len)) }
        ensures err { OnErr result (self.new ≡ self.old) }
    {
        self.nodes.set_len(inode, len)?;
        Ok(())
    }

    /// Removes all of the node's bytes.
    pub(crate) fn empty(&mut self, inode: u64)
        ensures { self.new ≡ with_bytes self.old inode [] }
    {
        self.nodes.clear(inode);
    }

    /// Writes the bytes into the node's from the offset on. Errors: memory ran out.
    pub(crate) fn put(&mut self, inode: u64, offset: usize, bytes: &[u8]) -> Result<(), AllocError>
        requires { offset + length bytes.now < 2 ^ 64 }
        ensures ok { OnOk result (self.new
            ≡ with_bytes self.old inode (overwritten (bytes_of self.old inode) offset bytes.now)) }
        ensures err { OnErr result (self.new ≡ self.old) }
    {
        self.nodes.write(inode, offset, bytes)?;
        Ok(())
    }

    /// Opens the file at the client's lowest free descriptor. There must be one. Returns its number.
    pub(crate) fn take(&mut self, client: u64, file: Descriptor) -> Result<u64, AllocError>
        requires caller { has self.old.clients client ≡ true }
        requires free { is_some (lowest_free (client_of self.old client).descriptors) ≡ true }
        requires there { has self.old.nodes file.inode ≡ true }
        ensures free { IfOk result (λ number. lowest_free (client_of self.old client).descriptors ≡ Some number) }
        ensures ok { IfOk result (λ number. self.new
            ≡ with_client self.old client
            (record (client_of self.old client)
            { descriptors = insert (client_of self.old client).descriptors number file })) }
        ensures err { OnErr result (self.new ≡ self.old) }
    {
        if !self.facts.has_room(file.inode) {
            return Err(AllocError);
        }
        let Ok(number) = self.clients.open(client, file) else {
            return Err(AllocError);
        };
        self.facts.open(file.inode);
        Ok(number)
    }

    /// Closes the client's descriptor, and removes the node if nothing keeps it.
    pub(crate) fn free(&mut self, client: u64, number: u64, file: Descriptor)
        requires caller { has self.old.clients client ≡ true }
        requires there { get (client_of self.old client).descriptors number ≡ Some file }
        ensures { self.new ≡ let_go (with_client self.old client
            (record (client_of self.old client)
            { descriptors = remove (client_of self.old client).descriptors number })) file.inode }
    {
        self.clients.close(client, number);
        let goes = self.facts.close(file.inode);
        forget(&mut self.nodes, file.inode, goes);
    }
}
