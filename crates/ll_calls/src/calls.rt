//! Calls on paths. Errors of each: why the call did nothing.

ghost use Rattle.ll_seq.specs.declared.call.Call.TheVariants as calls;
ghost use Rattle.ll_seq.specs.declared.reply.Reply.TheVariants as replies;
ghost use Rattle.ll_client.specs.Gains.{Gains};
ghost use Rattle.ll_calls.specs.Typed.{made_as};

use crate::made::{done, found, listed, opened};
use crate::refused::Refused;
use crate::tree::Tree;
use ll_client::{Client, Shape};
use ll_path::Target;
use ll_rights::Kind;
use ll_seq::{Call, Listing, Mode, Status};
use ll_walk::Gate;
use std::sync::Wait;

impl<N: Shape, G: Gate<N>> Tree<N, G> {
    /// Creates an empty node of this kind. mkdir(2), mknod(2)
    pub fn make<R: Wait>(
        &self,
        rt: &R,
        me: &mut Client<N>,
        kind: Kind,
        target: Target,
    ) -> Result<(), Refused>
        ensures { Gains N.limit (calls.Make kind target) me.old.rider (made_as (λ nothing. replies.Done) result)
            me.new.rider }
    {
        done(self.call(rt, me, Call::Make(kind, target)))
    }

    /// Opens the file. Returns the lowest free descriptor. open(2)
    pub fn open_file<R: Wait>(
        &self,
        rt: &R,
        me: &mut Client<N>,
        mode: Mode,
        target: Target,
    ) -> Result<u64, Refused>
        ensures { Gains N.limit (calls.Open mode target) me.old.rider (made_as replies.Opened result) me.new.rider }
    {
        opened(self.call(rt, me, Call::Open(mode, target)))
    }

    /// Sets the length of the file, in bytes. New bytes are zeros. truncate(2)
    pub fn truncate<R: Wait>(
        &self,
        rt: &R,
        me: &mut Client<N>,
        target: Target,
        size: u64,
    ) -> Result<(), Refused>
        ensures { Gains N.limit (calls.Truncate target size) me.old.rider (made_as (λ nothing. replies.Done) result)
            me.new.rider }
    {
        done(self.call(rt, me, Call::Truncate(target, size)))
    }

    /// Returns the names in the directory, sorted by bytes. readdir(3)
    pub fn read_dir<R: Wait>(
        &self,
        rt: &R,
        me: &mut Client<N>,
        target: Target,
    ) -> Result<Listing, Refused>
        ensures { Gains N.limit (calls.ReadDir target) me.old.rider (made_as replies.Listed result) me.new.rider }
    {
        listed(self.call(rt, me, Call::ReadDir(target)))
    }

    /// Returns the node's inode, kind, size in bytes and links. Takes no memory. stat(2)
    #[inline(always)]
    pub fn stat<R: Wait>(
        &self,
        rt: &R,
        me: &mut Client<N>,
        target: Target,
    ) -> Result<Status, Refused>
        ensures { Gains N.limit (calls.Stat target) me.old.rider (made_as replies.Found result) me.new.rider }
    {
        found(self.call(rt, me, Call::Stat(target)))
    }

    /// Checks that the file may be executed. Takes no memory. execve(2)
    pub fn exec<R: Wait>(&self, rt: &R, me: &mut Client<N>, target: Target) -> Result<(), Refused>
        ensures { Gains N.limit (calls.Exec target) me.old.rider (made_as (λ nothing. replies.Done) result)
            me.new.rider }
    {
        done(self.call(rt, me, Call::Exec(target)))
    }

    /// Removes a name of a node that isn't a directory. Takes no memory. unlink(2)
    pub fn unlink<R: Wait>(&self, rt: &R, me: &mut Client<N>, target: Target) -> Result<(), Refused>
        ensures { Gains N.limit (calls.Unlink target) me.old.rider (made_as (λ nothing. replies.Done) result)
            me.new.rider }
    {
        done(self.call(rt, me, Call::Unlink(target)))
    }

    /// Removes an empty directory. Takes no memory. rmdir(2)
    pub fn rmdir<R: Wait>(&self, rt: &R, me: &mut Client<N>, target: Target) -> Result<(), Refused>
        ensures { Gains N.limit (calls.Rmdir target) me.old.rider (made_as (λ nothing. replies.Done) result)
            me.new.rider }
    {
        done(self.call(rt, me, Call::Rmdir(target)))
    }

    /// Moves the node from the first path to the second. A node that had the second path loses that name. rename(2)
    pub fn rename<R: Wait>(
        &self,
        rt: &R,
        me: &mut Client<N>,
        from: Target,
        into: Target,
    ) -> Result<(), Refused>
        ensures { Gains N.limit (calls.Rename from into) me.old.rider (made_as (λ nothing. replies.Done) result)
            me.new.rider }
    {
        done(self.call(rt, me, Call::Rename(from, into)))
    }

    /// Moves the node from the first path to the second, which must name nothing. rename(2), RENAME_NOREPLACE
    pub fn rename_noreplace<R: Wait>(
        &self,
        rt: &R,
        me: &mut Client<N>,
        from: Target,
        into: Target,
    ) -> Result<(), Refused>
        ensures { Gains N.limit (calls.RenameNoreplace from into) me.old.rider
            (made_as (λ nothing. replies.Done) result) me.new.rider }
    {
        done(self.call(rt, me, Call::RenameNoreplace(from, into)))
    }

    /// Exchanges the nodes at the two paths. Takes no memory. rename(2), RENAME_EXCHANGE
    pub fn exchange<R: Wait>(
        &self,
        rt: &R,
        me: &mut Client<N>,
        from: Target,
        into: Target,
    ) -> Result<(), Refused>
        ensures { Gains N.limit (calls.Exchange from into) me.old.rider (made_as (λ nothing. replies.Done) result)
            me.new.rider }
    {
        done(self.call(rt, me, Call::Exchange(from, into)))
    }

    /// Gives the node at the first path the second path as a further name (hard link). link(2)
    pub fn link<R: Wait>(
        &self,
        rt: &R,
        me: &mut Client<N>,
        from: Target,
        into: Target,
    ) -> Result<(), Refused>
        ensures { Gains N.limit (calls.Link from into) me.old.rider (made_as (λ nothing. replies.Done) result)
            me.new.rider }
    {
        done(self.call(rt, me, Call::Link(from, into)))
    }
}
