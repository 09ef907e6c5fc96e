//! Calls on descriptors. Errors of each: why the call did nothing.

ghost use Rattle.ll_seq.specs.declared.call.Call.TheVariants as calls;
ghost use Rattle.ll_seq.specs.declared.reply.Reply.TheVariants as replies;
ghost use Rattle.ll_client.specs.Gains.{Gains};
ghost use Rattle.ll_calls.specs.Typed.{made_as};

use crate::made::{self, done, wrote};
use crate::refused::Refused;
use crate::tree::Tree;
use ll_client::{Client, Shape};
use ll_path::Data;
use ll_seq::Call;
use ll_walk::Gate;
use std::sync::Wait;

impl<N: Shape, G: Gate<N>> Tree<N, G> {
    /// Reads at most `count` bytes of the descriptor's file from the offset on. pread(2)
    pub fn read<R: Wait>(
        &self,
        rt: &R,
        me: &mut Client<N>,
        number: u64,
        offset: u64,
        count: u64,
    ) -> Result<Data, Refused>
        ensures { Gains N.limit (calls.Read number offset count) me.old.rider (made_as replies.Bytes result)
            me.new.rider }
    {
        made::bytes(self.call(rt, me, Call::Read(number, offset, count)))
    }

    /// Writes the bytes into the descriptor's file from the offset on. Returns their number. pwrite(2)
    pub fn write<R: Wait>(
        &self,
        rt: &R,
        me: &mut Client<N>,
        number: u64,
        offset: u64,
        bytes: Data,
    ) -> Result<u64, Refused>
        ensures { Gains N.limit (calls.Write number offset bytes) me.old.rider (made_as replies.Wrote result)
            me.new.rider }
    {
        wrote(self.call(rt, me, Call::Write(number, offset, bytes)))
    }

    /// Sets the length of the descriptor's file, in bytes. New bytes are zeros. ftruncate(2)
    pub fn ftruncate<R: Wait>(
        &self,
        rt: &R,
        me: &mut Client<N>,
        number: u64,
        size: u64,
    ) -> Result<(), Refused>
        ensures { Gains N.limit (calls.Ftruncate number size) me.old.rider (made_as (λ nothing. replies.Done) result)
            me.new.rider }
    {
        done(self.call(rt, me, Call::Ftruncate(number, size)))
    }

    /// Closes the descriptor. Takes no memory. close(2)
    pub fn close_file<R: Wait>(
        &self,
        rt: &R,
        me: &mut Client<N>,
        number: u64,
    ) -> Result<(), Refused>
        ensures { Gains N.limit (calls.Close number) me.old.rider (made_as (λ nothing. replies.Done) result)
            me.new.rider }
    {
        done(self.call(rt, me, Call::Close(number)))
    }
}
