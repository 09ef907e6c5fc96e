//! Calls on descriptors.

ghost use Rattle.std.specs.Prelude.{◌≡◌, ◌+◌, ◌<◌, ◌≤◌, ◌||◌, [], Some, true, IfOk, IfErr, take, drop, slice_get};
ghost use Rattle.ll_rights.specs.Map.{get, has};
ghost use Rattle.ll_rights.specs.declared.errno.Errno.{Errno};
ghost use Rattle.ll_seq.specs.State.{bytes_of};
ghost use Rattle.ll_seq.specs.Stages.{without, is_too_long};
ghost use Rattle.ll_seq.specs.Step.{client_of};
ghost use Rattle.ll_plain.specs.Outcomes.{Comes, Steps};
ghost use Rattle.ll_seq.specs.declared.call.Call.TheVariants as calls;

use crate::Plain;
use ll_decide::{Cause, Denial, Place};
use ll_path::Data;
use ll_rights::limits::{DATA_BYTES, FILE_BYTES};
use ll_rights::{Errno, Right};
use ll_seq::{Descriptor, Reply};
use std::alloc::AllocError;

const MOST_READ: u64 = DATA_BYTES as u64;

const MOST_BYTES: u64 = FILE_BYTES as u64;

/// Whether writing this many bytes at the offset would exceed the longest file.
fn ends_too_late(offset: u64, len: u64) -> bool
    ensures { result ≡ is_too_long (offset + len) }
{
    MOST_BYTES < offset || MOST_BYTES - offset < len
}

impl Plain {
    fn descriptor(&self, client: u64, number: u64) -> Option<Descriptor>
        ensures { result ≡ get (client_of self.now client).descriptors number }
    {
        match self.clients.get(client) {
            None => None,
            Some(record) => record.descriptors.get(number).copied(),
        }
    }

    /// The client's descriptor, if it is open for reading.
    fn readable(&self, client: u64, number: u64) -> Result<Descriptor, Errno>
        ensures free { IfOk result (λ file. without (client_of self.now client) number (λ d. d.reads) Errno.EBADF
            ≡ []) }
        ensures there { IfOk result (λ file. get (client_of self.now client).descriptors number ≡ Some file) }
        ensures refused { IfErr result
            (λ errno. slice_get (without (client_of self.now client) number (λ d. d.reads) Errno.EBADF) 0
            ≡ Some errno) }
    {
        match self.descriptor(client, number) {
            None => Err(Errno::EBADF),
            Some(file) if file.reads => Ok(file),
            Some(_) => Err(Errno::EBADF),
        }
    }

    /// The client's descriptor, if it is open for writing. Errors: `otherwise`, if it isn't.
    fn writable(&self, client: u64, number: u64, otherwise: Errno) -> Result<Descriptor, Errno>
        ensures free { IfOk result (λ file. without (client_of self.now client) number (λ d. d.writes) otherwise ≡ []) }
        ensures there { IfOk result (λ file. get (client_of self.now client).descriptors number ≡ Some file) }
        ensures refused { IfErr result
            (λ errno. slice_get (without (client_of self.now client) number (λ d. d.writes) otherwise) 0 ≡ Some errno) }
    {
        match self.descriptor(client, number) {
            None => Err(Errno::EBADF),
            Some(file) if file.writes => Ok(file),
            Some(_) => Err(otherwise),
        }
    }

    fn bytes(&self, inode: u64, offset: usize, count: usize) -> Result<Data, AllocError>
        requires { count ≤ 4096 }
        ensures { IfOk result (λ read. read ≡ take count (drop offset (bytes_of self.now inode))) }
    {
        match self.nodes.get(inode) {
            None => Ok(Data::empty(self.alloc)),
            Some(node) => node.bytes.read(self.alloc, offset, count),
        }
    }

    pub(crate) fn read(&self, client: u64, number: u64, offset: u64, count: u64) -> Reply
        ensures { Comes self.now client (calls.Read number offset count) result self.now }
    {
        if MOST_READ < count {
            return Reply::Refused(Errno::EINVAL);
        }
        let file = match self.readable(client, number) {
            Err(errno) => return Reply::Refused(errno),
            Ok(file) => file,
        };
        match self.bytes(file.inode, offset as usize, count as usize) {
            Err(_) => Reply::Refused(Errno::NoMemory),
            Ok(data) => Reply::Bytes(data),
        }
    }

    pub(crate) fn write(&mut self, client: u64, number: u64, offset: u64, bytes: &Data) -> Reply
        ensures { Comes self.old client (calls.Write number offset bytes.now) result self.new }
    {
        let file = match self.writable(client, number, Errno::EBADF) {
            Err(errno) => return Reply::Refused(errno),
            Ok(file) => file,
        };
        if bytes.is_empty() {
            return Reply::Wrote(0);
        }
        let len = bytes.len() as u64;
        if ends_too_late(offset, len) {
            return Reply::Refused(Errno::EFBIG);
        }
        if let Err(_) = self.put(file.inode, offset as usize, bytes.as_slice()) {
            return Reply::Refused(Errno::NoMemory);
        }
        Reply::Wrote(len)
    }

    pub(crate) fn ftruncate(&mut self, client: u64, number: u64, size: u64) -> Reply
        ensures { Comes self.old client (calls.Ftruncate number size) result self.new }
    {
        let file = match self.writable(client, number, Errno::EINVAL) {
            Err(errno) => return Reply::Refused(errno),
            Ok(file) => file,
        };
        if let Some(layer) = file.kept {
            return Reply::Denied(Denial {
                cause: Cause::EACCES,
                layer,
                right: Right::TRUNCATE,
                place: Place::At,
            });
        }
        if MOST_BYTES < size {
            return Reply::Refused(Errno::EFBIG);
        }
        match self.set_len(file.inode, size as usize) {
            Err(_) => Reply::Refused(Errno::NoMemory),
            Ok(()) => Reply::Done,
        }
    }

    pub(crate) fn close(&mut self, client: u64, number: u64) -> Reply
        requires { has self.old.clients client ≡ true }
        ensures { Steps self.old client (calls.Close number) result self.new }
    {
        let Some(file) = self.descriptor(client, number) else {
            return Reply::Refused(Errno::EBADF);
        };
        self.free(client, number, file);
        Reply::Done
    }
}
