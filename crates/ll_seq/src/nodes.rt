//! Changes to the bytes of nodes.

ghost use Rattle.std.specs.Prelude.{◌≡◌, ◌+◌, ◌^◌, ◌<◌, [], OnOk, OnErr, length};
ghost use Rattle.std.specs.Option.{option_map_or};
ghost use Rattle.ll_rights.specs.Map.{get, insert};
ghost use Rattle.ll_seq.specs.Effects.{resized, overwritten};
ghost use Rattle.ll_seq.specs.declared.node.Node as record_of;

use crate::node::Node;
use crate::number_map::{NumberMap, index_of};
use std::alloc::AllocError;

impl NumberMap<Node> {
    /// Sets the length of the node's bytes. New bytes are zeros. Does nothing without such a node. Errors: memory ran
    /// out.
    pub fn set_len(&mut self, inode: u64, len: usize) -> Result<(), AllocError>
        ensures ok { OnOk result (self.new
            ≡ option_map_or (λ (n : record_of.Node). insert self.old inode (record n { bytes = resized n.bytes len }))
            (get self.old inode) self.old) }
        ensures err { OnErr result (self.new ≡ self.old) }
    {
        let Some(i) = index_of(&self.rows, inode) else {
            return Ok(());
        };
        let row = &mut self.rows[i];
        row.1.bytes.set_len(len)
    }

    /// Writes into the node's bytes from the offset on. Does nothing without such a node. Errors: memory ran out.
    pub fn write(&mut self, inode: u64, offset: usize, bytes: &[u8]) -> Result<(), AllocError>
        requires { offset + length bytes.now < 2 ^ 64 }
        ensures ok { OnOk result (self.new
            ≡ option_map_or (λ (n : record_of.Node). insert self.old inode
            (record n { bytes = overwritten n.bytes offset bytes.now })) (get self.old inode) self.old) }
        ensures err { OnErr result (self.new ≡ self.old) }
    {
        let Some(i) = index_of(&self.rows, inode) else {
            return Ok(());
        };
        let row = &mut self.rows[i];
        row.1.bytes.write(offset, bytes)
    }

    /// Removes all of the node's bytes. Does nothing without such a node.
    pub fn clear(&mut self, inode: u64)
        ensures { self.new ≡ option_map_or (λ (n : record_of.Node). insert self.old inode (record n { bytes = [] }))
            (get self.old inode) self.old }
    {
        if let Some(i) = index_of(&self.rows, inode) {
            let row = &mut self.rows[i];
            row.1.bytes.clear();
        }
    }
}
