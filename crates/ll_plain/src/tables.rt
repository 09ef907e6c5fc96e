//! Look-ups in the tables.

ghost use Rattle.std.specs.Prelude.{◌≡◌, length, nat_le};
ghost use Rattle.ll_rights.specs.Map.{len};
ghost use Rattle.ll_seq.specs.State.{bytes_of, child, kind_of};

use crate::Plain;
use ll_rights::Kind;

impl Plain {
    /// Returns the inode of the name in the directory.
    pub fn child(&self, directory: u64, name: &str) -> Option<u64>
        ensures { result ≡ child self.now directory name.now }
    {
        self.entries.get(directory, name)
    }

    /// Returns the kind of the node with this number, or None.
    pub fn kind(&self, inode: u64) -> Option<Kind>
        ensures { result ≡ kind_of self.now inode }
    {
        self.nodes.get(inode).map(|node| node.kind)
    }

    /// Whether the tree has no room for another node.
    pub(crate) fn is_full(&self) -> bool
        ensures { result ≡ nat_le self.now.room (len self.now.nodes) }
    {
        self.room <= self.nodes.len()
    }

    /// The number of bytes in the node.
    pub(crate) fn size(&self, inode: u64) -> usize
        ensures { result ≡ length (bytes_of self.now inode) }
    {
        match self.nodes.get(inode) {
            None => 0,
            Some(node) => node.bytes.len(),
        }
    }
}
