//! The nodes that a policy creates.

ghost use Rattle.std.specs.Prelude.{◌≡◌, ◌++◌, flat_map, OnOk, IfOk};
ghost use Rattle.toml.specs.View.{table_view, items_view};
ghost use Rattle.ll_policy.specs.Answers.{Reads};
ghost use Rattle.ll_policy.specs.Calls.{IsNode, Joined, writes, fill};
ghost use Rattle.ll_policy.specs.Faults.{node_faults};
ghost use Rattle.ll_policy.specs.KeptCalls.{calls_of_node, opening_of};
ghost use Rattle.ll_policy.specs.Table.{tables_of};

use crate::fault::PolicyFault;
use crate::path_text::PathText;
use crate::table::only;
use crate::values::{data, kind, path};
use ll_path::Data;
use ll_rights::Kind;
use ll_seq::{AccessMode, Call, Creation, Mode};
use std::alloc::{AllocError, Global};
use toml::{Table, Value};

// The most bytes in one write.
const PIECE: usize = 4096;

// The writes that fill a file through descriptor 0.
fn push_writes(alloc: Global, bytes: &[u8], calls: &mut Vec<Call>) -> Result<(), AllocError>
    ensures { OnOk result (calls.new.items ≡ calls.old.items ++ writes bytes.now) }
{
    let mut offset = 0;
    for piece in bytes.chunks(PIECE) {
        let Ok(data) = Data::new(piece.to_vec(alloc)?) else {
            unreachable!()
        };
        calls.push(Call::Write(0, offset, data))?;
        offset += piece.len() as u64;
    }
    Ok(())
}

/// A node and its initial bytes.
#[derive(Drop)]
pub(crate) struct Node {
    path: PathText,
    kind: Kind,
    bytes: Vec<u8>,
}

impl Node {
    /// Reads a node's table.
    pub(crate) fn read(alloc: Global, table: &Table) -> Result<Node, PolicyFault>
        ensures { Reads (node_faults (table_view table.now))
            (λ node. IsNode (table_view table.now) (calls_of_node node)) result }
    {
        only(table, &["path", "kind", "data"])?;
        let path = path(alloc, table)?;
        let kind = kind(table)?;
        let bytes = data(alloc, table, kind)?;
        Ok(Node { path, kind, bytes })
    }

    // The calls that fill the node through a descriptor.
    fn push_filling(&self, alloc: Global, calls: &mut Vec<Call>) -> Result<(), AllocError>
        ensures { OnOk result (calls.new.items ≡ calls.old.items ++ fill self.now.path self.now.bytes.items) }
    {
        if self.bytes.is_empty() {
            return Ok(());
        }
        let mode = Mode {
            access: AccessMode::Write,
            truncate: false,
            creation: Creation::Never,
        };
        calls.push(Call::Open(mode, self.path.target(alloc)?))?;
        push_writes(alloc, self.bytes.as_slice(), calls)?;
        calls.push(Call::Close(0))?;
        Ok(())
    }

    /// Appends the calls that create the node and fill it. Errors: memory ran out.
    pub(crate) fn push_calls(&self, alloc: Global, calls: &mut Vec<Call>) -> Result<(), AllocError>
        ensures { OnOk result (calls.new.items ≡ calls.old.items ++ calls_of_node self.now) }
    {
        calls.push(Call::Make(self.kind, self.path.target(alloc)?))?;
        self.push_filling(alloc, calls)
    }
}

/// Reads an array of nodes' tables.
pub(crate) fn read_nodes(alloc: Global, values: &[Value]) -> Result<Vec<Node>, PolicyFault>
    ensures { Reads (flat_map node_faults (tables_of (items_view values.now)))
        (λ nodes. Joined IsNode (tables_of (items_view values.now)) (opening_of nodes.items)) result }
{
    let mut nodes = Vec::new(alloc);
    for value in values {
        if let Some(table) = value.as_table() {
            nodes.push(Node::read(alloc, table)?)?;
        }
    }
    Ok(nodes)
}

/// Returns the calls that create all nodes. Errors: memory ran out.
pub(crate) fn opening_calls(alloc: Global, nodes: &[Node]) -> Result<Vec<Call>, AllocError>
    ensures { IfOk result (λ calls. calls.items ≡ opening_of nodes.now) }
{
    let mut calls = Vec::new(alloc);
    for node in nodes {
        node.push_calls(alloc, &mut calls)?;
    }
    Ok(calls)
}
