//! Which rights all layers of a client grant on a path.

ghost use Rattle.std.specs.Prelude.{◌≡◌, ℕ, List, [], ◌∷◌, ◌++◌, None, IfOk, option_and_then};
ghost use Rattle.ll_rights.specs.Kind.{relevant};
ghost use Rattle.ll_rules.specs.Layer as layer_of;
ghost use Rattle.ll_seq.specs.State.{kind_of};
ghost use Rattle.ll_why.specs.Rights.{AreByLayers, AreRightsAt, AreRightsOf, kind_named, meant};

use crate::chain::Chain;
use crate::grants::{Grants, without};
use ll_path::{Names, Path};
use ll_plain::Plain;
use ll_rights::{Access, Kind};
use ll_rules::{Domain, Layer};
use std::alloc::{AllocError, Global};

/// The rights that the layers of a client grant on a node of one kind.
#[derive(Drop)]
pub struct PathRights {
    pub kind: Kind,
    /// The rights that apply to the node and that every layer grants.
    pub rights: Access,
    /// For each layer, the oldest first, which rights that apply to the node it grants.
    pub layers: Vec<Grants>,
}

/// What the layers of a client grant at a path.
#[derive(Drop)]
pub enum RightsAt {
    /// The path has a node: the rights on it.
    Node(PathRights),
    /// It has none, but its directory is there: the rights on a new file, and those on a new directory.
    New(PathRights, PathRights),
    /// No node can be created there: what should be its directory is missing, or of this kind.
    Nowhere(Option<Kind>),
}

/// Returns the rights that apply to a node of this kind, or none without a node.
pub(crate) fn meaningful(kind: Option<Kind>) -> Access
    ensures { result.0 ≡ meant kind }
{
    match kind {
        None => Access(0),
        Some(kind) => kind.relevant(),
    }
}

// Returns the kind of the path's node, if it exists.
fn kind_at(tree: &Plain, end: Option<u64>) -> Option<Kind>
    ensures { result ≡ option_and_then (kind_of tree.now) end }
{
    match end {
        None => None,
        Some(inode) => tree.kind(inode),
    }
}

impl PathRights {
    // Returns the rights under no layers.
    fn start(alloc: Global, kind: Kind, all: Access) -> PathRights
        ensures kind { result.kind ≡ kind }
        ensures layers { (inodes : List ℕ) → AreByLayers [] inodes all.0 result }
    {
        PathRights {
            kind,
            rights: all,
            layers: Vec::new(alloc),
        }
    }

    // Adds one more layer.
    fn under(
        mut self,
        alloc: Global,
        layer: &Layer,
        inodes: &[u64],
        all: Access,
    ) -> Result<PathRights, AllocError>
        ensures kind { IfOk result (λ after. after.kind ≡ self.kind) }
        ensures layers { IfOk result (λ after. (layers : List layer_of.Layer)
            → AreByLayers layers inodes.now all.0 self
            → AreByLayers (layers ++ layer.now ∷ []) inodes.now all.0 after) }
    {
        let grants = Grants::of_layer(alloc, layer, inodes, all)?;
        self.rights = without(self.rights, grants.missing);
        match self.layers.push(grants) {
            Ok(()) => Ok(self),
            Err(refused) => {
                drop(refused);
                Err(AllocError)
            }
        }
    }

    // Returns the rights under all layers.
    fn by_layers(
        alloc: Global,
        kind: Kind,
        layers: &[Layer],
        inodes: &[u64],
    ) -> Result<PathRights, AllocError>
        ensures kind { IfOk result (λ told. told.kind ≡ kind) }
        ensures layers { IfOk result (AreByLayers layers.now inodes.now (relevant kind)) }
    {
        let all = kind.relevant();
        let mut told = PathRights::start(alloc, kind, all);
        for layer in layers {
            told = told.under(alloc, layer, inodes, all)?;
        }
        Ok(told)
    }
}

// Returns the kind of the node that these names lead to, if it exists.
fn kind_named(alloc: Global, tree: &Plain, names: Names<'_>) -> Result<Option<Kind>, AllocError>
    ensures { IfOk result (λ kind. kind ≡ kind_named tree.now names.entry) }
{
    let chain = Chain::of_names(alloc, tree, names)?;
    Ok(kind_at(tree, chain.end))
}

// Returns the rights that the domain's layers grant at the path on a node of this kind.
fn rights_of(
    alloc: Global,
    tree: &Plain,
    domain: &Domain,
    path: &Path,
    kind: Kind,
) -> Result<PathRights, AllocError>
    ensures { IfOk result (AreRightsOf tree.now domain.now path.now kind) }
{
    let chain = Chain::of_names(alloc, tree, path.names())?;
    PathRights::by_layers(alloc, kind, domain.layers(), &chain.inodes)
}

// Returns the rights that the domain's layers grant on new nodes at the path, which has none.
fn rights_of_new(
    alloc: Global,
    tree: &Plain,
    domain: &Domain,
    path: &Path,
) -> Result<RightsAt, AllocError>
    ensures { IfOk result (λ told. kind_named tree.now path.now ≡ None
        → AreRightsAt tree.now domain.now path.now told) }
{
    match kind_named(alloc, tree, path.parent())? {
        Some(Kind::Dir) => {
            let file = rights_of(alloc, tree, domain, path, Kind::Reg)?;
            let directory = rights_of(alloc, tree, domain, path, Kind::Dir)?;
            Ok(RightsAt::New(file, directory))
        }
        above => Ok(RightsAt::Nowhere(above)),
    }
}

/// Returns the rights that the domain's layers grant at the path in the tree: on its node, or on new ones. Errors:
/// memory ran out.
pub fn rights_at(
    alloc: Global,
    tree: &Plain,
    domain: &Domain,
    path: &Path,
) -> Result<RightsAt, AllocError>
    ensures { IfOk result (AreRightsAt tree.now domain.now path.now) }
{
    match kind_named(alloc, tree, path.names())? {
        Some(kind) => {
            let told = rights_of(alloc, tree, domain, path, kind)?;
            Ok(RightsAt::Node(told))
        }
        None => rights_of_new(alloc, tree, domain, path),
    }
}
