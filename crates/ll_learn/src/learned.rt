//! Learns from histories.

ghost use Rattle.std.specs.Prelude.{◌≡◌, ◌<◌, ◌≤◌, ◌-◌, ◌^◌, ℕ, Some, true, IfErr, IfOk, map};
ghost use Rattle.ll_rights.specs.Access.{holds};
ghost use Rattle.ll_rights.specs.Map.{has};
ghost use Rattle.ll_rights.specs.declared.limits.TheConstants.{TREE_NODES};
ghost use Rattle.ll_seq.specs.Tree.{named};
ghost use Rattle.ll_audit.specs.Saved.{opened};
ghost use Rattle.ll_learn.specs.Draft.{IsScope};
ghost use Rattle.ll_learn.specs.Framed.{IsFrame, IsUnframed, IsUnprofiled, MeetsNeeds};
ghost use Rattle.ll_learn.specs.Learned.{IsLearned, IsUnlearned, may_hold};
ghost use Rattle.ll_learn.specs.Lesson.{IsOfSites};
ghost use Rattle.ll_learn.specs.Needs.{AreRooted};

use crate::draft::Scope;
use crate::fault::Unlearned;
use crate::lesson::profile_of;
use crate::needs::{Needs, Origin};
use crate::preface::{Opening, cut_of};
use crate::profile::LearnedProfile;
use crate::site::{Sites, end_of};
use crate::site_chains::SiteChains;
use crate::solution::DraftFault;
use ll_path::Path;
use ll_plain::Plain;
use ll_rights::Access;
use ll_seq::Entry;
use ll_wire::Header;
use std::alloc::Global;

/// What is to be learned.
#[derive(Drop)]
pub struct Aim<'a> {
    /// The client that the layer is for.
    pub client: u64,
    /// The rights that the layer handles.
    pub handled: Access,
    /// The handled rights that no rule may have.
    pub never: Access,
    /// Nodes whose rules take what is needed below them.
    pub beneath: &'a [Path],
}

// Where rules may be in a tree.
#[derive(Drop)]
struct Frame {
    sites: Sites,
    chains: SiteChains,
    scope: Scope,
}

impl Aim<'_> {
    // Returns the rights that rules may have.
    fn held(&self) -> Access
        ensures { (right : ℕ) → right < 15 → holds result.0 right ≡ may_hold self.now right }
    {
        Access(self.handled.0 & !self.never.0)
    }

    // Returns the nodes whose rules take what is needed below them.
    fn inodes(&self, alloc: Global, tree: &Plain) -> Result<Vec<u64>, Unlearned>
        ensures inodes { IfOk result (λ inodes. map Some inodes.items ≡ map (named tree.now) self.now.beneath.now) }
        ensures fault { IfErr result (IsUnframed tree.now self.now) }
    {
        let mut inodes = Vec::new(alloc);
        for (i, path) in self.beneath.iter().enumerate() {
            let Some(inode) = end_of(tree, path) else {
                return Err(Unlearned::NoNode(i));
            };
            if let Err(refused) = inodes.push(inode) {
                drop(refused);
                return Err(Unlearned::NoMemory);
            }
        }
        Ok(inodes)
    }

    // Returns where rules may be in this tree. The client has no layer there.
    fn frame(&self, alloc: Global, mut tree: Plain) -> Result<Frame, Unlearned>
        requires caller { has tree.clients self.now.client ≡ true }
        requires next { tree.next < 2 ^ 64 - 1 }
        ensures frame { IfOk result (IsFrame tree self.now) }
        ensures fault { IfErr result (IsUnframed tree self.now) }
    {
        let beneath = self.inodes(alloc, &tree)?;
        let held = self.held();
        let sites = Sites::of_tree(alloc, &mut tree, self.client, held)?;
        let chains = SiteChains::of_sites(alloc, &tree, &sites)?;
        let scope = sites.scope(alloc, self.handled, held, beneath)?;
        Ok(Frame {
            sites,
            chains,
            scope,
        })
    }
}

// Returns the entry that needs what no layer of a scope can grant, after this many entries.
fn entry_of(needs: &Needs, ask: usize, cut: usize) -> Origin {
    match needs.asks.get(ask) {
        Some(asked) => Origin {
            history: asked.origin.history,
            entry: asked.origin.entry.saturating_add(cut),
        },
        None => Origin {
            history: 0,
            entry: 0,
        },
    }
}

impl Frame {
    // Returns the profile that meets the needs of histories cut after this many entries.
    fn profile(&self, alloc: Global, needs: &Needs, cut: usize) -> Result<LearnedProfile, Unlearned>
        requires scope { IsScope self.now.scope }
        requires sites { IsOfSites self.now.sites self.now.scope }
        requires rooted { AreRooted needs.now }
        ensures meets { IfOk result (MeetsNeeds self.now.sites self.now.chains self.now.scope needs.now) }
        ensures fault { IfErr result (IsUnprofiled self.now.scope needs.now) }
    {
        match profile_of(alloc, needs, &self.scope, &self.sites, &self.chains) {
            Ok(profile) => Ok(profile),
            Err(DraftFault::Unmet(ask)) => Err(Unlearned::Unmet(entry_of(needs, ask, cut))),
            Err(DraftFault::NoMemory) => Err(Unlearned::NoMemory),
        }
    }
}

/// Learns one layer from histories of trees created with this header. Learns from the entries after the client's first
/// connect; up to there, all histories must be equal. Errors: a fault that holds.
pub fn learn(
    alloc: Global,
    header: &Header,
    histories: &[&[Entry]],
    aim: &Aim,
) -> Result<LearnedProfile, Unlearned>
    requires some { 1 ≤ header.now.nodes }
    requires most { header.now.nodes ≤ TREE_NODES }
    ensures learned { IfOk result (IsLearned (opened header.now) (map (λ h. h.now) histories.now) aim.now) }
    ensures fault { IfErr result (IsUnlearned (opened header.now) (map (λ h. h.now) histories.now) aim.now) }
{
    let Some(first) = histories.first() else {
        return Err(Unlearned::NoClient(0));
    };
    let Some(cut) = cut_of(first, aim.client) else {
        return Err(Unlearned::NoClient(0));
    };
    let opening = Opening {
        header,
        client: aim.client,
        early: &first[..cut],
    };
    let tree = opening.tree(alloc, 0)?;
    let frame = aim.frame(alloc, tree)?;
    let needs = opening.needs(alloc, histories)?;
    frame.profile(alloc, &needs, cut)
}
