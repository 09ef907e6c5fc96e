//! The rights that a layer grants on an inode by any name.

ghost use Rattle.std.specs.Prelude.{◌≡◌, ◌≤◌, ◌<◌, ◌-◌, ◌^◌, ◌↔◌, ℕ, Some, IfSome, IfNone, IsTrue, length, slice_get};
ghost use Rattle.ll_rights.specs.Access.{holds};
ghost use Rattle.ll_rules.specs.Layer as layers;
ghost use Rattle.ll_seq.specs.Reach.{HasName, InReach};
ghost use Rattle.ll_plain.specs.BoundedReach.{Found, Leads};

use crate::Plain;
use ll_decide::unrestricted;
use ll_rights::Access;
use ll_rules::{Domain, Layer};
use ll_seq::ROOT;

impl Plain {
    /// Returns the rights that layer `number` (1 is the oldest) grants on the inode by any of its names, out of those
    /// that apply to its kind. None if no path names the inode. Takes no memory.
    pub fn reach(&self, domain: &Domain, number: usize, inode: u64) -> Option<Access>
        requires first { 1 ≤ number }
        requires last { number ≤ length domain.now }
        ensures unnamed { IfNone result (HasName self.now inode → ⊥) }
        ensures named { IfSome result (λ rights. HasName self.now inode) }
        ensures known { IfSome result (λ rights. rights.0 < 2 ^ 15) }
        ensures rights { IfSome result (λ rights. (layer : layers.Layer)
            → slice_get domain.now (number - 1) ≡ Some layer →
            (right : ℕ) → IsTrue (holds rights.0 right) ↔ InReach self.now layer inode right) }
    {
        let layer = &domain.layers()[number - 1];
        // A path needs no entry twice on the way to a rule, nor from the rule to the inode.
        let most = 2 * self.entries.len();
        let ruled = self.reach_within(layer, most, inode)?;
        let Some(kind) = self.kind(inode) else {
            return Some(Access(0));
        };
        let granted = unrestricted(layer).with(ruled);
        Some(Access(granted.0 & kind.relevant().0))
    }

    /// The rights that the layer's rules allow on paths to the inode of at most `steps` names.
    fn reach_within(&self, layer: &Layer, steps: usize, inode: u64) -> Option<Access>
        ensures { Found self.now layer.now (Leads self.now steps inode) result }
    {
        let own = layer.rule(inode);
        let mut found = if inode == ROOT { Some(own) } else { None };
        if steps == 0 {
            return found;
        }
        for row in self.entries.rows() {
            if row.1 != inode {
                continue;
            }
            if let Some(above) = self.reach_within(layer, steps - 1, row.0.directory) {
                found = Some(found.unwrap_or(own).with(above));
            }
        }
        found
    }
}
