//! The layers whose rules are only on the nodes of a tree.

ghost use Rattle.std.specs.Prelude.{◌≡◌, ◌<◌, ◌==◌, ◌&&◌, ◌||◌, ℕ, true, All, IfOk, length};
ghost use Rattle.ll_rights.specs.Access.{holds};
ghost use Rattle.ll_learn.specs.Draft.{IsScope, right_at};
ghost use Rattle.ll_learn.specs.Lesson.{AreOfSites, IsOfSites};
ghost use Rattle.ll_learn.specs.Sites.{HasTop};

use crate::draft::Scope;
use crate::site::{Site, Sites};
use ll_rights::Access;
use std::alloc::{AllocError, Global};

// Returns one more than the greatest inode. Errors: memory can't have room for that many.
fn count_of(rows: &[Site]) -> Result<usize, AllocError>
    ensures { IfOk result (λ count. All (λ site. site.inode < count) rows.now) }
{
    let mut count = 0;
    for site in rows {
        let Some(above) = site.inode.checked_add(1) else {
            return Err(AllocError);
        };
        count = count.max(above);
    }
    Ok(count as usize)
}

// Adds these rights to those that the inode's rule may have.
fn put(may: &mut Vec<Access>, inode: u64, rights: Access)
    requires { inode < length may.old.items }
    ensures len { length may.new.items ≡ length may.old.items }
    ensures rights { (other right : ℕ) → right < 15 → right_at may.new.items right other
        ≡ (right_at may.old.items right other || ((inode == other) && holds rights.0 right)) }
{
    let site = inode as usize;
    may[site] = may[site].with(rights);
}

// Returns, for each inode by its number, the rights that a rule on it may have.
fn may_of(alloc: Global, sites: &Sites, held: Access) -> Result<Vec<Access>, AllocError>
    ensures { IfOk result (λ may. AreOfSites sites.now held.0 may.items) }
{
    let count = count_of(&sites.rows)?;
    let mut may = vec![in alloc; Access(0); count]?;
    for site in &sites.rows {
        put(&mut may, site.inode, Access(held.0 & site.may.0));
    }
    Ok(may)
}

impl Sites {
    /// Returns the scope of the layers that handle these rights and whose rules are on these nodes with only the held
    /// rights. Rules on the nodes `beneath` take what is needed below them. Errors: memory ran out.
    pub fn scope(
        &self,
        alloc: Global,
        handled: Access,
        held: Access,
        beneath: Vec<u64>,
    ) -> Result<Scope, AllocError>
        requires top { HasTop held.0 self.now }
        requires held { (right : ℕ) → right < 15 → holds held.0 right ≡ true → holds handled.0 right ≡ true }
        ensures handled { IfOk result (λ scope. scope.handled ≡ handled) }
        ensures scope { IfOk result IsScope }
        ensures sites { IfOk result (IsOfSites self.now) }
        ensures all { IfOk result (λ scope. AreOfSites self.now held.0 scope.may.items) }
        ensures beneath { IfOk result (λ scope. scope.beneath ≡ beneath) }
    {
        let may = may_of(alloc, self, held)?;
        let order = self.rows.iter().map(|site| site.inode).collect(alloc)?;
        Ok(Scope {
            handled,
            may,
            beneath,
            order,
        })
    }
}
