//! Changes that neither create nor remove a node: to names, a length, or a client's rulesets.

ghost use Rattle.std.specs.Prelude.{◌≡◌, OnOk, OnErr};
ghost use Rattle.ll_seq.specs.declared.changes.Change.TheVariants as change;
ghost use Rattle.ll_node.specs.Enactment.{Enacts, InHand, MayEnact};

use crate::{Held, Inodes};
use ll_seq::{At, ClientRecord, Rule};
use std::alloc::AllocError;

/// Adds a further name for the inode. Errors: memory ran out, and nothing has changed.
pub(crate) fn name(
    table: &mut Inodes,
    lent: &mut [Held],
    at: &At<'_>,
    inode: u64,
) -> Result<(), AllocError>
    requires { (any : InHand)
        × MayEnact (change.Name at.now inode) (record any { table = table.old; lent = lent.old }) }
    ensures ok { OnOk result ((any : InHand) → Enacts (change.Name at.now inode)
        (record any { table = table.old; lent = lent.old }) (record any { table = table.new; lent = lent.new })) }
    ensures err { OnErr result ((table.new ≡ table.old) × (lent.new ≡ lent.old)) }
{
    crate::name(lent, at.directory, at.name, inode)?;
    table.name(at.directory, inode);
    Ok(())
}

/// Moves the inode from the first name to the second. Errors: memory ran out, and nothing has changed.
pub(crate) fn move_name(
    table: &mut Inodes,
    lent: &mut [Held],
    old: &At<'_>,
    new: &At<'_>,
    inode: u64,
) -> Result<(), AllocError>
    requires { (any : InHand)
        × MayEnact (change.Move old.now new.now inode) (record any { table = table.old; lent = lent.old }) }
    ensures ok { OnOk result ((any : InHand) → Enacts (change.Move old.now new.now inode)
        (record any { table = table.old; lent = lent.old }) (record any { table = table.new; lent = lent.new })) }
    ensures err { OnErr result ((table.new ≡ table.old) × (lent.new ≡ lent.old)) }
{
    crate::move_name(
        lent,
        old.directory,
        old.name,
        new.directory,
        new.name,
        inode,
    )?;
    table.rename(old.directory, new.directory, inode, None);
    Ok(())
}

/// Exchanges the inodes under the two names.
pub(crate) fn exchange(lent: &mut [Held], old: &At<'_>, new: &At<'_>, first: u64, second: u64)
    requires { (any : InHand)
        × MayEnact (change.Exchange old.now new.now first second) (record any { lent = lent.old }) }
    ensures { (any : InHand) → Enacts (change.Exchange old.now new.now first second) (record any { lent = lent.old })
        (record any { lent = lent.new }) }
{
    crate::replace_name(lent, new.directory, new.name, first);
    crate::replace_name(lent, old.directory, old.name, second);
}

/// Sets the length of the file. New bytes are zeros. Errors: memory ran out, and nothing has changed.
pub(crate) fn resize(lent: &mut [Held], inode: u64, size: u64) -> Result<(), AllocError>
    requires { (any : InHand) × MayEnact (change.Resize inode size) (record any { lent = lent.old }) }
    ensures ok { OnOk result ((any : InHand) → Enacts (change.Resize inode size) (record any { lent = lent.old })
        (record any { lent = lent.new })) }
    ensures err { OnErr result (lent.new ≡ lent.old) }
{
    crate::set_len(lent, inode, size)
}

/// Adds a rule to the client's ruleset. Errors: memory ran out, and nothing has changed.
pub(crate) fn allow(client: &mut ClientRecord, rule: &Rule) -> Result<(), AllocError>
    requires { (any : InHand) × MayEnact (change.Allow rule.now) (record any { client = client.old }) }
    ensures ok { OnOk result ((any : InHand) → Enacts (change.Allow rule.now) (record any { client = client.old })
        (record any { client = client.new })) }
    ensures err { OnErr result (client.new ≡ client.old) }
{
    let rulesets = &mut client.rulesets;
    if rulesets
        .allow(rule.number, rule.inode, rule.kind, rule.rights)
        .is_err()
    {
        return Err(AllocError);
    }
    Ok(())
}
