//! The answer and the change of a decided call.

ghost use Rattle.std.specs.Prelude.{◌≡◌, ◌<◌, ◌-◌, ◌^◌, Some, None, true, OnOk, OnErr, IfOk, is_ok};
ghost use Rattle.ll_rights.specs.Map.{has};
ghost use Rattle.ll_seq.specs.Effects.{status_of, with_client};
ghost use Rattle.ll_seq.specs.Reach.{HasName};
ghost use Rattle.ll_seq.specs.Stages.{lowest_free};
ghost use Rattle.ll_seq.specs.Step.{client_of};
ghost use Rattle.ll_seq.specs.Effect.{Fits, FitsRule, HasRoom, after, told, with_opening, with_rule_of};
ghost use Rattle.ll_seq.specs.Lean.{adds_nothing, is_short};

use crate::Plain;
use ll_rights::Kind;
use ll_seq::{Answer, Change, Opening, Reply, Rule, Status, status_of};
use std::alloc::AllocError;

impl Plain {
    fn status(&self, inode: u64, kind: Kind) -> Status
        ensures { result ≡ status_of self.now inode kind }
    {
        status_of(&self.facts, inode, kind, self.size(inode) as u64)
    }

    /// Builds the reply from the answer, as the tree is now. Errors: memory ran out.
    pub(crate) fn tell(&self, answer: Answer) -> Result<Reply, AllocError>
        ensures told { IfOk result (λ reply. reply ≡ told self.now answer) }
        ensures short { is_short answer ≡ true → is_ok result ≡ true }
    {
        match answer {
            Answer::Done => Ok(Reply::Done),
            Answer::Opened(number) => Ok(Reply::Opened(number)),
            Answer::Status(inode, kind) => Ok(Reply::Found(self.status(inode, kind))),
            Answer::Names(inode) => Ok(Reply::Listed(self.entries.names_in(self.alloc, inode)?)),
        }
    }

    /// Creates the file and opens it, or does neither.
    fn open_new(&mut self, client: u64, opening: &Opening<'_>) -> Result<(), AllocError>
        requires caller { has self.old.clients client ≡ true }
        requires next { self.old.next < 2 ^ 64 - 1 }
        requires free { lowest_free (client_of self.old client).descriptors ≡ Some opening.now.number }
        requires room { HasRoom self.old opening.now.at }
        ensures ok { OnOk result (self.new
            ≡ with_opening self.old client (client_of self.old client) opening.now None) }
        ensures err { OnErr result (self.new ≡ self.old) }
    {
        let inode = self.next;
        self.add(&opening.at, Kind::Reg)?;
        if let Err(error) = self.take(client, opening.descriptor(inode)) {
            self.take_name(&opening.at, inode);
            self.next -= 1;
            return Err(error);
        }
        Ok(())
    }

    /// Opens an existing file.
    fn open_there(
        &mut self,
        client: u64,
        opening: &Opening<'_>,
        inode: u64,
    ) -> Result<(), AllocError>
        requires caller { has self.old.clients client ≡ true }
        requires free { lowest_free (client_of self.old client).descriptors ≡ Some opening.now.number }
        requires named { HasName self.old inode }
        ensures ok { OnOk result (self.new
            ≡ with_opening self.old client (client_of self.old client) opening.now (Some inode)) }
        ensures err { OnErr result (self.new ≡ self.old) }
    {
        // The tables' invariant gives a node to everything that has a name.
        let _ = &self.nodes;
        let _ = self.take(client, opening.descriptor(inode))?;
        if opening.is_emptied {
            self.empty(inode);
        }
        Ok(())
    }

    /// Adds a rule to the client's ruleset.
    fn allow(&mut self, client: u64, rule: &Rule) -> Result<(), AllocError>
        requires caller { has self.old.clients client ≡ true }
        requires fits { FitsRule self.old (client_of self.old client) rule.now }
        ensures ok { OnOk result (self.new
            ≡ with_client self.old client (with_rule_of (client_of self.old client) rule.now)) }
        ensures err { OnErr result (self.new ≡ self.old) }
    {
        if let Err(_) = self
            .clients
            .allow(client, rule.number, rule.inode, rule.kind, rule.rights)
        {
            return Err(AllocError);
        }
        Ok(())
    }

    /// Makes the client's change. Errors: memory ran out, and nothing has changed.
    pub(crate) fn enact(&mut self, client: u64, change: &Change<'_>) -> Result<(), AllocError>
        requires caller { has self.old.clients client ≡ true }
        requires next { self.old.next < 2 ^ 64 - 1 }
        requires fits { Fits self.old (client_of self.old client) change.now }
        ensures ok { OnOk result (self.new ≡ after self.old client (client_of self.old client) change.now) }
        ensures err { OnErr result (self.new ≡ self.old) }
        ensures lean { adds_nothing change.now ≡ true → is_ok result ≡ true }
    {
        match change {
            Change::Nothing => {}
            Change::Make(at, kind) => self.add(at, *kind)?,
            Change::Take(at, inode) => self.take_name(at, *inode),
            Change::Name(at, inode) => self.add_name(at, *inode)?,
            Change::Move(old, new, inode) => self.move_name(old, new, *inode)?,
            Change::Replace(old, new, inode, other) => self.move_over(old, new, *inode, *other),
            Change::Exchange(old, new, inode, other) => self.exchange(old, new, *inode, *other),
            Change::Resize(inode, size) => self.set_len(*inode, *size as usize)?,
            Change::Open(opening) => match opening.there {
                None => self.open_new(client, opening)?,
                Some(inode) => self.open_there(client, opening, inode)?,
            },
            Change::Allow(rule) => self.allow(client, rule)?,
        }
        Ok(())
    }
}
