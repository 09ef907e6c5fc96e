//! The tree of a session that nobody shares: without locks.

ghost use Rattle.std.specs.Prelude.{◌≡◌, ◌<◌, ◌≤◌, ◌+◌, ℕ, false, true, length, IfErr, IfOk, IfSome, OnErr, OnOk};
ghost use Rattle.std.specs.Prelude.{List, None, Some, cond};
ghost use Rattle.ll_rights.specs.Map.{has};
ghost use Rattle.ll_rights.specs.declared.limits.TheConstants.{HISTORY_ENTRIES};
ghost use Rattle.ll_plain.specs.Refusal.{is_refusal};
ghost use Rattle.ll_seq.specs.History.{is_connect};
ghost use Rattle.ll_seq.specs.Memory.{holds_memory};
ghost use Rattle.ll_seq.specs.declared.reply.Reply.{Reply};
ghost use Rattle.ll_session.specs.PartySession.{Session};
ghost use Rattle.ll_session.specs.declared.refusal.Opener.{Opener};

use crate::replies::{count_brought, is_refused};
use ll_plain::Plain;
use ll_rights::Errno;
use ll_seq::{Call, Entry, History, Reply};
use ll_session::{ClientCall, Opener, Refusal, Setup, ends_strictly, is_of_layers, placed};
use ll_wire::{Line, is_spelled, read_command};
use std::alloc::{AllocError, Global};

/// A plain tree, its history, and its clients: some that came before the session, and then its own. They are numbered
/// from 1, in the order in which they came. Each has an entry.
#[derive(Drop)]
pub struct OwnTree {
    plain: Plain,
    history: History,
    alloc: Global,
    before: u64,
    clients: u64,
    ghost there: { (number : ℕ) → 1 ≤ number → number ≤ before + clients → has plain.clients number ≡ true },
    ghost free: { (number : ℕ) → before + clients < number → has plain.clients number ≡ false },
    ghost few: { before + clients ≤ length history.entries },
    ghost low: { plain.next ≤ length history.entries + 2 },
    ghost within: { length history.entries ≤ history.limit },
    ghost most: { history.limit ≤ HISTORY_ENTRIES },
}

impl OwnTree {
    ghost use Rattle.ll_embed.specs.Alone.{IsUnreadIn, own};
    ghost use Rattle.ll_session.specs.CallsRun.{call_line};
    ghost use Rattle.ll_session.specs.FirstClients.{Comes, Loads, Makes, Opens, Refuses, Stops, begun, coming_at};
    ghost use Rattle.ll_session.specs.FirstClients.{fresh, made};
    ghost use Rattle.ll_session.specs.PartySession.{Called, Connects, joined};
    ghost use Rattle.ll_session.specs.Session.{Answers, AreOthers};
    ghost use Rattle.ll_session.specs.Strict.{IsEnd};
    ghost use Rattle.ll_wire.specs.LineCuts.{Holds};

    /// Returns a new tree without clients. Errors: memory ran out.
    pub fn new(alloc: Global, setup: &Setup) -> Result<OwnTree, AllocError>
        ensures fresh { IfOk result (λ tree. own tree ≡ fresh setup.now) }
        ensures alone { IfOk result (λ tree. tree.before ≡ 0) }
    {
        let plain = Plain::new(alloc, setup.rules, setup.nodes)?;
        let history = History::new(alloc, setup.history)?;
        Ok(OwnTree {
            plain,
            history,
            alloc,
            before: 0,
            clients: 0,
        })
    }

    // Makes the call of the client with this number. Errors: memory for a copy of the reply ran out; the call is made,
    // and its reply has bytes or names.
    fn call(&mut self, client: u64, call: Call) -> Result<Reply, AllocError>
        requires first { 1 ≤ client }
        requires last { client ≤ self.old.before + self.old.clients }
        requires other { is_connect call ≡ false }
        ensures ok { IfOk result (λ reply. Called (own self.old) client call reply (own self.new)) }
        ensures err { OnErr result ((reply : Reply) × Called (own self.old) client call reply (own self.new)
            × (holds_memory reply ≡ true)) }
        ensures before { self.new.before ≡ self.old.before }
        ensures clients { self.old.clients ≤ self.new.clients }
    {
        if self.history.is_full() {
            drop(call);
            return Ok(Reply::Refused(Errno::HistoryFull));
        }
        let fresh = self.before + self.clients + 1;
        let reply = self.plain.apply(client, &call, fresh);
        if reply.wants_memory() {
            drop(call);
            return Ok(reply);
        }
        let told = reply.copy(self.alloc);
        self.clients += count_brought(&reply);
        self.history.push(Entry {
            client,
            call,
            reply,
        });
        told
    }

    // Connects the next client. A refused connect changes nothing.
    fn connect(&mut self) -> Result<(), Errno>
        requires alone { self.old.before ≡ 0 }
        ensures ok { OnOk result ((t : Session) × Connects (own self.old) Reply.Done t
            × (own self.new ≡ joined (own self.old) t)) }
        ensures err { IfErr result (λ errno. ((t : Session) × Connects (own self.old) (Reply.Refused errno) t)
            × (own self.new ≡ own self.old)) }
        ensures alone { self.new.before ≡ 0 }
        ensures came { OnOk result (self.new.clients ≡ self.old.clients + 1) }
    {
        if self.history.is_full() {
            return Err(Errno::HistoryFull);
        }
        let next = self.clients + 1;
        match self.plain.apply(next, &Call::Connect, next) {
            Reply::Done => {}
            Reply::Refused(errno) => return Err(errno),
            _ => unreachable!(),
        }
        self.clients = next;
        self.history.push(Entry {
            client: next,
            call: Call::Connect,
            reply: Reply::Done,
        });
        Ok(())
    }

    // Makes the call of the client with this number. Errors: the reply, if the call is refused or denied.
    fn make_one(&mut self, client: u64, call: Call) -> Result<(), Reply>
        requires first { 1 ≤ client }
        requires last { client ≤ self.old.before + self.old.clients }
        requires other { is_connect call ≡ false }
        ensures ok { OnOk result ((reply : Reply) × Called (own self.old) client call reply (own self.new)
            × (is_refusal reply ≡ false)) }
        ensures err { IfErr result (λ reply. Called (own self.old) client call reply (own self.new)
            × (is_refusal reply ≡ true)) }
        ensures before { self.new.before ≡ self.old.before }
        ensures clients { self.old.clients ≤ self.new.clients }
    {
        let Ok(reply) = self.call(client, call) else {
            // A reply with bytes or names is no refusal.
            return Ok(());
        };
        if is_refused(&reply) {
            return Err(reply);
        }
        drop(reply);
        Ok(())
    }

    // Makes the calls of the client in turn. Errors: the first that is refused or denied.
    fn make(&mut self, client: u64, opener: Opener, calls: Vec<Call>) -> Result<(), Refusal>
        requires alone { self.old.before ≡ 0 }
        requires first { 1 ≤ client }
        requires last { client ≤ self.old.clients }
        requires others { AreOthers calls.items }
        ensures ok { OnOk result (Makes client (own self.old) calls.items (own self.new)) }
        ensures err { IfErr result (λ refusal.
            Stops client (own self.old) calls.items refusal.calls refusal.reply (own self.new)) }
        ensures opener { IfErr result (λ refusal. refusal.opener ≡ opener) }
        ensures some { IfErr result (λ refusal. 1 ≤ refusal.calls) }
        ensures alone { self.new.before ≡ 0 }
        ensures clients { self.old.clients ≤ self.new.clients }
    {
        let mut made = 0;
        for call in calls {
            made += 1;
            match self.make_one(client, call) {
                Ok(()) => {}
                Err(reply) => {
                    return Err(Refusal {
                        opener,
                        calls: made,
                        reply,
                    });
                }
            }
        }
        Ok(())
    }

    // Adds the next client, which makes these calls.
    fn bring(&mut self, opener: Opener, calls: Vec<Call>) -> Result<(), Refusal>
        requires alone { self.old.before ≡ 0 }
        requires others { AreOthers calls.items }
        ensures ok { OnOk result (Comes (own self.old) calls.items (made (own self.new))) }
        ensures err { IfErr result (λ refusal. Comes (own self.old) calls.items (coming_at refusal (own self.new))) }
        ensures opener { IfErr result (λ refusal. refusal.opener ≡ opener) }
        ensures alone { self.new.before ≡ 0 }
        ensures clients { OnOk result (self.old.clients < self.new.clients) }
    {
        let client = self.clients + 1;
        match self.connect() {
            Ok(()) => {}
            Err(errno) => {
                drop(calls);
                return Err(Refusal::at_connect(opener, errno));
            }
        }
        self.make(client, opener, calls)
    }

    // Adds the loader, if there is one, which makes its calls.
    fn load(&mut self, loader: Option<Vec<Call>>) -> Result<(), Refusal>
        requires alone { self.old.before ≡ 0 }
        requires others { IfSome loader (λ calls. AreOthers calls.items) }
        ensures ok { OnOk result (Loads (own self.old) loader (made (own self.new))) }
        ensures err { IfErr result (λ refusal. Loads (own self.old) loader (coming_at refusal (own self.new))) }
        ensures opener { IfErr result (λ refusal. refusal.opener ≡ Opener.Loader) }
        ensures alone { self.new.before ≡ 0 }
    {
        match loader {
            Some(calls) => self.bring(Opener::Loader, calls),
            None => Ok(()),
        }
    }

    /// Adds to a new tree the loader, if there is one, and then the first client of the session. Errors: a connect or
    /// a call of one of them is refused, so that no session begins.
    pub fn open(&mut self, setup: Setup) -> Result<(), Refusal>
        requires fresh { own self.old ≡ fresh setup }
        requires alone { self.old.before ≡ 0 }
        ensures ok { OnOk result (Opens setup (begun (own self.new))) }
        ensures err { IfErr result (λ refusal. Refuses setup refusal (own self.new)) }
        ensures some { OnOk result (1 ≤ self.new.clients) }
    {
        match self.load(setup.loader) {
            Ok(()) => {}
            Err(refusal) => return Err(refusal),
        }
        let loaded = self.clients;
        match self.bring(Opener::Profile, setup.profile) {
            Ok(()) => {
                self.before = loaded;
                self.clients -= loaded;
                Ok(())
            }
            Err(refusal) => Err(refusal),
        }
    }

    // Returns the refusal of a line that wasn't read for this reason. HistoryFull comes before NoMemory.
    fn unread(&self, errno: Errno) -> Errno
        ensures { IsUnreadIn (own self.now) errno result }
    {
        match errno {
            Errno::NoMemory if self.history.is_full() => Errno::HistoryFull,
            _ => errno,
        }
    }

    /// Makes the call that the line spells. Returns the reply, also to a line that spells none, and whether that ends a
    /// strict session. Errors: memory for a copy of the reply ran out; the call is made, and its reply has bytes or
    /// names.
    pub fn reply(&mut self, line: &Line) -> Result<(Reply, bool), AllocError>
        requires { 1 ≤ self.old.clients }
        ensures ok { IfOk result (λ told. (piece : List ℕ) → Holds line.now piece
            → Answers (own self.old) piece told.0 (own self.new)
            × IsEnd piece told.0 (cond told.1 (Some told.0) None)) }
        ensures err { OnErr result ((piece : List ℕ) → Holds line.now piece → (reply : Reply)
            × Answers (own self.old) piece reply (own self.new) × IsEnd piece reply None
            × (holds_memory reply ≡ true)) }
        ensures clients { self.old.clients ≤ self.new.clients }
    {
        let Some(bytes) = line.bytes() else {
            return Ok((Reply::Refused(Errno::BadLine), true));
        };
        match read_command(self.alloc, bytes, self.clients) {
            Ok((place, call)) => {
                let of_layers = is_of_layers(&call);
                match self.call(self.before + place, call) {
                    Ok(reply) => {
                        let reply = placed(self.clients, reply);
                        let is_end = ends_strictly(of_layers, &reply);
                        Ok((reply, is_end))
                    }
                    Err(error) => Err(error),
                }
            }
            Err(errno) => Ok((Reply::Refused(self.unread(errno)), true)),
        }
    }

    /// Makes the call as a line that spells it would. If its client doesn't exist, the reply is `refused 23 BadLine`.
    /// Errors: memory for a copy of the reply ran out; the call is made.
    pub fn reply_to(&mut self, made: ClientCall) -> Result<Reply, AllocError>
        requires { 1 ≤ self.old.clients }
        ensures answers { IfOk result (λ reply. Answers (own self.old) (call_line made) reply (own self.new)) }
        ensures clients { self.old.clients ≤ self.new.clients }
    {
        let ClientCall { client, call } = made;
        is_spelled(&call);
        if client > self.clients {
            drop(call);
            return Ok(Reply::Refused(Errno::BadLine));
        }
        match self.call(self.before + client, call) {
            Ok(reply) => Ok(placed(self.clients, reply)),
            Err(error) => Err(error),
        }
    }

    /// Returns the history.
    pub fn into_history(self) -> History
        ensures { result ≡ self.history }
    {
        self.history
    }
}
