//! What a client does in one section, without a walk.

ghost use Rattle.std.specs.Prelude.{◌≡◌, ◌≢◌, ◌<◌, ◌≤◌, ◌++◌, ◌∷◌, [], None, Some, IfOk, IfErr, IfSome, IfNone, OnErr};
ghost use Rattle.std.specs.Sync.Mutex.{mutex_guard_value};
ghost use Rattle.ll_seq.specs.declared.call.Call.TheVariants as calls;
ghost use Rattle.ll_seq.specs.declared.reply.Reply.TheVariants as replies;
ghost use Rattle.ll_seq.specs.declared.client.Descriptor as descriptor;
ghost use Rattle.ll_laws.specs.World.{Joined, Replied, World, advance, next_number};
ghost use Rattle.ll_laws.specs.declared.step.Step.TheVariants.{ClientStep, FdCommit, Join};
ghost use Rattle.ll_journal.specs.Book.{inode_in};
ghost use Rattle.ll_journal.specs.Direct.{Answers, ComesBack, IsOpen, Starts};
ghost use Rattle.ll_client.specs.CallStart.{HasNoPlace, SetsOut, childless, is_at_full, knows_full};
ghost use Rattle.ll_client.specs.Entries.{knows, numbered};
ghost use Rattle.ll_client.specs.Gains.{Gains, Told};
ghost use Rattle.ll_walk.specs.Sections.{Shows};

use super::{Section, Spent};
use ll_client::{Account, Client, Locked, Rider, Shape, Tie};
use ll_journal::{Made, Start, Unmade};
use ll_rights::Errno;
use ll_seq::Call;

/// Whether no client came since the history is full.
fn is_at_full<N: Shape>(client: &Result<Client<N>, Errno>) -> bool
    ensures { result ≡ is_at_full client.now }
{
    match client {
        Err(errno) => *errno == Errno::HistoryFull,
        Ok(_) => false,
    }
}

impl<'a, N: Shape> Section<'a, N> {
    /// Starts the client's call: it is made and answered, its walk begins, or it is given back.
    pub fn start(
        self,
        tie: &Tie<N, Account>,
        me: &mut Rider<N>,
        call: Call,
    ) -> (Start, Spent<'a, N>)
        ensures step { Starts (mutex_guard_value self.entry.desk) me.old.number call result.0
            (mutex_guard_value result.1.desk) }
        ensures shows { Shows (mutex_guard_value self.entry.desk) (mutex_guard_value result.1.desk) [] [] }
        ensures mine { SetsOut N.limit call me.old result.0 me.new }
    {
        let Section { mut desk } = self;
        let start = desk.start(tie, me, call);
        (start, Spent { desk })
    }

    /// Returns the slot of the file that the client has open under this number.
    pub fn file_slot(self, me: &Rider<N>, number: u64) -> (Option<u64>, Spent<'a, N>)
        ensures kept { mutex_guard_value result.1.desk ≡ mutex_guard_value self.entry.desk }
        ensures within { IfSome result.0 (λ slot. slot < N.slots) }
        ensures some { IfSome result.0 (λ slot. (file : descriptor.Descriptor)
            × IsOpen (mutex_guard_value self.entry.desk).world me.now.number number file
            × (inode_in (mutex_guard_value self.entry.desk) slot ≡ file.inode)) }
        ensures none { IfNone result.0 ((file : descriptor.Descriptor)
            → ¬ IsOpen (mutex_guard_value self.entry.desk).world me.now.number number file) }
    {
        let Section { desk } = self;
        desk.by_law();
        let slot = desk.file_slot(me, number);
        (slot, Spent { desk })
    }

    /// Makes the client's call on a descriptor, given the slot of its file. Errors: the call, if its step isn't enabled
    /// or the slot isn't the file's.
    pub fn fd_commit(
        self,
        tie: &Tie<N, Account>,
        me: &mut Rider<N>,
        call: Call,
        file: &mut Locked<N>,
    ) -> (Result<Made, Unmade>, Spent<'a, N>)
        ensures step { IfOk result.0 (λ made. Answers (mutex_guard_value self.entry.desk)
            (FdCommit me.old.number call) made (mutex_guard_value result.1.desk)) }
        ensures shows { Shows (mutex_guard_value self.entry.desk) (mutex_guard_value result.1.desk) (file.old ∷ [])
            (file.new ∷ []) }
        ensures kept { OnErr result.0 (mutex_guard_value result.1.desk ≡ mutex_guard_value self.entry.desk) }
        ensures back { IfErr result.0
            (ComesBack (mutex_guard_value self.entry.desk) me.old.number call file.old.number) }
        ensures mine { IfOk result.0 (λ made. Gains N.limit call me.old made me.new) }
        ensures still { IfErr result.0 (λ back. (me.new ≡ me.old) × (file.new ≡ file.old)) }
    {
        let Section { mut desk } = self;
        let made = desk.fd_commit(tie, me, call, file);
        (made, Spent { desk })
    }

    /// Adds a client. Errors: HistoryFull; EMFILE if as many clients were made as a tree may have; NoMemory.
    pub fn connect(self, tie: &Tie<N, Account>) -> (Result<Client<N>, Errno>, Spent<'a, N>)
        ensures step { IfOk result.0 (λ client. advance (mutex_guard_value self.entry.desk).world Join
            ≡ (Joined client.rider.number, (mutex_guard_value result.1.desk).world)) }
        ensures shows { Shows (mutex_guard_value self.entry.desk) (mutex_guard_value result.1.desk) [] [] }
        ensures kept { OnErr result.0 (mutex_guard_value result.1.desk ≡ mutex_guard_value self.entry.desk) }
        ensures client { IfOk result.0 (λ client. client.rider
            ≡ knows client.rider.number (numbered client.rider.seen calls.Connect replies.Done ∷ []) []
            client.rider.seen None) }
        ensures some { IfOk result.0 (λ client. 0 < client.rider.seen) }
        ensures errors { IfErr result.0 HasNoPlace }
        ensures refused { IfErr result.0 (λ errno. errno ≢ Errno.NoMemory
            → advance (mutex_guard_value self.entry.desk).world Join
            ≡ (Replied (replies.Refused errno), (mutex_guard_value self.entry.desk).world)) }
        ensures starved { IfErr result.0 (λ errno. errno ≡ Errno.NoMemory → (after : World)
            × (advance (mutex_guard_value self.entry.desk).world Join
            ≡ (Joined (next_number (mutex_guard_value self.entry.desk).world), after))) }
    {
        let Section { mut desk } = self;
        let client = desk.connect(tie);
        (client, Spent { desk })
    }

    /// Adds a client whose entry comes after every entry that `me` knows of. Errors: those of `connect`. If
    /// the history is full, `me` knows of all of it.
    pub fn connect_after(
        self,
        tie: &Tie<N, Account>,
        me: &mut Client<N>,
    ) -> (Result<Client<N>, Errno>, Spent<'a, N>)
        ensures step { IfOk result.0 (λ client. advance (mutex_guard_value self.entry.desk).world Join
            ≡ (Joined client.rider.number, (mutex_guard_value result.1.desk).world)) }
        ensures shows { Shows (mutex_guard_value self.entry.desk) (mutex_guard_value result.1.desk) [] [] }
        ensures kept { OnErr result.0 (mutex_guard_value result.1.desk ≡ mutex_guard_value self.entry.desk) }
        ensures client { IfOk result.0 (λ client. client.rider
            ≡ knows client.rider.number (numbered client.rider.seen calls.Connect replies.Done ∷ []) []
            client.rider.seen None) }
        ensures after { IfOk result.0 (λ client. me.old.rider.seen < client.rider.seen) }
        ensures errors { IfErr result.0 HasNoPlace }
        ensures refused { IfErr result.0 (λ errno. errno ≢ Errno.NoMemory
            → advance (mutex_guard_value self.entry.desk).world Join
            ≡ (Replied (replies.Refused errno), (mutex_guard_value self.entry.desk).world)) }
        ensures starved { IfErr result.0 (λ errno. errno ≡ Errno.NoMemory → (after : World)
            × (advance (mutex_guard_value self.entry.desk).world Join
            ≡ (Joined (next_number (mutex_guard_value self.entry.desk).world), after))) }
        ensures low { me.old.rider.seen ≤ me.new.rider.seen }
        ensures mine { me.new.rider ≡ knows_full N.limit result.0 me.old.rider }
    {
        let Section { mut desk } = self;
        let client = desk.connect_after(tie, me);
        if !is_at_full(&client) {
            return (client, Spent { desk });
        }
        desk.by_law();
        desk.catch_up(tie, me);
        (client, Spent { desk })
    }

    /// Spawns a child of the client. Errors: HistoryFull; EMFILE if as many clients were made as a tree may have;
    /// NoMemory.
    pub fn spawn(
        self,
        tie: &Tie<N, Account>,
        me: &mut Client<N>,
    ) -> (Result<Client<N>, Errno>, Spent<'a, N>)
        ensures child { IfOk result.0 (λ child.
            Answers (mutex_guard_value self.entry.desk) (ClientStep me.old.rider.number calls.Spawn)
            (Made.Replied (replies.Spawned child.rider.number)) (mutex_guard_value result.1.desk)
            × Told calls.Spawn (replies.Spawned child.rider.number) me.old.rider me.new.rider
            × (child.rider ≡ knows child.rider.number [] [] me.new.rider.seen None)) }
        ensures alone { IfErr result.0 (λ errno.
            Answers (mutex_guard_value self.entry.desk) (ClientStep me.old.rider.number calls.Spawn)
            (childless errno) (mutex_guard_value result.1.desk)
            × Gains N.limit calls.Spawn me.old.rider (childless errno) me.new.rider) }
        ensures shows { Shows (mutex_guard_value self.entry.desk) (mutex_guard_value result.1.desk) [] [] }
        ensures errors { IfErr result.0 HasNoPlace }
    {
        let Section { mut desk } = self;
        let child = desk.spawn(tie, me);
        (child, Spent { desk })
    }
}
