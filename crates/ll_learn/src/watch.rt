//! The clients that a layer is on, and the paths by which they opened their files.

ghost use Rattle.std.specs.Prelude.{◌≡◌, ◌<◌, ◌||◌, ◌==◌, ◌++◌, [], ◌∷◌, ℕ, Bool, false, IfOk, IfNone, IfSome, OnOk};
ghost use Rattle.std.specs.Prelude.{length};
ghost use Rattle.std.specs.Prelude.{None, Some, find, option_map, if◌then◌else◌};
ghost use Rattle.ll_seq.specs.History.{MayStand, after};
ghost use Rattle.ll_seq.specs.State.{State};
ghost use Rattle.ll_why.specs.Opener.{is_spawned};
ghost use Rattle.ll_learn.specs.PassedCalls.{Openings, joins, opened_at};
ghost use Rattle.ll_learn.specs.Watched.{IsAt, Joins, is_client_of, is_descriptor, is_watched, path_opened};
ghost use Rattle.ll_learn.specs.Watched.{paths_opened};
ghost use Rattle.ll_learn.specs.Watched.{with_opening};
ghost use Rattle.ll_learn.specs.WatchedClients.{IsWatch, Opens};

use crate::needs::copy_of;
use ll_seq::{Entry, Reply};
use std::alloc::{AllocError, Global};

/// A descriptor, and the path by which it was opened.
#[derive(Drop)]
pub struct Opened {
    pub descriptor: u64,
    /// The path's inodes at that time, from the root on.
    pub inodes: Vec<u64>,
}

/// A client that the layer is on.
#[derive(Drop)]
struct Watched {
    client: u64,
    /// What it has opened since, or got from the client that spawned it.
    opened: Vec<Opened>,
}

/// The clients that a layer is on.
#[derive(Drop)]
pub struct Watch {
    clients: Vec<Watched>,
}

// Returns the index of the descriptor.
fn descriptor_place(opened: &[Opened], descriptor: u64) -> Option<usize>
    ensures none { IfNone result (find (is_descriptor descriptor) opened.now ≡ None) }
    ensures within { IfSome result (λ i. i < length opened.now) }
    ensures first { IfSome result (IsAt (is_descriptor descriptor) opened.now) }
{
    opened.iter().position(|held| held.descriptor == descriptor)
}

// Returns the index of the client.
fn client_place(clients: &[Watched], client: u64) -> Option<usize>
    ensures none { IfNone result (find (is_client_of client) clients.now ≡ None) }
    ensures within { IfSome result (λ i. i < length clients.now) }
    ensures first { IfSome result (IsAt (is_client_of client) clients.now) }
{
    clients.iter().position(|watched| watched.client == client)
}

// Appends the opening.
fn push_opened(opened: &mut Vec<Opened>, one: Opened) -> Result<(), AllocError>
    ensures { OnOk result (opened.new.items ≡ opened.old.items ++ one ∷ []) }
{
    match opened.push(one) {
        Ok(()) => Ok(()),
        Err(refused) => {
            drop(refused);
            Err(AllocError)
        }
    }
}

// Appends the client.
fn push_client(clients: &mut Vec<Watched>, one: Watched) -> Result<(), AllocError>
    ensures { OnOk result (clients.new.items ≡ clients.old.items ++ one ∷ []) }
{
    match clients.push(one) {
        Ok(()) => Ok(()),
        Err(refused) => {
            drop(refused);
            Err(AllocError)
        }
    }
}

// Returns a copy of these openings.
fn copies(alloc: Global, opened: &[Opened]) -> Result<Vec<Opened>, AllocError>
    ensures { IfOk result (λ copies. (fd : ℕ) → path_opened copies.items fd ≡ path_opened opened.now fd) }
{
    let mut copies = Vec::new(alloc);
    for held in opened {
        let inodes = copy_of(alloc, &held.inodes)?;
        let descriptor = held.descriptor;
        push_opened(&mut copies, Opened { descriptor, inodes })?;
    }
    Ok(copies)
}

// Returns the spawned client in the reply.
fn spawned_client(reply: &Reply) -> Option<u64>
    ensures some { IfSome result (λ child. reply.now ≡ Reply.Spawned child) }
    ensures none { IfNone result ((client : ℕ) → is_spawned client reply.now ≡ false) }
{
    match reply {
        Reply::Spawned(child) => Some(*child),
        _ => None,
    }
}

impl Watched {
    // Returns the inodes of the path by which it opened the descriptor, if known.
    fn path(&self, descriptor: u64) -> Option<&[u64]>
        ensures { option_map (λ inodes. inodes.now) result ≡ path_opened self.now.opened.items descriptor }
    {
        match descriptor_place(&self.opened, descriptor) {
            Some(i) => Some(self.opened[i].inodes.as_slice()),
            None => None,
        }
    }

    // Records the descriptor, opened by the path with these inodes.
    fn open(&mut self, descriptor: u64, inodes: Vec<u64>) -> Result<(), AllocError>
        ensures client { self.new.client ≡ self.old.client }
        ensures paths { OnOk result ((fd : ℕ) → path_opened self.new.opened.items fd
            ≡ (if descriptor == fd then Some inodes.items else path_opened self.old.opened.items fd)) }
    {
        match descriptor_place(&self.opened, descriptor) {
            Some(i) => {
                self.opened[i] = Opened { descriptor, inodes };
                Ok(())
            }
            None => push_opened(&mut self.opened, Opened { descriptor, inodes }),
        }
    }
}

impl Watch {
    /// Watches only this client, which has opened nothing. Errors: memory ran out.
    pub fn of(alloc: Global, client: u64) -> Result<Watch, AllocError>
        ensures on { IfOk result (λ watch. (other : ℕ) → is_watched watch.clients.items other ≡ (client == other)) }
        ensures paths { IfOk result (λ watch. (other fd : ℕ) → paths_opened watch.clients.items other fd ≡ None) }
    {
        let mut clients = Vec::new(alloc);
        let opened = Vec::new(alloc);
        push_client(&mut clients, Watched { client, opened })?;
        Ok(Watch { clients })
    }

    /// Reports whether the layer is on the client.
    pub fn is_on(&self, client: u64) -> bool
        ensures { result ≡ is_watched self.now.clients.items client }
    {
        match client_place(&self.clients, client) {
            Some(_) => true,
            None => false,
        }
    }

    /// Returns the inodes of the path by which the client opened the descriptor, if known.
    pub fn opened(&self, client: u64, descriptor: u64) -> Option<&[u64]>
        ensures { option_map (λ inodes. inodes.now) result ≡ paths_opened self.now.clients.items client descriptor }
    {
        match client_place(&self.clients, client) {
            Some(i) => self.clients[i].path(descriptor),
            None => None,
        }
    }

    // Returns what the client is known to have opened.
    fn all_opened(&self, alloc: Global, client: u64) -> Result<Vec<Opened>, AllocError>
        ensures { IfOk result (λ opened. (fd : ℕ) → path_opened opened.items fd
            ≡ paths_opened self.now.clients.items client fd) }
    {
        match client_place(&self.clients, client) {
            Some(i) => copies(alloc, &self.clients[i].opened),
            None => Ok(Vec::new(alloc)),
        }
    }

    // Records that the client opened the descriptor by the path with these inodes. Does nothing if the layer isn't on
    // it.
    fn open(&mut self, client: u64, descriptor: u64, inodes: Vec<u64>) -> Result<(), AllocError>
        ensures on { (other : ℕ) → is_watched self.new.clients.items other ≡ is_watched self.old.clients.items other }
        ensures paths { OnOk result ((other fd : ℕ) → paths_opened self.new.clients.items other fd
            ≡ with_opening self.old.clients.items client descriptor inodes.items other fd) }
    {
        match client_place(&self.clients, client) {
            Some(i) => self.clients[i].open(descriptor, inodes),
            None => Ok(()),
        }
    }

    // Adds a client spawned by the other. It has what that one has.
    fn join(&mut self, alloc: Global, parent: u64, child: u64) -> Result<(), AllocError>
        requires { is_watched self.old.clients.items child ≡ false }
        ensures { OnOk result (Joins self.old.clients.items self.new.clients.items parent child) }
    {
        let opened = self.all_opened(alloc, parent)?;
        push_client(
            &mut self.clients,
            Watched {
                client: child,
                opened,
            },
        )
    }

    /// Updates the watch after one more entry, which opens this, if anything. Errors: memory ran out.
    pub fn follow(
        &mut self,
        alloc: Global,
        entry: &Entry,
        opened: Option<Opened>,
    ) -> Result<(), AllocError>
        requires { (child : ℕ) → entry.now.reply ≡ Reply.Spawned child
            → is_watched self.old.clients.items child ≡ false }
        ensures { OnOk result ((s : State) (is_on : ℕ → Bool) (known : Openings) → Opens s entry.now opened
            → MayStand s entry.now → IsWatch s is_on known self.old.clients.items
            → IsWatch (after s entry.now) (joins is_on entry.now) (opened_at s known entry.now)
            self.new.clients.items) }
    {
        if let Some(opened) = opened {
            return self.open(entry.client, opened.descriptor, opened.inodes);
        }
        let Some(child) = spawned_client(&entry.reply) else {
            return Ok(());
        };
        if self.is_on(entry.client) {
            self.join(alloc, entry.client, child)
        } else {
            Ok(())
        }
    }
}
