//! The options of `serve`.

ghost use Rattle.std.specs.Prelude.{◌≡◌, ◌≤◌, option_map, IfSome};
ghost use Rattle.std.proofs.Props.{props};

use crate::inputs::names_input;
use crate::options::{CheckOptions, RunOptions};
use crate::tree::TreeOptions;
use crate::values::number_of;
use clap::ArgMatches;
use ll_rights::limits::{HISTORY_ENTRIES, TREE_NODES};

/// The greatest port number.
pub(crate) const PORTS: u64 = 65_535;

/// The most connections that can be served at once.
pub(crate) const WORKERS: usize = 32;

/// The most connections that can be served in all.
pub(crate) const CONNECTIONS: usize = 62;

/// The longest idle time of a connection, in seconds.
pub(crate) const IDLE_SECONDS: u64 = 3600;

/// The most memory for a connection's lines and replies, in megabytes.
pub(crate) const ROOM_MEGABYTES: u64 = 65_536;

/// The options of `serve`: the port; how many connections are served at once, and in all; after how many idle seconds
/// a connection is closed, if ever; how many megabytes its lines and replies may take; whether to log each; how the
/// shared tree is set up; and the file to save the history in, if any.
#[derive(Drop)]
pub struct ServeOptions<'a> {
    pub port: u16,
    pub workers: usize,
    pub connections: usize,
    pub idle: Option<u64>,
    pub room: u64,
    pub log: bool,
    pub tree: TreeOptions<'a>,
    pub save: Option<&'a str>,
    ghost some_port: { 1 ≤ port },
    ghost some_workers: { 1 ≤ workers },
    ghost most_workers: { workers ≤ 32 },
    ghost some_connections: { 1 ≤ connections },
    ghost most_connections: { connections ≤ 62 },
    ghost idle_within: { IfSome idle (λ seconds. (1 ≤ seconds) × (seconds ≤ 3600)) } by { Prim.hlevel props },
    ghost some_room: { 1 ≤ room },
    ghost most_room: { room ≤ 65536 },
}

impl<'a> ServeOptions<'a> {
    ghost use Rattle.clap.specs.Words.{found_of, rows_of};
    ghost use Rattle.ll_program.specs.Options.{fits_serve, serve_order, served_in};

    // Reads the options of `serve` from clap's matches.
    #[tactic(auto, using(crate::proofs::Numbers::text_told))]
    pub(crate) fn of_matches(serve: &ArgMatches<'a>) -> Option<ServeOptions<'a>>
        ensures { option_map served_in result ≡ serve_order (rows_of (found_of serve.now)) }
    {
        let port = number_of(serve, "port", 1, PORTS)?;
        let workers = number_of(serve, "workers", 1, WORKERS as u64)?;
        let connections = number_of(serve, "connections", 1, CONNECTIONS as u64)?;
        let idle = number_of(serve, "idle", 1, IDLE_SECONDS);
        let room = number_of(serve, "room", 1, ROOM_MEGABYTES)?;
        let log = CheckOptions::is_set(serve, "log");
        let nodes = number_of(serve, "nodes", 1, TREE_NODES as u64)?;
        let level = RunOptions::level_of(serve);
        let history = number_of(serve, "history", 1, HISTORY_ENTRIES as u64)?;
        let policy = serve.get_str("policy");
        let profile = serve.get_str("profile");
        let save = serve.get_str("save");
        let tree = TreeOptions {
            nodes: nodes as usize,
            level,
            history: history as usize,
            policy,
            profile,
        };
        Some(ServeOptions {
            port: port as u16,
            workers: workers as usize,
            connections: connections as usize,
            idle,
            room,
            log,
            tree,
            save,
        })
    }

    /// Reports whether the options fit together: no level with a policy, a profile with a policy, and a history file
    /// that isn't the policy.
    pub fn fit(&self) -> bool
        ensures { result ≡ fits_serve (served_in self.now) }
    {
        self.tree.fit() && !names_input(self.save, self.tree.policy)
    }
}
