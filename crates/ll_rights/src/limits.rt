//! The limits that several crates share. Code and definitions cite these.

/// Most bytes in a word of a line. Landtree's own limit.
pub const WORD_BYTES: usize = 8000;

/// Most bytes in a name. limits.h, NAME_MAX
pub const NAME_BYTES: usize = 255;

/// Most bytes in a path. limits.h, PATH_MAX without the terminating byte
pub const PATH_BYTES: usize = 4095;

/// Most names in a path. Landtree's own limit.
pub const PATH_NAMES: usize = 64;

/// Most bytes that one read returns or one write takes. Landtree's own limit.
pub const DATA_BYTES: usize = 4096;

/// Most inodes with a rule in one ruleset. Landtree's own limit.
pub const RULESET_INODES: usize = 256;

/// Most layers in a domain. landlock.rst, "Ruleset layers"
pub const DOMAIN_LAYERS: usize = 16;

/// Most rulesets of a client. Landtree's own limit.
pub const CLIENT_RULESETS: usize = 16;

/// Most open descriptors of a client. Landtree's own limit.
pub const CLIENT_DESCRIPTORS: usize = 64;

/// Most clients of a tree, ever. Landtree's own limit.
pub const TREE_CLIENTS: usize = 64;

/// Most nodes alive in a tree. Landtree's own limit.
pub const TREE_NODES: usize = 4096;

/// Most entries in a directory. Landtree's own limit.
pub const DIRECTORY_ENTRIES: usize = 1024;

/// Most names (hard links) of a node that isn't a directory. Landtree's own limit.
pub const NODE_NAMES: usize = 1000;

/// Most bytes in a file. Landtree's own limit.
pub const FILE_BYTES: usize = 65536;

/// Most entries in a history. Landtree's own limit.
pub const HISTORY_ENTRIES: usize = 1_000_000;
