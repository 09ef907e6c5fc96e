//! The first line of a history.

ghost use Rattle.std.specs.Prelude.{◌≡◌, ◌≤◌, [], ◌∷◌, map, codes, decimal, IfOk, MatchOption, string_bytes};
ghost use Rattle.ll_rights.specs.declared.limits.TheConstants.{TREE_NODES};
ghost use Rattle.ll_wire.specs.Entries.{SpellsHeader};
ghost use Rattle.ll_wire.specs.EntryParts.{SpellsNodes, SpellsLevel, SpellsVersion, SpellsHeaderTokens};
ghost use Rattle.ll_wire.specs.Reads.{Finds};

use crate::token::{body_of, number_of, tokens_of};
use crate::write::line_text;
use ll_rights::Abi;
use ll_rights::limits::TREE_NODES;
use ll_seq::Rules;
use std::alloc::{AllocError, Global};

// The first word of a header.
const TITLE: &str = "landtree-history";

/// The version of a history, with the ABI level if the version has one. Version 3 is written today.
#[derive(Clone, Copy, Debug, PartialEq, Eq)]
pub enum Version {
    One,
    Two(Abi),
    Three(Abi),
}

impl Version {
    ghost use Rattle.ll_wire.specs.Entries.{version_rules, version_text, level_tokens, IsVersion};

    /// Returns the rules of the history's tree.
    pub fn rules(self) -> Rules
        ensures { result ≡ version_rules self }
    {
        let (abi, copies) = match self {
            Version::One => (Abi::NEWEST, false),
            Version::Two(abi) => (abi, false),
            Version::Three(abi) => (abi, true),
        };
        Rules { abi, copies }
    }

    fn text(self) -> &'static str
        ensures { result.now ≡ version_text self }
    {
        match self {
            Version::One => "1",
            Version::Two(_) => "2",
            Version::Three(_) => "3",
        }
    }

    // The level's number, if the version has one.
    fn level(self) -> Option<u64>
        ensures tokens { MatchOption result (level_tokens self ≡ [])
            (λ abi. level_tokens self ≡ codes "abi" ∷ decimal abi ∷ []) }
        ensures version { IsVersion self }
    {
        match self {
            Version::One => None,
            Version::Two(abi) | Version::Three(abi) => Some(abi.number()),
        }
    }
}

/// A history's first line: its version, and its tree's limit of live nodes.
#[derive(Clone, Copy, Debug, PartialEq, Eq)]
pub struct Header {
    pub version: Version,
    pub nodes: usize,
}

fn nodes_of(token: &str) -> Option<usize>
    ensures { Finds (SpellsNodes token.now) result }
{
    let nodes = number_of(token)?;
    if nodes < 1 || nodes > TREE_NODES as u64 {
        return None;
    }
    Some(nodes as usize)
}

fn level_of(token: &str) -> Option<Abi>
    ensures { Finds (SpellsLevel token.now) result }
{
    Abi::new(number_of(token)?)
}

fn version_of(number: &str, level: &[&str]) -> Option<Version>
    ensures { Finds (SpellsVersion number.now (map (λ t. t.now) level.now)) result }
{
    if level.is_empty() && number == "1" {
        return Some(Version::One);
    }
    let [word, abi] = level else {
        return None;
    };
    if *word != "abi" {
        return None;
    }
    let abi = level_of(abi)?;
    match number {
        "2" => Some(Version::Two(abi)),
        "3" => Some(Version::Three(abi)),
        _ => None,
    }
}

fn header_of(tokens: &[&str]) -> Option<Header>
    ensures { Finds (SpellsHeaderTokens (map (λ t. t.now) tokens.now)) result }
{
    let [title, version, word, nodes, level @ ..] = tokens else {
        return None;
    };
    if *title != TITLE || *word != "nodes" {
        return None;
    }
    Some(Header {
        version: version_of(version, level)?,
        nodes: nodes_of(nodes)?,
    })
}

/// Parses a header, or returns None.
pub fn read_header(line: &[u8]) -> Option<Header>
    ensures { Finds (SpellsHeader line.now) result }
{
    let body = body_of(line)?;
    let mut tokens = [""; 6];
    let count = tokens_of(body, &mut tokens)?;
    header_of(&tokens[..count])
}

/// Returns the header's line. Errors: memory ran out.
pub fn header_text(alloc: Global, header: Header) -> Result<String, AllocError>
    requires some { 1 ≤ header.nodes }
    requires most { header.nodes ≤ TREE_NODES }
    ensures { IfOk result (λ text. SpellsHeader (string_bytes text) header) }
{
    let version = header.version.text();
    let nodes = header.nodes.to_string(alloc)?;
    let Some(level) = header.version.level() else {
        return line_text(alloc, TITLE, &[version, "nodes", nodes.as_str()]);
    };
    let level = level.to_string(alloc)?;
    let tokens = [version, "nodes", nodes.as_str(), "abi", level.as_str()];
    line_text(alloc, TITLE, &tokens)
}
