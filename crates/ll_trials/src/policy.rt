//! Policies: the faults of bad documents, and the calls of good ones.

use ll_policy::{Policy, PolicyFault};
use ll_rights::{Access, Kind};
use ll_seq::Call;
use std::alloc::{AllocError, Global};

fn fault(alloc: Global, text: &str) -> Option<PolicyFault> {
    Policy::from_text(alloc, text).err()
}

/// The first fault of each document.
const FAULTS: &[(&str, PolicyFault)] = &[
    ("", PolicyFault::MissingKey),
    ("version = \"1\"", PolicyFault::WrongType),
    ("version = 7", PolicyFault::BadVersion),
    ("version = 7\nx = 1", PolicyFault::UnknownKey),
    ("version = ", PolicyFault::NotToml),
    ("version = 1\nversion = 1", PolicyFault::NotToml),
    ("version = 1\nnode = 3", PolicyFault::WrongType),
    ("version = 1\nnode = [3]", PolicyFault::WrongType),
    ("version = 1\nprofile = 3", PolicyFault::WrongType),
    ("version = 1\n[profile]\nA = 3", PolicyFault::WrongType),
    ("version = 1\n[profile.A]", PolicyFault::BadName),
    ("version = 1\n[profile.\"\"]", PolicyFault::BadName),
    ("version = 2", PolicyFault::MissingKey),
    ("version = 2\nabi = 4", PolicyFault::BadAbi),
    ("version = 2\nabi = -1", PolicyFault::BadAbi),
    ("version = 2\nabi = \"1\"", PolicyFault::WrongType),
    ("version = 1\nabi = 3", PolicyFault::UnknownKey),
    ("version = -1", PolicyFault::BadVersion),
    (
        "version = 1\nprofile = 3\n[[node]]\nx = 1",
        PolicyFault::WrongType,
    ),
    (
        "version = 1\n[profile.A]\n[[node]]\npath = \"a\"",
        PolicyFault::BadPath,
    ),
    (
        "version = 1\n[profile.b]\nx = 1\n[profile.A]",
        PolicyFault::BadName,
    ),
    (
        "version = 1\n[[profile.a.layer]]\nhandled = \"x\"\n[[profile.a.layer]]",
        PolicyFault::BadRights,
    ),
    (
        "version = 1\n[[node]]\npath = \"/a\"\nkind = \"dir\"\ndata = \"00\"",
        PolicyFault::BadData,
    ),
    (
        "version = 1\n[[node]]\npath = \"/a\"\nkind = \"dir\"\ndata = \"\"",
        PolicyFault::BadData,
    ),
    (
        "version = 1\n[[node]]\npath = \"/a/\"\nkind = \"dir\"",
        PolicyFault::BadPath,
    ),
    (
        "version = 1\n[[node]]\npath = \"/a b\"\nkind = \"dir\"",
        PolicyFault::BadPath,
    ),
    (
        "version = 1\n[[node]]\npath = \"/a/\"",
        PolicyFault::BadPath,
    ),
    (
        "version = 1\n[[node]]\npath = \"/a\"\nkind = \"file\"\ndata = 3",
        PolicyFault::BadKind,
    ),
    (
        "version = 1\n[[node]]\npath = \"/a\"",
        PolicyFault::MissingKey,
    ),
    (
        "version = 1\n[[node]]\nkind = \"dir\"",
        PolicyFault::MissingKey,
    ),
    (
        "version = 1\n[[node]]\npath = 3\nkind = \"dir\"",
        PolicyFault::WrongType,
    ),
    ("version = 1\n[[node]]\nmode = 3", PolicyFault::UnknownKey),
    (
        "version = 1\n[[node]]\npath = \"/a\"\nkind = \"reg\"\ndata = \"0A\"",
        PolicyFault::BadData,
    ),
    (
        "version = 1\n[[node]]\npath = \"/a\"\nkind = \"reg\"\ndata = \"0\"",
        PolicyFault::BadData,
    ),
    (
        "version = 1\n[[node]]\npath = \"/a\"\nkind = \"reg\"\ndata = 0",
        PolicyFault::WrongType,
    ),
    (
        "version = 1\n[[profile.a.layer]]\nhandled = \"read_file,write_file\"",
        PolicyFault::BadRights,
    ),
    (
        "version = 1\n[[profile.a.layer]]\nrule = []",
        PolicyFault::MissingKey,
    ),
    (
        "version = 1\n[[profile.a.layer]]\nhandled = \"none\"\nrule = [3]",
        PolicyFault::WrongType,
    ),
    (
        "version = 1\n[[profile.a.layer]]\nhandled = \"none\"\nrule = [{ path = \"/\" }]",
        PolicyFault::MissingKey,
    ),
    (
        "version = 1\n[[profile.a.layer]]\nhandled = \"none\"\nrule = [{ path = \"a\", rights = \"x\" }]",
        PolicyFault::BadPath,
    ),
    (
        "version = 1\n[[profile.a.layer]]\nhandled = \"none\"\nrule = [{ path = \"/\", rights = \"x\" }]",
        PolicyFault::BadRights,
    ),
];

#[test]
fn faults(rt: HostRuntime) {
    for (text, want) in FAULTS {
        assert_eq!(rt; fault(rt.alloc(), text), Some(*want), "at {text}");
    }
}

/// A call of a policy. For a write, only its offset and its number of bytes.
#[derive(Clone, Copy)]
enum Want {
    Make(Kind, &'static str),
    Open(&'static str),
    Write(u64, usize),
    Close,
    Ruleset(Access),
    Allow(u64, &'static str, Access),
    Confine(u64),
}

fn is(call: &Call, want: &Want) -> bool {
    match (call, want) {
        (Call::Make(kind, path), Want::Make(wanted, text)) => {
            kind == wanted && path.as_str() == *text
        }
        (Call::Open(_, path), Want::Open(text)) => path.as_str() == *text,
        (Call::Write(0, offset, bytes), Want::Write(at, count)) => {
            offset == at && bytes.len() == *count
        }
        (Call::Close(0), Want::Close) => true,
        (Call::Ruleset(rights), Want::Ruleset(handled)) => rights == handled,
        (Call::Allow(number, path, rights), Want::Allow(wanted, text, held)) => {
            number == wanted && path.as_str() == *text && rights == held
        }
        (Call::Confine(number), Want::Confine(wanted)) => number == wanted,
        _ => false,
    }
}

fn are(calls: &[Call], wanted: &[Want]) -> bool {
    calls.len() == wanted.len() && calls.iter().zip(wanted).all(|(call, want)| is(call, want))
}

const READER: &str = "version = 2
abi = 2

[[node]]
path = \"/a\"
kind = \"dir\"

[[node]]
path = \"/a/f\"
kind = \"reg\"
data = \"6869\"

[[profile.reader.layer]]
handled = \"write_file,read_file\"

[[profile.reader.layer.rule]]
path = \"/a\"
rights = \"read_file\"

[[profile.reader.layer]]
handled = \"refer\"
";

const OPENING: &[Want] = &[
    Want::Make(Kind::Dir, "/a"),
    Want::Make(Kind::Reg, "/a/f"),
    Want::Open("/a/f"),
    Want::Write(0, 2),
    Want::Close,
];

const LAYERS: &[Want] = &[
    Want::Ruleset(Access(0x6)),
    Want::Allow(0, "/a", Access(0x4)),
    Want::Confine(0),
    Want::Ruleset(Access(0x2000)),
    Want::Confine(1),
];

fn opens(alloc: Global, policy: &Policy, wanted: &[Want]) -> Result<bool, AllocError> {
    let calls = policy.opening(alloc)?;
    Ok(are(&calls, wanted))
}

fn has_profile(
    alloc: Global,
    policy: &Policy,
    name: &str,
    wanted: &[Want],
) -> Result<bool, AllocError> {
    match policy.profile(alloc, name)? {
        Some(calls) => Ok(are(&calls, wanted)),
        None => Ok(false),
    }
}

fn is_read(alloc: Global) -> Result<bool, PolicyFault> {
    let policy = Policy::from_text(alloc, READER)?;
    let is_opened = opens(alloc, &policy, OPENING)?;
    let is_confined = has_profile(alloc, &policy, "reader", LAYERS)?;
    let is_another = has_profile(alloc, &policy, "writer", &[])?;
    Ok(policy.abi().number() == 2 && is_opened && is_confined && !is_another)
}

#[test]
fn reader(rt: HostRuntime) {
    assert!(rt; is_read(rt.alloc()) == Ok(true));
}
