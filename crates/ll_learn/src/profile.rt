//! Learned profiles, and their text in the policy format.

ghost use Rattle.std.specs.Prelude.{◌≡◌, ◌++◌, ◌<◌, IfOk, OnOk, string_bytes};
ghost use Rattle.std.specs.List.{flat_map};
ghost use Rattle.ll_path.specs.Word.{IsWord};
ghost use Rattle.ll_learn.specs.Profile.{call_of, calls_of, comment, head_line, profile_text, rule_text, toml_byte};
ghost use Rattle.ll_learn.specs.Profile.{toml_string};

use crate::needs::Origin;
use crate::site::copy_of;
use ll_path::{Path, Target};
use ll_rights::Access;
use ll_seq::Call;
use ll_why::concat;
use std::alloc::{AllocError, Global};

/// A rule of a learned layer.
#[derive(Drop)]
pub struct LearnedRule {
    /// The node at the cut, and a path that leads to it there.
    pub inode: u64,
    pub path: Path,
    pub rights: Access,
    /// An entry that needs one of the rights.
    pub needed_by: Option<Origin>,
}

/// The comments on entries.
pub trait Notes {
    ghost use Rattle.std.specs.Prelude.{ℕ, List, IfOk, string_bytes, ◌≡◌};
    ghost use Rattle.ll_learn.specs.declared.needs.Origin as origins;

    ghost note: { Self → origins.Origin → List ℕ };

    /// Returns the line on the entry. Errors: memory ran out.
    fn line(&self, alloc: Global, entry: Origin) -> Result<String, AllocError>
        ensures { IfOk result (λ text. string_bytes text ≡ note self.now entry) };
}

/// A profile of one layer.
#[derive(Drop)]
pub struct LearnedProfile {
    /// Whether each layer over the same rights under which the calls pass grants at the cut all that this one grants.
    pub is_least: bool,
    pub handled: Access,
    pub rules: Vec<LearnedRule>,
    /// The inodes of the cut are below this one, those of nodes made later are not. Hints alone need it.
    pub inodes: usize,
}

fn push_byte(text: &mut String, byte: u8) -> Result<(), AllocError>
    requires { byte < 128 }
    ensures { OnOk result (string_bytes text.new ≡ string_bytes text.old ++ toml_byte byte) }
{
    if byte == b'"' || byte == b'\\' {
        text.push('\\')?;
    }
    text.push(byte as char)
}

fn toml_string(alloc: Global, told: &str) -> Result<String, AllocError>
    requires { IsWord told.now }
    ensures { IfOk result (λ text. string_bytes text ≡ toml_string told.now) }
{
    let mut text = String::from_str(alloc, "\"")?;
    for byte in told.as_bytes() {
        push_byte(&mut text, *byte)?;
    }
    text.push_str("\"")?;
    Ok(text)
}

fn head_line(is_least: bool) -> &'static str
    ensures { result.now ≡ head_line is_least }
{
    if is_least {
        "# least: at the start, each layer over these rights that lets these calls pass grants all this one grants\n"
    } else {
        "# passes, and no single right can be left out\n"
    }
}

// Returns the comment on the entry, if there is one.
fn comment<N: Notes>(alloc: Global, notes: &N, entry: Option<Origin>) -> Result<String, AllocError>
    ensures { IfOk result (λ text. string_bytes text ≡ comment (N.note notes.now) entry) }
{
    let Some(entry) = entry else {
        return Ok(String::new(alloc));
    };
    let line = notes.line(alloc, entry)?;
    concat(alloc, &["# ", line.as_str()])
}

impl LearnedRule {
    // Returns the call that adds the rule to the client's first ruleset.
    fn call(&self, alloc: Global) -> Result<Call, AllocError>
        ensures { IfOk result (λ call. call ≡ call_of self.now) }
    {
        let path = copy_of(alloc, &self.path)?;
        Ok(Call::Allow(0, Target::Good(path), self.rights))
    }

    // Returns the rule's table, in the profile with this name.
    fn text<N: Notes>(&self, alloc: Global, notes: &N, name: &str) -> Result<String, AllocError>
        ensures { IfOk result (λ text. string_bytes text ≡ rule_text (N.note notes.now) name.now self.now) }
    {
        let comment = comment(alloc, notes, self.needed_by)?;
        let path = toml_string(alloc, self.path.as_str())?;
        let rights = self.rights.text(alloc)?;
        concat(
            alloc,
            &[
                "\n",
                comment.as_str(),
                "[[profile.",
                name,
                ".layer.rule]]\npath = ",
                path.as_str(),
                "\nrights = \"",
                rights.as_str(),
                "\"\n",
            ],
        )
    }
}

// Returns the tables of these rules.
fn rules_text<N: Notes>(
    alloc: Global,
    notes: &N,
    name: &str,
    rules: &[LearnedRule],
) -> Result<String, AllocError>
    ensures { IfOk result (λ text. string_bytes text ≡ flat_map (rule_text (N.note notes.now) name.now) rules.now) }
{
    let mut text = String::new(alloc);
    for rule in rules {
        let table = rule.text(alloc, notes, name)?;
        text.push_str(table.as_str())?;
    }
    Ok(text)
}

impl LearnedProfile {
    /// Returns the calls by which a client that has created no ruleset gets this layer. Errors: memory ran out.
    pub fn calls(&self, alloc: Global) -> Result<Vec<Call>, AllocError>
        ensures { IfOk result (λ calls. calls.items ≡ calls_of self.now) }
    {
        let mut calls = Vec::with_capacity(alloc, self.rules.len())?;
        calls.push(Call::Ruleset(self.handled))?;
        for rule in &self.rules {
            calls.push(rule.call(alloc)?)?;
        }
        calls.push(Call::Confine(0))?;
        Ok(calls)
    }

    /// Returns the profile's text under this name. Errors: memory ran out.
    pub fn text<N: Notes>(&self, alloc: Global, notes: &N, name: &str) -> Result<String, AllocError>
        ensures { IfOk result (λ text. string_bytes text ≡ profile_text (N.note notes.now) name.now self.now) }
    {
        let handled = self.handled.text(alloc)?;
        let rules = rules_text(alloc, notes, name, self.rules.as_slice())?;
        let head = String::from_str(alloc, head_line(self.is_least))?;
        concat(
            alloc,
            &[
                head.as_str(),
                "[[profile.",
                name,
                ".layer]]\nhandled = \"",
                handled.as_str(),
                "\"\n",
                rules.as_str(),
            ],
        )
    }
}
