//! Reads files of checks.

ghost use Rattle.std.specs.Prelude.{◌≡◌, ◌==◌, ◌<◌, ◌≤◌, ℕ, [], List, length, map, not, IfErr, IfNone, IfOk, IfSome};
ghost use Rattle.std.specs.Prelude.{MatchBool, None, OnOk, bytes_eq, false, if◌then◌else◌, true};
ghost use Rattle.std.specs.BTreeSet.{contains_text};
ghost use Rattle.std.specs.List.{list_all, list_any};
ghost use Rattle.ll_wire.specs.Pieces.{pieces};
ghost use Rattle.ll_wire.specs.Reads.{Finds};
ghost use Rattle.ll_check.specs.Checks.{AreNamed, AreSections, IsFirstBad, Own, SaysNothing, SpellsAt, SpellsCall};
ghost use Rattle.ll_check.specs.Checks.{SpellsSection, SpellsTest, TakesLine, all_of, at_start, has_own, has_section};
ghost use Rattle.ll_check.specs.Checks.{has_test, is_at_head, is_blank, is_name, is_of_name, placed};
ghost use Rattle.ll_check.specs.Checks.{reading_of, tests_of, with_own, with_section, with_test};
ghost use Rattle.ll_check.specs.declared.check_text.CheckFault.{CheckFault};
ghost use Rattle.ll_check.specs.declared.check_text.Test.{Test};

use crate::lines::{ended, strip_back, strip_front};
use crate::own_policy::{OwnPolicy, PolicyWords, policy_of};
use crate::possible::can_come;
use crate::wanted::{Wanted, read_wanted};
use ll_program::{body_of, is_silent};
use ll_rights::Errno;
use ll_rights::limits::TREE_CLIENTS;
use ll_session::ClientCall;
use ll_wire::{read_command, split_line};
use std::alloc::{AllocError, Global};
use std::collections::BTreeSet;
use std::mem;
use thiserror::Error;

/// A test: its line, from 1, a call, and the expected reply.
#[derive(Drop)]
pub struct Test {
    pub line: usize,
    pub call: ClientCall,
    pub wanted: Wanted,
}

/// The tests of a section.
#[derive(Drop)]
pub struct Checks {
    pub tests: Vec<Test>,
}

/// A section of a file after it was read: the file's name, its own name (empty for what precedes the first line
/// `[NAME]`), its own policy, if it names one, and its tests.
#[derive(Drop)]
pub(crate) struct ReadFile<'w> {
    pub name: &'w str,
    pub section: Vec<u8>,
    pub own: Option<OwnPolicy>,
    pub checks: Checks,
}

impl<'w> ReadFile<'w> {
    // Returns a section without a policy and tests.
    fn new(alloc: Global, name: &'w str, section: Vec<u8>) -> ReadFile<'w>
        ensures name { result.name.now ≡ name.entry.now }
        ensures section { result.section ≡ section }
        ensures own { result.own ≡ None }
        ensures tests { result.checks.tests.items ≡ [] }
    {
        ReadFile {
            name,
            section,
            own: None,
            checks: Checks {
                tests: Vec::new(alloc),
            },
        }
    }

    /// Reports whether the section has a test.
    pub fn has_test(&self) -> bool
        ensures { result ≡ has_test (tests_of self.now) }
    {
        !self.checks.tests.is_empty()
    }

    /// Reports whether the section names a policy for itself.
    pub fn has_own(&self) -> bool
        ensures { result ≡ has_own (tests_of self.now) }
    {
        self.own.is_some()
    }

    // Reports whether nothing but the section's name has come.
    fn is_at_head(&self) -> bool
        ensures { result ≡ is_at_head (tests_of self.now) }
    {
        !self.has_test() && !self.has_own()
    }
}

/// Why a file can't be checked.
#[derive(Clone, Copy, Debug, PartialEq, Eq, Error)]
pub enum CheckFault {
    /// The first line that says nothing, counted from 1.
    #[error("bad line {0}")]
    BadLine(usize),
    #[error("no memory for the tests")]
    NoMemory,
}

// Returns the call that the text spells, of any client that a session may have.
fn call_of(alloc: Global, text: &[u8]) -> Result<Option<ClientCall>, AllocError>
    ensures { IfOk result (Finds (SpellsCall text.now)) }
{
    let line = ended(alloc, text)?;
    match read_command(alloc, line.as_slice(), TREE_CLIENTS as u64) {
        Ok((client, call)) => Ok(Some(ClientCall { client, call })),
        Err(Errno::BadLine) => Ok(None),
        Err(_) => Err(AllocError),
    }
}

// Returns the test whose command ends here, if the sign `=` follows it.
fn test_at(
    alloc: Global,
    body: &[u8],
    line: usize,
    place: usize,
) -> Result<Option<Test>, AllocError>
    requires { place ≤ length body.now }
    ensures some { IfOk result (λ found. IfSome found (λ test. SpellsTest body.now test × (test.line ≡ line))) }
    ensures none { IfOk result (λ found. IfNone found ((test : Test) → SpellsAt body.now place test → ⊥)) }
{
    let (command, rest) = body.split_at(place);
    let Some(text) = strip_front(rest, b" = ") else {
        return Ok(None);
    };
    let Some(call) = call_of(alloc, command)? else {
        return Ok(None);
    };
    match read_wanted(alloc, text)? {
        Some(wanted) => Ok(Some(Test { line, call, wanted })),
        None => {
            drop(call);
            Ok(None)
        }
    }
}

// Returns the test whose command has something after it.
fn followed_test(alloc: Global, body: &[u8], line: usize) -> Result<Option<Test>, AllocError>
    ensures some { IfOk result (λ found. IfSome found (λ test. SpellsTest body.now test × (test.line ≡ line))) }
    ensures none { IfOk result (λ found. IfNone found ((place : ℕ) (test : Test) → place < length body.now
        → SpellsAt body.now place test → ⊥)) }
{
    for place in 0..body.len() {
        let found = test_at(alloc, body, line, place)?;
        if let Some(test) = found {
            return Ok(Some(test));
        }
    }
    Ok(None)
}

// Returns the test that a line spells.
fn test_of(alloc: Global, body: &[u8], line: usize) -> Result<Option<Test>, AllocError>
    ensures some { IfOk result (λ found. IfSome found (λ test. SpellsTest body.now test × (test.line ≡ line))) }
    ensures none { IfOk result (λ found. IfNone found ((test : Test) → SpellsTest body.now test → ⊥)) }
{
    let followed = followed_test(alloc, body, line)?;
    if let Some(test) = followed {
        return Ok(Some(test));
    }
    let call = call_of(alloc, body)?;
    match call {
        Some(call) => Ok(Some(Test {
            line,
            call,
            wanted: Wanted::Success,
        })),
        None => Ok(None),
    }
}

fn is_of_name(b: u8) -> bool
    ensures { result ≡ is_of_name b }
{
    32 <= b && b <= 126 && b != b'[' && b != b']'
}

fn are_of_name(name: &[u8]) -> bool
    ensures { result ≡ list_all is_of_name name.now }
{
    name.iter().all(|b| is_of_name(*b))
}

fn is_no_space(b: u8) -> bool
    ensures { result ≡ not (b == 32) }
{
    b != b' '
}

fn has_no_space(name: &[u8]) -> bool
    ensures { result ≡ list_any (λ b. not (b == 32)) name.now }
{
    name.iter().any(|b| is_no_space(*b))
}

fn is_name(name: &[u8]) -> bool
    ensures { result ≡ is_name name.now }
{
    are_of_name(name) && has_no_space(name)
}

// Returns the name of the section that begins here, if one does.
fn section_of<'a>(body: &'a [u8]) -> Option<&'a str>
    ensures found { IfSome result (λ name. SpellsSection body.entry.now name.now) }
    ensures none { IfNone result ((name : List ℕ) → SpellsSection body.entry.now name → ⊥) }
{
    let Some(rest) = strip_front(body, b"[") else {
        return None;
    };
    let Some(name) = strip_back(rest, b"]") else {
        return None;
    };
    if !is_name(name) {
        return None;
    }
    match str::from_utf8(name) {
        Ok(name) => Some(name),
        Err(_) => unreachable!(),
    }
}

impl ReadFile<'_> {
    // Reports whether the section has no name, no policy and no test.
    fn is_blank(&self) -> bool
        ensures { result ≡ is_blank (tests_of self.now) }
    {
        self.section.is_empty() && self.is_at_head()
    }
}

// Adds a section's name.
fn add_name(names: &mut BTreeSet<String>, alloc: Global, name: &str) -> Result<(), CheckFault>
    ensures ok { OnOk result ((other : List ℕ) → contains_text names.new other
        ≡ (if bytes_eq name.now other then true else contains_text names.old other)) }
    ensures err { IfErr result (λ fault. fault ≡ CheckFault.NoMemory) }
{
    let Ok(name) = String::from_str(alloc, name) else {
        return Err(CheckFault::NoMemory);
    };
    match names.insert(name) {
        Ok(_) => Ok(()),
        Err(refused) => {
            drop(refused);
            Err(CheckFault::NoMemory)
        }
    }
}

/// The sections of the lines so far: those before the last, and the last. Also the names of all.
#[derive(Drop)]
pub(crate) struct ReadLines<'w> {
    done: Vec<ReadFile<'w>>,
    last: ReadFile<'w>,
    names: BTreeSet<String>,
}

impl<'w> ReadLines<'w> {
    // Returns what no line has given yet.
    fn at_start(alloc: Global, file: &'w str) -> ReadLines<'w>
        ensures lines { reading_of result ≡ at_start file.entry.now }
        ensures none { (name : List ℕ) → contains_text result.names name ≡ false }
    {
        let names = BTreeSet::new(alloc);
        ReadLines {
            done: Vec::new(alloc),
            last: ReadFile::new(alloc, file, Vec::new(alloc)),
            names,
        }
    }

    // Reports whether a section has this name.
    fn has_section(&self, name: &str) -> bool
        requires named { AreNamed self.now.names (reading_of self.now) }
        requires name { is_name name.now ≡ true }
        ensures { result ≡ has_section (reading_of self.now) name.now }
    {
        self.names.contains(name)
    }

    // Adds the test to the last section.
    fn add_test(&mut self, test: Test) -> Result<(), CheckFault>
        requires { AreNamed self.old.names (reading_of self.old) }
        ensures ok { OnOk result (reading_of self.new ≡ with_test (reading_of self.old) test) }
        ensures named { OnOk result (AreNamed self.new.names (reading_of self.new)) }
        ensures err { IfErr result (λ fault. fault ≡ CheckFault.NoMemory) }
    {
        if let Err(refused) = self.last.checks.tests.push(test) {
            drop(refused);
            return Err(CheckFault::NoMemory);
        }
        Ok(())
    }

    // Gives the last section the policy that the line with this number names.
    fn add_own(
        &mut self,
        alloc: Global,
        words: &PolicyWords<'_>,
        number: usize,
    ) -> Result<(), CheckFault>
        requires { AreNamed self.old.names (reading_of self.old) }
        ensures ok { OnOk result ((own : Own) × (own.line ≡ number)
            × (own.file ≡ placed (reading_of self.old).last.name words.now.file.now)
            × (own.profile ≡ words.now.profile.now) × (reading_of self.new ≡ with_own (reading_of self.old) own)) }
        ensures named { OnOk result (AreNamed self.new.names (reading_of self.new)) }
        ensures err { IfErr result (λ fault. fault ≡ CheckFault.NoMemory) }
    {
        match OwnPolicy::new(alloc, self.last.name, number, words) {
            Ok(own) => {
                self.last.own = Some(own);
                Ok(())
            }
            Err(_) => Err(CheckFault::NoMemory),
        }
    }

    // Ends the last section, and begins one with this name.
    fn add_section(&mut self, alloc: Global, name: &str) -> Result<(), CheckFault>
        ensures ok { OnOk result (reading_of self.new ≡ with_section (reading_of self.old) name.now) }
        ensures names { self.new.names ≡ self.old.names }
        ensures err { IfErr result (λ fault. fault ≡ CheckFault.NoMemory) }
    {
        let Ok(name) = Vec::from_slice(alloc, name.as_bytes()) else {
            return Err(CheckFault::NoMemory);
        };
        let next = ReadFile::new(alloc, self.last.name, name);
        let ended = mem::replace(&mut self.last, next);
        if ended.is_blank() {
            drop(ended);
            return Ok(());
        }
        if let Err(refused) = self.done.push(ended) {
            drop(refused);
            return Err(CheckFault::NoMemory);
        }
        Ok(())
    }

    // Begins a section with this name, which is one more.
    fn begin_section(&mut self, alloc: Global, name: &str) -> Result<(), CheckFault>
        requires { AreNamed self.old.names (reading_of self.old) }
        ensures ok { OnOk result (reading_of self.new ≡ with_section (reading_of self.old) name.now) }
        ensures named { OnOk result (AreNamed self.new.names (reading_of self.new)) }
        ensures err { IfErr result (λ fault. fault ≡ CheckFault.NoMemory) }
    {
        self.add_section(alloc, name)?;
        add_name(&mut self.names, alloc, name)?;
        Ok(())
    }

    // Reads the line with this number.
    fn take(&mut self, alloc: Global, line: &[u8], number: usize) -> Result<(), CheckFault>
        requires { AreNamed self.old.names (reading_of self.old) }
        ensures ok { OnOk result (TakesLine line.now number (reading_of self.old) (reading_of self.new)) }
        ensures named { OnOk result (AreNamed self.new.names (reading_of self.new)) }
        ensures bad { IfErr result (λ fault. (k : ℕ) → fault ≡ CheckFault.BadLine k
            → (k ≡ number) × SaysNothing line.now (reading_of self.old)) }
    {
        let body = body_of(line);
        if is_silent(body) {
            return Ok(());
        }
        if let Some(name) = section_of(body) {
            if self.has_section(name) {
                return Err(CheckFault::BadLine(number));
            }
            self.begin_section(alloc, name)?;
            return Ok(());
        }
        if let Some(words) = policy_of(body) {
            if !self.last.is_at_head() {
                return Err(CheckFault::BadLine(number));
            }
            self.add_own(alloc, &words, number)?;
            return Ok(());
        }
        let test = match test_of(alloc, body, number) {
            Ok(Some(test)) => test,
            Ok(None) => return Err(CheckFault::BadLine(number)),
            Err(_) => return Err(CheckFault::NoMemory),
        };
        if !can_come(&test.call.call, &test.wanted) {
            drop(test);
            return Err(CheckFault::BadLine(number));
        }
        self.add_test(test)?;
        Ok(())
    }

    // Returns all sections.
    fn into_files(self) -> Result<Vec<ReadFile<'w>>, CheckFault>
        ensures files { IfOk result (λ files. map tests_of files.items ≡ all_of (reading_of self.entry)) }
        ensures err { IfErr result (λ fault. fault ≡ CheckFault.NoMemory) }
    {
        let ReadLines {
            mut done,
            last,
            names: _,
        } = self;
        if let Err(refused) = done.push(last) {
            drop(refused);
            return Err(CheckFault::NoMemory);
        }
        Ok(done)
    }
}

/// Returns the sections that the bytes of a file with this name spell. Runs nothing. Errors: the first line that says
/// nothing, or memory ran out.
pub(crate) fn read_sections<'w>(
    alloc: Global,
    file: &'w str,
    bytes: &[u8],
) -> Result<Vec<ReadFile<'w>>, CheckFault>
    ensures sections { IfOk result (λ files. AreSections file.entry.now (pieces bytes.now) (map tests_of files.items)) }
    ensures bad { IfErr result (λ fault. (k : ℕ) → fault ≡ CheckFault.BadLine k
        → IsFirstBad file.entry.now (pieces bytes.now) k) }
{
    let mut lines = ReadLines::at_start(alloc, file);
    let mut rest = bytes;
    let mut number = 0;
    while !rest.is_empty() {
        let (line, more) = split_line(rest);
        number += 1;
        if let Err(fault) = lines.take(alloc, line, number) {
            return Err(fault);
        }
        rest = more;
    }
    lines.into_files()
}
