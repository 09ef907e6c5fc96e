//! The lines after a fault line.

ghost use Rattle.std.specs.Prelude.{◌≡◌, IfOk, option_map, string_bytes};
ghost use Rattle.std.specs.List.{All};
ghost use Rattle.landtree.specs.Told.{IsTold};

use crate::given::Given;
use crate::history_line::{line_at, line_trouble};
use crate::misfits::Misfit;
use crate::refusal::refused_text;
use ll_audit::{Saved, Verdict};
use ll_check::{Blame, DeniedTest, FaultyPolicy, LinesOf, Notes, ended, explain};
use ll_commands::{ProfileNotes, escape_of, flaw_of};
use ll_policy::{PlacedFault, Policy, policy_faults, read_document, toml_trouble};
use ll_program::{Failure, Form, Late, NewFile, Sources, body_of, is_silent};
use ll_rights::Errno;
use ll_session::Refusal;
use ll_why::{WhyStyle, explain_entry, why_not};
use ll_wire::{Header, escaped, read_command, read_schedule_line, shown, split_line, write_whole};
use std::alloc::{AllocError, Global};
use std::fmt::Display;
use std::io::Write;
use std::net::{Ipv4Addr, TcpListener};

/// The most failed tests whose denials are explained. For each, the entries before it are made again.
const DENIALS: usize = 20;

/// The most faults of a policy, and the most bad lines, that are explained.
const FAULTS: usize = 20;

// Reports whether a line may bring a client.
fn is_coming(line: &[u8]) -> bool {
    line.ends_with(b"spawn\n") || line == b"connect\n".as_slice()
}

// Reports whether the line spells no step, if at most so many clients have come.
fn is_no_step(alloc: Global, line: &[u8], come: u64) -> bool {
    match read_schedule_line(alloc, line, come) {
        Ok(step) => {
            drop(step);
            false
        }
        Err(errno) => errno == Errno::BadLine,
    }
}

// Reports whether the line spells no command, if at most so many clients have come, apart from a script's first.
fn is_no_command(alloc: Global, line: &[u8], come: u64) -> bool {
    match read_command(alloc, line, come.saturating_add(1)) {
        Ok(command) => {
            drop(command);
            false
        }
        Err(errno) => errno == Errno::BadLine,
    }
}

// Reports whether the line of a script with comments is neither silent nor a command. Its line feed may be missing.
fn is_bad_spoken(alloc: Global, line: &[u8], come: u64) -> bool {
    let body = body_of(line);
    if is_silent(body) {
        return false;
    }
    match ended(alloc, body) {
        Ok(line) => is_no_command(alloc, line.as_slice(), come),
        Err(_) => false,
    }
}

// Reports whether the line spells no command, or no step, if at most so many clients have come.
fn is_bad(alloc: Global, of: LinesOf, line: &[u8], come: u64) -> bool {
    match of {
        LinesOf::Schedule => is_no_step(alloc, line, come),
        LinesOf::Commented => is_bad_spoken(alloc, line, come),
        LinesOf::Script | LinesOf::Checks | LinesOf::Word => is_no_command(alloc, line, come),
    }
}

// Returns the numbers, from 1, of the first lines that spell nothing, whoever has come. The rest is left out if memory
// runs out.
fn bad_lines(alloc: Global, of: LinesOf, text: &[u8]) -> Vec<usize> {
    let mut found = Vec::new(alloc);
    let mut rest = text;
    let mut number: usize = 0;
    let mut come: u64 = 0;
    while !rest.is_empty() && found.len() < FAULTS {
        let (line, more) = split_line(rest);
        number = number.saturating_add(1);
        if is_bad(alloc, of, line, come) && found.push(number).is_err() {
            return found;
        }
        if is_coming(line) {
            come = come.saturating_add(1);
        }
        rest = more;
    }
    found
}

// Returns a line of hints, indented by two spaces, safe for a terminal.
fn line_of(alloc: Global, line: &[u8]) -> Result<String, AllocError>
    ensures { IfOk result (λ text. All IsTold (string_bytes text)) }
{
    let escaped = escaped(alloc, line)?;
    let mut text = String::from_str(alloc, "  ")?;
    text.push_str(escaped.as_str())?;
    text.push_str("\n")?;
    Ok(text)
}

// Appends this line.
fn push_line(alloc: Global, text: &mut String, line: &[u8]) -> Result<(), AllocError>
    requires { All IsTold (string_bytes text.old) }
    ensures { All IsTold (string_bytes text.new) }
{
    let line = line_of(alloc, line)?;
    text.push_str(line.as_str())
}

// Returns which profiles a policy has.
fn names_text(alloc: Global, names: &[&str]) -> Result<String, AllocError> {
    if names.is_empty() {
        return String::from_str(alloc, "it has none");
    }
    let mut text = String::from_str(alloc, "it has")?;
    let mut parting = " ";
    for name in names {
        text.push_str(parting)?;
        text.push_str(name)?;
        parting = ", ";
    }
    Ok(text)
}

// Returns the policy with this text, if it has no fault and there is memory for it.
fn policy_of(alloc: Global, text: &[u8]) -> Option<Policy> {
    let text = str::from_utf8(text).ok()?;
    Policy::from_text(alloc, text).ok()
}

/// The lines after the fault line, each indented by two spaces. If memory runs out for a line, it is left out. No
/// contract says what they say: they help whoever typed the command. A terminal gets only printable ASCII and line
/// feeds.
#[derive(Drop)]
pub struct Hints {
    alloc: Global,
    is_wanted: bool,
    text: String,
    /// How many denied tests were explained.
    denials: usize,
    /// The profile at which the tables of all have ended.
    profile: Option<String>,
    ghost only_told: { All IsTold (string_bytes text) },
}

impl Hints {
    /// Returns no hints.
    pub fn new(alloc: Global) -> Hints {
        Hints {
            alloc,
            is_wanted: false,
            text: String::new(alloc),
            denials: 0,
            profile: None,
        }
    }

    /// Sets whether hints are wanted.
    pub fn want(&mut self, is_wanted: bool) {
        self.is_wanted = is_wanted;
    }

    /// Reports whether hints are wanted. What takes long to find is looked for only then.
    pub fn are_wanted(&self) -> bool {
        self.is_wanted
    }

    /// Returns what reads the file with this name, or standard input. It keeps what is read if hints are wanted.
    pub fn source<'a, S: Sources>(
        &self,
        alloc: Global,
        sources: &'a S,
        file: Option<&'a str>,
    ) -> Late<'a, S>
        ensures text { result.text ≡ S.texts sources.now (option_map (λ name. name.now) file.entry) }
        ensures left { result.left ≡ S.texts sources.now (option_map (λ name. name.now) file.entry) }
    {
        Late::keeping(alloc, sources, file, self.is_wanted)
    }

    // Reports whether hints are wanted, and there is none yet.
    fn are_missing(&self) -> bool {
        self.is_wanted && self.text.is_empty()
    }

    // Appends these lines.
    fn push(&mut self, told: &str) -> Result<(), AllocError> {
        for line in told.lines() {
            if !line.is_empty() {
                push_line(self.alloc, &mut self.text, line.as_bytes())?;
            }
        }
        Ok(())
    }

    // Appends these lines, and only the two ends of a long one.
    fn push_shown(&mut self, told: &str) -> Result<(), AllocError> {
        for line in told.lines() {
            let line = shown(self.alloc, line.as_bytes())?;
            self.push(line.as_str())?;
        }
        Ok(())
    }

    // Appends these lines, the first after this name.
    fn push_named(&mut self, name: &str, told: &str) -> Result<(), AllocError> {
        let (first, rest) = told.split_once('\n').unwrap_or((told, ""));
        let first = shown(self.alloc, first.as_bytes())?;
        let named = format!(in self.alloc; "{name}: {first}")?;
        self.push(named.as_str())?;
        self.push_shown(rest)
    }

    /// Adds what this displays, line by line.
    pub fn add<T: Display>(&mut self, told: &T) {
        if let Ok(told) = format!(in self.alloc; "{told}") {
            let _ = self.push_shown(told.as_str());
        }
    }

    /// Adds that these words don't go together.
    pub fn of_misfit(&mut self, misfit: Option<Misfit<'_>>) {
        if let Some(misfit) = misfit {
            self.add(&misfit);
        }
    }

    /// Adds which file couldn't be read, what for, and why.
    pub fn of_input<S: Sources>(&mut self, what: &str, input: &Late<'_, S>) {
        let Some(error) = input.trouble() else {
            return;
        };
        let told = match input.name() {
            Some(name) => format!(in self.alloc; "cannot read the {what} {name}: {error}"),
            None => format!(in self.alloc; "cannot read the {what} from standard input: {error}"),
        };
        if let Ok(told) = told {
            let _ = self.push(told.as_str());
        }
    }

    /// Adds which file couldn't be written, what for, and why; and where its record stays.
    pub fn of_output(&mut self, output: &NewFile<'_>) {
        if let Some(path) = output.record_path()
            && let Ok(told) = format!(in self.alloc; "what was answered stays in {path}")
        {
            let _ = self.push(told.as_str());
        }
        let Some(error) = output.trouble() else {
            return;
        };
        let (what, name) = (output.what(), output.name());
        if let Ok(told) = format!(in self.alloc; "cannot write the {what} {name}: {error}") {
            let _ = self.push(told.as_str());
        }
    }

    // Appends what is wrong at a fault of the policy with this name and text, and perhaps what to write. Keys and
    // values may have line feeds.
    fn push_fault(
        &mut self,
        name: &str,
        text: &str,
        fault: &PlacedFault<'_>,
    ) -> Result<(), AllocError> {
        let told = fault.text(self.alloc)?;
        let told = shown(self.alloc, told.as_bytes())?;
        let told = match fault.line(text) {
            Some(line) => format!(in self.alloc; "{name}:{line}: {told}")?,
            None => format!(in self.alloc; "{name}: {told}")?,
        };
        self.push(told.as_str())?;
        match fault.advice(self.alloc)? {
            Some(advice) => {
                let advice = shown(self.alloc, advice.as_bytes())?;
                self.push(advice.as_str())
            }
            None => Ok(()),
        }
    }

    // Adds the same, as long as there is memory.
    fn of_fault(&mut self, name: &str, text: &str, fault: &PlacedFault<'_>) {
        let _ = self.push_fault(name, text, fault);
    }

    // Adds all faults of a policy, in their order, and what would be right there; of many only the first.
    fn of_policy(&mut self, given: &Given<'_>) {
        let Ok(text) = str::from_utf8(given.text) else {
            let _ = self.push_named(given.name, "the bytes are no UTF-8");
            return;
        };
        let Ok(table) = read_document(self.alloc, text) else {
            if let Ok(Some(told)) = toml_trouble(self.alloc, text) {
                let _ = self.push_named(given.name, told.as_str());
            }
            return;
        };
        let Ok(faults) = policy_faults(self.alloc, &table) else {
            return;
        };
        for fault in faults.iter().take(FAULTS) {
            self.of_fault(given.name, text, fault);
        }
        if faults.len() > FAULTS {
            let more = faults.len() - FAULTS;
            if let Ok(told) = format!(in self.alloc; "and {more} more") {
                let _ = self.push(told.as_str());
            }
        }
    }

    // Adds that the policy doesn't have the profile asked for, if so, and which it has.
    fn of_profile(&mut self, given: &Given<'_>) {
        if let Some(profile) = given.profile
            && let Some(policy) = policy_of(self.alloc, given.text)
            && policy.layers(profile).is_none()
        {
            let name = given.name;
            if let Ok(told) = format!(in self.alloc; "the policy {name} has no profile {profile}") {
                let _ = self.push(told.as_str());
            }
            if let Ok(names) = policy.names(self.alloc)
                && let Ok(told) = names_text(self.alloc, &names)
            {
                let _ = self.push_shown(told.as_str());
            }
        }
    }

    // Adds which call of this policy is refused, and its reply: one that creates a node, or one of this profile.
    fn of_refused_call(&mut self, refusal: &Refusal, given: &Given<'_>, profile: Option<&str>) {
        if self.are_missing()
            && let Some(policy) = policy_of(self.alloc, given.text)
            && let Ok(refused) = refused_text(self.alloc, &policy, profile, refusal)
        {
            let _ = self.push_named(given.name, refused.as_str());
        }
    }

    /// Adds which call of this policy is refused, and its reply: one that creates a node, or one of its profile.
    pub fn of_refusal(&mut self, refusal: &Refusal, given: &Given<'_>) {
        self.of_refused_call(refusal, given, given.profile);
    }

    /// Adds why a command failed, if this policy is the reason.
    pub fn of_failure(&mut self, failure: &Failure, given: &Given<'_>) {
        if !self.are_missing() {
            return;
        }
        match failure {
            Failure::Policy(_) => self.of_policy(given),
            Failure::CommandLine => self.of_profile(given),
            Failure::Opening(refusal) => self.of_refusal(refusal, given),
            Failure::File | Failure::Output | Failure::Socket | Failure::NoMemory => {}
        }
    }

    /// Adds that the policy has no profile, if so.
    pub fn of_no_profile(&mut self, given: &Given<'_>) {
        if self.is_wanted
            && let Some(policy) = policy_of(self.alloc, given.text)
            && let Ok(names) = policy.names(self.alloc)
            && names.is_empty()
        {
            let name = given.name;
            if let Ok(told) = format!(in self.alloc; "the policy {name} has no profile") {
                let _ = self.push(told.as_str());
            }
        }
    }

    /// Adds why a command for all profiles failed, if this policy is the reason: it has a fault, or a call is refused.
    pub fn of_all_profiles(&mut self, failure: &Failure, given: &Given<'_>) {
        let profile = self.profile.take();
        if let Failure::Opening(refusal) = failure
            && let Some(name) = &profile
        {
            self.of_refused_call(refusal, given, Some(name.as_str()));
            return;
        }
        self.of_failure(failure, given);
    }

    /// Adds which layer of the profile can't be exported in this form, and why, if any.
    pub fn of_flaw(&mut self, form: Option<Form>, given: &Given<'_>) {
        if self.are_missing()
            && let Some(profile) = given.profile
            && let Ok(text) = str::from_utf8(given.text)
        {
            if let Some(flawed) = flaw_of(self.alloc, text, profile) {
                self.add(&flawed);
            } else if form == Some(Form::C)
                && let Some(escaped) = escape_of(self.alloc, text, profile)
            {
                self.add(&escaped);
            }
        }
    }

    // Adds the line with this number, from 1, of the file's text.
    fn of_line(&mut self, name: &str, text: &[u8], number: usize) {
        if let Ok(line) = shown(self.alloc, line_at(text, number))
            && let Ok(told) = format!(in self.alloc; "{name}:{number}: {line}")
        {
            let _ = self.push(told.as_str());
        }
    }

    // Adds the malformed line with this number of a history, and what is wrong with it.
    fn of_malformed(&mut self, name: &str, text: &[u8], number: usize) {
        self.of_line(name, text, number);
        self.add(&line_trouble(text, number));
    }

    // Adds where in the line with this number something else was expected, and what.
    fn of_blame(&mut self, name: &str, number: usize, blame: Blame) {
        let Blame {
            column,
            expected,
            meant,
        } = blame;
        let told = match meant {
            Some(meant) => {
                format!(in self.alloc; "{name}:{number}:{column}: {expected}: write {meant}")
            }
            None => format!(in self.alloc; "{name}:{number}:{column}: {expected}"),
        };
        if let Ok(told) = told {
            let _ = self.push(told.as_str());
        }
    }

    // Adds where in this line, which spells no command, something else was expected, and what.
    fn of_command(&mut self, of: LinesOf, name: &str, text: &[u8], number: usize) {
        if let Ok(Some(blame)) = explain(self.alloc, of, text, number) {
            self.of_blame(name, number, blame);
        }
    }

    /// Adds where in the word with this number, from 1, if it spells no command, something else was expected, and what.
    pub fn of_word(&mut self, command: &str, number: usize) {
        let Ok(line) = format!(in self.alloc; "{command}\n") else {
            return;
        };
        if is_no_command(self.alloc, line.as_bytes(), 0)
            && let Ok(Some(blame)) = explain(self.alloc, LinesOf::Word, command.as_bytes(), 1)
        {
            self.of_blame("COMMAND", number, blame);
        }
    }

    /// Adds that this line of a file of checks names a policy, which the checks of an export don't take.
    pub fn of_policy_line(&mut self, file: &str, number: usize) {
        if let Ok(told) = format!(in self.alloc;
            "{file}:{number}:1: an export is checked under its own profile alone"
        ) {
            let _ = self.push(told.as_str());
        }
    }

    /// Adds where in this line of a script, which spells no command, something else was expected, and what.
    pub fn of_bad_line(&mut self, of: LinesOf, script: &str, text: &[u8], number: u64) {
        if self.are_missing() {
            self.of_command(of, script, text, number as usize);
        }
    }

    /// Adds where in this line of a schedule, which spells no step, something else was expected, and what.
    pub fn of_bad_step(&mut self, file: &str, text: &[u8], number: u64) {
        if self.is_wanted {
            self.of_command(LinesOf::Schedule, file, text, number as usize);
        }
    }

    /// Adds what was expected in the lines of a script, or of a schedule, that spell nothing, whoever has come; of many
    /// only the first.
    pub fn of_bad_lines(&mut self, of: LinesOf, name: &str, text: &[u8]) {
        if !self.is_wanted {
            return;
        }
        let lines = bad_lines(self.alloc, of, text);
        for number in &lines {
            self.of_command(of, name, text, *number);
        }
    }

    // Adds why a history's entry with this number isn't legal, and how to ask for the rest.
    fn of_entry(&mut self, name: &str, text: &[u8], entry: usize) {
        if let Ok(saved) = Saved::read(self.alloc, text)
            && let Ok(Some(line)) = why_not(
                self.alloc,
                &saved.header,
                saved.entries.as_slice(),
                entry,
            )
        {
            let _ = self.push_shown(line.as_str());
        }
        if let Ok(told) = format!(in self.alloc; "`landtree why {name} {entry}` tells more") {
            let _ = self.push(told.as_str());
        }
    }

    /// Adds why a history isn't legal, after such a verdict: the malformed line, or the illegal entry.
    pub fn of_verdict(&mut self, name: &str, text: &[u8], verdict: Verdict) {
        if !self.are_missing() {
            return;
        }
        match verdict {
            Verdict::Legal(_) => {}
            Verdict::Illegal(entry) => {
                // The header comes before the entries.
                self.of_line(name, text, entry.saturating_add(1));
                self.of_entry(name, text, entry);
            }
            Verdict::BadLine(line) => self.of_malformed(name, text, line),
        }
    }

    /// Adds that a history has no entry with this number.
    pub fn of_missing_entry(&mut self, name: &str, entry: u64) {
        if let Ok(told) = format!(in self.alloc; "the history {name} has no entry {entry}") {
            let _ = self.push(told.as_str());
        }
    }

    /// Adds that no stream can come to this port of this machine, and why: the system is asked once more.
    pub fn of_port(&mut self, rt: &HostRuntime, port: u16) {
        let told = match TcpListener::bind(rt, (Ipv4Addr::LOCALHOST, port)) {
            Ok(_) => format!(in self.alloc; "cannot listen at port {port} of 127.0.0.1"),
            Err(error) => {
                format!(in self.alloc; "cannot listen at port {port} of 127.0.0.1: {error}")
            }
        };
        if let Ok(told) = told {
            let _ = self.push(told.as_str());
        }
    }

    /// Writes the hints, if they are wanted.
    pub fn tell<W: Write>(&self, err: &mut W) {
        if self.is_wanted {
            let _ = write_whole(err, self.text.as_str());
        }
    }
}

impl Notes for Hints {
    fn are_wanted(&self) -> bool {
        self.is_wanted && self.denials < DENIALS
    }

    // Adds where the test is, and why its call is denied.
    fn of_denied(&mut self, header: &Header, test: &DeniedTest<'_>) {
        if !self.is_wanted || self.denials >= DENIALS {
            return;
        }
        self.denials = self.denials.saturating_add(1);
        let Ok(file) = str::from_utf8(test.file) else {
            return;
        };
        let line = test.line;
        let command = test.command;
        if let Ok(Some(text)) = explain_entry(
            self.alloc,
            WhyStyle::Lines,
            header,
            test.entries,
            test.number,
        )
            && let Ok(place) = format!(in self.alloc; "{file}:{line}")
            && let Ok(told) = format!(in self.alloc; "{command}\n{text}")
        {
            let _ = self.push_named(place.as_str(), told.as_str());
        }
    }

    fn of_own_policy(&mut self, policy: &FaultyPolicy<'_>, failure: &Failure) {
        self.of_failure(failure, &Given::of_own(policy));
    }
}

impl ProfileNotes for Hints {
    fn of_profile(&mut self, profile: &str) {
        if self.is_wanted {
            self.profile = String::from_str(self.alloc, profile).ok();
        }
    }
}
