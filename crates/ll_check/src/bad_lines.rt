//! What is wrong with a line that is neither silent nor a test. No contract says what is printed: it helps whoever
//! wrote it.

use crate::own_policy::policy_of;
use crate::vain_replies::vain_text;
use crate::wanted::{read_wanted, verdict_of};
use ll_policy::rights_meant;
use ll_program::body_of;
use ll_rights::limits::WORD_BYTES;
use ll_rights::{Access, Errno, Kind, Right};
use ll_wire::{LINE_LIMIT, read_first_words, split_line};
use std::alloc::{AllocError, Global};
use std::io::Write;

/// What is expected in place of words that are like no right's name.
const ALL_RIGHTS: &str =
    "rights are expected, of execute,write_file,read_file,read_dir,remove_dir,remove_file,\
    make_char,make_dir,make_reg,make_sock,make_fifo,make_block,make_sym,refer,truncate in this order";

/// What is expected after the client of a schedule's step.
const VERBS: &str =
    "begin, fd, step or do with a call is expected, or descend, fork, commit or restart";

/// What some editors write before the first line.
const BYTE_ORDER_MARK: &[u8] = b"\xef\xbb\xbf";

/// The kind of text that a line is in, which decides what it may say.
#[derive(Clone, Copy, Debug, PartialEq, Eq)]
pub enum LinesOf {
    /// A script: each line is a command, of any client that has come.
    Script,
    /// A script with comments.
    Commented,
    /// A file of checks, which also has comments, and replies after the sign `=`.
    Checks,
    /// A schedule: each line is a step.
    Schedule,
    /// A word of the command line: one command of the only client, without a line feed.
    Word,
}

impl LinesOf {
    fn command_text(self, column: usize) -> &'static str {
        match self {
            LinesOf::Checks | LinesOf::Commented if column == 1 => {
                "a command is expected, or a comment"
            }
            LinesOf::Schedule if column == 1 => "a step is expected: connect, or a client as @1",
            _ => "a command is expected",
        }
    }

    fn client_text(self) -> &'static str {
        match self {
            LinesOf::Word => "a command is expected, without a client in front",
            LinesOf::Script | LinesOf::Commented | LinesOf::Checks => {
                "a client is expected: @2 to @64"
            }
            LinesOf::Schedule => "a client is expected: @1 to @64",
        }
    }

    fn end_text(self) -> &'static str {
        match self {
            LinesOf::Script | LinesOf::Commented | LinesOf::Schedule => {
                "the line's end is expected"
            }
            LinesOf::Checks => "the line's end is expected, or = and a reply",
            LinesOf::Word => "the command's end is expected",
        }
    }

    // Reports whether such a line may name a client.
    fn names_client(self, token: &str) -> bool {
        match self {
            LinesOf::Script | LinesOf::Commented | LinesOf::Checks => is_client(token, 2),
            LinesOf::Schedule => is_client(token, 1),
            LinesOf::Word => false,
        }
    }

    // Reports whether a reply may follow a command.
    fn has_replies(self) -> bool {
        matches!(self, LinesOf::Checks)
    }
}

/// Where in a line something else was expected, in bytes from 1; what; and the word that was probably meant, if that is
/// clear.
#[derive(Drop)]
pub struct Blame {
    pub column: usize,
    pub expected: &'static str,
    pub meant: Option<String>,
}

impl Blame {
    fn new(column: usize, expected: &'static str) -> Blame {
        Blame {
            column,
            expected,
            meant: None,
        }
    }

    /// Prints what is expected in this line, from 1, of a file.
    pub(crate) fn tell<E: Write>(&self, file: &str, line: usize, err: &mut E) {
        let (column, expected) = (self.column, self.expected);
        let _ = match &self.meant {
            Some(meant) => writeln!(err, "{file}:{line}:{column}: {expected}: write {meant}"),
            None => writeln!(err, "{file}:{line}:{column}: {expected}"),
        };
    }
}

/// The kinds of arguments of commands.
#[derive(Clone, Copy)]
enum Argument {
    Kind,
    Mode,
    Number,
    Bytes,
    Rights,
    Path,
}

// Returns the number of arguments of a command with this name, if there is one.
fn count_of(name: &str) -> Option<usize> {
    match name {
        "spawn" => Some(0),
        "close" | "list" | "stat" | "exec" | "unlink" | "rmdir" | "ruleset" | "confine" => Some(1),
        "make" | "open" | "ftruncate" | "truncate" => Some(2),
        "rename" | "rename_noreplace" | "exchange" | "link" => Some(2),
        "read" | "write" | "allow" => Some(3),
        _ => None,
    }
}

fn argument_of(name: &str, place: usize) -> Argument {
    match (name, place) {
        ("make", 0) => Argument::Kind,
        ("open", 0) => Argument::Mode,
        ("write", 2) => Argument::Bytes,
        ("ruleset", _) | ("allow", 2) => Argument::Rights,
        ("read" | "write" | "ftruncate" | "close" | "confine", _) => Argument::Number,
        ("truncate", 1) | ("allow", 0) => Argument::Number,
        _ => Argument::Path,
    }
}

impl Argument {
    // Returns what is expected in place of this token.
    fn text_for(self, token: &str) -> &'static str {
        match self {
            Argument::Path if is_printed(token) => "a word of at most 8000 bytes is expected",
            _ => self.text(),
        }
    }

    fn text(self) -> &'static str {
        match self {
            Argument::Kind => "a kind is expected: reg, dir, sym, fifo, sock, char or block",
            Argument::Mode => "a mode is expected: r, w or rw, then t, then c or cx",
            Argument::Number => "a number is expected, without zeros in front",
            Argument::Bytes => "bytes are expected: two digits of 0-9a-f each, at most 4096, or -",
            Argument::Rights => "rights are expected, each once, rising, parted by commas",
            Argument::Path => "a path is expected, of printed ASCII characters",
        }
    }

    fn is_spelled(self, token: &str) -> bool {
        match self {
            Argument::Kind => Kind::parse(token).is_some(),
            Argument::Mode => is_mode(token),
            Argument::Number => is_number(token),
            Argument::Bytes => are_bytes(token),
            Argument::Rights => Access::parse(token).is_some(),
            Argument::Path => is_word(token),
        }
    }
}

fn is_mode(token: &str) -> bool {
    let letters = match token.as_bytes() {
        [b'r', b'w', letters @ ..] => letters,
        [b'r' | b'w', letters @ ..] => letters,
        _ => return false,
    };
    matches!(letters, [] | b"t" | b"c" | b"tc" | b"cx" | b"tcx")
}

fn is_number(token: &str) -> bool {
    match token.as_bytes() {
        [] => false,
        [b'0'] => true,
        [b'1'..=b'9', ..] => token.parse::<u64>().is_ok(),
        _ => false,
    }
}

fn are_bytes(token: &str) -> bool {
    if token == "-" {
        return true;
    }
    if token.is_empty() || token.len() % 2 != 0 || token.len() > 8192 {
        return false;
    }
    token
        .as_bytes()
        .iter()
        .all(|b| matches!(*b, b'0'..=b'9' | b'a'..=b'f'))
}

fn is_printed(token: &str) -> bool {
    !token.is_empty() && token.as_bytes().iter().all(|b| matches!(*b, b'!'..=b'~'))
}

fn is_word(token: &str) -> bool {
    token.len() <= WORD_BYTES && is_printed(token)
}

// Reports whether the token names a client, the least of which has this number.
fn is_client(token: &str, least: u64) -> bool {
    match token.strip_prefix('@') {
        Some(number) if is_number(number) => match number.parse::<u64>() {
            Ok(number) => least <= number && number <= 64,
            Err(_) => false,
        },
        _ => false,
    }
}

// Returns the column of the first of these names that no right has, if one has none.
fn strange_column(column: usize, token: &str) -> Option<usize> {
    let mut column = column;
    for name in token.split(',') {
        if Right::parse(name).is_none() {
            return Some(column);
        }
        column = column.saturating_add(name.len()).saturating_add(1);
    }
    None
}

// Blames a word that isn't a set of rights.
fn blame_rights(alloc: Global, column: usize, token: &str) -> Result<Blame, AllocError> {
    let column = strange_column(column, token).unwrap_or(column);
    let mut blame = Blame::new(column, Argument::Rights.text());
    match rights_meant(alloc, token)? {
        Some(meant) => blame.meant = Some(meant.text(alloc)?),
        None => blame.expected = ALL_RIGHTS,
    }
    Ok(blame)
}

// Blames a word that isn't the argument expected here.
fn blame_argument(
    alloc: Global,
    column: usize,
    argument: Argument,
    token: &str,
) -> Result<Blame, AllocError> {
    match argument {
        Argument::Rights => blame_rights(alloc, column, token),
        _ => Ok(Blame::new(column, argument.text_for(token))),
    }
}

/// A place between two words of a line.
#[derive(Clone, Copy)]
enum Stage<'a> {
    /// After nothing but a client's name.
    Start,
    /// After the client of a schedule's step.
    Verb,
    /// After a step that has no call.
    End,
    /// After this many arguments of this command.
    Arguments(&'a str, usize),
    /// After a command with this name and the sign `=`.
    Reply(&'a str),
}

// Returns the place after a step's verb.
fn after_verb<'a>(verb: &str) -> Option<Stage<'a>> {
    match verb {
        "begin" | "fd" | "step" | "do" => Some(Stage::Start),
        "descend" | "fork" | "commit" | "restart" => Some(Stage::End),
        _ => None,
    }
}

// Returns the place after a valid word, or the blame.
fn step<'a>(
    alloc: Global,
    of: LinesOf,
    stage: Stage<'a>,
    column: usize,
    token: &'a str,
) -> Result<Result<Stage<'a>, Blame>, AllocError> {
    match stage {
        Stage::Start if column == 1 && token.starts_with('@') => {
            if !of.names_client(token) {
                return Ok(Err(Blame::new(column, of.client_text())));
            }
            match of {
                LinesOf::Schedule => Ok(Ok(Stage::Verb)),
                LinesOf::Script | LinesOf::Commented | LinesOf::Checks | LinesOf::Word => {
                    Ok(Ok(Stage::Start))
                }
            }
        }
        Stage::Start if column == 1 && of == LinesOf::Schedule => match token {
            "connect" => Ok(Ok(Stage::End)),
            _ => Ok(Err(Blame::new(column, of.command_text(column)))),
        },
        Stage::Verb => match after_verb(token) {
            Some(next) => Ok(Ok(next)),
            None => Ok(Err(Blame::new(column, VERBS))),
        },
        Stage::End => Ok(Err(Blame::new(column, of.end_text()))),
        Stage::Start => match count_of(token) {
            Some(_) => Ok(Ok(Stage::Arguments(token, 0))),
            None => Ok(Err(Blame::new(column, of.command_text(column)))),
        },
        Stage::Arguments(name, place) if Some(place) == count_of(name) => {
            if token == "=" && of.has_replies() {
                return Ok(Ok(Stage::Reply(name)));
            }
            Ok(Err(Blame::new(column, of.end_text())))
        }
        Stage::Arguments(name, place) => {
            let argument = argument_of(name, place);
            if argument.is_spelled(token) {
                return Ok(Ok(Stage::Arguments(name, place.saturating_add(1))));
            }
            Ok(Err(blame_argument(alloc, column, argument, token)?))
        }
        Stage::Reply(name) => Ok(Ok(Stage::Reply(name))),
    }
}

// Blames a reply that can't come, if the text spells one.
fn blame_vain(
    alloc: Global,
    column: usize,
    name: &str,
    reply: &str,
) -> Result<Option<Blame>, AllocError> {
    match read_wanted(alloc, reply.as_bytes())? {
        Some(wanted) => Ok(Some(Blame::new(column, vain_text(name, &wanted)))),
        None => Ok(None),
    }
}

// Reports whether a reply begins like this, or a verdict of the layers does.
fn is_begun(alloc: Global, words: &[u8]) -> Result<bool, AllocError> {
    if verdict_of(words).is_some() {
        return Ok(true);
    }
    match read_first_words(alloc, words) {
        Ok(_) => Ok(true),
        Err(Errno::BadLine) => Ok(false),
        Err(_) => Err(AllocError),
    }
}

// Blames the first word that no reply has here, or a reply that a command with this name can't get.
fn blame_reply(alloc: Global, column: usize, name: &str, reply: &str) -> Result<Blame, AllocError> {
    if let Some(blame) = blame_vain(alloc, column, name, reply)? {
        return Ok(blame);
    }
    let mut end = 0;
    for word in reply.split(' ') {
        let start = end;
        end = word.len().saturating_add(end);
        if let Some(words) = reply.as_bytes().get(..end)
            && !is_begun(alloc, words)?
        {
            let column = column.saturating_add(start);
            return Ok(Blame::new(column, "a reply is expected that the tree could give"));
        }
        end = end.saturating_add(1);
    }
    let column = column.saturating_add(reply.len());
    Ok(Blame::new(
        column,
        "the rest of the reply is expected, or .. behind a space",
    ))
}

// Returns what is wrong with a line that spells this command, which ends at this column, with its line feed or without.
fn blame_whole(of: LinesOf, command: &str, column: usize, is_ended: bool) -> Option<Blame> {
    match of {
        LinesOf::Script | LinesOf::Schedule if !is_ended => {
            Some(Blame::new(column, "a line feed is expected"))
        }
        LinesOf::Script | LinesOf::Commented if command.starts_with('@') => {
            Some(Blame::new(1, "a client that was spawned is expected"))
        }
        LinesOf::Schedule if command.starts_with('@') => {
            Some(Blame::new(1, "a client that has come is expected"))
        }
        LinesOf::Word if is_ended => Some(Blame::new(column, of.end_text())),
        LinesOf::Script
        | LinesOf::Commented
        | LinesOf::Checks
        | LinesOf::Schedule
        | LinesOf::Word => None,
    }
}

// Returns what is expected after the last word of a line's text.
fn blame_end(
    of: LinesOf,
    stage: Stage<'_>,
    text: &str,
    column: usize,
    is_ended: bool,
) -> Option<Blame> {
    match stage {
        Stage::Start => Some(Blame::new(column, of.command_text(column))),
        Stage::Verb => Some(Blame::new(column, VERBS)),
        Stage::End => blame_whole(of, text, column, is_ended),
        Stage::Arguments(name, place) if Some(place) == count_of(name) => {
            blame_whole(of, text, column, is_ended)
        }
        Stage::Arguments(name, place) => Some(Blame::new(column, argument_of(name, place).text())),
        Stage::Reply(_) => Some(Blame::new(column, "a reply is expected")),
    }
}

fn explain_text(
    alloc: Global,
    of: LinesOf,
    text: &str,
    is_ended: bool,
) -> Result<Option<Blame>, AllocError> {
    let mut stage = Stage::Start;
    let mut place: usize = 0;
    for token in text.split(' ') {
        let column = place.saturating_add(1);
        if let Stage::Reply(name) = stage {
            return match text.get(place..) {
                Some(reply) => Ok(Some(blame_reply(alloc, column, name, reply)?)),
                None => Ok(Some(Blame::new(column, "a reply is expected"))),
            };
        }
        match step(alloc, of, stage, column, token)? {
            Ok(next) => stage = next,
            Err(blame) => return Ok(Some(blame)),
        }
        place = place.saturating_add(token.len()).saturating_add(1);
    }
    Ok(blame_end(of, stage, text, place, is_ended))
}

// Blames a line of a file of checks that begins as a section's name does, if it does.
fn blame_section(body: &[u8]) -> Option<Blame> {
    let name = body.strip_prefix(b"[".as_slice())?;
    let Some(end) = name.iter().position(|b| *b == b']') else {
        return Some(Blame::new(body.len().saturating_add(1), "a section's name ends with ]"));
    };
    if end.saturating_add(1) < name.len() {
        return Some(Blame::new(end.saturating_add(3), "the line's end is expected behind ]"));
    }
    match str::from_utf8(name) {
        Ok(text) if is_section_name(text) => {
            Some(Blame::new(1, "another name is expected: a section above has this one"))
        }
        _ => Some(Blame::new(
            2,
            "a section's name is expected, of printed ASCII without brackets",
        )),
    }
}

// Blames a line of a file of checks that begins as one that names a policy, if it does.
fn blame_policy(body: &[u8]) -> Option<Blame> {
    let words = body.strip_prefix(b"@policy".as_slice())?;
    if policy_of(body).is_some() {
        return Some(Blame::new(1, "a section names its own policy once, before its tests"));
    }
    if !matches!(words.first(), None | Some(b' ')) {
        return None;
    }
    if str::from_utf8(words).is_err() {
        return Some(Blame::new(8, "UTF-8 is expected"));
    }
    Some(Blame::new(
        body.len().saturating_add(1),
        "a policy's file and a profile are expected",
    ))
}

// Reports whether this is a section's name, with the bracket behind it.
fn is_section_name(text: &str) -> bool {
    let name = text.trim_end_matches(']');
    let is_printed = name
        .as_bytes()
        .iter()
        .all(|b| matches!(*b, b' '..=b'~') && *b != b'[');
    is_printed && name.as_bytes().iter().any(|b| *b != b' ')
}

/// Returns the line with this number, from 1.
pub(crate) fn line_at(text: &[u8], number: usize) -> &[u8] {
    let mut rest = text;
    let mut left = number;
    while !rest.is_empty() {
        let (line, more) = split_line(rest);
        if left <= 1 {
            return line;
        }
        left -= 1;
        rest = more;
    }
    &[]
}

// Reports whether the text is longer than any command. (In a file of checks a reply may follow it.)
fn is_too_long(of: LinesOf, body: &[u8]) -> bool {
    body.len() >= LINE_LIMIT && !of.has_replies()
}

/// Blames what an editor has added to the line with this number.
pub(crate) fn blame_editor(body: &[u8], number: usize) -> Option<Blame> {
    if number == 1 && body.starts_with(BYTE_ORDER_MARK) {
        return Some(Blame::new(1, "a file without a byte order mark is expected"));
    }
    if body.ends_with(b"\r") {
        return Some(Blame::new(
            body.len(),
            "a line feed is expected, without a carriage return before it",
        ));
    }
    None
}

/// Returns what is wrong with a text's line with this number, from 1, that is neither silent nor a command or test.
/// None if nothing is found, or there is no such line.
pub fn explain(
    alloc: Global,
    of: LinesOf,
    text: &[u8],
    number: usize,
) -> Result<Option<Blame>, AllocError> {
    let line = line_at(text, number);
    if line.is_empty() && of != LinesOf::Word {
        return Ok(None);
    }
    let body = body_of(line);
    if is_too_long(of, body) {
        return Ok(Some(Blame::new(LINE_LIMIT, "a line of at most 16384 bytes is expected")));
    }
    if let Some(blame) = blame_editor(body, number) {
        return Ok(Some(blame));
    }
    if of == LinesOf::Checks
        && let Some(blame) = blame_section(body)
    {
        return Ok(Some(blame));
    }
    if of == LinesOf::Checks
        && let Some(blame) = blame_policy(body)
    {
        return Ok(Some(blame));
    }
    match str::from_utf8(body) {
        Ok(words) => explain_text(alloc, of, words, body.len() < line.len()),
        Err(_) => Ok(Some(Blame::new(1, "printed ASCII characters are expected"))),
    }
}
