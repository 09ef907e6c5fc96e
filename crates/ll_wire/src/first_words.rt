//! First words of replies.

ghost use Rattle.std.specs.Prelude.{◌≡◌, ◌≢◌, ◌↔◌, ◌∷◌, [], IsTrue, IfOk, IfSome, IfNone, codes, map, string_bytes};
ghost use Rattle.std.specs.Prelude.{true};
ghost use Rattle.std.specs.List.{join_with_byte};
ghost use Rattle.ll_rights.specs.Errno.{errno_text};
ghost use Rattle.ll_decide.specs.Denial.{cause_errno};
ghost use Rattle.ll_wire.specs.Reads.{Finds, ReadsBy};
ghost use Rattle.ll_wire.specs.FirstWords.{Begins, BeginsBytes, BeginsDenial, BeginsNumber, BeginsRefusal};
ghost use Rattle.ll_wire.specs.FirstWords.{BeginsStatus, IsFrontOf, SpellsDenialWords, SpellsFirst, SpellsNumberWords};
ghost use Rattle.ll_wire.specs.FirstWords.{SpellsRefusalWords, SpellsShortWords, SpellsStatusWords, denial_told};
ghost use Rattle.ll_wire.specs.FirstWords.{first_tokens, holds_text, number_told, refusal_told, status_told};

use crate::bytes::data_of;
use crate::replies::{names_of, only_number, refusal_of, status_of};
use crate::token::{number_of, tokens_of};
use crate::write::{
    bytes_text, denial_text, names_text, number_text, one_arg, refusal_text, spaced_text,
    status_text,
};
use ll_decide::{Cause, Denial, Place};
use ll_path::{Data, Name};
use ll_rights::{Errno, Kind, Right};
use ll_seq::{Listing, Reply, Status};
use std::alloc::{AllocError, Global};

/// The first words of a reply, or all of them: its name, and what follows it up to some word.
#[derive(Drop)]
pub enum FirstWords {
    Done,
    Opened(Option<u64>),
    Bytes(Option<Data>),
    Wrote(Option<u64>),
    /// The first names.
    Listed(Listing),
    Found(StatusWords),
    Created(Option<u64>),
    Spawned(Option<u64>),
    Refused(RefusalWords),
    Denied(DenialWords),
}

/// What is given of a status.
#[derive(Clone, Copy)]
pub enum StatusWords {
    Nothing,
    Inode(u64),
    Kind(u64, Kind),
    Size(u64, Kind, u64),
    Whole(Status),
}

/// What is given of a refusal.
#[derive(Clone, Copy)]
pub enum RefusalWords {
    Nothing,
    Number(u64),
    Whole(Errno),
}

/// What is given of a denial.
#[derive(Clone, Copy)]
pub enum DenialWords {
    Nothing,
    Cause(Cause),
    /// The cause, and the word `layer`.
    Layer(Cause),
    Number(Cause, u64),
    Right(Cause, u64, Right),
    Whole(Denial),
}

fn number_words(args: &[&str]) -> Option<Option<u64>>
    ensures { Finds (SpellsNumberWords (map (λ t. t.now) args.now)) result }
{
    if args.is_empty() {
        return Some(None);
    }
    only_number(args).map(Some)
}

fn status_words(args: &[&str]) -> Option<StatusWords>
    ensures { Finds (SpellsStatusWords (map (λ t. t.now) args.now)) result }
{
    match args {
        [] => Some(StatusWords::Nothing),
        [inode] => Some(StatusWords::Inode(number_of(inode)?)),
        [inode, kind] => Some(StatusWords::Kind(number_of(inode)?, Kind::parse(kind)?)),
        [inode, kind, size] => Some(StatusWords::Size(
            number_of(inode)?,
            Kind::parse(kind)?,
            number_of(size)?,
        )),
        args => Some(StatusWords::Whole(status_of(args)?)),
    }
}

fn refusal_words(args: &[&str]) -> Option<RefusalWords>
    ensures { Finds (SpellsRefusalWords (map (λ t. t.now) args.now)) result }
{
    match args {
        [] => Some(RefusalWords::Nothing),
        [number] => {
            let number = number_of(number)?;
            if number < 3 || number > 23 {
                return None;
            }
            Some(RefusalWords::Number(number))
        }
        args => Some(RefusalWords::Whole(refusal_of(args)?)),
    }
}

// Parses what follows the word `layer` in a denial with this cause.
fn layer_words(cause: Cause, args: &[&str]) -> Option<DenialWords>
    ensures { Finds (SpellsDenialWords (errno_text (cause_errno cause) ∷ codes "layer" ∷ map (λ t. t.now) args.now))
        result }
{
    match args {
        [] => Some(DenialWords::Layer(cause)),
        [layer] => Some(DenialWords::Number(cause, number_of(layer)?)),
        [layer, right] => {
            let layer = number_of(layer)?;
            let right = Right::parse(right)?;
            Some(DenialWords::Right(cause, layer, right))
        }
        [layer, right, place] => Some(DenialWords::Whole(Denial {
            cause,
            layer: number_of(layer)?,
            right: Right::parse(right)?,
            place: Place::parse(place)?,
        })),
        _ => None,
    }
}

fn denial_words(args: &[&str]) -> Option<DenialWords>
    ensures { Finds (SpellsDenialWords (map (λ t. t.now) args.now)) result }
{
    match args {
        [] => Some(DenialWords::Nothing),
        [cause] => Some(DenialWords::Cause(Cause::parse(cause)?)),
        [cause, "layer", rest @ ..] => layer_words(Cause::parse(cause)?, rest),
        _ => None,
    }
}

fn only_name(args: &[&str], words: FirstWords) -> Option<FirstWords>
    ensures found { IfSome result (λ it. (it ≡ words) × (map (λ t. t.now) args.now ≡ [])) }
    ensures none { IfNone result (map (λ t. t.now) args.now ≢ []) }
{
    if args.is_empty() {
        return Some(words);
    }
    drop(words);
    None
}

// Parses words that take no memory.
fn short_words(tokens: &[&str]) -> Option<FirstWords>
    ensures { Finds (SpellsShortWords (map (λ t. t.now) tokens.now)) result }
{
    let [name, args @ ..] = tokens else {
        return None;
    };
    match *name {
        "ok" => only_name(args, FirstWords::Done),
        "fd" => number_words(args).map(FirstWords::Opened),
        "data" => only_name(args, FirstWords::Bytes(None)),
        "wrote" => number_words(args).map(FirstWords::Wrote),
        "stat" => status_words(args).map(FirstWords::Found),
        "ruleset" => number_words(args).map(FirstWords::Created),
        "client" => number_words(args).map(FirstWords::Spawned),
        "refused" => refusal_words(args).map(FirstWords::Refused),
        "denied" => denial_words(args).map(FirstWords::Denied),
        _ => None,
    }
}

fn words_of(alloc: Global, body: &str) -> Result<FirstWords, Errno>
    ensures { ReadsBy (SpellsFirst body.now) (λ words. holds_text words ≡ true) result }
{
    if let Some(names) = body.strip_prefix("names") {
        return names_of(alloc, names).map(FirstWords::Listed);
    }
    if let Some(bytes) = body.strip_prefix("data ") {
        return data_of(alloc, bytes).map(|bytes| FirstWords::Bytes(Some(bytes)));
    }
    let mut tokens = [""; 6];
    let Some(count) = tokens_of(body, &mut tokens) else {
        return Err(Errno::BadLine);
    };
    match short_words(&tokens[..count]) {
        Some(words) => Ok(words),
        None => Err(Errno::BadLine),
    }
}

/// Parses the first words of a reply, or all of them. Errors: BadLine if no reply begins with this text; NoMemory if
/// one does and memory ran out for its names or bytes.
pub fn read_first_words(alloc: Global, text: &[u8]) -> Result<FirstWords, Errno>
    ensures { ReadsBy (SpellsFirst text.now) (λ words. holds_text words ≡ true) result }
{
    match str::from_utf8(text) {
        Ok(body) => words_of(alloc, body),
        Err(_) => Err(Errno::BadLine),
    }
}

fn number_words_text(alloc: Global, name: &str, number: Option<u64>) -> Result<String, AllocError>
    ensures { IfOk result (λ text. string_bytes text ≡ join_with_byte 32 (name.now ∷ (number_told number).1)) }
{
    match number {
        Some(number) => number_text(alloc, name, number),
        None => String::from_str(alloc, name),
    }
}

fn status_words_text(alloc: Global, words: StatusWords) -> Result<String, AllocError>
    ensures { IfOk result (λ text. string_bytes text ≡ join_with_byte 32 (codes "stat" ∷ (status_told words).1)) }
{
    match words {
        StatusWords::Nothing => String::from_str(alloc, "stat"),
        StatusWords::Inode(inode) => number_text(alloc, "stat", inode),
        StatusWords::Kind(inode, kind) => {
            let inode = inode.to_string(alloc)?;
            spaced_text(alloc, "stat", &[inode.as_str(), kind.text()])
        }
        StatusWords::Size(inode, kind, size) => {
            let inode = inode.to_string(alloc)?;
            let size = size.to_string(alloc)?;
            spaced_text(alloc, "stat", &[inode.as_str(), kind.text(), size.as_str()])
        }
        StatusWords::Whole(status) => status_text(alloc, &status),
    }
}

fn refusal_words_text(alloc: Global, words: RefusalWords) -> Result<String, AllocError>
    ensures { IfOk result (λ text. string_bytes text ≡ join_with_byte 32 (codes "refused" ∷ (refusal_told words).1)) }
{
    match words {
        RefusalWords::Nothing => String::from_str(alloc, "refused"),
        RefusalWords::Number(number) => number_text(alloc, "refused", number),
        RefusalWords::Whole(errno) => refusal_text(alloc, errno),
    }
}

fn denial_words_text(alloc: Global, words: DenialWords) -> Result<String, AllocError>
    ensures { IfOk result (λ text. string_bytes text ≡ join_with_byte 32 (codes "denied" ∷ (denial_told words).1)) }
{
    match words {
        DenialWords::Nothing => String::from_str(alloc, "denied"),
        DenialWords::Cause(cause) => one_arg(alloc, "denied", cause.errno().text()),
        DenialWords::Layer(cause) => {
            spaced_text(alloc, "denied", &[cause.errno().text(), "layer"])
        }
        DenialWords::Number(cause, layer) => {
            let layer = layer.to_string(alloc)?;
            spaced_text(
                alloc,
                "denied",
                &[cause.errno().text(), "layer", layer.as_str()],
            )
        }
        DenialWords::Right(cause, layer, right) => {
            let layer = layer.to_string(alloc)?;
            let cause = cause.errno().text();
            spaced_text(
                alloc,
                "denied",
                &[cause, "layer", layer.as_str(), right.text()],
            )
        }
        DenialWords::Whole(denial) => denial_text(alloc, &denial),
    }
}

/// Returns the text of the words, with a space between any two. Errors: memory ran out.
pub fn first_words_text(alloc: Global, words: &FirstWords) -> Result<String, AllocError>
    ensures { IfOk result (λ text. string_bytes text ≡ join_with_byte 32 (first_tokens words.now)) }
{
    match words {
        FirstWords::Done => String::from_str(alloc, "ok"),
        FirstWords::Opened(number) => number_words_text(alloc, "fd", *number),
        FirstWords::Bytes(None) => String::from_str(alloc, "data"),
        FirstWords::Bytes(Some(bytes)) => bytes_text(alloc, bytes),
        FirstWords::Wrote(count) => number_words_text(alloc, "wrote", *count),
        FirstWords::Listed(listing) => names_text(alloc, listing.names()),
        FirstWords::Found(words) => status_words_text(alloc, *words),
        FirstWords::Created(number) => number_words_text(alloc, "ruleset", *number),
        FirstWords::Spawned(number) => number_words_text(alloc, "client", *number),
        FirstWords::Refused(words) => refusal_words_text(alloc, *words),
        FirstWords::Denied(words) => denial_words_text(alloc, *words),
    }
}

fn begins_number(given: Option<u64>, number: u64) -> bool
    ensures { IsTrue result ↔ BeginsNumber given number }
{
    match given {
        Some(given) => number == given,
        None => true,
    }
}

fn begins_bytes(given: &Option<Data>, bytes: &Data) -> bool
    ensures { IsTrue result ↔ BeginsBytes given.now bytes.now }
{
    match given {
        Some(given) => bytes.as_slice() == given.as_slice(),
        None => true,
    }
}

// Whether the names begin with these.
fn is_front(front: &[Name], names: &[Name]) -> bool
    ensures { IsTrue result ↔ IsFrontOf front.now names.now }
{
    if front.len() > names.len() {
        return false;
    }
    for (i, name) in front.iter().enumerate() {
        if name.as_str() != names[i].as_str() {
            return false;
        }
    }
    true
}

impl StatusWords {
    fn begin(self, status: Status) -> bool
        ensures { IsTrue result ↔ BeginsStatus self status }
    {
        match self {
            StatusWords::Nothing => true,
            StatusWords::Inode(inode) => status.inode == inode,
            StatusWords::Kind(inode, kind) => status.inode == inode && status.kind == kind,
            StatusWords::Size(inode, kind, size) => {
                status.inode == inode && status.kind == kind && status.size == size
            }
            StatusWords::Whole(given) => status == given,
        }
    }
}

impl RefusalWords {
    fn begin(self, errno: Errno) -> bool
        ensures { IsTrue result ↔ BeginsRefusal self errno }
    {
        match self {
            RefusalWords::Nothing => errno.number() <= 20,
            RefusalWords::Number(number) => errno.number() == number,
            RefusalWords::Whole(given) => errno == given,
        }
    }
}

impl DenialWords {
    fn begin(self, denial: Denial) -> bool
        ensures { IsTrue result ↔ BeginsDenial self denial }
    {
        match self {
            DenialWords::Nothing => true,
            DenialWords::Cause(cause) | DenialWords::Layer(cause) => denial.cause == cause,
            DenialWords::Number(cause, layer) => denial.cause == cause && denial.layer == layer,
            DenialWords::Right(cause, layer, right) => {
                denial.cause == cause && denial.layer == layer && denial.right == right
            }
            DenialWords::Whole(given) => denial == given,
        }
    }
}

impl FirstWords {
    /// Whether the reply begins with these words.
    pub fn begin(&self, reply: &Reply) -> bool
        ensures { IsTrue result ↔ Begins self.now reply.now }
    {
        match (self, reply) {
            (FirstWords::Done, Reply::Done) => true,
            (FirstWords::Opened(number), Reply::Opened(got)) => begins_number(*number, *got),
            (FirstWords::Bytes(bytes), Reply::Bytes(got)) => begins_bytes(bytes, got),
            (FirstWords::Wrote(count), Reply::Wrote(got)) => begins_number(*count, *got),
            (FirstWords::Listed(names), Reply::Listed(got)) => is_front(names.names(), got.names()),
            (FirstWords::Found(words), Reply::Found(got)) => words.begin(*got),
            (FirstWords::Created(number), Reply::Created(got)) => begins_number(*number, *got),
            (FirstWords::Spawned(number), Reply::Spawned(got)) => begins_number(*number, *got),
            (FirstWords::Refused(words), Reply::Refused(got)) => words.begin(*got),
            (FirstWords::Denied(words), Reply::Denied(got)) => words.begin(*got),
            _ => false,
        }
    }
}
