//! Landtree, the program: runs scripts of command lines on a tree in memory, audits histories, makes schedules, lists
//! rights, explains denials, and checks what a tree answers.
#![tactic(auto)]

mod checks;
mod commands;
mod given;
mod hints;
mod history_line;
mod laws;
mod lessons;
mod misfits;
mod reasons;
mod refusal;
mod rights;
mod wanted;

ghost use Rattle.std.specs.Prelude.{◌≡◌, ◌⊎◌, [], map, Some, Err, IfErr, IfNone, IfSome, OnOk};
ghost use Rattle.clap.specs.Words.{fault_of, kind_of};
ghost use Rattle.ll_program.specs.Options.{EndsWell, Order, landtree, ordered_by, ordered_in};
ghost use Rattle.ll_program.specs.Failure.{failure_by};
ghost use Rattle.landtree.specs.Ends.{Ends};

use checks::{check_options, export_options};
use commands::{audit_file, run_options, schedule_options, serve_options, why_options};
use hints::Hints;
use lessons::learn_options;
use ll_commands::{Binds, Loopback};
use ll_program::{Conclusion, Failure, Options, Sources, Standard, concluded};
use rights::rights_options;
use std::io::{IsTerminal, Write};
use std::process::ExitCode;
use std::sync::Wait;
use std::thread::Threads;
use std::{env, io};
use wanted::{are_wanted, without_wishes};

fn words_of(rt: &HostRuntime, hints: &mut Hints) -> Result<Vec<String>, Failure> {
    match env::args(rt) {
        Ok(words) => words.collect(rt.alloc()).map_err(|_| Failure::NoMemory),
        Err(error) if error.kind() == io::ErrorKind::OutOfMemory => Err(Failure::NoMemory),
        Err(_) => {
            hints.add(&"a word is no UTF-8");
            Err(Failure::CommandLine)
        }
    }
}

// Prints clap's help or version, or returns the failure that clap found.
fn told(rt: &HostRuntime, error: &clap::Error, hints: &mut Hints) -> Result<Conclusion, Failure>
    ensures failure { IfSome (failure_by (kind_of error.now)) (λ failure. result ≡ Err failure) }
    ensures text { IfNone (failure_by (kind_of error.now)) (IfErr result (λ failure. failure ≡ Failure.Output)) }
{
    match Failure::of_words(error) {
        Some(failure) => {
            hints.add(error);
            Err(failure)
        }
        None => match error.print(rt) {
            Ok(()) => Ok(Conclusion::Done),
            Err(_) => Err(Failure::Output),
        },
    }
}

// Runs the command that the words ask for.
fn carry_out<S: Sources + Threads + Wait + Sync, B: Binds, W: Write>(
    rt: &HostRuntime,
    sources: &S,
    ports: &B,
    options: &Options,
    out: &mut W,
    hints: &mut Hints,
) -> Result<Conclusion, Failure>
    ensures { Ends (S.texts sources.now) (ordered_in options.now) (W.contents out.old) (W.contents out.new) result }
{
    match options {
        Options::Run(options) => run_options(rt, sources, options, out, hints),
        Options::Schedule(options) => schedule_options(rt, sources, options, out, hints),
        Options::Rights(options) => rights_options(rt, sources, options, out, hints),
        Options::Audit(file) => audit_file(rt, sources, file, out, hints),
        Options::Check(options) => check_options(rt, sources, options, out, hints),
        Options::Serve(options) => serve_options(rt, sources, ports, options, out, hints),
        Options::Export(options) => export_options(rt, sources, options, out, hints),
        Options::Why(options) => why_options(rt, sources, options, out, hints),
        Options::Learn(options) => learn_options(rt, sources, options, out, hints),
    }
}

fn run_words<S: Sources + Threads + Wait + Sync, B: Binds, W: Write>(
    rt: &HostRuntime,
    sources: &S,
    ports: &B,
    words: &[&str],
    out: &mut W,
    hints: &mut Hints,
) -> Result<Conclusion, Failure>
    ensures ok { OnOk result (EndsWell (fault_of landtree (map (λ w. w.now) words.now))) }
    ensures mistake { (EndsWell (fault_of landtree (map (λ w. w.now) words.now)) → ⊥)
        → (result ≡ Err Failure.CommandLine) ⊎ (result ≡ Err Failure.NoMemory) }
    // If clap finds no fault.
    ensures ends { (order : Order) → fault_of landtree (map (λ w. w.now) words.now) ≡ []
        → ordered_by (map (λ w. w.now) words.now) ≡ Some order
        → Ends (S.texts sources.now) order (W.contents out.old) (W.contents out.new) result }
{
    match Options::read(rt.alloc(), words) {
        Ok(options) => carry_out(rt, sources, ports, &options, out, hints),
        Err(error) => told(rt, &error, hints),
    }
}

// Reports whether the environment asks for hints.
fn is_asked_by_environment(rt: &HostRuntime) -> bool {
    match env::var(rt, "LANDTREE_EXPLAIN") {
        Ok(value) => value.as_str() == "1",
        Err(_) => false,
    }
}

// Runs what the program's words ask for, and prints how it ended. Errors: the words can't be read, and nothing is
// printed.
fn run_program<S: Sources + Threads + Wait + Sync, B: Binds, W: Write>(
    rt: &HostRuntime,
    sources: &S,
    ports: &B,
    out: &mut W,
    hints: &mut Hints,
) -> Result<ExitCode, Failure> {
    // Until the words are known.
    hints.want(rt.stderr().is_terminal());
    let words = words_of(rt, hints)?;
    let Ok(words) = words
        .iter()
        .map(|word| word.as_str())
        .collect::<Vec<&str>>(rt.alloc())
    else {
        return Err(Failure::NoMemory);
    };
    let Ok(rest) = without_wishes(rt.alloc(), words.as_slice()) else {
        return Err(Failure::NoMemory);
    };
    let is_asked = rt.stderr().is_terminal() || is_asked_by_environment(rt);
    hints.want(are_wanted(words.as_slice(), rest.as_slice(), is_asked));
    let ended = run_words(rt, sources, ports, rest.as_slice(), out, hints);
    Ok(concluded(&ended, &mut rt.stderr()).status)
}

fn main(rt: HostRuntime) -> ExitCode {
    let Ok(_standard) = Standard::hold(&rt) else {
        return concluded(&Err(Failure::File), &mut rt.stderr()).status;
    };
    let mut hints = Hints::new(rt.alloc());
    let ports = Loopback { rt: &rt };
    let status = match run_program(&rt, &rt, &ports, &mut rt.stdout(), &mut hints) {
        Ok(status) => status,
        Err(failure) => concluded(&Err(failure), &mut rt.stderr()).status,
    };
    hints.tell(&mut rt.stderr());
    status
}
