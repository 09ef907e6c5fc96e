//! The command line that clap reads.

ghost use Rattle.std.specs.List.{AllByRecursion, fold};
ghost use Rattle.std.specs.Prelude.{◌≡◌, ◌≤◌, codes, map, IfOk, Some, false, true};
ghost use Rattle.clap.specs.Lexer.{usize_max};
ghost use Rattle.clap.specs.Words.{App, app_of, new_app, new_rule, rule_of, with_rule, with_subcommand};
ghost use Rattle.clap.specs.declared.builder.command.Command.TheViews.{out-Command as fields_of};
ghost use Rattle.clap.specs.declared.builder.value_parser.ValueParser.TheVariants.{Unsigned};
ghost use Rattle.ll_program.specs.Options.{abi, audit, check, connections, export, flag, history};
ghost use Rattle.ll_program.specs.Options.{idle, landtree, line_number, nodes, port, repeated, room};
ghost use Rattle.ll_program.specs.Options.{run, schedule, serve, valued, why, workers};

use crate::learn::learn_command;
use crate::options::LINES;
use crate::rights::rights_command;
use crate::serve::{CONNECTIONS, IDLE_SECONDS, PORTS, ROOM_MEGABYTES, WORKERS};
use clap::{Arg, ArgAction, Command, value_parser};
use ll_rights::limits::{HISTORY_ENTRIES, TREE_NODES};
use std::alloc::{AllocError, Global};

// An option with one value.
pub(crate) fn valued<'a>(
    alloc: Global,
    name: &'a str,
    value_name: &'a str,
    help: &'a str,
) -> Arg<'a>
    ensures rule { rule_of result ≡ valued name.entry.now }
    ensures local { result.global ≡ false }
{
    Arg::new(alloc, name)
        .long(name)
        .value_name(value_name)
        .help(help)
}

// An option whose value is a number from 1 to `most`.
pub(crate) fn numbered<'a>(
    alloc: Global,
    name: &'a str,
    value_name: &'a str,
    most: u64,
    help: &'a str,
) -> Arg<'a>
    requires { most ≤ 1000000000 }
    ensures rule { rule_of result ≡ record (valued name.entry.now) { parser = Some (Unsigned 1 most) } }
    ensures local { result.global ≡ false }
{
    valued(alloc, name, value_name, help).value_parser(value_parser!(u64).range(1..=most as i64))
}

// An option without a value.
pub(crate) fn flag<'a>(alloc: Global, name: &'a str, help: &'a str) -> Arg<'a>
    ensures rule { rule_of result ≡ flag name.entry.now }
    ensures local { result.global ≡ false }
{
    Arg::new(alloc, name)
        .long(name)
        .action(ArgAction::SetTrue)
        .help(help)
}

// A required positional argument.
fn demanded<'a>(alloc: Global, name: &'a str, help: &'a str) -> Arg<'a>
    ensures rule { rule_of result ≡ record (new_rule name.entry.now) { required = true } }
    ensures local { result.global ≡ false }
{
    Arg::new(alloc, name).required(true).help(help)
}

// Lets a positional argument take one value or more.
pub(crate) fn one_or_more<'a>(argument: Arg<'a>) -> Arg<'a>
    ensures rule { rule_of result ≡ record (rule_of argument.entry) {
      range = Some (record { start_inclusive = 1; end_inclusive = usize_max });
    } }
    ensures local { result.global ≡ argument.entry.global }
{
    argument.num_args(1..)
}

pub(crate) fn nodes_option<'a>(alloc: Global) -> Arg<'a>
    ensures rule { rule_of result ≡ nodes }
    ensures local { result.global ≡ false }
{
    numbered(
        alloc,
        "nodes",
        "N",
        TREE_NODES as u64,
        "How many nodes may live in the tree, the root included",
    )
    .default_value("1024")
}

fn abi_option<'a>(alloc: Global, help: &'a str) -> Arg<'a>
    ensures rule { rule_of result ≡ abi }
    ensures local { result.global ≡ false }
{
    numbered(alloc, "abi", "A", 3, help)
}

fn history_option<'a>(alloc: Global) -> Arg<'a>
    ensures rule { rule_of result ≡ history }
    ensures local { result.global ≡ false }
{
    numbered(
        alloc,
        "history",
        "H",
        HISTORY_ENTRIES as u64,
        "How many calls the tree may answer, each an entry of its history",
    )
    .default_value("10000")
}

// Asks for objects in place of text.
pub(crate) fn object_option<'a>(alloc: Global) -> Arg<'a>
    ensures rule { rule_of result ≡ valued (codes "as") }
    ensures local { result.global ≡ false }
{
    valued(
        alloc,
        "as",
        "FORM",
        "Print an object for another program on each line: json",
    )
}

pub(crate) fn policy_option<'a>(alloc: Global) -> Arg<'a>
    ensures rule { rule_of result ≡ valued (codes "policy") }
    ensures local { result.global ≡ false }
{
    valued(
        alloc,
        "policy",
        "FILE",
        "A policy's file: the nodes to create first, the level, and profiles of layers",
    )
}

pub(crate) fn profile_option<'a>(alloc: Global) -> Arg<'a>
    ensures rule { rule_of result ≡ valued (codes "profile") }
    ensures local { result.global ≡ false }
{
    valued(
        alloc,
        "profile",
        "NAME",
        "The policy's profile whose layers the first client gets",
    )
}

fn save_option<'a>(alloc: Global) -> Arg<'a>
    ensures rule { rule_of result ≡ valued (codes "save") }
    ensures local { result.global ≡ false }
{
    valued(
        alloc,
        "save",
        "FILE",
        "The file for the history, written at the end",
    )
}

// A command with this help text, with this text at its end, and these arguments.
pub(crate) fn command_of<'a>(
    alloc: Global,
    name: &'a str,
    about: &'a str,
    after: &'a str,
    arguments: Vec<Arg<'a>>,
) -> Result<Command<'a>, AllocError>
    requires { AllByRecursion (λ argument. argument.global ≡ false) arguments.items }
    ensures app { IfOk result (λ command. app_of command
        ≡ fold with_rule (new_app name.entry.now) (map rule_of arguments.entry.items)) }
    ensures local { IfOk result (λ command. (fields_of command).has_globals ≡ false) }
{
    Command::new(alloc, name)
        .about(about)
        .after_help(after)
        .args(arguments)
}

fn run_command<'a>(alloc: Global) -> Result<Command<'a>, AllocError>
    ensures app { IfOk result (λ command. app_of command ≡ run) }
    ensures local { IfOk result (λ command. (fields_of command).has_globals ≡ false) }
{
    let arguments = vec![in alloc;
        demanded(
            alloc,
            "SCRIPT",
            "The script's file, or `-` for standard input"
        ),
        nodes_option(alloc),
        abi_option(
            alloc,
            "The level of Landlock's ABI, whose rights a ruleset may handle (3; not with a policy)",
        ),
        policy_option(alloc),
        profile_option(alloc),
        history_option(alloc),
        save_option(alloc),
        flag(
            alloc,
            "strict",
            "Stop with status 3 at a bad line, a full history or no memory, or a refused layer or client",
        ),
        flag(
            alloc,
            "comments",
            "Leave out blank lines and lines that begin with #; the last line may lack its line feed",
        ),
    ]?;
    command_of(
        alloc,
        "run",
        "Runs a script: one command per line in, one reply per line out",
        "Example: landtree run job.script --policy build.toml --profile build --strict{n}\
         --explain, or a terminal, adds reasons to a fault",
        arguments,
    )
}

fn audit_command<'a>(alloc: Global) -> Result<Command<'a>, AllocError>
    ensures app { IfOk result (λ command. app_of command ≡ audit) }
    ensures local { IfOk result (λ command. (fields_of command).has_globals ≡ false) }
{
    let file = demanded(
        alloc,
        "FILE",
        "The history's file, or `-` for standard input",
    );
    let arguments = vec![in alloc; file]?;
    command_of(
        alloc,
        "audit",
        "Judges a saved history: how many entries are legal, or the first that isn't",
        "Example: landtree audit job.history{n}\
         --explain, or a terminal, adds reasons to a fault",
        arguments,
    )
}

fn line_option<'a>(alloc: Global, name: &'a str, help: &'a str) -> Arg<'a>
    ensures rule { rule_of result ≡ line_number name.entry.now }
    ensures local { result.global ≡ false }
{
    numbered(alloc, name, "K", LINES, help)
}

fn schedule_command<'a>(alloc: Global) -> Result<Command<'a>, AllocError>
    ensures app { IfOk result (λ command. app_of command ≡ schedule) }
    ensures local { IfOk result (λ command. (fields_of command).has_globals ≡ false) }
{
    let arguments = vec![in alloc;
        demanded(
            alloc,
            "FILE",
            "The schedule's file, or `-` for standard input"
        ),
        nodes_option(alloc),
        abi_option(
            alloc,
            "The level of Landlock's ABI, whose rights a ruleset may handle (3)",
        ),
        history_option(alloc),
        valued(
            alloc,
            "picture",
            "OUT",
            "The file for the schedule's picture, an SVG",
        ),
        line_option(alloc, "from", "The first line to draw (1)"),
        line_option(alloc, "to", "The last line to draw (the last)"),
        flag(
            alloc,
            "strict",
            "Stop with status 3 at a bad line, a step that isn't enabled, or a refusal without an entry",
        ),
    ]?;
    command_of(
        alloc,
        "schedule",
        "Makes steps of many clients' calls: one step per line in, one outcome per line out",
        "Example: landtree schedule race.schedule --picture race.svg{n}\
         --explain, or a terminal, adds reasons to a fault",
        arguments,
    )
}

fn check_command<'a>(alloc: Global) -> Result<Command<'a>, AllocError>
    ensures app { IfOk result (λ command. app_of command ≡ check) }
    ensures local { IfOk result (λ command. (fields_of command).has_globals ≡ false) }
{
    let files = demanded(alloc, "FILE", "Files of checks, `-` for standard input");
    let arguments = vec![in alloc;
        one_or_more(files),
        nodes_option(alloc),
        abi_option(
            alloc,
            "The level of Landlock's ABI, whose rights a ruleset may handle (3; not with a policy)",
        ),
        policy_option(alloc),
        profile_option(alloc),
        flag(alloc, "quiet", "Print only how many tests pass and fail"),
        flag(alloc, "verbose", "Print each test and its reply"),
        valued(
            alloc,
            "as",
            "FORM",
            "Print all tests for another program: tap, junit or json",
        ),
        flag(
            alloc,
            "schedule",
            "The files are schedules: one step and its expected outcome per line (not with a policy)",
        ),
    ]?;
    command_of(
        alloc,
        "check",
        "Tests a tree's replies: one command and its expected reply per line",
        "Example: landtree check build.check --policy build.toml --profile build{n}\
         --terse leaves out the reasons of a fault",
        arguments,
    )
}

fn port_option<'a>(alloc: Global) -> Arg<'a>
    ensures rule { rule_of result ≡ port }
    ensures local { result.global ≡ false }
{
    numbered(
        alloc,
        "port",
        "P",
        PORTS,
        "The port of 127.0.0.1 to listen at",
    )
    .required(true)
}

fn workers_option<'a>(alloc: Global) -> Arg<'a>
    ensures rule { rule_of result ≡ workers }
    ensures local { result.global ≡ false }
{
    numbered(
        alloc,
        "workers",
        "W",
        WORKERS as u64,
        "How many connections are served at the same time; others wait",
    )
    .default_value("4")
}

fn connections_option<'a>(alloc: Global) -> Arg<'a>
    ensures rule { rule_of result ≡ connections }
    ensures local { result.global ≡ false }
{
    numbered(
        alloc,
        "connections",
        "K",
        CONNECTIONS as u64,
        "How many connections are served in all, before the program ends",
    )
    .default_value("1")
}

fn idle_option<'a>(alloc: Global) -> Arg<'a>
    ensures rule { rule_of result ≡ idle }
    ensures local { result.global ≡ false }
{
    numbered(
        alloc,
        "idle",
        "S",
        IDLE_SECONDS,
        "Close a connection that sends nothing, or takes no reply, for S seconds (no limit)",
    )
}

fn room_option<'a>(alloc: Global) -> Arg<'a>
    ensures rule { rule_of result ≡ room }
    ensures local { result.global ≡ false }
{
    numbered(
        alloc,
        "room",
        "MB",
        ROOM_MEGABYTES,
        "How many megabytes a connection's lines and replies may take",
    )
    .default_value("64")
}

fn serve_command<'a>(alloc: Global) -> Result<Command<'a>, AllocError>
    ensures app { IfOk result (λ command. app_of command ≡ serve) }
    ensures local { IfOk result (λ command. (fields_of command).has_globals ≡ false) }
{
    let arguments = vec![in alloc;
        port_option(alloc),
        workers_option(alloc),
        connections_option(alloc),
        idle_option(alloc),
        room_option(alloc),
        flag(
            alloc,
            "log",
            "Print a line when a connection comes and when it goes"
        ),
        nodes_option(alloc),
        abi_option(
            alloc,
            "The level of Landlock's ABI, whose rights a ruleset may handle (3; not with a policy)",
        ),
        policy_option(alloc),
        profile_option(alloc),
        history_option(alloc),
        save_option(alloc),
    ]?;
    command_of(
        alloc,
        "serve",
        "Serves one tree over TCP: one command per line in, one reply per line out",
        "Example: landtree serve --port 7000 --connections 8 --policy build.toml --profile build{n}\
         --explain, or a terminal, adds reasons to a fault",
        arguments,
    )
}

// An option with a value that may be repeated.
pub(crate) fn repeated<'a>(
    alloc: Global,
    name: &'a str,
    value_name: &'a str,
    help: &'a str,
) -> Arg<'a>
    ensures rule { rule_of result ≡ repeated name.entry.now }
    ensures local { result.global ≡ false }
{
    valued(alloc, name, value_name, help).action(ArgAction::Append)
}

fn form_option<'a>(alloc: Global) -> Arg<'a>
    ensures rule { rule_of result ≡ record (valued (codes "as")) { required = true } }
    ensures local { result.global ≡ false }
{
    valued(
        alloc,
        "as",
        "FORM",
        "c, a C program that confines itself, or json",
    )
    .required(true)
}

fn export_command<'a>(alloc: Global) -> Result<Command<'a>, AllocError>
    ensures app { IfOk result (λ command. app_of command ≡ export) }
    ensures local { IfOk result (λ command. (fields_of command).has_globals ≡ false) }
{
    let arguments = vec![in alloc;
        policy_option(alloc).required(true),
        profile_option(alloc).required(true),
        form_option(alloc),
        valued(
            alloc,
            "root",
            "DIR",
            "The directory that is the policy's root, an absolute path (/)"
        ),
        repeated(
            alloc,
            "also",
            "PATH",
            "An absolute path on which each layer grants reading and executing too; may be repeated",
        ),
        flag(
            alloc,
            "follow",
            "Follow symbolic links on rules' paths: whoever may write below the root decides what is granted",
        ),
        valued(
            alloc,
            "deny",
            "LIST",
            "Deny these too: tcp, ioctl_dev, signal and abstract_unix_socket, with commas between",
        ),
        flag(
            alloc,
            "best-effort",
            "Run with what the kernel can enforce, instead of refusing to run",
        ),
        repeated(
            alloc,
            "checked",
            "FILE",
            "Write only if the profile passes this file of checks; may be repeated",
        ),
    ]?;
    command_of(
        alloc,
        "export",
        "Writes a policy's profile as a C program or as JSON",
        "Example: landtree export --policy build.toml --profile build --as c >build.c{n}\
         --terse leaves out the reasons of a fault",
        arguments,
    )
}

fn why_command<'a>(alloc: Global) -> Result<Command<'a>, AllocError>
    ensures app { IfOk result (λ command. app_of command ≡ why) }
    ensures local { IfOk result (λ command. (fields_of command).has_globals ≡ false) }
{
    let words = demanded(
        alloc,
        "WORD",
        "A history's file, or `-` for standard input, and an entry's number; or a command",
    );
    let arguments = vec![in alloc;
        one_or_more(words),
        policy_option(alloc),
        profile_option(alloc),
        nodes_option(alloc),
        object_option(alloc),
    ]?;
    command_of(
        alloc,
        "why",
        "Explains why a call was denied, or wasn't, and what would allow it",
        "Example: landtree why --policy build.toml --profile build 'open rw /src/main.c'{n}\
         --terse leaves out the reasons of a fault",
        arguments,
    )
}

// Adds a subcommand, if memory sufficed for both.
fn joined<'a>(
    command: Result<Command<'a>, AllocError>,
    subcommand: Result<Command<'a>, AllocError>,
) -> Result<Command<'a>, AllocError>
    requires { IfOk subcommand (λ s. (fields_of s).has_globals ≡ false) }
    ensures { (top added : App) → IfOk command.entry (λ c. app_of c ≡ top)
        → IfOk subcommand.entry (λ s. app_of s ≡ added)
        → IfOk result (λ r. app_of r ≡ with_subcommand top added.top) }
{
    command?.subcommand(subcommand?)
}

/// Returns the program's command line for clap. Errors: memory ran out.
pub fn landtree_command<'a>(alloc: Global) -> Result<Command<'a>, AllocError>
    ensures { IfOk result (λ command. app_of command ≡ landtree) }
{
    let top = Command::new(alloc, "landtree")
        .about("A file tree in memory whose clients confine themselves with Landlock rulesets")
        .version("0.1.0 (rattle-kit-13f)")
        .subcommand_required(true);
    let with_run = joined(Ok(top), run_command(alloc));
    let with_audit = joined(with_run, audit_command(alloc));
    let with_schedule = joined(with_audit, schedule_command(alloc));
    let with_rights = joined(with_schedule, rights_command(alloc));
    let with_check = joined(with_rights, check_command(alloc));
    let with_serve = joined(with_check, serve_command(alloc));
    let with_export = joined(with_serve, export_command(alloc));
    let with_why = joined(with_export, why_command(alloc));
    joined(with_why, learn_command(alloc))
}
