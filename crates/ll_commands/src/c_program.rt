//! Writes layers as a C program that enforces them.

ghost use Rattle.std.specs.Prelude.{◌≡◌, ◌++◌, map, unwrap_or, IfOk, OnOk, string_bytes};
ghost use Rattle.std.specs.List.{flat_map};
ghost use Rattle.ll_program.specs.Options.{exported_in, nothing_denied};
ghost use Rattle.ll_commands.specs.CProgram.{c_byte, c_denied, c_flag, c_layer, c_option, c_options, c_path, c_place};
ghost use Rattle.ll_commands.specs.CProgram.{c_row, c_rows, c_rule, c_string, c_text, c_type, c_values, is_plain};
ghost use Rattle.ll_commands.specs.CProgram.{root_of};

use crate::confinement::{Confinement, kind_at};
use crate::fixed::{HEAD, HELPERS, RESTRICT_SELF, TAIL};
use ll_policy::{Layer, Rule};
use ll_program::{Denied, ExportOptions};
use ll_rights::{Access, Kind};
use ll_seq::Call;
use ll_why::concat;
use std::alloc::{AllocError, Global};

fn is_plain(byte: u8) -> bool
    ensures { result ≡ is_plain byte }
{
    (byte >= 32 && byte <= 126) && (byte != b'"' && (byte != b'?' && byte != b'\\'))
}

fn push_byte(text: &mut String, byte: u8) -> Result<(), AllocError>
    ensures { OnOk result (string_bytes text.new ≡ string_bytes text.old ++ c_byte byte) }
{
    if is_plain(byte) {
        return text.push(byte as char);
    }
    text.push('\\')?;
    text.push((48 + byte / 64) as char)?;
    text.push((48 + byte / 8 % 8) as char)?;
    text.push((48 + byte % 8) as char)
}

fn c_string(alloc: Global, told: &str) -> Result<String, AllocError>
    ensures { IfOk result (λ text. string_bytes text ≡ c_string told.now) }
{
    let mut text = String::from_str(alloc, "\"")?;
    for byte in told.as_bytes() {
        push_byte(&mut text, *byte)?;
    }
    text.push_str("\"")?;
    Ok(text)
}

// The constant of inode(7) for a kind. No file has the type 0.
fn c_type(kind: Option<Kind>) -> &'static str
    ensures { result.now ≡ c_type kind }
{
    match kind {
        Some(Kind::Reg) => "S_IFREG",
        Some(Kind::Dir) => "S_IFDIR",
        Some(Kind::Sym) => "S_IFLNK",
        Some(Kind::Fifo) => "S_IFIFO",
        Some(Kind::Sock) => "S_IFSOCK",
        Some(Kind::Char) => "S_IFCHR",
        Some(Kind::Block) => "S_IFBLK",
        None => "0",
    }
}

fn c_row(alloc: Global, start: &str, path: &str, rights: Access) -> Result<String, AllocError>
    ensures { IfOk result (λ text. string_bytes text ≡ c_row start.now path.now rights.0) }
{
    let path = c_string(alloc, path)?;
    let names = rights.text(alloc)?;
    concat(
        alloc,
        &[
            "    {",
            start,
            ", ",
            path.as_str(),
            ", \"",
            names.as_str(),
            "\"},\n",
        ],
    )
}

fn c_rule(alloc: Global, opening: &[Call], rule: &Rule) -> Result<String, AllocError>
    ensures { IfOk result (λ text. string_bytes text ≡ c_rule opening.now rule.now) }
{
    let kind = kind_at(opening, &rule.path);
    let start = concat(alloc, &["RULE, ", c_type(kind)])?;
    c_row(alloc, start.as_str(), rule.path.as_str(), rule.rights)
}

fn c_rules(alloc: Global, opening: &[Call], rules: &[Rule]) -> Result<String, AllocError>
    ensures { IfOk result (λ text. string_bytes text ≡ flat_map (c_rule opening.now) rules.now) }
{
    let mut text = String::new(alloc);
    for rule in rules {
        let row = c_rule(alloc, opening, rule)?;
        text.push_str(row.as_str())?;
    }
    Ok(text)
}

fn c_layer(alloc: Global, opening: &[Call], layer: &Layer) -> Result<String, AllocError>
    ensures { IfOk result (λ text. string_bytes text ≡ c_layer opening.now layer.now) }
{
    let mut text = c_row(alloc, "LAYER, 0", "", layer.handled)?;
    let rules = c_rules(alloc, opening, layer.rules.as_slice())?;
    text.push_str(rules.as_str())?;
    Ok(text)
}

fn c_layers(alloc: Global, opening: &[Call], layers: &[Layer]) -> Result<String, AllocError>
    ensures { IfOk result (λ text. string_bytes text ≡ flat_map (c_layer opening.now) layers.now) }
{
    let mut text = String::new(alloc);
    for layer in layers {
        let rows = c_layer(alloc, opening, layer)?;
        text.push_str(rows.as_str())?;
    }
    Ok(text)
}

// A line of an array of paths.
fn c_path(alloc: Global, path: &str) -> Result<String, AllocError>
    ensures { IfOk result (λ text. string_bytes text ≡ c_path path.now) }
{
    let told = c_string(alloc, path)?;
    concat(alloc, &["    ", told.as_str(), ",\n"])
}

fn c_paths(alloc: Global, paths: &[&str]) -> Result<String, AllocError>
    ensures { IfOk result (λ text. string_bytes text ≡ flat_map c_path (map (λ t. t.now) paths.now)) }
{
    let mut text = String::new(alloc);
    for path in paths {
        let line = c_path(alloc, path)?;
        text.push_str(line.as_str())?;
    }
    Ok(text)
}

fn c_flag(is_set: bool) -> &'static str
    ensures { result.now ≡ c_flag is_set }
{
    if is_set { "1" } else { "0" }
}

fn c_option(alloc: Global, name: &'static str, is_set: bool) -> Result<String, AllocError>
    ensures { IfOk result (λ text. string_bytes text ≡ c_option name.now is_set) }
{
    let flag = c_flag(is_set);
    concat(alloc, &["    ", name, " = ", flag, ",\n"])
}

fn c_denied(alloc: Global, denied: Denied) -> Result<String, AllocError>
    ensures { IfOk result (λ text. string_bytes text ≡ c_denied denied) }
{
    let tcp = c_option(alloc, "DENY_TCP", denied.tcp)?;
    let ioctl_dev = c_option(alloc, "DENY_IOCTL_DEV", denied.ioctl_dev)?;
    let signal = c_option(alloc, "DENY_SIGNAL", denied.signal)?;
    let socket = c_option(
        alloc,
        "DENY_ABSTRACT_UNIX_SOCKET",
        denied.abstract_unix_socket,
    )?;
    concat(
        alloc,
        &[
            tcp.as_str(),
            ioctl_dev.as_str(),
            signal.as_str(),
            socket.as_str(),
        ],
    )
}

fn c_options(alloc: Global, options: &ExportOptions) -> Result<String, AllocError>
    ensures { IfOk result (λ text. string_bytes text ≡ c_options (exported_in options.now)) }
{
    let follow = c_option(alloc, "FOLLOW", options.follow)?;
    let best_effort = c_option(alloc, "BEST_EFFORT", options.best_effort)?;
    let denied = c_denied(alloc, options.deny.unwrap_or(Denied::NOTHING))?;
    concat(
        alloc,
        &[follow.as_str(), best_effort.as_str(), denied.as_str()],
    )
}

/// Returns the directory that is the policy's root.
pub(crate) fn root_of<'a>(options: &ExportOptions<'a>) -> &'a str
    ensures { result.now ≡ root_of (exported_in options.now) }
{
    options.root.unwrap_or("/")
}

// The values that depend on the options.
#[tactic(auto, unfolding(crate::specs::CProgram::c_values))]
fn c_values(alloc: Global, root: &str, also: &str, options: &str) -> Result<String, AllocError>
    ensures { IfOk result (λ text. string_bytes text ≡ c_values root.now also.now options.now) }
{
    concat(
        alloc,
        &[
            "/* The directory that stands for the policy's root. */\nstatic const char root[] = ",
            root,
            ";\n\n/* Not the profile's: on these paths each layer grants reading and executing too. */\n",
            "static const char *const also[] = {\n",
            also,
            "    NULL,\n};\n\n/* The options. */\nenum {\n",
            options,
            "};\n\n",
        ],
    )
}

fn c_place(alloc: Global, options: &ExportOptions) -> Result<String, AllocError>
    ensures { IfOk result (λ text. string_bytes text ≡ c_place (exported_in options.now)) }
{
    let root = c_string(alloc, root_of(options))?;
    let also = c_paths(alloc, options.also.as_slice())?;
    let flags = c_options(alloc, options)?;
    c_values(alloc, root.as_str(), also.as_str(), flags.as_str())
}

#[tactic(auto, unfolding(crate::specs::CProgram::c_rows))]
fn c_rows(alloc: Global, rows: &str) -> Result<String, AllocError>
    ensures { IfOk result (λ text. string_bytes text ≡ c_rows rows.now) }
{
    concat(
        alloc,
        &[
            "/* The profile's layers, oldest first. */\nstatic const struct row rows[] = {\n",
            rows,
            "    {END, 0, \"\", \"\"},\n};\n\n",
        ],
    )
}

/// Returns the C program that enforces the layers, the oldest first. Errors: memory ran out.
pub fn c_text(
    alloc: Global,
    options: &ExportOptions,
    confinement: &Confinement,
) -> Result<String, AllocError>
    ensures { IfOk result (λ text. string_bytes text ≡ c_text (exported_in options.now) confinement.now) }
{
    let told = c_place(alloc, options)?;
    let rows = c_layers(alloc, confinement.opening, confinement.layers)?;
    let table = c_rows(alloc, rows.as_str())?;
    concat(
        alloc,
        &[
            HEAD,
            told.as_str(),
            table.as_str(),
            HELPERS,
            RESTRICT_SELF,
            TAIL,
        ],
    )
}
