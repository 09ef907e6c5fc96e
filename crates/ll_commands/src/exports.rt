//! Exports a policy's profile in the form that the options ask for.

ghost use Rattle.std.specs.Prelude.{◌≡◌, ◌≢◌, ◌⊎◌, ℕ, true, false, List, Err, IfOk, IfErr, IfSome, IsOk, OnOk};
ghost use Rattle.std.specs.Prelude.{string_bytes};
ghost use Rattle.std.specs.Io.KnownBytes.{Keeps};
ghost use Rattle.ll_wire.specs.Transcript.{Writes};
ghost use Rattle.ll_program.specs.Options.{exported_in};
ghost use Rattle.ll_program.specs.Failure.{EndsExport, IsOfExport};
ghost use Rattle.ll_program.specs.declared.checked.Checked as checks;
ghost use Rattle.ll_wire.specs.WriterGains.{AppendsFront};
ghost use Rattle.ll_commands.specs.Export.{IsExport, MayFail, ended_by, export_text, may_export};

use crate::c_program::c_text;
use crate::confinement::{Confinement, FlawedProfile};
use crate::escape::{EscapedRule, are_escaped, first_escaped};
use crate::json::json_text;
use ll_policy::Policy;
use ll_program::{
    Checked, Conclusion, ExportOptions, Failure, Form, policy_of, read_text, write_text,
};
use std::alloc::{AllocError, Global};
use std::io::{Read, Write};

// The layers in this form.
fn text_of(
    alloc: Global,
    options: &ExportOptions,
    form: Form,
    confinement: &Confinement,
) -> Result<String, AllocError>
    ensures { IfOk result (λ text. string_bytes text
        ≡ export_text (exported_in options.now) form confinement.now) }
{
    match form {
        Form::C => c_text(alloc, options, confinement),
        Form::Json => json_text(alloc, options, confinement),
    }
}

// Reports whether the layers may be exported as the options ask.
fn may_export(alloc: Global, options: &ExportOptions, confinement: &Confinement) -> bool
    ensures { result ≡ may_export (exported_in options.now) confinement.now }
{
    confinement.flaw(alloc).is_none() && !are_escaped(options.form, confinement.layers)
}

// The layers in this form, if they may be exported.
fn checked_text(
    alloc: Global,
    options: &ExportOptions,
    form: Form,
    confinement: &Confinement,
) -> Result<String, Failure>
    ensures text { IfOk result (λ text. string_bytes text
        ≡ export_text (exported_in options.now) form confinement.now) }
    ensures sound { OnOk result (may_export (exported_in options.now) confinement.now ≡ true) }
    ensures failure { IfErr result (λ failure. (failure ≡ Failure.NoMemory)
        ⊎ ((failure ≡ Failure.CommandLine) × (may_export (exported_in options.now) confinement.now ≡ false))) }
{
    if !may_export(alloc, options, confinement) {
        return Err(Failure::CommandLine);
    }
    match text_of(alloc, options, form, confinement) {
        Ok(text) => Ok(text),
        Err(_) => Err(Failure::NoMemory),
    }
}

/// Returns the text that the options ask for, given the policy file's bytes.
pub fn exported<R: Read>(
    alloc: Global,
    options: &ExportOptions,
    file: &mut R,
) -> Result<String, Failure>
    ensures export { IfOk result (λ written. (text : List ℕ) × IfSome (R.remaining file.old) (λ told. text ≡ told)
        × IsExport (exported_in options.now) text (string_bytes written)) }
    ensures failure { IfErr result (λ failure. (text : List ℕ) × IfSome (R.remaining file.old) (λ told. text ≡ told)
        × MayFail (exported_in options.now) text failure) }
    ensures output { IfErr result (λ failure. failure ≢ Failure.Output) }
{
    let Some(form) = options.form else {
        return Err(Failure::CommandLine);
    };
    if !options.fit() {
        return Err(Failure::CommandLine);
    }
    let text = read_text(alloc, file)?;
    let policy = policy_of(alloc, text.as_slice())?;
    let Some(layers) = policy.layers(options.profile) else {
        return Err(Failure::CommandLine);
    };
    let Ok(opening) = policy.opening(alloc) else {
        return Err(Failure::NoMemory);
    };
    let confinement = Confinement {
        abi: policy.abi(),
        opening: opening.as_slice(),
        layers,
    };
    match checked_text(alloc, options, form, &confinement) {
        Ok(text) => Ok(text),
        Err(failure) => Err(failure),
    }
}

/// Returns the flaw of the profile of this name. None if the policy has no such profile, or if it has no flaw.
pub fn flaw_of<'a>(alloc: Global, text: &str, profile: &'a str) -> Option<FlawedProfile<'a>> {
    let policy = Policy::from_text(alloc, text).ok()?;
    let layers = policy.layers(profile)?;
    let opening = policy.opening(alloc).ok()?;
    let confinement = Confinement {
        abi: policy.abi(),
        opening: opening.as_slice(),
        layers,
    };
    let flaw = confinement.flaw(alloc)?;
    Some(FlawedProfile {
        name: profile,
        flaw,
    })
}

/// Returns the first rule of the profile of this name on whose path the C program and `landtree-sandbox exec` would
/// disagree. None if there is none, or no such profile.
pub fn escape_of<'a>(alloc: Global, text: &str, profile: &'a str) -> Option<EscapedRule<'a>> {
    let policy = Policy::from_text(alloc, text).ok()?;
    first_escaped(profile, policy.layers(profile)?)
}

/// Writes the text that the options ask for, given the policy file's bytes. Writes nothing before the text is complete.
/// If the output fails, a prefix of it is written.
pub fn export<R: Read, W: Write>(
    alloc: Global,
    options: &ExportOptions,
    file: &mut R,
    out: &mut W,
) -> Result<(), Failure>
    ensures export { OnOk result ((text : List ℕ) × IfSome (R.remaining file.old) (λ told. text ≡ told)
        × Writes (W.contents out.old) (W.contents out.new) (IsExport (exported_in options.now) text)) }
    ensures failure { IfErr result (λ failure. (text : List ℕ) × IfSome (R.remaining file.old) (λ told. text ≡ told)
        × MayFail (exported_in options.now) text failure) }
    ensures alone { IfErr result IsOfExport }
    ensures nothing { IfErr result (λ failure. failure ≢ Failure.Output
        → Keeps (W.contents out.old) (W.contents out.new)) }
    ensures broken { result ≡ Err Failure.Output → (text : List ℕ)
        × IfSome (R.remaining file.old) (λ told. text ≡ told) × (written : List ℕ)
        × IsExport (exported_in options.now) text written
        × AppendsFront (W.contents out.old) (W.contents out.new) written }
{
    let text = exported(alloc, options, file)?;
    write_text(text.as_str(), out)
}

/// Exports if the profile's checks passed. Otherwise writes nothing and returns the checks' conclusion.
pub fn export_checked<R: Read, W: Write>(
    alloc: Global,
    checked: Checked,
    options: &ExportOptions,
    file: &mut R,
    out: &mut W,
) -> Result<Conclusion, Failure>
    ensures end { IfOk result (λ end. end ≡ ended_by checked) }
    ensures ends { EndsExport true result }
    ensures other { checked ≢ checks.Checked.Passed → IsOk result }
    ensures nothing { checked ≢ checks.Checked.Passed → Keeps (W.contents out.old) (W.contents out.new) }
    ensures export { OnOk result (checked ≡ checks.Checked.Passed → (text : List ℕ)
        × IfSome (R.remaining file.old) (λ told. text ≡ told)
        × Writes (W.contents out.old) (W.contents out.new) (IsExport (exported_in options.now) text)) }
    ensures failure { IfErr result (λ failure. (text : List ℕ) × IfSome (R.remaining file.old) (λ told. text ≡ told)
        × MayFail (exported_in options.now) text failure) }
    ensures quiet { IfErr result (λ failure. failure ≢ Failure.Output
        → Keeps (W.contents out.old) (W.contents out.new)) }
    ensures broken { result ≡ Err Failure.Output → (text : List ℕ)
        × IfSome (R.remaining file.old) (λ told. text ≡ told) × (written : List ℕ)
        × IsExport (exported_in options.now) text written
        × AppendsFront (W.contents out.old) (W.contents out.new) written }
{
    if checked != Checked::Passed {
        return Ok(Conclusion::Checked(checked));
    }
    export(alloc, options, file, out)?;
    Ok(Conclusion::Done)
}
