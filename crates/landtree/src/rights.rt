//! What `rights` does, with the files that its words name.

ghost use Rattle.std.specs.Prelude.{◌≡◌, true, false, Err};
ghost use Rattle.ll_program.specs.Rights.{fits_rights, rights_in};
ghost use Rattle.ll_commands.specs.Profiles.{IsAllTables, LacksTables};
ghost use Rattle.ll_commands.specs.Rights.{IsTable, LacksTable};
ghost use Rattle.ll_commands.specs.RightsEnd.{EndsDifference, EndsRights, EndsTold};

use crate::hints::Hints;
use crate::misfits::Misfit;
use ll_commands::{tell_all_rights, tell_difference, tell_rights};
use ll_program::{Conclusion, Failure, OldPolicy, RightsOptions, RightsScope, Sources};
use std::io::Write;

// Writes the rights of a policy's profile.
fn tell_profile<S: Sources, W: Write>(
    rt: &HostRuntime,
    sources: &S,
    options: &RightsOptions,
    profile: &str,
    out: &mut W,
    hints: &mut Hints,
) -> Result<Conclusion, Failure>
    ensures { EndsTold (S.texts sources.now) (rights_in options.now).policy
        (IsTable (rights_in options.now) profile.now) (LacksTable (rights_in options.now) profile.now)
        (W.contents out.old) (W.contents out.new) result }
{
    let mut file = hints.source(rt.alloc(), sources, Some(options.policy));
    let told = tell_rights(rt.alloc(), options, profile, &mut file, out);
    hints.of_input("policy", &file);
    hints.of_rights(options, profile, &told, file.text());
    match told {
        Ok(()) => Ok(Conclusion::Done),
        Err(failure) => Err(failure),
    }
}

// Writes the rights of all profiles of a policy.
fn tell_all_profiles<S: Sources, W: Write>(
    rt: &HostRuntime,
    sources: &S,
    options: &RightsOptions,
    out: &mut W,
    hints: &mut Hints,
) -> Result<Conclusion, Failure>
    ensures { EndsTold (S.texts sources.now) (rights_in options.now).policy (IsAllTables (rights_in options.now))
        (LacksTables (rights_in options.now)) (W.contents out.old) (W.contents out.new) result }
{
    let mut file = hints.source(rt.alloc(), sources, Some(options.policy));
    let told = tell_all_rights(rt.alloc(), options, &mut file, out, hints);
    hints.of_input("policy", &file);
    hints.of_all_rights(options, &told, file.text());
    match told {
        Ok(()) => Ok(Conclusion::Done),
        Err(failure) => Err(failure),
    }
}

// Writes what a policy grants a profile more and less than an old one.
fn tell_change<'x, S: Sources, W: Write>(
    rt: &'x HostRuntime,
    sources: &'x S,
    options: &RightsOptions<'x>,
    compared: &OldPolicy<'x>,
    out: &mut W,
    hints: &mut Hints,
) -> Result<Conclusion, Failure>
    ensures { EndsDifference (S.texts sources.now) (rights_in options.now) compared.now.old.now
        compared.now.profile.now (W.contents out.old) (W.contents out.new) result }
{
    let mut old_file = hints.source(rt.alloc(), sources, Some(compared.old));
    let mut file = hints.source(rt.alloc(), sources, Some(options.policy));
    let told = tell_difference(rt.alloc(), options, compared, &mut old_file, &mut file, out);
    hints.of_input("policy", &old_file);
    hints.of_input("policy", &file);
    hints.of_change(options, compared, &told, old_file.text(), file.text());
    told
}

// Writes what the words ask for.
fn tell_scope<'x, S: Sources, W: Write>(
    rt: &'x HostRuntime,
    sources: &'x S,
    options: &RightsOptions<'x>,
    out: &mut W,
    hints: &mut Hints,
) -> Result<Conclusion, Failure>
    ensures { EndsRights (S.texts sources.now) (rights_in options.now) (W.contents out.old) (W.contents out.new)
        result }
{
    match options.scope {
        Some(RightsScope::Profile(profile)) => {
            tell_profile(rt, sources, options, profile, out, hints)
        }
        Some(RightsScope::AllProfiles) => tell_all_profiles(rt, sources, options, out, hints),
        Some(RightsScope::Difference(compared)) => {
            tell_change(rt, sources, options, &compared, out, hints)
        }
        None => Err(Failure::CommandLine),
    }
}

/// Runs `rights`.
pub fn rights_options<S: Sources, W: Write>(
    rt: &HostRuntime,
    sources: &S,
    options: &RightsOptions,
    out: &mut W,
    hints: &mut Hints,
) -> Result<Conclusion, Failure>
    ensures unfit { fits_rights (rights_in options.now) ≡ false
        → (result ≡ Err Failure.CommandLine) × (W.contents out.new ≡ W.contents out.old) }
    ensures rights { fits_rights (rights_in options.now) ≡ true
        → EndsRights (S.texts sources.now) (rights_in options.now) (W.contents out.old) (W.contents out.new) result }
{
    if !options.fit() {
        hints.of_misfit(Some(Misfit::of_rights(options)));
        return Err(Failure::CommandLine);
    }
    let ended = tell_scope(rt, sources, options, out, hints);
    if ended.is_err() {
        hints.of_misfit(Misfit::of_paths(rt.alloc(), options));
    }
    ended
}
