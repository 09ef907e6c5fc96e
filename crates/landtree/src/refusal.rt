//! The refused call of a policy's opening, as a hint.

use ll_check::{ProfileProgress, answered_text, profile_call_text};
use ll_policy::Policy;
use ll_rights::{Abi, Access, Errno, Kind};
use ll_seq::{Call, Reply};
use ll_session::{Opener, Refusal};
use std::alloc::{AllocError, Global};

// Returns the text on a profile's call, the last of these: which rule of which layer it is, the call and its reply.
fn profile_text(
    alloc: Global,
    name: &str,
    calls: &[Call],
    call: &Call,
    reply: &Reply,
) -> Result<String, AllocError> {
    let mut progress = ProfileProgress::at_connect();
    for done in calls {
        progress = progress.after(done);
    }
    let told = profile_call_text(alloc, progress, call, reply)?;
    format!(in alloc; "profile {name}, {told}")
}

/// A refused call as the policy asks for it.
#[derive(Drop)]
struct RefusedCall<'a> {
    opener: Opener,
    /// The calls of the opener, up to and with this one; none if its connect is refused.
    calls: &'a [Call],
    reply: &'a Reply,
    /// The profile's name, for its client.
    profile: &'a str,
}

impl RefusedCall<'_> {
    // Returns the text on it: where the policy asks for it, the call and its reply.
    fn place_text(&self, alloc: Global) -> Result<String, AllocError> {
        let Some(call) = self.calls.last() else {
            return answered_text(alloc, &Call::Connect, self.reply);
        };
        match self.opener {
            Opener::Loader => {
                let makes = self
                    .calls
                    .iter()
                    .filter(|call| matches!(call, Call::Make(_, _)));
                let node = makes.count();
                let answered = answered_text(alloc, call, self.reply)?;
                format!(in alloc; "node {node}: {answered}")
            }
            Opener::Profile => profile_text(alloc, self.profile, self.calls, call, self.reply),
        }
    }

    // Returns that text, and which of several causes the refusal has; for a full history the option that makes it
    // longer. Errors: memory ran out, now or for the call.
    fn text(&self, alloc: Global, ground: &Ground<'_>) -> Result<String, AllocError> {
        let told = self.place_text(alloc)?;
        match self.reply {
            Reply::Refused(Errno::NoMemory) => Err(AllocError),
            Reply::Refused(Errno::HistoryFull) => {
                format!(in alloc; "{told}--history tells how many entries there may be")
            }
            Reply::Refused(errno) => match cause_of(alloc, ground, self.calls, *errno)? {
                Some(cause) => format!(in alloc; "{told}{cause}"),
                None => Ok(told),
            },
            _ => Ok(told),
        }
    }
}

/// What a refused call of a policy rests on.
#[derive(Drop)]
struct Ground<'a> {
    abi: Abi,
    /// The calls that create the policy's nodes.
    nodes: &'a [Call],
}

impl Ground<'_> {
    // Returns the kind of the node that the policy has at this path, if it has one.
    fn kind_at(&self, path: &str) -> Option<Kind> {
        for call in self.nodes {
            if let Call::Make(kind, target) = call
                && target.as_str() == path
            {
                return Some(*kind);
            }
        }
        None
    }
}

// Returns the set that the ruleset with this number handles, the last of those that these calls create.
fn handled(calls: &[Call]) -> Access {
    let mut handled = Access(0);
    for call in calls {
        if let Call::Ruleset(rights) = call {
            handled = *rights;
        }
    }
    handled
}

// Returns the rights of the set that aren't among these.
fn beyond(set: Access, others: Access) -> Access {
    Access(set.0 & !others.0)
}

// Returns why a rule may not have these rights, if its layer or its node is the reason.
fn rule_cause(
    alloc: Global,
    ground: &Ground<'_>,
    handled: Access,
    path: &str,
    rights: Access,
) -> Result<Option<String>, AllocError> {
    let unhandled = beyond(rights, handled);
    if unhandled.0 != 0 {
        let text = unhandled.text(alloc)?;
        return Ok(Some(format!(in alloc; "the layer doesn't handle {text}")?));
    }
    let Some(kind) = ground.kind_at(path) else {
        return Ok(None);
    };
    let senseless = beyond(rights, Access::FILE);
    if kind == Kind::Dir || senseless.0 == 0 {
        return Ok(None);
    }
    let (text, kind) = (senseless.text(alloc)?, kind_text(kind));
    Ok(Some(format!(in alloc; "{path} is {kind}, on which {text} means nothing")?))
}

fn kind_text(kind: Kind) -> &'static str {
    match kind {
        Kind::Sym => "a symbolic link, which isn't followed",
        _ => "no directory",
    }
}

// Returns which of the causes of its errno the last of these calls has, if it is one that has several.
fn cause_of(
    alloc: Global,
    ground: &Ground<'_>,
    calls: &[Call],
    errno: Errno,
) -> Result<Option<String>, AllocError> {
    match (calls.last(), errno) {
        (Some(Call::Allow(_, target, rights)), Errno::EINVAL) => {
            rule_cause(alloc, ground, handled(calls), target.as_str(), *rights)
        }
        (Some(Call::Ruleset(rights)), Errno::EINVAL) => {
            let level = ground.abi.number();
            let text = beyond(*rights, Access::known(ground.abi)).text(alloc)?;
            Ok(Some(format!(in alloc; "level {level} doesn't know {text}")?))
        }
        (Some(Call::Ruleset(_)), Errno::ENOMSG) => {
            Ok(Some(String::from_str(alloc, "a layer has to handle a right")?))
        }
        (Some(Call::Allow(..)), Errno::ENOMSG) => {
            Ok(Some(String::from_str(alloc, "a rule has to allow a right")?))
        }
        _ => Ok(None),
    }
}

// Returns the calls of the profile asked for, or none without one.
fn profile_calls(
    alloc: Global,
    policy: &Policy,
    profile: Option<&str>,
) -> Result<Vec<Call>, AllocError> {
    match profile {
        Some(name) => match policy.profile(alloc, name)? {
            Some(calls) => Ok(calls),
            None => Ok(Vec::new(alloc)),
        },
        None => Ok(Vec::new(alloc)),
    }
}

/// Returns the lines on the call that this policy, or this profile of it, asks for and that is refused like this: where
/// it is asked for, the call, and its reply.
pub(crate) fn refused_text<'x>(
    alloc: Global,
    policy: &Policy,
    profile: Option<&'x str>,
    refusal: &'x Refusal,
) -> Result<String, AllocError> {
    let nodes = policy.opening(alloc)?;
    let layers = match refusal.opener {
        Opener::Loader => Vec::new(alloc),
        Opener::Profile => profile_calls(alloc, policy, profile)?,
    };
    let calls = match refusal.opener {
        Opener::Loader => nodes.as_slice(),
        Opener::Profile => layers.as_slice(),
    };
    let refused = RefusedCall {
        opener: refusal.opener,
        calls: calls.get(..refusal.calls).unwrap_or(&[]),
        reply: &refusal.reply,
        profile: profile.unwrap_or(""),
    };
    let ground = Ground {
        abi: policy.abi(),
        nodes: nodes.as_slice(),
    };
    refused.text(alloc, &ground)
}
