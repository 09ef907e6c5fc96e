//! Where a walk is.

ghost use Rattle.std.specs.Prelude.{◌≡◌, if◌then◌else◌};
ghost use Rattle.ll_laws.specs.Walk as walks;

use crate::way::has_two_paths;
use ll_seq::Call;

/// Where a client's walk is, if it can be known without a look at a directory.
#[derive(Clone, Copy, PartialEq, Eq)]
pub enum Station {
    /// No walk is under way.
    Idle,
    /// A directory on its way was moved. It must restart.
    Stale,
    Above,
    /// On the way that its paths share, with names ahead.
    Trunk,
    /// At the end of the way that its two paths share.
    Fork,
    /// Past the fork, on the way of its first path, with names ahead.
    First,
    /// Past the fork, on the way of its second path, with names ahead.
    Second,
    /// Each leg is at its end.
    End,
}

/// The station of a walk on the way that its paths share.
pub(crate) fn trunk_station(call: &Call, is_ended: bool) -> Station
    ensures { result ≡ (if is_ended then if walks.has_two_paths call.now then Station.Fork else Station.End else
        Station.Trunk) }
{
    if !is_ended {
        Station::Trunk
    } else if has_two_paths(call) {
        Station::Fork
    } else {
        Station::End
    }
}

/// The station of a walk past the fork.
pub(crate) fn split_station(is_first_ended: bool, is_second_ended: bool) -> Station
    ensures { result ≡ (if is_first_ended then if is_second_ended then Station.End else Station.Second else
        Station.First) }
{
    if !is_first_ended {
        Station::First
    } else if is_second_ended {
        Station::End
    } else {
        Station::Second
    }
}
