//! The decision of a domain: the rights that a call needs as sets, the rights that each layer grants as masks, and the
//! search for the denial to report.
#![tactic(auto)]

mod demands;
mod denial;
mod judge;
mod masks;

pub use demands::{Demands, On, Way};
pub use denial::{Cause, Denial, Place};
pub use judge::{Granted, least_denial};
pub use masks::{Masks, unrestricted};
