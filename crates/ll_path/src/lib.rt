//! The texts of calls: words, names in directories, paths, path arguments, and the bytes of reads and writes.
#![tactic(auto)]

mod bytes;
mod name;
mod names;
mod path;
mod place;
mod target;
mod word;

pub use bytes::Data;
pub use name::Name;
pub use names::Names;
pub use path::Path;
pub use place::Place;
pub use target::{BadPath, Target};
pub use word::Word;
