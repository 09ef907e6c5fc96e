//! How explanations are written.

/// How an explanation is written.
#[derive(Clone, Copy, Debug, PartialEq, Eq)]
pub enum WhyStyle {
    /// Lines for people.
    Lines,
    /// An object of JSON on a line.
    Json,
}
