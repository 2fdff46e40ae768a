//! What is done with a link at the end of a path.

/// What is done with a link at the end of a path. A link before the end is always followed.
#[derive(Clone, Copy, Debug, PartialEq, Eq)]
pub enum LastLink {
    Followed,
    Itself,
}
