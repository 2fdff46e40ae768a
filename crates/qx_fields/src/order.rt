//! The two orders of a number's bytes.

/// In which order a volume's numbers stand: the lowest byte first, or the highest.
#[derive(Clone, Copy, Debug, PartialEq, Eq)]
pub enum Order {
    Little,
    Big,
}
