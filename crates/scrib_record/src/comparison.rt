//! How two versions are compared.

/// How the present version of a protocol is compared with the one that a record holds.
#[derive(Clone, Copy, Debug, PartialEq, Eq)]
pub enum Comparison {
    /// By their numbers, and where these are equal by their meanings. It is correct for any two versions.
    Whole,
    /// By their numbers alone, however large the protocols are. It is correct where equal numbers imply equal meanings.
    Numbers,
}
