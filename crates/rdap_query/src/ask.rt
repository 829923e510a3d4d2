use num_range::{Number, Range};

/// What is asked for by a look-up.
#[derive(Clone, Copy, Debug, PartialEq, Eq)]
pub enum RdapAsk {
    /// The network round the addresses (RFC 9082 3.1.1).
    Ip(Range),
    /// The network round the AS number (RFC 9082 3.1.2).
    Autnum(Number),
    /// What is served here (RFC 9082 3.1.6).
    Help,
}
