use crate::{Host, Servers};

/// What the policy says of delegations of one space and status.
#[derive(Clone, Copy, PartialEq, Eq)]
pub struct Row {
    /// The least and the most amount: prefix lengths, or counts of AS numbers.
    pub least: u32,
    pub most: u32,
    /// How many numbers of the space one holder may hold.
    pub cap: u128,
    /// How much of its allocated numbers a holder has sub-assigned before it gets more, in hundredths.
    pub percent: u32,
    pub lir: bool,
    pub enduser: bool,
}

/// The values that all reverse zones share (RFC 1035 3.3.13, RFC 2308 4).
#[derive(Clone, Copy)]
pub struct ZoneTerms {
    pub mname: Host,
    pub rname: Host,
    pub ttl: u32,
    pub refresh: u32,
    pub retry: u32,
    pub expire: u32,
    pub minimum: u32,
    pub servers: Servers,
}
