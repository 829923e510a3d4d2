ghost use Rattle.std.specs.Prelude.{◌≡◌, ◌≤◌, ◌^◌, true};
ghost use Rattle.num_range.specs.Space.{top_of, width_of};
ghost use Rattle.num_range.specs.Amount.{amount_size, has_size, alignment};

/// A kind of number: an AS number of four bytes (RFC 6793), an IPv4 address (RFC 791) or an IPv6 address (RFC 4291).
#[derive(Clone, Copy, Debug, PartialEq, Eq, PartialOrd, Ord)]
pub enum Space {
    Asn,
    Ipv4,
    Ipv6,
}

impl Space {
    /// The greatest number of the space. The least is 0.
    pub fn top(self) -> u128
        ensures { result ≡ top_of self }
    {
        match self {
            Space::Asn | Space::Ipv4 => u32::MAX as u128,
            Space::Ipv6 => u128::MAX,
        }
    }

    /// How many bits a number of the space has.
    pub fn width(self) -> u32
        ensures { result ≡ width_of self }
    {
        match self {
            Space::Asn | Space::Ipv4 => 32,
            Space::Ipv6 => 128,
        }
    }

    /// Whether so much of the space can be asked for at once: a prefix length of addresses, or a count of AS numbers
    /// (RFC 4632 3.1).
    pub fn has_size(self, amount: u32) -> bool
        ensures { result ≡ has_size self amount }
    {
        match self {
            Space::Asn => 1 <= amount && amount <= 1024,
            Space::Ipv4 => amount <= 32,
            Space::Ipv6 => 3 <= amount && amount <= 128,
        }
    }

    /// How many numbers an amount of the space asks for.
    #[tactic(auto, using(crate::proofs::BlockEnds::unicast_block_size))]
    pub fn amount_size(self, amount: u32) -> u128
        requires { has_size self amount ≡ true }
        ensures size { result ≡ amount_size self amount }
        ensures bounds { (1 ≤ result) × (result ≤ 2 ^ 125) }
    {
        match self {
            Space::Asn => u128::from(amount),
            Space::Ipv4 => 1 << (32 - amount),
            Space::Ipv6 => 1 << (128 - amount),
        }
    }

    /// Of what number the start of a block of so many numbers is a multiple: blocks of addresses start at multiples of
    /// their size (RFC 4632 3.1), blocks of AS numbers anywhere.
    pub fn alignment(self, size: u128) -> u128
        ensures { result ≡ alignment self size }
    {
        match self {
            Space::Asn => 1,
            Space::Ipv4 | Space::Ipv6 => size,
        }
    }
}
