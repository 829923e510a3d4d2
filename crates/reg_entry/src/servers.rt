ghost use Rattle.std.specs.Prelude.{◌≡◌, ◌≤◌, ◌↔◌, length, IsSome, IfSome};
ghost use Rattle.std.specs.Cmp.{partial_equiv_from_equiv};
ghost use Rattle.std.specs.Cmp.Lexicographic.{nat_list_eq_equiv, lists_equiv};
ghost use Rattle.reg_entry.specs.Servers.{hosts_eq};

use crate::Host;
use std::marker::Model;

/// How many name servers a reverse entry has at most.
pub const SERVER_ROOM: usize = 4;

/// The name servers of a reverse entry, one to four, in the order in which they were given.
#[derive(Clone, Copy)]
pub struct Servers {
    // The places past the length repeat the first host, so that the list gives the fields back.
    array: [Host; SERVER_ROOM],
    len: usize,
}

impl Model for Servers {
    ghost use Rattle.std.specs.Prelude.{List, ℕ, length, take};
    ghost use Rattle.reg_entry.specs.Servers.{padded_hosts, ArePaddedHosts};

    ghost Value = { List (List ℕ) };

    ghost view = { λ s. take s.len s.array };

    ghost invariant = { λ s. ArePaddedHosts s.array s.len };

    ghost inverse = { λ hosts. record { array = padded_hosts hosts; len = length hosts } };
}

impl Servers {
    /// The servers of these hosts, or nothing where there is none or more than four.
    pub fn new(hosts: &[Host]) -> Option<Servers>
        ensures fits { IsSome result ↔ ((1 ≤ length hosts.now) × (length hosts.now ≤ 4)) }
        ensures hosts { IfSome result (λ s. s ≡ hosts.now) }
    {
        if hosts.is_empty() || hosts.len() > SERVER_ROOM {
            return None;
        }
        let mut array = [hosts[0]; SERVER_ROOM];
        array[..hosts.len()].copy_from_slice(hosts);
        Some(Servers {
            array,
            len: hosts.len(),
        })
    }

    pub fn hosts(&self) -> &[Host]
        ensures hosts { result.now ≡ self.now }
        ensures fits { (1 ≤ length self.now) × (length self.now ≤ 4) }
    {
        &self.array[..self.len]
    }
}

impl PartialEq for Servers {
    ghost eq = { hosts_eq };

    ghost laws = { partial_equiv_from_equiv (lists_equiv nat_list_eq_equiv) };

    fn eq(&self, other: &Servers) -> bool {
        self.hosts() == other.hosts()
    }
}

impl Eq for Servers {
    ghost laws = { lists_equiv nat_list_eq_equiv };
}
