ghost use Rattle.std.specs.Prelude.{◌≡◌, ◌≢◌, ◌<◌, ◌↔◌, true, false, bytes_eq, IsNone, if◌then◌else◌, Some, None, Ok, Err, IfOk, IfErr, All, map, length};
ghost use Rattle.std.specs.Cmp.Lexicographic.{slice_cmp};
ghost use Rattle.std.specs.Ordering.{nat_cmp};
ghost use Rattle.std.specs.declared.cmp.Ordering.TheVariants.{Greater};
ghost use Rattle.std.specs.List.{list_all, list_any};
ghost use Rattle.reg_entry.specs.Name.{is_small_letter};
ghost use Rattle.reg_entry.specs.Policy.{policy_row, is_hostmaster, IsRowOf};
ghost use Rattle.reg_entry.specs.Request.{status_of};
ghost use Rattle.toml.specs.View.{table_view};
ghost use Rattle.policy_table.specs.declared.fault.PolicyFault.TheVariants.{TooLong, NoMemory};
ghost use Rattle.policy_table.specs.Document.{document_of};
ghost use Rattle.policy_table.specs.Section.{Gives};
ghost use Rattle.policy_table.specs.Policy.{is_registry, registry_at, policy_in, policy_of, HasKey, IsWellFormed, first_name, hostmaster_with};

use crate::PolicyFault;
use crate::hostmaster::Hostmaster;
use crate::hostmasters::{hostmasters_at, name_with};
use crate::rows::{Rows, rows_at};
use crate::section::{number_up_to, text_at};
use crate::zone::zone_at;
use num_range::Space;
use reg_entry::{Delegation, Name, Row, ZoneTerms};
use std::alloc::Global;
use std::marker::Model;
use toml::Table;

/// How many bytes a policy file has at most.
const MOST_BYTES: usize = 65_536;

/// How many days the policy's times are at most: a hundred years of 365 days.
const MOST_DAYS: u32 = 36_500;

/// The hostmasters' rules: who may ask for changes, what may be delegated, and what the reverse zones share.
#[derive(Drop)]
pub struct Policy {
    registry: Name,
    quarantine_days: u32,
    hold_days: u32,
    // In the order of their names.
    hostmasters: Vec<Hostmaster>,
    zone: ZoneTerms,
    asn: Rows,
    ipv4: Rows,
    ipv6: Rows,
}

impl Model for Policy {
    ghost use Rattle.reg_entry.specs.Policy.{PlainPolicy};

    ghost Value = { PlainPolicy };

    ghost use Rattle.policy_table.specs.Fields.{plain_policy, IsValid};

    ghost view = { plain_policy };

    ghost invariant = { IsValid };
}

fn all_small_letters(bytes: &[u8]) -> bool
    ensures { result ≡ list_all is_small_letter bytes.now }
{
    bytes.iter().all(|b| matches!(b, b'a'..=b'z'))
}

fn is_registry(bytes: &[u8]) -> bool
    ensures { result ≡ is_registry bytes.now }
{
    3 <= bytes.len() && bytes.len() <= 12 && all_small_letters(bytes)
}

#[tactic(auto, using(crate::proofs::Registry::registry_read))]
fn registry_of(bytes: &[u8]) -> Option<Name>
    ensures { result ≡ (if is_registry bytes.now then Some bytes.now else None) }
{
    if !is_registry(bytes) {
        return None;
    }
    Name::read(bytes)
}

/// The name of the registry that is the value of a key.
#[tactic(auto, unfolding(crate::specs::Policy::registry_at))]
fn registry_at(top: &Table, key: u8, name: &str) -> Result<Name, PolicyFault>
    ensures valid { IfOk result (λ name. is_registry name ≡ true) }
    ensures registry { result ≡ registry_at key name.now (table_view top.now) }
{
    let text = text_at(top, key, name)?;
    registry_of(text.as_bytes()).ok_or(PolicyFault::Bounds(key))
}

#[tactic(auto, unfolding(crate::specs::Document::document_of))]
fn document_of(alloc: Global, bytes: &[u8]) -> Result<Table, PolicyFault>
    ensures { Gives table_view result (document_of bytes.now) }
{
    match toml::table_from_slice(alloc, bytes) {
        Ok(top) => Ok(top),
        Err(error) if error.is_memory() => Err(PolicyFault::NoMemory),
        Err(_) => Err(PolicyFault::Text),
    }
}

#[tactic(auto, unfolding(crate::specs::Policy::policy_in))]
fn policy_in(alloc: Global, top: &Table) -> Result<Policy, PolicyFault>
    ensures { Gives (λ p. p) result (policy_in (table_view top.now)) }
{
    let registry = registry_at(top, 1, "registry")?;
    let quarantine_days = number_up_to(top, 2, "quarantine_days", MOST_DAYS)?;
    let hold_days = number_up_to(top, 3, "hold_days", MOST_DAYS)?;
    let hostmasters = hostmasters_at(alloc, top, 4, "hostmasters")?;
    let zone = zone_at(top)?;
    let ipv4 = rows_at(top, 13, Space::Ipv4)?;
    let ipv6 = rows_at(top, 22, Space::Ipv6)?;
    let asn = rows_at(top, 31, Space::Asn)?;
    Ok(Policy {
        registry,
        quarantine_days,
        hold_days,
        hostmasters,
        zone,
        asn,
        ipv4,
        ipv6,
    })
}

impl Policy {
    /// The policy of a file of at most 65,536 bytes, or its first fault. The keys and their numbers, types and bounds
    /// are in the section "The policy file" of docs/FORMATS.md.
    #[tactic(auto, unfolding(crate::specs::Policy::policy_of))]
    pub fn read(alloc: Global, bytes: &[u8]) -> Result<Policy, PolicyFault>
        ensures too_long { (result ≡ Err TooLong) ↔ (65536 < length bytes.now) }
        ensures key { IfErr result HasKey }
        ensures policy { IfOk result (λ p. policy_of bytes.now ≡ Ok p) }
        ensures fault { IfErr result (λ e. e ≢ NoMemory → policy_of bytes.now ≡ Err e) }
    {
        if bytes.len() > MOST_BYTES {
            return Err(PolicyFault::TooLong);
        }
        let top = document_of(alloc, bytes)?;
        policy_in(alloc, &top)
    }

    /// Tells callers what every policy keeps: its rows allow only amounts that can be asked for, and it has a hostmaster.
    pub fn is_well_formed(&self)
        ensures { IsWellFormed self.now }
    {
        let _ = &self.registry;
    }

    /// The registry's name.
    pub fn registry(&self) -> &Name
        ensures { result.now ≡ self.now.registry }
    {
        &self.registry
    }

    /// What is allowed of a kind of delegation of a space.
    pub fn row(&self, space: Space, delegation: Delegation) -> Row
        ensures row { result ≡ policy_row self.now space (status_of delegation) }
        ensures valid { IsWellFormed self.now }
    {
        let rows = match space {
            Space::Asn => &self.asn,
            Space::Ipv4 => &self.ipv4,
            Space::Ipv6 => &self.ipv6,
        };
        match delegation {
            Delegation::Allocate => rows.allocated,
            Delegation::Assign => rows.assigned,
        }
    }

    /// For how many days what is returned isn't delegated again.
    pub fn quarantine_days(&self) -> u32
        ensures { result ≡ self.now.quarantine_days }
    {
        self.quarantine_days
    }

    /// For how many days what was transferred isn't transferred again.
    pub fn hold_days(&self) -> u32
        ensures { result ≡ self.now.hold_days }
    {
        self.hold_days
    }

    /// Whether there is a hostmaster of this name.
    pub fn knows(&self, who: &Name) -> bool
        ensures { result ≡ is_hostmaster self.now who.now }
    {
        self.hostmasters.iter().any(|h| h.name() == who)
    }

    /// The name of the hostmaster who has this key, a token (RFC 6750 2.1), or nothing where none has.
    pub fn by_key(&self, key: &[u8]) -> Option<Name>
        ensures name { result ≡ hostmaster_with self.now key.now }
        ensures none { IsNone result ↔ (list_any (λ h. bytes_eq h.1 key.now) self.now.hostmasters ≡ false) }
    {
        name_with(&self.hostmasters, key)
    }

    /// The hostmaster whose name is the least in the order of bytes.
    pub fn first_hostmaster(&self) -> &Name
        ensures first { result.now ≡ first_name self.now.hostmasters }
        ensures least { All (λ name. slice_cmp nat_cmp result.now name ≢ Greater) (map (λ h. h.0) self.now.hostmasters) }
    {
        self.hostmasters[0].name()
    }

    /// What all reverse zones share (RFC 1035 3.3.13).
    pub fn zone(&self) -> &ZoneTerms
        ensures { result.now ≡ self.now.zone }
    {
        &self.zone
    }
}
