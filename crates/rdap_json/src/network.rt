ghost use Rattle.std.specs.Prelude.{◌≡◌, ◌≤◌, IfOk, OnOk};
ghost use Rattle.num_range.specs.declared.space.Space.TheVariants.{Asn};
ghost use Rattle.serde_json.specs.View.{view};
ghost use Rattle.reg_entry.specs.Days.{last_date};
ghost use Rattle.rdap_json.specs.Made.{members_in};
ghost use Rattle.rdap_json.specs.Tree.{with_members};
ghost use Rattle.rdap_json.specs.Facts.{AreNetFacts};
ghost use Rattle.rdap_json.specs.Network.{registration_tree, type_word, registration_members, parent_members, address_members, autnum_members, number_members, outer_members, network_tree};

use crate::members::Members;
use crate::texts::{as_text, country_text, handle_text, midnight_bytes, number_bytes, range_bytes};
use crate::vcard::entity_value;
use crate::{NetFacts, NetKind};
use num_range::{Number, Range, Space};
use reg_entry::Holder;
use serde_json::{Value, json};
use std::alloc::{AllocError, Global};

impl NetKind {
    /// The word for it.
    fn word(self) -> &'static str
        ensures { result.now ≡ type_word self }
    {
        match self {
            NetKind::Allocated => "ALLOCATED",
            NetKind::Assigned => "ASSIGNED",
            NetKind::Sub => "SUB-ASSIGNED",
        }
    }
}

/// That the numbers were registered on the day (RFC 9083 4.5).
fn registration_value(alloc: Global, day: u32) -> Result<Value, AllocError>
    requires { day ≤ last_date }
    ensures { IfOk result (λ v. view v ≡ registration_tree day) }
{
    let midnight = midnight_bytes(day);
    json!(in alloc; {"eventAction": "registration", "eventDate": as_text(&midnight)})
}

/// Puts what every registration has.
fn put_registration(
    alloc: Global,
    facts: &NetFacts,
    members: &mut Members,
) -> Result<(), AllocError>
    requires { facts.now.day ≤ last_date }
    ensures { OnOk result (members_in members.new ≡ with_members (registration_members facts.now) (members_in members.old)) }
{
    let registration = registration_value(alloc, facts.day)?;
    members.put_text("country", country_text(&facts.holder.cc))?;
    members.put_one("events", registration)?;
    members.put_text("handle", as_text(&range_bytes(&facts.range)))?;
    members.put_text("name", handle_text(&facts.holder.handle))?;
    members.put_one_text("status", "active")?;
    members.put_text("type", facts.kind.word())
}

/// Puts the handle of the piece that a sub-assignment lies in.
fn put_parent(parent: &Option<Range>, members: &mut Members) -> Result<(), AllocError>
    ensures { OnOk result (members_in members.new ≡ with_members (parent_members parent.now) (members_in members.old)) }
{
    match parent {
        Some(range) => members.put_text("parentHandle", as_text(&range_bytes(range))),
        None => Ok(()),
    }
}

/// Puts what a network of addresses has (RFC 9083 5.4).
fn put_addresses(
    version: &str,
    range: &Range,
    parent: &Option<Range>,
    members: &mut Members,
) -> Result<(), AllocError>
    ensures { OnOk result (members_in members.new
        ≡ with_members (address_members version.now range.now parent.now) (members_in members.old)) }
{
    let first = number_bytes(Number::of(range.space(), range.first()));
    let last = number_bytes(Number::of(range.space(), range.last()));
    members.put_text("endAddress", as_text(&last))?;
    members.put_text("ipVersion", version)?;
    members.put_text("objectClassName", "ip network")?;
    members.put_text("startAddress", as_text(&first))?;
    put_parent(parent, members)
}

/// Puts what a network of AS numbers has (RFC 9083 5.5).
fn put_autnums(range: &Range, members: &mut Members) -> Result<(), AllocError>
    requires { range.now.space ≡ Asn }
    ensures { OnOk result (members_in members.new ≡ with_members (autnum_members range.now) (members_in members.old)) }
{
    members.put("endAutnum", Value::from(range.last() as u32))?;
    members.put_text("objectClassName", "autnum")?;
    members.put("startAutnum", Value::from(range.first() as u32))
}

/// Puts what says which numbers they are.
fn put_numbers(
    range: &Range,
    parent: &Option<Range>,
    members: &mut Members,
) -> Result<(), AllocError>
    ensures { OnOk result (members_in members.new
        ≡ with_members (number_members range.now.space range.now parent.now) (members_in members.old)) }
{
    match range.space() {
        Space::Asn => put_autnums(range, members),
        Space::Ipv4 => put_addresses("v4", range, parent, members),
        Space::Ipv6 => put_addresses("v6", range, parent, members),
    }
}

/// Puts what a network has that stands by itself.
fn put_outer(
    alloc: Global,
    inner: bool,
    holder: &Holder,
    members: &mut Members,
) -> Result<(), AllocError>
    ensures { OnOk result (members_in members.new ≡ with_members (outer_members inner holder.now) (members_in members.old)) }
{
    if inner {
        return Ok(());
    }
    let entity = entity_value(alloc, holder)?;
    members.put_one("entities", entity)?;
    members.put_conformance()
}

/// The network of the facts (RFC 9083 5.4, 5.5). An inner one, which stands inside another object, has neither `entities`
/// nor `rdapConformance`.
#[tactic(auto, using(crate::proofs::Trees::members_joined))]
pub fn network_value(alloc: Global, facts: &NetFacts, inner: bool) -> Result<Value, AllocError>
    requires { AreNetFacts facts.now }
    ensures { IfOk result (λ v. view v ≡ network_tree facts.now inner) }
{
    let mut members = Members::new(alloc);
    put_registration(alloc, facts, &mut members)?;
    put_numbers(&facts.range, &facts.parent, &mut members)?;
    put_outer(alloc, inner, &facts.holder, &mut members)?;
    Ok(members.into_object())
}
