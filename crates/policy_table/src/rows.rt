//! What the file allows of each kind of delegation.
ghost use Rattle.std.specs.Prelude.{◌≡◌, ◌≤◌, IfOk, bytes_eq};
ghost use Rattle.std.specs.List.{list_all, list_any};
ghost use Rattle.reg_entry.specs.Policy.{IsRowOf};
ghost use Rattle.toml.specs.View.{view, table_view};
ghost use Rattle.policy_table.specs.Section.{string_of};
ghost use Rattle.policy_table.specs.Rows.{limits_of, cap_size, row_name, percent_at, kinds_key, is_kind, kinds_at, row_at, section_name, rows_at};

use crate::PolicyFault;
use crate::section::{integer_at, number_up_to, string_of, strings_at, table_at};
use num_range::Space;
use reg_entry::{Delegation, Row};
use std::marker::Model;
use toml::{Table, Value};

/// What is allowed of the two kinds of delegation of a space.
#[derive(Clone, Copy)]
pub(crate) struct Rows {
    pub(crate) allocated: Row,
    pub(crate) assigned: Row,
}

impl Model for Rows {
    ghost use Rattle.reg_entry.specs.Policy.{PlainRows};

    ghost Value = { PlainRows };

    ghost view = { λ r. record { allocated = r.allocated; assigned = r.assigned } };

    ghost inverse = { λ r. record { allocated = r.allocated; assigned = r.assigned } };
}

/// Between which bounds the amounts of a space lie, and how high its caps are.
#[derive(Clone, Copy)]
pub(crate) struct Limits {
    least: u64,
    most: u64,
    cap: u64,
}

/// Which kinds of holders may have a kind of delegation.
#[derive(Clone, Copy)]
pub(crate) struct Kinds {
    lir: bool,
    enduser: bool,
}

fn limits_of(space: Space) -> Limits
    ensures limits { result ≡ limits_of space }
    ensures small { result.most ≤ 1024 }
{
    match space {
        Space::Asn => Limits {
            least: 1,
            most: 1024,
            cap: 1 << 32,
        },
        Space::Ipv4 => Limits {
            least: 0,
            most: 32,
            cap: 1 << 32,
        },
        Space::Ipv6 => Limits {
            least: 3,
            most: 64,
            cap: 1 << 61,
        },
    }
}

/// How many numbers a cap of the file is: an IPv6 cap counts networks of length 64.
fn cap_size(space: Space, cap: u64) -> u128
    ensures { result ≡ cap_size space cap }
{
    match space {
        Space::Ipv6 => cap as u128 * 0x1_0000_0000_0000_0000,
        _ => cap as u128,
    }
}

fn is_word(value: &Value, word: &str) -> bool
    ensures { result ≡ bytes_eq (string_of (view value.now)) word.now }
{
    string_of(value) == word
}

fn all_kinds(values: &[Value]) -> bool
    ensures { result ≡ list_all (λ v. is_kind (string_of (view v))) values.now }
{
    values
        .iter()
        .all(|value| is_word(value, "lir") || is_word(value, "enduser"))
}

fn names_kind(values: &[Value], kind: &str) -> bool
    ensures { result ≡ list_any (λ v. bytes_eq (string_of (view v)) kind.now) values.now }
{
    values.iter().any(|value| is_word(value, kind))
}

/// The kinds whose words are the value of a row's last key.
#[tactic(auto, using(crate::proofs::Seen::all_of_texts, crate::proofs::Seen::any_of_texts), unfolding(crate::specs::Rows::kinds_at))]
fn kinds_at(row: &Table, key: u8) -> Result<Kinds, PolicyFault>
    ensures { result ≡ kinds_at key (table_view row.now) }
{
    let values = strings_at(row, key, "kinds")?;
    if !all_kinds(values) {
        return Err(PolicyFault::Bounds(key));
    }
    Ok(Kinds {
        lir: names_kind(values, "lir"),
        enduser: names_kind(values, "enduser"),
    })
}

/// The percentage of an allocated row, and 0 of an assigned one, which has none.
#[tactic(auto, unfolding(crate::specs::Rows::percent_at))]
fn percent_at(row: &Table, key: u8, delegation: Delegation) -> Result<u32, PolicyFault>
    ensures { result ≡ percent_at key delegation (table_view row.now) }
{
    match delegation {
        Delegation::Allocate => number_up_to(row, key, "percent", 100),
        Delegation::Assign => Ok(0),
    }
}

fn row_name(delegation: Delegation) -> &'static str
    ensures { result.now ≡ row_name delegation }
{
    match delegation {
        Delegation::Allocate => "allocated",
        Delegation::Assign => "assigned",
    }
}

fn kinds_key(first: u8, delegation: Delegation) -> u8
    requires { first ≤ 200 }
    ensures { result ≡ kinds_key first delegation }
{
    match delegation {
        Delegation::Allocate => first + 4,
        Delegation::Assign => first + 3,
    }
}

/// The row of a kind of delegation, whose keys are numbered from the first.
#[tactic(auto, unfolding(crate::specs::Rows::row_at))]
fn row_at(
    section: &Table,
    first: u8,
    space: Space,
    delegation: Delegation,
) -> Result<Row, PolicyFault>
    requires { first ≤ 200 }
    ensures row { result ≡ row_at first space delegation (table_view section.now) }
    ensures allowed { IfOk result (IsRowOf space) }
{
    let limits = limits_of(space);
    let row = table_at(section, first, row_name(delegation))?;
    let least = integer_at(row, first, "least", limits.least, limits.most)?;
    let most = integer_at(row, first + 1, "most", least, limits.most)?;
    let cap = integer_at(row, first + 2, "cap", 0, limits.cap)?;
    let percent = percent_at(row, first + 3, delegation)?;
    let kinds = kinds_at(row, kinds_key(first, delegation))?;
    Ok(Row {
        least: least as u32,
        most: most as u32,
        cap: cap_size(space, cap),
        percent,
        lir: kinds.lir,
        enduser: kinds.enduser,
    })
}

fn section_name(space: Space) -> &'static str
    ensures { result.now ≡ section_name space }
{
    match space {
        Space::Asn => "asn",
        Space::Ipv4 => "ipv4",
        Space::Ipv6 => "ipv6",
    }
}

/// The two rows of a space, whose nine keys are numbered from the first.
#[tactic(auto, unfolding(crate::specs::Rows::rows_at))]
pub(crate) fn rows_at(top: &Table, first: u8, space: Space) -> Result<Rows, PolicyFault>
    requires { first ≤ 100 }
    ensures rows { result ≡ rows_at first space (table_view top.now) }
    ensures allowed { IfOk result (λ rows. IsRowOf space rows.allocated × IsRowOf space rows.assigned) }
{
    let section = table_at(top, first, section_name(space))?;
    let allocated = row_at(section, first, space, Delegation::Allocate)?;
    let assigned = row_at(section, first + 5, space, Delegation::Assign)?;
    Ok(Rows {
        allocated,
        assigned,
    })
}
