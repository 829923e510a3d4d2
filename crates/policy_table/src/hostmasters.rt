//! The hostmasters of the file.
ghost use Rattle.std.specs.Prelude.{◌≡◌, length, IfOk, IfSome, IsNone, true, false, bytes_eq, option_map, find};
ghost use Rattle.std.specs.List.{list_all, list_any};
ghost use Rattle.std.specs.Result.{result_map_both};
ghost use Rattle.std.specs.BTreeMap.{values};
ghost use Rattle.toml.specs.View.{view, table_view};
ghost use Rattle.policy_table.specs.Section.{is_string, Gives};
ghost use Rattle.policy_table.specs.Hostmasters.{texts_in, named_texts_at, is_name_and_key, tokens_differ, is_count, are_hostmasters, AreRising, hostmasters_at};

use crate::PolicyFault;
use crate::hostmaster::Hostmaster;
use crate::section::{string_of, table_at};
use reg_entry::Name;
use std::alloc::{AllocError, Global};
use toml::Table;

/// How many hostmasters there are at most.
const MOST_HOSTMASTERS: usize = 64;

fn all_strings(table: &Table) -> bool
    ensures { result ≡ list_all (λ v. is_string (view v)) (values table.now) }
{
    table.values().all(|value| value.is_str())
}

/// The table of strings that is the value of a key.
#[tactic(auto, using(crate::proofs::Seen::strings_of_members), unfolding(crate::specs::Hostmasters::named_texts_at))]
fn named_texts_at<'a>(top: &'a Table, key: u8, name: &str) -> Result<&'a Table, PolicyFault>
    ensures { result_map_both (λ t. texts_in (table_view t.now)) (λ e. e) result ≡ named_texts_at key name.now (table_view top.now) }
{
    let table = table_at(top, key, name)?;
    if !all_strings(table) {
        return Err(PolicyFault::Wrong(key));
    }
    Ok(table)
}

/// The hostmasters of the table in the order of their names, or nothing where a name or a token isn't of its form.
fn listed(alloc: Global, table: &Table) -> Result<Option<Vec<Hostmaster>>, AllocError>
    ensures some { IfOk result (λ found. IfSome found (λ hs. (hs.items ≡ texts_in (table_view table.now)) × (list_all is_name_and_key hs.items ≡ true))) }
    ensures none { IfOk result (λ found. IsNone found → list_all is_name_and_key (texts_in (table_view table.now)) ≡ false) }
{
    let mut hostmasters = Vec::new(alloc);
    for (name, value) in table {
        let Some(hostmaster) = Hostmaster::read(name.as_bytes(), string_of(value).as_bytes()) else {
            return Ok(None);
        };
        hostmasters.push(hostmaster)?;
    }
    Ok(Some(hostmasters))
}

fn has_token(hostmasters: &[Hostmaster], token: &[u8]) -> bool
    ensures { result ≡ list_any (λ h. bytes_eq h.1 token.now) hostmasters.now }
{
    hostmasters.iter().any(|h| h.token() == token)
}

/// The name of the hostmaster who has the token.
pub(crate) fn name_with(hostmasters: &[Hostmaster], token: &[u8]) -> Option<Name>
    ensures { result ≡ option_map (λ h. h.0) (find (λ h. bytes_eq h.1 token.now) hostmasters.now) }
{
    let hostmaster = hostmasters.iter().find(|h| h.token() == token)?;
    Some(*hostmaster.name())
}

/// Whether no two of them have one token.
fn tokens_differ(hostmasters: &[Hostmaster]) -> bool
    ensures { result ≡ tokens_differ hostmasters.now }
{
    for (place, hostmaster) in hostmasters.iter().enumerate() {
        if has_token(&hostmasters[place + 1..], hostmaster.token()) {
            return false;
        }
    }
    true
}

/// Whether the table has as many members as there may be hostmasters. Its names rise, as those of each table do.
#[tactic(auto, using(crate::proofs::Seen::count_of_texts, crate::proofs::Seen::rising_texts))]
fn has_count(table: &Table) -> bool
    ensures count { result ≡ is_count (length (texts_in (table_view table.now))) }
    ensures rising { AreRising (texts_in (table_view table.now)) }
{
    1 <= table.len() && table.len() <= MOST_HOSTMASTERS
}

/// The hostmasters of the table, or nothing where their count, a form or two tokens forbid it.
#[tactic(auto, using(crate::proofs::Seen::all_three))]
fn hostmasters_in(alloc: Global, table: &Table) -> Result<Option<Vec<Hostmaster>>, AllocError>
    ensures some { IfOk result (λ found. IfSome found (λ hs. (hs.items ≡ texts_in (table_view table.now)) × (are_hostmasters hs.items ≡ true) × AreRising hs.items)) }
    ensures none { IfOk result (λ found. IsNone found → are_hostmasters (texts_in (table_view table.now)) ≡ false) }
{
    if !has_count(table) {
        return Ok(None);
    }
    match listed(alloc, table)? {
        Some(hostmasters) if tokens_differ(&hostmasters) => Ok(Some(hostmasters)),
        _ => Ok(None),
    }
}

/// The hostmasters that are the value of a key: 1 to 64, in the order of their names, each with a token of its own.
#[tactic(auto, unfolding(crate::specs::Hostmasters::hostmasters_at))]
pub(crate) fn hostmasters_at(
    alloc: Global,
    top: &Table,
    key: u8,
    name: &str,
) -> Result<Vec<Hostmaster>, PolicyFault>
    ensures valid { IfOk result (λ hs. (are_hostmasters hs.items ≡ true) × AreRising hs.items) }
    ensures hostmasters { Gives (λ hs. hs.items) result (hostmasters_at key name.now (table_view top.now)) }
{
    let table = named_texts_at(top, key, name)?;
    match hostmasters_in(alloc, table) {
        Ok(Some(hostmasters)) => Ok(hostmasters),
        Ok(None) => Err(PolicyFault::Bounds(key)),
        Err(_) => Err(PolicyFault::NoMemory),
    }
}
