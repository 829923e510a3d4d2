//! The values of a table's keys, each of its type and within its bounds, or the fault of the key.
ghost use Rattle.std.specs.Prelude.{◌≡◌, ◌≤◌, IfOk, map};
ghost use Rattle.std.specs.List.{list_all};
ghost use Rattle.std.specs.Result.{result_map_both};
ghost use Rattle.toml.specs.View.{view, items_view, table_view};
ghost use Rattle.policy_table.specs.Section.{value_at, table_at, array_at, text_at, integer_at, host_at, number_between, is_string, string_of, texts_at};

use crate::PolicyFault;
use reg_entry::Host;
use toml::{Table, Value};

/// The value of a key.
fn value_at<'a>(table: &'a Table, key: u8, name: &str) -> Result<&'a Value, PolicyFault>
    ensures { result_map_both (λ v. view v.now) (λ e. e) result ≡ value_at key name.now (table_view table.now) }
{
    match table.get(name) {
        Some(value) => Ok(value),
        None => Err(PolicyFault::Missing(key)),
    }
}

/// The table that is the value of a key.
#[tactic(auto, unfolding(crate::specs::Section::table_at))]
pub(crate) fn table_at<'a>(table: &'a Table, key: u8, name: &str) -> Result<&'a Table, PolicyFault>
    ensures { result_map_both (λ t. table_view t.now) (λ e. e) result ≡ table_at key name.now (table_view table.now) }
{
    match value_at(table, key, name)?.as_table() {
        Some(inner) => Ok(inner),
        None => Err(PolicyFault::Wrong(key)),
    }
}

/// The bytes of the string that is the value of a key.
#[tactic(auto, unfolding(crate::specs::Section::text_at))]
pub(crate) fn text_at<'a>(table: &'a Table, key: u8, name: &str) -> Result<&'a str, PolicyFault>
    ensures { result_map_both (λ s. s.now) (λ e. e) result ≡ text_at key name.now (table_view table.now) }
{
    match value_at(table, key, name)?.as_str() {
        Some(text) => Ok(text),
        None => Err(PolicyFault::Wrong(key)),
    }
}

fn number_between(z: i64, low: u64, high: u64) -> Option<u64>
    ensures { result ≡ number_between low high z }
{
    let n = u64::try_from(z).ok()?;
    if low <= n && n <= high { Some(n) } else { None }
}

/// The integer within the bounds that is the value of a key.
#[tactic(auto, unfolding(crate::specs::Section::integer_at))]
pub(crate) fn integer_at(
    table: &Table,
    key: u8,
    name: &str,
    low: u64,
    high: u64,
) -> Result<u64, PolicyFault>
    ensures integer { result ≡ integer_at key name.now low high (table_view table.now) }
    ensures within { IfOk result (λ n. (low ≤ n) × (n ≤ high)) }
{
    match value_at(table, key, name)?.as_integer() {
        Some(z) => number_between(z, low, high).ok_or(PolicyFault::Bounds(key)),
        None => Err(PolicyFault::Wrong(key)),
    }
}

/// The integer from 0 up to `most` that is the value of a key.
pub(crate) fn number_up_to(
    table: &Table,
    key: u8,
    name: &str,
    most: u32,
) -> Result<u32, PolicyFault>
    ensures integer { result ≡ integer_at key name.now 0 most (table_view table.now) }
    ensures within { IfOk result (λ n. n ≤ most) }
{
    let n = integer_at(table, key, name, 0, most as u64)?;
    Ok(n as u32)
}

/// The host whose name is the value of a key.
#[tactic(auto, unfolding(crate::specs::Section::host_at))]
pub(crate) fn host_at(table: &Table, key: u8, name: &str) -> Result<Host, PolicyFault>
    ensures { result ≡ host_at key name.now (table_view table.now) }
{
    let text = text_at(table, key, name)?;
    Host::read(text.as_bytes()).ok_or(PolicyFault::Bounds(key))
}

/// The bytes of a string, and none of another value.
pub(crate) fn string_of(value: &Value) -> &str
    ensures { result.now ≡ string_of (view value.now) }
{
    match value.as_str() {
        Some(text) => text,
        None => "",
    }
}

/// The array that is the value of a key.
#[tactic(auto, unfolding(crate::specs::Section::array_at))]
fn array_at<'a>(table: &'a Table, key: u8, name: &str) -> Result<&'a [Value], PolicyFault>
    ensures { result_map_both (λ vs. items_view vs.now) (λ e. e) result ≡ array_at key name.now (table_view table.now) }
{
    match value_at(table, key, name)?.as_array() {
        Some(values) => Ok(values),
        None => Err(PolicyFault::Wrong(key)),
    }
}

fn all_strings(values: &[Value]) -> bool
    ensures { result ≡ list_all (λ v. is_string (view v)) values.now }
{
    values.iter().all(|value| value.is_str())
}

/// The array of strings that is the value of a key.
#[tactic(auto, using(crate::proofs::Seen::strings_of_items, crate::proofs::Seen::texts_of_items), unfolding(crate::specs::Section::texts_at))]
pub(crate) fn strings_at<'a>(
    table: &'a Table,
    key: u8,
    name: &str,
) -> Result<&'a [Value], PolicyFault>
    ensures { result_map_both (λ vs. map (λ v. string_of (view v)) vs.now) (λ e. e) result ≡ texts_at key name.now (table_view table.now) }
{
    let values = array_at(table, key, name)?;
    if !all_strings(values) {
        return Err(PolicyFault::Wrong(key));
    }
    Ok(values)
}
