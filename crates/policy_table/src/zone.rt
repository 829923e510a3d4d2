//! The values of the file that all reverse zones share.
ghost use Rattle.std.specs.Prelude.{◌≡◌, Some, None, map, if◌then◌else◌};
ghost use Rattle.reg_entry.specs.Host.{is_host};
ghost use Rattle.toml.specs.View.{view, table_view};
ghost use Rattle.policy_table.specs.Section.{string_of};
ghost use Rattle.policy_table.specs.Zone.{are_servers, servers_at, zone_at};

use crate::PolicyFault;
use crate::section::{host_at, number_up_to, string_of, strings_at, table_at};
use reg_entry::{Host, SERVER_ROOM, Servers, ZoneTerms};
use toml::{Table, Value};

/// The greatest time of a zone, in seconds (RFC 2181 8).
const LONGEST: u32 = 0x7fff_ffff;

fn host_of(value: &Value) -> Option<Host>
    ensures { result ≡ (if is_host (string_of (view value.now)) then Some (string_of (view value.now)) else None) }
{
    Host::read(string_of(value).as_bytes())
}

/// The servers that the strings name, or nothing where there is none, there are more than four, or one names no host.
fn servers_of(values: &[Value]) -> Option<Servers>
    ensures { result ≡ (if are_servers (map (λ v. string_of (view v)) values.now) then Some (map (λ v. string_of (view v)) values.now) else None) }
{
    if values.is_empty() || values.len() > SERVER_ROOM {
        return None;
    }
    let mut hosts = [host_of(&values[0])?; SERVER_ROOM];
    for (place, value) in values.iter().enumerate() {
        hosts[place] = host_of(value)?;
    }
    Servers::new(&hosts[..values.len()])
}

#[tactic(auto, unfolding(crate::specs::Zone::servers_at))]
fn servers_at(zone: &Table, key: u8, name: &str) -> Result<Servers, PolicyFault>
    ensures { result ≡ servers_at key name.now (table_view zone.now) }
{
    let values = strings_at(zone, key, name)?;
    servers_of(values).ok_or(PolicyFault::Bounds(key))
}

/// The file's table of the reverse zones.
#[tactic(auto, unfolding(crate::specs::Zone::zone_at))]
pub(crate) fn zone_at(top: &Table) -> Result<ZoneTerms, PolicyFault>
    ensures { result ≡ zone_at (table_view top.now) }
{
    let zone = table_at(top, 5, "zone")?;
    let mname = host_at(zone, 5, "mname")?;
    let rname = host_at(zone, 6, "rname")?;
    let ttl = number_up_to(zone, 7, "ttl", LONGEST)?;
    let refresh = number_up_to(zone, 8, "refresh", LONGEST)?;
    let retry = number_up_to(zone, 9, "retry", LONGEST)?;
    let expire = number_up_to(zone, 10, "expire", LONGEST)?;
    let minimum = number_up_to(zone, 11, "minimum", LONGEST)?;
    let servers = servers_at(zone, 12, "servers")?;
    Ok(ZoneTerms {
        mname,
        rname,
        ttl,
        refresh,
        retry,
        expire,
        minimum,
        servers,
    })
}
