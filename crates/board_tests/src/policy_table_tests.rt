//! What a policy says that was read from a whole text. What is wrong with a text is told by the built program.
use crate::policies::POLICY;
use num_range::Space;
use policy_table::{Policy, PolicyFault};
use reg_entry::{Delegation, Name, Row};
use std::test::Fail;

/// A row of the policy: its space and status, its least and most, its cap in numbers, and whether end users are listed, as local
/// registries are.
type PlainRow = (Space, Delegation, u32, u32, u128, bool);

const ROWS: [PlainRow; 6] = [
    (Space::Ipv4, Delegation::Allocate, 20, 32, 1 << 32, false),
    (Space::Ipv4, Delegation::Assign, 20, 32, 1 << 32, true),
    (Space::Ipv6, Delegation::Allocate, 20, 64, 1 << 125, false),
    (Space::Ipv6, Delegation::Assign, 32, 64, 1 << 125, true),
    (Space::Asn, Delegation::Allocate, 1, 1024, 1 << 32, false),
    (Space::Asn, Delegation::Assign, 1, 1024, 1 << 32, true),
];

/// The first row that the policy doesn't have so.
fn first_other_row(policy: &Policy) -> Option<&'static PlainRow> {
    for wanted in ROWS.iter() {
        let (space, delegation, least, most, cap, enduser) = *wanted;
        let row = Row {
            least,
            most,
            cap,
            percent: 0,
            lir: true,
            enduser,
        };
        if policy.row(space, delegation) != row {
            return Some(wanted);
        }
    }
    None
}

fn has_zone(policy: &Policy) -> bool {
    let zone = policy.zone();
    let times = (
        zone.ttl,
        zone.refresh,
        zone.retry,
        zone.expire,
        zone.minimum,
    );
    zone.mname.bytes() == b"ns1.exreg.example".as_slice()
        && zone.rname.bytes() == b"hostmaster.exreg.example".as_slice()
        && times == (172800, 7200, 1800, 604800, 3600)
        && zone.servers.hosts() == [zone.mname].as_slice()
}

fn has_terms(policy: &Policy) -> bool {
    policy.registry().bytes() == b"exreg".as_slice()
        && (policy.quarantine_days(), policy.hold_days()) == (30, 365)
}

#[test]
fn whole_policies_are_read(rt: HostRuntime) -> Result<(), Fail> {
    let policy = Policy::read(rt.alloc(), POLICY.as_bytes())?;
    assert!(rt; has_terms(&policy) && has_zone(&policy) && first_other_row(&policy).is_none());
    Ok(())
}

/// Whether the hostmaster with this token has this name, and is known.
fn has_hostmaster(policy: &Policy, token: &str, name: &str) -> bool {
    match (policy.by_key(token.as_bytes()), Name::read(name.as_bytes())) {
        (Some(who), Some(name)) => who == name && policy.knows(&name),
        _ => false,
    }
}

/// Whether the three hostmasters are known, and nobody else, and the first by name is the first.
fn has_three(policy: &Policy) -> bool {
    has_hostmaster(policy, "k-zulu-0001", "zulu")
        && has_hostmaster(policy, "k-alpha-0001", "alpha")
        && has_hostmaster(policy, "k-mike-0001", "m1")
        && !has_hostmaster(policy, "k-mike-0001", "mike")
        && policy.by_key(b"").is_none()
        && policy.first_hostmaster().bytes() == b"alpha".as_slice()
}

const ONE: &str = r#"{ local = "k-local-0001" }"#;

const THREE: &str = r#"{ zulu = "k-zulu-0001", alpha = "k-alpha-0001", m1 = "k-mike-0001" }"#;

#[test]
fn hostmasters_are_known_by_their_tokens(rt: HostRuntime) -> Result<(), Fail> {
    let (front, back) = POLICY.split_once(ONE).ok_or("one hostmaster")?;
    let text = format!(in rt.alloc(); "{front}{THREE}{back}")?;
    let policy = Policy::read(rt.alloc(), text.as_bytes())?;
    assert!(rt; has_three(&policy));
    Ok(())
}

#[test]
fn faults_are_values(rt: HostRuntime) {
    let fault = Policy::read(rt.alloc(), b"registry = 1").err();
    assert_eq!(rt; fault, Some(PolicyFault::Wrong(1)));
}
