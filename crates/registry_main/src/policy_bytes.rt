//! The policy, read from its source.
ghost use Rattle.std.specs.Prelude.{◌≡◌, ◌≢◌, ◌≤◌, ◌+◌, Ok, Err, IfOk, OnOk};
ghost use Rattle.link_face.specs.Faults.{HasRisen};
ghost use Rattle.reg_entry.specs.Policy.{IsPolicy};
ghost use Rattle.policy_table.specs.Policy.{policy_of};
ghost use Rattle.policy_table.specs.declared.fault.PolicyFault.{PolicyFault};
ghost use Rattle.policy_table.specs.declared.fault.PolicyFault.TheVariants.{NoMemory};
ghost use Rattle.registry_main.specs.PolicyBytes.{policy_front, IsFrontOf, IsSaid};
ghost use Rattle.registry_main.specs.declared.policy_bytes.NoPolicy.TheVariants.{Read, Refused};

use link_face::Source;
use policy_table::{Policy, PolicyFault};
use std::alloc::{AllocError, Global};

/// How many bytes of a policy are read at most: one more than it may have, by which it is known to be too long.
const MOST: usize = 65_537;

/// How many bytes are read at once.
const PIECE: usize = 4096;

/// Why there is no policy to go by.
#[derive(Clone, Copy, Debug, PartialEq, Eq)]
pub enum NoPolicy {
    /// Its source couldn't be read on.
    Read,
    /// Its bytes are no policy.
    Refused(PolicyFault),
    Memory,
}

impl From<AllocError> for NoPolicy {
    ghost use Rattle.std.specs.Prelude.{◌≡◌};
    ghost use Rattle.registry_main.specs.declared.policy_bytes.NoPolicy.TheVariants.{Memory};

    ghost from_gives = { λ _ fault. fault ≡ Memory };

    fn from(_: AllocError) -> Self {
        NoPolicy::Memory
    }
}

/// Reads a source to its end, or up to the byte by which it is known to be too long.
fn read_front<S: Source>(alloc: Global, source: &mut S) -> Result<Vec<u8>, NoPolicy>
    ensures front { IfOk result (λ bytes. IsFrontOf (S.left source.old) bytes.items) }
    ensures bounded { S.budget source.old ≤ S.budget source.new + policy_front }
    ensures read { result ≡ Err Read → HasRisen (S.faults source.old) (S.faults source.new) }
    ensures read_told { result ≢ Err Read → S.faults source.new ≡ S.faults source.old }
    ensures no_refusal { (fault : PolicyFault) → result ≢ Err (Refused fault) }
{
    let mut piece = [0; PIECE];
    let mut bytes = Vec::new(alloc);
    'pieces: while bytes.len() < MOST {
        let most = PIECE.min(MOST - bytes.len());
        match source.read(&mut piece[..most]) {
            Err(_) => return Err(NoPolicy::Read),
            Ok(0) => break,
            Ok(count) => bytes.extend_from_slice(&piece[..count])?,
        }
    }
    Ok(bytes)
}

/// What the bytes that were read say.
fn policy_from(alloc: Global, bytes: &[u8]) -> Result<Policy, NoPolicy>
    ensures policy { IfOk result (λ policy. policy_of bytes.now ≡ Ok policy) }
    ensures valid { IfOk result IsPolicy }
    ensures refused { (fault : PolicyFault) → result ≡ Err (Refused fault) → policy_of bytes.now ≡ Err fault }
    ensures no_read { result ≢ Err Read }
    ensures no_memory { result ≢ Err (Refused NoMemory) }
{
    match Policy::read(alloc, bytes) {
        Ok(policy) => {
            // It tells that the policy is well formed, for `valid`.
            let _registry = policy.registry();
            Ok(policy)
        }
        Err(PolicyFault::NoMemory) => Err(NoPolicy::Memory),
        Err(fault) => Err(NoPolicy::Refused(fault)),
    }
}

/// Reads the policy. No more than 65,537 bytes are taken.
pub fn read_policy<S: Source>(alloc: Global, source: &mut S) -> Result<Policy, NoPolicy>
    ensures policy { IfOk result (λ policy. IsSaid (S.left source.old) (Ok policy)) }
    ensures valid { IfOk result IsPolicy }
    ensures refused { (fault : PolicyFault) → result ≡ Err (Refused fault) → IsSaid (S.left source.old) (Err fault) }
    ensures no_memory { result ≢ Err (Refused NoMemory) }
    ensures bounded { S.budget source.old ≤ S.budget source.new + policy_front }
    ensures read { result ≡ Err Read → HasRisen (S.faults source.old) (S.faults source.new) }
    ensures read_told { result ≢ Err Read → S.faults source.new ≡ S.faults source.old }
{
    let bytes = read_front(alloc, source)?;
    policy_from(alloc, &bytes)
}
