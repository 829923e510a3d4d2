//! The name under which a registry publishes.
ghost use Rattle.std.specs.Prelude.{◌≡◌, IsTrue};
ghost use Rattle.rpsl_text.specs.Forms.{is_source};
ghost use Rattle.nrtm_stream.specs.Stream.{capitals};

use crate::laws::names_are_sources;
use arrayvec::ArrayVec;
use reg_entry::Name;

fn capitals(registry: &Name) -> ArrayVec<u8, 24>
    ensures { result.items ≡ capitals registry.now }
{
    let mut source = ArrayVec::new();
    for b in registry.bytes() {
        source.push(b.to_ascii_uppercase());
    }
    source
}

/// The source of what the registry publishes: its name in capitals (RFC 2622 3.1).
pub fn source_of(registry: &Name) -> ArrayVec<u8, 24>
    ensures source { result.items ≡ capitals registry.now }
    ensures form { IsTrue (is_source result.items) }
{
    // A law, for `form`.
    names_are_sources();
    let _ = registry.bytes();
    capitals(registry)
}
