//! Bytes, from a link into a framer.
ghost use Rattle.std.specs.Prelude.{◌≡◌, ◌≢◌, ◌<◌, ◌≤◌, ◌++◌, ℕ, List, true, false, length, take, Ok, OnOk, OnErr};
ghost use Rattle.std.specs.Io.KnownBytes.{Appends, Consumes, Keeps, IsAtEnd};
ghost use Rattle.link_face.specs.Faults.{HasCause};
ghost use Rattle.hall.specs.Receive.{HasReceived};

use link_face::{Failed, Link};
use wire_http::Framer;

/// How many bytes are read at once.
const PIECE: usize = 4096;

/// Reads some bytes into the framer, which has room for some, and says whether there were any.
pub(crate) fn receive<L: Link>(link: &mut L, framer: &mut Framer) -> Result<bool, Failed>
    requires { 0 < framer.old.spare }
    ensures received { HasReceived result (L.taken link.old) (L.left link.old) framer.old.bytes (L.taken link.new) (L.left link.new) framer.new.bytes }
    ensures budget { result ≡ Ok true → L.budget link.new < L.budget link.old }
    ensures end { result ≡ Ok false → L.has_ended link.new }
    ensures written { L.written link.new ≡ L.written link.old }
    ensures cause { HasCause (L.Source.faults link.old) (L.Source.faults link.new) result }
{
    let mut buffer = [0; PIECE];
    let room = framer.spare().min(PIECE);
    let piece = &mut buffer[..room];
    let count = link.read(piece)?;
    framer.push(&piece[..count]);
    Ok(count > 0)
}
