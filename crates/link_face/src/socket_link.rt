//! The link over a socket.
ghost use Rattle.std.specs.Prelude.{IfOk, ◌≡◌, ◌^◌, false};

use crate::failed::Failed;
use crate::in_source::InSource;
use crate::joined::Joined;
use crate::out_sink::OutSink;
use std::net::TcpStream;

/// A connection over a socket. It tells no content, and gives at most `BYTE_BUDGET` bytes.
pub type SocketLink = Joined<InSource<TcpStream>, OutSink<TcpStream>>;

impl SocketLink {
    /// The link over a stream, which is read and written through two handles of one socket. It
    /// fails where the system has no second handle.
    pub fn new(stream: TcpStream) -> Result<SocketLink, Failed>
        ensures { IfOk result (λ link. (link.source.budget ≡ 2 ^ 40) × (link.source.has_ended ≡ false)
            × (link.source.faults ≡ 0) × (link.sink.faults ≡ 0)) }
    {
        let Ok(other) = stream.try_clone() else {
            return Err(Failed);
        };
        Ok(Joined {
            source: InSource::new(stream),
            sink: OutSink::new(other),
        })
    }
}
