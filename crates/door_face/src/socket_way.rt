ghost use Rattle.std.specs.Prelude.{◌≡◌, IfOk};

use crate::door::Door;
use crate::way::Way;
use link_face::{Failed, SocketLink};
use std::io::Read;
use std::net::{Shutdown, TcpListener, TcpStream};
use std::time::{Clock, Duration, Instant};
use std::{io, thread};

/// How long a read or a write of an accepted link may wait: 30 seconds. Then it fails, so a client that
/// is silent or slow to read loses its connection, and not a worker its day.
pub const LINK_SECONDS: u64 = 30;

/// How long a way waits before it asks again, where the system doesn't give the next connection now: a
/// tenth of a second.
pub const PAUSE_MILLIS: u64 = 100;

/// How long a link that is closed waits for more of what its client sends: a second.
pub const SILENCE_MILLIS: u64 = 1_000;

/// For how long it takes in what its client sends: four seconds, and the second behind the last read.
pub const CLOSING_MILLIS: u64 = 4_000;

/// The connections that come to a listening socket. It tells no number of them, and ends by a fault of the
/// listener alone: a connection that is lost before it is a link is passed over, and where the system doesn't
/// give the next one now, it is asked again after a pause of its clock.
///
/// A link that is taken back before the next one is given is closed in two steps (RFC 9112 9.6), so that what was
/// written to it arrives also where the client has sent more than was read.
#[derive(Drop)]
pub struct SocketWay<C: Clock + Drop> {
    clock: C,
    listener: TcpListener,
    door: Door,
    port: u16,
    // How many links aren't back yet.
    out: u64,
    // A handle of the one link that is out, to close it by. Where more are out, none: a link doesn't say whose it is.
    only: Option<TcpStream>,
    faults: u64,
}

impl<C: Clock + Drop> SocketWay<C> {
    /// A way over a handle of the door's listener.
    pub fn new(clock: C, listener: TcpListener, door: Door, port: u16) -> Self
        ensures door { result.door ≡ door }
        ensures port { result.port ≡ port }
        ensures faults { result.faults ≡ 0 }
    {
        Self {
            clock,
            listener,
            door,
            port,
            out: 0,
            only: None,
            faults: 0,
        }
    }

    /// How many accepts failed.
    pub fn faults(&self) -> u64
        ensures { result ≡ self.now.faults }
    {
        self.faults
    }
}

// Why there is no next connection.
enum Missed {
    // It was lost before it was accepted: the client gave it up, or the network failed it.
    Lost,
    // The system doesn't give it now: it has no descriptor or no memory for it, or a rule of its own against it.
    NotNow,
    // The listener gives none any more.
    Closed,
}

// What accept(2) of Linux says by these numbers of errno(3).
fn why_missed(error: &io::Error) -> Missed {
    match error.raw_os_error() {
        // ENONET, EPROTO, ENOPROTOOPT, EOPNOTSUPP, ENETDOWN, ENETUNREACH, ECONNABORTED, EHOSTDOWN, EHOSTUNREACH
        Some(64 | 71 | 92 | 95 | 100 | 101 | 103 | 112 | 113) => Missed::Lost,
        // EPERM, ENOMEM, ENFILE, EMFILE, ENOBUFS
        Some(1 | 12 | 23 | 24 | 105) => Missed::NotNow,
        _ => Missed::Closed,
    }
}

fn limit_waits(stream: &TcpStream) -> io::Result<()> {
    let most = Some(Duration::from_secs(LINK_SECONDS));
    stream.set_read_timeout(most)?;
    stream.set_write_timeout(most)?;
    stream.set_nodelay(true)
}

// A link over the connection, and one more handle of it. Where these can't be made, the connection is closed.
fn link_over(stream: TcpStream) -> Result<(SocketLink, TcpStream), Failed>
    ensures { IfOk result (λ given. (given.0.source.faults ≡ 0) × (given.0.sink.faults ≡ 0)) }
{
    if limit_waits(&stream).is_err() {
        return Err(Failed);
    }
    let Ok(handle) = stream.try_clone() else {
        return Err(Failed);
    };
    Ok((SocketLink::new(stream)?, handle))
}

// The next link, and one more handle of it. What is no fault of the listener is passed over.
fn next_link(clock: &impl Clock, listener: &TcpListener) -> Result<(SocketLink, TcpStream), Failed>
    ensures { IfOk result (λ given. (given.0.source.faults ≡ 0) × (given.0.sink.faults ≡ 0)) }
{
    for _ in 0..u64::MAX {
        match listener.accept() {
            Ok((stream, _)) => {
                if let Ok(given) = link_over(stream) {
                    return Ok(given);
                }
            }
            Err(error) => match why_missed(&error) {
                Missed::Lost => {}
                Missed::NotNow => thread::sleep(clock, Duration::from_millis(PAUSE_MILLIS)),
                Missed::Closed => return Err(Failed),
            },
        }
    }
    Err(Failed)
}

// Whether less time than this went by. A clock that can't be read says no.
fn is_within(clock: &impl Clock, start: Instant, most: Duration) -> bool {
    match start.elapsed(clock) {
        Ok(time) => time < most,
        Err(_) => false,
    }
}

// Tells the client that no more comes, and throws away what it still sends, up to its own end, a silence or the end of
// the time. A connection that is closed with bytes unread is reset, and the client may lose what it hasn't read yet.
fn close(clock: &impl Clock, mut stream: TcpStream) {
    let silence = Some(Duration::from_millis(SILENCE_MILLIS));
    let most = Duration::from_millis(CLOSING_MILLIS);
    if stream.shutdown(Shutdown::Write).is_err() || stream.set_read_timeout(silence).is_err() {
        return;
    }
    let Ok(start) = Instant::now(clock) else {
        return;
    };
    let mut buf = [0; 4_096];
    for _ in 0..u64::MAX {
        match stream.read(&mut buf) {
            Ok(count) if 0 < count && is_within(clock, start, most) => {}
            _ => return,
        }
    }
}

impl<C: Clock + Drop> Way for SocketWay<C> {
    ghost use Rattle.std.specs.Prelude.{None};

    type L = SocketLink;

    ghost door = { λ w. w.door };

    ghost port = { λ w. w.port };

    ghost links_left = { λ _. None };

    ghost lent = { λ _. None };

    ghost returned = { λ _. None };

    ghost faults = { λ w. w.faults };

    fn accept(&mut self) -> Result<Option<SocketLink>, Failed> {
        match next_link(&self.clock, &self.listener) {
            Ok((link, handle)) => {
                self.only = if self.out == 0 { Some(handle) } else { None };
                self.out = self.out.saturating_add(1);
                Ok(Some(link))
            }
            Err(failed) => {
                self.faults = self.faults.saturating_add(1);
                Err(failed)
            }
        }
    }

    fn done(&mut self, link: SocketLink) {
        drop(link);
        self.out = self.out.saturating_sub(1);
        if let Some(handle) = self.only.take() {
            close(&self.clock, handle);
        }
    }
}
