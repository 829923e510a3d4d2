//! The gate over sockets.
ghost use Rattle.std.specs.Prelude.{◌≡◌, ◌≢◌, ◌<◌, ◌+◌, ◌↔◌, ◌^◌, ℕ, None, true, false, IfOk, IfSome, IsErr, IsTrue, MatchOption};
ghost use Rattle.std.specs.Option.{is_some};
ghost use Rattle.std.specs.Net.Grammar.{IsIpText};
ghost use Rattle.door_face.specs.declared.door.Door.{Door};
ghost use Rattle.door_face.specs.Doors.{at_door, ways_given};
ghost use Rattle.link_face.specs.Faults.{HasCause};

use crate::door::Door;
use crate::gate::Gate;
use crate::socket_way::SocketWay;
use link_face::{Failed, SocketLink};
use std::marker::Model;
use std::net::{IpAddr, Ipv4Addr, Net, SocketAddr, TcpListener, TcpStream};
use std::time::Clock;

// The listener of one door and its port, once it listens, and how many ways were given there.
#[derive(Drop)]
struct SocketDoor {
    listening: Option<(TcpListener, u16)>,
    given: u64,
}

impl SocketDoor {
    fn new() -> Self
        ensures { result.given ≡ 0 }
    {
        Self {
            listening: None,
            given: 0,
        }
    }

    // Another handle of the listener, which the first call makes. There is none at another port.
    fn listener<R: Net<Listener = TcpListener, Stream = TcpStream>>(
        &mut self,
        net: &R,
        host: Option<IpAddr>,
        port: u16,
    ) -> Option<TcpListener>
        ensures given { self.new.given ≡ self.old.given }
        ensures host { host ≡ None → result ≡ None }
    {
        let host = host?;
        if self.listening.is_none() {
            let listener = TcpListener::bind(net, SocketAddr::new(host, port)).ok()?;
            self.listening = Some((listener, port));
        }
        match &self.listening {
            Some((listener, at)) if *at == port => listener.try_clone().ok(),
            _ => None,
        }
    }

    // A way at this door.
    fn give<R: Net<Listener = TcpListener, Stream = TcpStream> + Clock + Copy + Drop>(
        &mut self,
        net: &R,
        host: Option<IpAddr>,
        door: Door,
        port: u16,
    ) -> Option<SocketWay<R>>
        ensures given { MatchOption result (self.new.given ≡ self.old.given) (λ way. (self.new.given ≡ self.old.given + 1)
            × (way.door ≡ door) × (way.port ≡ port) × (way.faults ≡ 0)) }
        ensures host { host ≡ None → result ≡ None }
    {
        let listener = self.listener(net, host, port)?;
        self.given = self.given.checked_add(1)?;
        Some(SocketWay::new(*net, listener, door, port))
    }
}

/// A gate over sockets. It listens once at each door, and each way has a handle of that listener.
///
/// It fails where the address can't be listened on, where another port is asked for at a door than the
/// first, and where the system has no handle left. It tells no links and no ways.
#[derive(Drop)]
pub struct SocketGate<R: Net<Listener = TcpListener, Stream = TcpStream> + Drop> {
    net: R,
    host: Option<IpAddr>,
    http: SocketDoor,
    line: SocketDoor,
    faults: u64,
}

impl<R: Net<Listener = TcpListener, Stream = TcpStream> + Drop> Model for SocketGate<R> {
    ghost use Rattle.std.specs.Option.{is_some};
    ghost use Rattle.door_face.specs.SocketGate.{SocketGateState};

    ghost Value = { SocketGateState };

    ghost view = { λ g. record {
      has_address = is_some g.host;
      http_given = g.http.given;
      line_given = g.line.given;
      faults = g.faults;
    } };
}

impl<R: Net<Listener = TcpListener, Stream = TcpStream> + Drop> SocketGate<R> {
    /// A gate that listens on 127.0.0.1: who is to come from elsewhere comes through another program.
    pub fn new(net: R) -> Self
        ensures address { result.has_address ≡ true }
        ensures given { (result.http_given ≡ 0) × (result.line_given ≡ 0) }
        ensures faults { result.faults ≡ 0 }
    {
        Self::on(net, Some(IpAddr::V4(Ipv4Addr::LOCALHOST)))
    }

    /// A gate that listens on the address that the text spells (an IPv4 or IPv6 address, no name and no
    /// port). Where it spells none each `way` fails.
    pub fn listening_on(net: R, address: &str) -> Self
        ensures address { IsTrue result.has_address ↔ ((ip : _) × IsIpText address.now ip) }
        ensures given { (result.http_given ≡ 0) × (result.line_given ≡ 0) }
        ensures faults { result.faults ≡ 0 }
    {
        Self::on(net, read_address(address))
    }

    fn on(net: R, host: Option<IpAddr>) -> Self
        ensures address { result.has_address ≡ is_some host }
        ensures given { (result.http_given ≡ 0) × (result.line_given ≡ 0) }
        ensures faults { result.faults ≡ 0 }
    {
        Self {
            net,
            host,
            http: SocketDoor::new(),
            line: SocketDoor::new(),
            faults: 0,
        }
    }

    /// Where the door listens, once it does.
    pub fn address(&self, door: Door) -> Option<SocketAddr> {
        let at = match door {
            Door::Http => &self.http,
            Door::Line => &self.line,
        };
        let (listener, _) = at.listening.as_ref()?;
        listener.local_addr().ok()
    }

    /// How many calls failed, and how many ways came back that had.
    pub fn faults(&self) -> u64
        ensures { result ≡ self.now.faults }
    {
        self.faults
    }
}

fn read_address(address: &str) -> Option<IpAddr>
    ensures { MatchOption result ((ip : _) → ¬ (IsIpText address.now ip)) (λ ip. IsIpText address.now ip) }
{
    IpAddr::parse_ascii(address.as_bytes()).ok()
}

impl<R: Net<Listener = TcpListener, Stream = TcpStream> + Clock + Copy + Send + Drop> Gate
    for SocketGate<R> {
    ghost use Rattle.std.specs.Prelude.{None};
    ghost use Rattle.door_face.specs.Doors.{at_door};

    type L = SocketLink;

    type W = SocketWay<R>;

    ghost given = { λ g door. at_door g.http_given g.line_given door };

    ghost to_come = { λ _ _. None };

    ghost lent = { λ _. None };

    ghost returned = { λ _. None };

    ghost faults = { λ g. g.faults };

    fn way(&mut self, door: Door, port: u16) -> Result<SocketWay<R>, Failed>
        ensures place { IfOk result (λ way. (way.door ≡ door) × (way.port ≡ port)) }
        ensures fresh { IfOk result (λ way. way.faults ≡ 0) }
        ensures given { at_door self.new.http_given self.new.line_given door
            ≡ at_door self.old.http_given self.old.line_given door + ways_given result }
        ensures other { (other : Door) → other ≢ door → at_door self.new.http_given self.new.line_given other
            ≡ at_door self.old.http_given self.old.line_given other }
        ensures cause { HasCause self.old.faults self.new.faults result }

        // It fails where it was told no address.
        ensures address { self.old.has_address ≡ false → IsErr result }
    {
        let next = match door {
            Door::Http => self.http.give(&self.net, self.host, door, port),
            Door::Line => self.line.give(&self.net, self.host, door, port),
        };
        match next {
            Some(way) => Ok(way),
            None => {
                self.faults = self.faults.saturating_add(1);
                Err(Failed)
            }
        }
    }

    fn done(&mut self, way: SocketWay<R>) {
        if way.faults() > 0 {
            self.faults = self.faults.saturating_add(1);
        }
    }
}
