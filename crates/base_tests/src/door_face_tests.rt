//! A gate over sockets.
use door_face::{Door, Gate, SocketGate, SocketWay, Way};
use link_face::{Failed, Link, SocketLink};
use std::io::{Read, Write};
use std::net::{Shutdown, SocketAddr, TcpStream};
use std::test::Fail;

const TEXT: &[u8] = b"ten bytes.";

// Sends back what one read gives.
fn echo<L: Link>(link: &mut L) -> Result<(), Failed> {
    let mut piece = [0; 16];
    let count = link.read(&mut piece)?;
    link.write(&piece[..count])
}

// The way's next connection, which a client opens at the address.
fn connect(
    rt: &HostRuntime,
    way: &mut SocketWay<&HostRuntime>,
    address: SocketAddr,
) -> Result<(TcpStream, SocketLink), Fail> {
    let client = TcpStream::connect(rt, address)?;
    let next = way.accept().map_err(|_| "no connection")?;
    Ok((client, next.ok_or("no link")?))
}

// Whether the connection sends back what its client sends.
fn is_echoed(
    way: &mut SocketWay<&HostRuntime>,
    client: &mut TcpStream,
    mut link: SocketLink,
) -> Result<bool, Fail> {
    client.write_all(TEXT)?;
    client.shutdown(Shutdown::Write)?;
    let echoed = echo(&mut link) == Ok(());
    way.done(link);
    let mut back = [0; 10];
    client.read_exact(&mut back)?;
    Ok(echoed && back.as_slice() == TEXT)
}

// Whether of two connections that are out at once the first is closed where it is given back, and the other goes on.
fn gives_back_one_of_two(
    rt: &HostRuntime,
    way: &mut SocketWay<&HostRuntime>,
    address: SocketAddr,
) -> Result<bool, Fail> {
    let (mut first, one) = connect(rt, way, address)?;
    let (mut second, other) = connect(rt, way, address)?;
    way.done(one);
    let is_closed = first.read(&mut [0; 1])? == 0;
    Ok(is_closed && is_echoed(way, &mut second, other)?)
}

// Whether the way's connections are such, one after the other and two at once.
fn speaks(
    rt: &HostRuntime,
    way: &mut SocketWay<&HostRuntime>,
    address: SocketAddr,
) -> Result<bool, Fail> {
    let (mut client, link) = connect(rt, way, address)?;
    Ok(is_echoed(way, &mut client, link)? && gives_back_one_of_two(rt, way, address)?)
}

// Whether another port at a door that listens is a fault, which is the gate's first.
fn has_one_port(gate: &mut SocketGate<&HostRuntime>) -> bool {
    gate.faults() == 0 && gate.way(Door::Http, 1).is_err() && gate.faults() == 1
}

// Whether a door's ways have one listener, and another port there is a fault.
fn listens_once(rt: &HostRuntime, gate: &mut SocketGate<&HostRuntime>) -> Result<bool, Fail> {
    let mut way = gate.way(Door::Http, 0).map_err(|_| "no way")?;
    let address = gate.address(Door::Http).ok_or("no address")?;
    let spoke = speaks(rt, &mut way, address)?;
    let second = gate.way(Door::Http, 0).map_err(|_| "no second way")?;
    gate.done(way);
    gate.done(second);
    Ok(spoke && has_one_port(gate))
}

fn listens_nowhere(rt: &HostRuntime) -> bool {
    let mut nowhere = SocketGate::listening_on(rt, "here");
    nowhere.way(Door::Line, 0).is_err()
}

#[test]
fn gives_connections(rt: HostRuntime) -> Result<(), Fail> {
    let mut gate = SocketGate::new(&rt);
    assert!(rt; listens_once(&rt, &mut gate)? && listens_nowhere(&rt));
    Ok(())
}
