//! Links over sockets of this machine. Each line of a file is a call of one of them, `here`,
//! `there`, `yonder`, or `alone`, which hears only the peer that it names first: `bind ADDRESS`,
//! `peer ADDRESS`, `send PEER TEXT`, `connect LIFE`, which asks peer 0 to connect, `forget PEER`,
//! `recv`, or `await`, which receives until a datagram is there. It is told with what it answers, a
//! datagram by what stands behind its header. A further call costs no proof.
use packet_header::{ControlHeader, ControlKind, Life, MAGIC, Packet, encode};
use rpc_base::{HEAD_BYTES, Peer, SessionNo};
use rpc_outside::{Failed, Got, Link, MOST_LINK_BYTES};
use std::alloc::Global;
use std::io;
use std::net::Net;
use udp_link::UdpLink;

/// So often a link is asked for a datagram that is on its way.
const TURNS: u32 = 1_000_000;

fn await_one(link: &mut impl Link, out: &mut [u8; MOST_LINK_BYTES]) -> Result<Got, Failed> {
    for _turn in 0..TURNS {
        match link.recv(out)? {
            Got::Nothing => {}
            got => return Ok(got),
        }
    }
    Ok(Got::Nothing)
}

fn tell_got(
    rt: &impl Print,
    got: &Result<Got, Failed>,
    out: &[u8; MOST_LINK_BYTES],
) -> io::Result<()> {
    match got {
        Ok(Got::Packet { peer, len }) => {
            let bytes = out.get(HEAD_BYTES..*len).unwrap_or(&[]);
            println!(rt;
                "{} from peer {}",
                str::from_utf8(bytes).unwrap_or("?"),
                peer.0
            )
        }
        Ok(Got::Nothing) => println!(rt; "nothing"),
        Err(Failed) => println!(rt; "failed"),
    }
}

fn recv(rt: &impl Print, link: &mut impl Link) -> io::Result<()> {
    let mut out = [0; MOST_LINK_BYTES];
    let got = link.recv(&mut out);
    tell_got(rt, &got, &out)
}

fn recv_one(rt: &impl Print, link: &mut impl Link) -> io::Result<()> {
    let mut out = [0; MOST_LINK_BYTES];
    let got = await_one(link, &mut out);
    tell_got(rt, &got, &out)
}

// A datagram that begins as a packet does, with a text behind its header, to the peer of this
// number.
fn send(rt: &impl Print, link: &mut impl Link, rest: &str) -> io::Result<()> {
    let (peer, text) = rest.split_once(' ').unwrap_or((rest, ""));
    let Ok(peer) = peer.parse::<u8>() else {
        return println!(rt; "no such peer");
    };
    let mut head = [0; HEAD_BYTES];
    head[0] = MAGIC;
    let sent = link.send(Peer(peer), &head, text.as_bytes());
    println!(rt; "{sent:?}")
}

// A request to connect in this life, to peer 0.
fn connect(rt: &impl Print, link: &mut impl Link, life: &str) -> io::Result<()> {
    let Ok(life) = life.parse::<u8>() else {
        return println!(rt; "no such life");
    };
    let mut head = [0; HEAD_BYTES];
    let request = ControlHeader {
        kind: ControlKind::ConnectRequest,
        client: SessionNo(0),
        server: None,
        credits: 1,
        status: 0,
        from_life: Life(u32::from(life.max(1))),
        to_life: None,
    };
    encode(&Packet::Control(request), &mut head);
    println!(rt; "{:?}", link.send(Peer(0), &head, &[]))
}

fn forget(rt: &impl Print, link: &mut impl Link, peer: &str) -> io::Result<()> {
    let Ok(peer) = peer.parse::<u8>() else {
        return println!(rt; "no such peer");
    };
    link.forget(Peer(peer));
    println!(rt; "done")
}

fn call(rt: &impl Print, link: &mut impl Link, step: &str) -> io::Result<()> {
    let (name, rest) = step.split_once(' ').unwrap_or((step, ""));
    match name {
        "bind" => println!(rt; "{:?}", link.bind(rest)),
        "peer" => println!(rt; "{:?}", link.peer(rest)),
        "send" => send(rt, link, rest),
        "connect" => connect(rt, link, rest),
        "forget" => forget(rt, link, rest),
        "recv" => recv(rt, link),
        "await" => recv_one(rt, link),
        _ => println!(rt; "no such call"),
    }
}

fn call_all(
    rt: &impl Print,
    here: &mut impl Link,
    there: &mut impl Link,
    yonder: &mut impl Link,
    alone: &mut impl Link,
    calls: &str,
) -> io::Result<()> {
    for line in calls.lines() {
        print!(rt; "{line}: ")?;
        match line.split_once(' ') {
            Some(("here", step)) => call(rt, here, step)?,
            Some(("there", step)) => call(rt, there, step)?,
            Some(("yonder", step)) => call(rt, yonder, step)?,
            Some(("alone", step)) => call(rt, alone, step)?,
            _ => println!(rt; "no such link")?,
        }
    }
    Ok(())
}

/// Makes four links, and tells what these calls answer.
pub fn drive<R: Print + Net>(rt: &R, alloc: Global, calls: &str) -> io::Result<()> {
    let mut here = UdpLink::new(alloc, rt);
    let mut there = UdpLink::new(alloc, rt);
    let mut yonder = UdpLink::new(alloc, rt);
    let mut alone = UdpLink::of_one(alloc, rt);
    call_all(rt, &mut here, &mut there, &mut yonder, &mut alone, calls)
}
