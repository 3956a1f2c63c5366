//! A link over a UDP socket, which waits nowhere but where it is told to.
ghost use Rattle.std.specs.Prelude.{◌≡◌, ◌≤◌, ◌+◌, None, IfOk, IfSome, IsErr, OnErr, length};
ghost use Rattle.rpc_outside.specs.declared.link.Taken.TheVariants.{Whole, Busy};
ghost use Rattle.memory_count.specs.Faults.{HasCause, HasRisen};

use crate::address::Address;
use crate::arrived::Arrived;
use crate::balance::Balance;
use crate::buffers::enlarge;
use crate::fates::{Fate, is_lost, is_passing};
use crate::lives::connect_life;
use crate::peers::Peers;
use crate::socket::{hear_only, send, wait};
use crate::trouble::Trouble;
use memory_count::{Memory, NoMemory};
use packet_frames::{Frame, is_frame, next_packet};
use packet_header::{FIRST_LIFE, Life, MAGIC};
use rpc_base::{HEAD_BYTES, Peer};
use rpc_outside::{Failed, Got, Link, MOST_LINK_BYTES, Taken};
use std::alloc::Global;
use std::net::{Net, SocketAddr, UdpSocket};
use std::os::fd::AsRawFd;

/// Whom a link hears.
#[derive(Clone, Copy, Debug, PartialEq, Eq)]
enum Hears {
    /// Whoever sends to it.
    Anybody,
    /// The peer that is named next, and nobody else from then on.
    NextNamed,
    /// The peer that was named first.
    FirstNamed,
}

/// A bound socket, the packets that wait to be handed over to it, and the datagram that came last.
#[derive(Drop)]
struct Open {
    socket: UdpSocket,
    frame: Frame,
    came: Arrived,
}

impl Open {
    // No packet waits, and nothing came.
    fn new(memory: &mut Memory, socket: UdpSocket) -> Result<Open, NoMemory>
        ensures cause { HasCause memory.old memory.new result }
    {
        let frame = Frame::new(memory)?;
        let came = Arrived::new(memory)?;
        Ok(Open {
            socket,
            frame,
            came,
        })
    }
}

/// A link over a UDP socket, which is bound once and never waits but where it is told to. Addresses
/// are numeric, of IPv4 or IPv6, with a port. Peers have numbers, up to 256 of them at a time;
/// those that an application named keep theirs, and others until they are forgotten. A number that
/// was forgotten goes to no peer that asks to connect in a lower life than an earlier one of it
/// did. Packets to a peer that opens frames go several in a datagram. What there is of one is
/// handed over where the next packet goes elsewhere or doesn't fit, where the link receives or
/// waits, and at `flush`.
pub struct UdpLink<'a, N: Net> {
    net: &'a N,
    memory: Memory,
    open: Option<Open>,
    peers: Peers,
    faults: u64,
    busies: u64,
    hears: Hears,
    /// Whose packets are in the frame.
    to: Peer,
    /// Whose datagram came last, and the address that it came from.
    from: Peer,
    sender: Address,
    /// Whether the system just said that no datagram is there, so that it needn't be asked again.
    is_vain: bool,
    /// Whether none is likely to be there, so that the system isn't asked.
    balance: Balance,
    /// What failed in a call that tells of no fault shows at the next one that does.
    hidden: Option<Trouble>,
    /// What failed last.
    trouble: Option<Trouble>,
}

// Written by hand, so that whoever lets a link go makes a call, and proves nothing of its parts.
impl<'a, N: Net> Drop for UdpLink<'a, N> {
    fn drop(self) {
        let UdpLink {
            net: _,
            memory: _memory,
            open: _open,
            peers: _peers,
            faults: _,
            busies: _,
            hears: _,
            to: _,
            from: _,
            sender: _sender,
            is_vain: _,
            balance: _,
            hidden: _,
            trouble: _,
        } = self;
    }
}

// The life in which a datagram may be of an end of this protocol: a header stands where its first
// packet does; its life where that asks to connect, else the first one. Who sends other datagrams
// gets no number.
fn life_of(datagram: &[u8]) -> Option<Life> {
    let span = next_packet(datagram, 0)?;
    let packet = datagram.get(span.start..span.end)?;
    if packet.len() < HEAD_BYTES || packet.first() != Some(&MAGIC) {
        return None;
    }
    Some(connect_life(packet).unwrap_or(Life(FIRST_LIFE)))
}

// Who sent a datagram. Nobody can be answered at port 0, and there are no more than 256 peers.
fn sender_of(
    memory: &mut Memory,
    peers: &mut Peers,
    address: &Address,
    datagram: &[u8],
) -> Option<Peer> {
    if address.port() == 0 {
        return None;
    }
    match peers.known(address) {
        Some(peer) => Some(peer),
        None => peers.add(memory, address, life_of(datagram)?),
    }
}

impl<'a, N: Net> UdpLink<'a, N> {
    /// A link without a socket, which didn't fail yet.
    pub fn new(alloc: Global, net: &'a N) -> UdpLink<'a, N>
        ensures faults { result.faults ≡ 0 }
        ensures busies { result.busies ≡ 0 }
    {
        UdpLink::hearing(alloc, net, Hears::Anybody)
    }

    /// The same for who calls one peer alone: from when it is bound and names a peer it hears
    /// nobody but the first that it named. Each datagram there and back costs the system less so.
    pub fn of_one(alloc: Global, net: &'a N) -> UdpLink<'a, N>
        ensures faults { result.faults ≡ 0 }
        ensures busies { result.busies ≡ 0 }
    {
        UdpLink::hearing(alloc, net, Hears::NextNamed)
    }

    fn hearing(alloc: Global, net: &'a N, hears: Hears) -> UdpLink<'a, N>
        ensures faults { result.faults ≡ 0 }
        ensures busies { result.busies ≡ 0 }
    {
        UdpLink {
            net,
            memory: Memory::new(alloc),
            open: None,
            peers: Peers::new(alloc),
            faults: 0,
            busies: 0,
            hears,
            to: Peer(0),
            from: Peer(0),
            sender: Address::none(),
            is_vain: false,
            balance: Balance::new(),
            hidden: None,
            trouble: None,
        }
    }

    /// Its memory, which tells how often it was refused.
    pub fn memory(&self) -> &Memory
        ensures { result.now ≡ self.now.memory }
    {
        &self.memory
    }

    /// Why the call failed that failed last.
    pub fn trouble(&self) -> Option<Trouble> {
        self.trouble
    }

    // A fault is counted, and what it was is kept.
    fn fail<T>(&mut self, trouble: Trouble) -> Result<T, Failed>
        ensures failed { IsErr result }
        ensures busies { self.new.busies ≡ self.old.busies }
        ensures risen { HasRisen self.old.faults self.new.faults }
    {
        self.faults = self.faults.saturating_add(1);
        self.trouble = Some(trouble);
        Err(Failed)
    }

    // What failed before shows now.
    fn show(&mut self) -> Result<(), Failed>
        ensures busies { self.new.busies ≡ self.old.busies }
        ensures cause { HasCause self.old.faults self.new.faults result }
    {
        let Some(trouble) = self.hidden else {
            return Ok(());
        };
        self.hidden = None;
        self.fail(trouble)
    }

    // Hears nobody else from now on, where this peer is the first that a link of one names.
    fn hear(&mut self, peer: Peer)
        ensures faults { self.new.faults ≡ self.old.faults }
        ensures busies { self.new.busies ≡ self.old.busies }
    {
        if self.hears != Hears::NextNamed {
            return;
        }
        if let (Some(open), Some(address)) = (&self.open, self.peers.address(peer)) {
            hear_only(open.socket.as_raw_fd(), address);
            self.hears = Hears::FirstNamed;
        }
    }

    // A packet wasn't taken.
    fn refuse(&mut self) -> Taken
        ensures busy { result ≡ Busy }
        ensures risen { HasRisen self.old.busies self.new.busies }
        ensures faults { self.new.faults ≡ self.old.faults }
    {
        self.busies = self.busies.saturating_add(1);
        Taken::Busy
    }

    // Hands the packets of the frame to the system, if there are any. Where it is busy they stay.
    fn hand_over(&mut self) -> Fate
        ensures faults { self.new.faults ≡ self.old.faults }
        ensures busies { self.new.busies ≡ self.old.busies }
    {
        let Some(open) = &mut self.open else {
            return Fate::Gone;
        };
        if open.frame.is_empty() {
            return Fate::Gone;
        }
        let Some(address) = self.peers.address(self.to) else {
            open.frame.clear();
            return Fate::Gone;
        };
        let fate = Fate::of(send(open.socket.as_raw_fd(), open.frame.datagram(), address));
        if fate != Fate::Busy {
            open.frame.clear();
        }
        fate
    }

    // The same, in a call that tells of no fault.
    fn hand_over_silently(&mut self)
        ensures faults { self.new.faults ≡ self.old.faults }
        ensures busies { self.new.busies ≡ self.old.busies }
    {
        if let Fate::Fault(kind) = self.hand_over() {
            self.hidden = Some(Trouble::NotSent(kind));
        }
    }

    // Puts a packet into the frame of this peer, where it has room there.
    fn put(&mut self, to: Peer, head: &[u8], body: &[u8]) -> bool
        requires { length head.now + length body.now ≤ MOST_LINK_BYTES }
        ensures faults { self.new.faults ≡ self.old.faults }
        ensures busies { self.new.busies ≡ self.old.busies }
    {
        let most = self.peers.most(to);
        let Some(open) = &mut self.open else {
            return false;
        };
        if to != self.to && !open.frame.is_empty() {
            return false;
        }
        self.to = to;
        open.frame.push(head, body, most)
    }

    // What is in the frame is dropped.
    fn empty(&mut self)
        ensures faults { self.new.faults ≡ self.old.faults }
        ensures busies { self.new.busies ≡ self.old.busies }
    {
        if let Some(open) = &mut self.open {
            open.frame.clear();
        }
    }

    // What came last and isn't given out is dropped.
    fn drop_arrived(&mut self)
        ensures faults { self.new.faults ≡ self.old.faults }
        ensures busies { self.new.busies ≡ self.old.busies }
    {
        if let Some(open) = &mut self.open {
            open.came.clear();
        }
    }

    // A packet to a peer that opens no frames goes at once, or isn't taken.
    fn go_alone(&mut self) -> Result<Taken, Failed>
        ensures whole { IfOk result (λ t. t ≡ Whole → self.new.busies ≡ self.old.busies) }
        ensures busy { IfOk result (λ t. t ≡ Busy → HasRisen self.old.busies self.new.busies) }
        ensures fault { OnErr result (self.new.busies ≡ self.old.busies) }
        ensures cause { HasCause self.old.faults self.new.faults result }
    {
        match self.hand_over() {
            Fate::Gone => Ok(Taken::Whole),
            Fate::Fault(kind) => self.fail(Trouble::NotSent(kind)),
            Fate::Busy => {
                self.empty();
                Ok(self.refuse())
            }
        }
    }

    // The next packet of the datagram that came last becomes the front of `out`; the result is its
    // length.
    fn give(&mut self, out: &mut [u8; MOST_LINK_BYTES]) -> Option<usize>
        ensures faults { self.new.faults ≡ self.old.faults }
        ensures busies { self.new.busies ≡ self.old.busies }
        ensures long { IfSome result (λ len. len ≤ MOST_LINK_BYTES) }
    {
        let Some(open) = &mut self.open else {
            return None;
        };
        let len = open.came.next(out)?;
        if let Some(life) = connect_life(&out[..len]) {
            self.peers.tell(self.from, life);
        }
        self.balance.note_given();
        Some(len)
    }

    // A datagram came. It is passed over where its sender is no peer.
    fn take_in(&mut self)
        ensures faults { self.new.faults ≡ self.old.faults }
        ensures busies { self.new.busies ≡ self.old.busies }
    {
        let Some(open) = &mut self.open else {
            return;
        };
        let datagram = open.came.datagram();
        let Some(peer) = sender_of(&mut self.memory, &mut self.peers, &self.sender, datagram) else {
            open.came.clear();
            return;
        };
        if is_frame(datagram) {
            self.peers.note_frame(peer, datagram.len());
        }
        self.from = peer;
    }
}

impl<'a, N: Net> Link for UdpLink<'a, N> {
    ghost sent = { λ l. None };

    ghost received = { λ l. None };

    ghost waiting = { λ l. None };

    ghost bound = { λ _. None };

    ghost numbers = { λ _ _. None };

    ghost faults = { λ l. l.faults };

    ghost busies = { λ l. l.busies };

    fn bind(&mut self, addr: &str) -> Result<(), Failed> {
        let Ok(addr) = addr.parse::<SocketAddr>() else {
            return self.fail(Trouble::NoOwnAddress);
        };
        let socket = match self.net.bind_udp(addr) {
            Ok(socket) => socket,
            Err(error) => {
                let kind = error.kind();
                return self.fail(Trouble::NotBound { addr, kind });
            }
        };
        if let Err(error) = socket.set_nonblocking(true) {
            return self.fail(Trouble::Waits(error.kind()));
        }
        enlarge(&socket);
        let Ok(open) = Open::new(&mut self.memory, socket) else {
            return self.fail(Trouble::NoMemory);
        };
        self.open = Some(open);
        Ok(())
    }

    fn peer(&mut self, addr: &str) -> Result<Peer, Failed> {
        let Ok(addr) = addr.parse::<SocketAddr>() else {
            return self.fail(Trouble::NoPeerAddress);
        };
        match self.peers.named(&mut self.memory, &Address::of(addr)) {
            Some(peer) => {
                self.hear(peer);
                Ok(peer)
            }
            None => self.fail(Trouble::NoNumber(addr)),
        }
    }

    fn send(&mut self, to: Peer, head: &[u8], body: &[u8]) -> Result<Taken, Failed> {
        self.show()?;
        self.is_vain = false;
        let is_known = self.open.is_some() && self.peers.address(to).is_some();
        if !is_known || head.len() + body.len() > MOST_LINK_BYTES {
            return self.fail(Trouble::NoWay);
        }
        if !self.put(to, head, body) {
            match self.hand_over() {
                Fate::Gone => {}
                Fate::Busy => return Ok(self.refuse()),
                Fate::Fault(kind) => return self.fail(Trouble::NotSent(kind)),
            }
            // Nothing is in the frame now, so there is room.
            if !self.put(to, head, body) {
                return self.fail(Trouble::NoWay);
            }
        }
        self.balance.note_sent();
        if self.peers.most(to) > 0 {
            return Ok(Taken::Whole);
        }
        self.go_alone()
    }

    fn recv(&mut self, out: &mut [u8; MOST_LINK_BYTES]) -> Result<Got, Failed> {
        self.show()?;
        let from = self.from;
        if let Some(len) = self.give(out) {
            return Ok(Got::Packet { peer: from, len });
        }
        if let Fate::Fault(kind) = self.hand_over() {
            return self.fail(Trouble::NotSent(kind));
        }
        if self.is_vain {
            self.is_vain = false;
            return Ok(Got::Nothing);
        }
        if self.balance.is_even() {
            return Ok(Got::Nothing);
        }
        let Some(open) = &mut self.open else {
            return self.fail(Trouble::NoWay);
        };
        match open.came.receive(open.socket.as_raw_fd(), &mut self.sender) {
            Ok(()) => {
                self.balance.note_one();
                self.take_in();
                let peer = self.from;
                match self.give(out) {
                    Some(len) => Ok(Got::Packet { peer, len }),
                    None => Ok(Got::Nothing),
                }
            }
            Err(error) if is_lost(error.kind()) || is_passing(error.kind()) => {
                self.balance.note_none();
                Ok(Got::Nothing)
            }
            Err(error) => self.fail(Trouble::NotReceived(error.kind())),
        }
    }

    /// Hands over what is in the frame. Where the system is busy it stays there.
    fn flush(&mut self) {
        self.hand_over_silently();
    }

    /// Hands over what is in the frame, and waits for the socket. It ends at once where packets of
    /// the datagram that came last aren't given out yet. Where it waited in vain the next `recv`
    /// gives out nothing, without asking the system again.
    fn wait(&mut self, micros: u32) {
        self.hand_over_silently();
        if let Some(open) = &self.open {
            if open.came.is_done() {
                self.is_vain = !wait(open.socket.as_raw_fd(), micros);
                if self.is_vain {
                    self.balance.note_wait();
                }
            }
        }
    }

    /// Frames to the peer have 1,088 bytes at least, and 65,507 at most.
    fn pack(&mut self, peer: Peer, bytes: u32) {
        self.peers.name(peer, bytes);
    }

    /// What is in the frame for the peer is handed over, or dropped where the system is busy; what
    /// came from it and isn't given out is dropped. Nothing happens where an application named it.
    fn forget(&mut self, peer: Peer) {
        if self.peers.is_kept(peer) {
            return;
        }
        if self.to == peer {
            self.hand_over_silently();
            self.empty();
        }
        if self.from == peer {
            self.drop_arrived();
        }
        self.peers.forget(peer);
    }
}
