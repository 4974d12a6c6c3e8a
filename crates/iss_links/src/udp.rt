// Links over UDP sockets of 127.0.0.1: the trusted edge. Nothing is proved about which frames arrive.
ghost use Rattle.std.specs.Prelude.{◌≡◌, ◌≤◌, ◌<◌, ◌+◌, ◌*◌, Ok, IfOk, IsErr, IfSome, length};
ghost use Rattle.iss_links.specs.Calls.{HasCause};

use crate::frames::{PACKET_MAX, Packet, Part, write_frame};
use crate::{Arrival, EndError, Failed, Links, NoMemory, Reassembly};
use std::alloc::Global;
use std::io;
use std::io::ErrorKind;
use std::net::{Ipv4Addr, Net, UdpSocket};
use std::time::Duration;

// One byte more than the longest frame has. A longer datagram is cut to this length, and so is no frame.
const BUFFER: usize = 1042;

// How many milliseconds an end alone waits for a frame. So 64 turns without a frame take at least as many.
const WAIT_MILLIS: u64 = 1;

// An end: its number, its socket, and its partial packets.
#[derive(Drop)]
struct UdpEnd {
    number: u32,
    socket: UdpSocket,
    partials: Reassembly,
}

/// Links over UDP sockets of 127.0.0.1. A call that the system refuses is a fault, and so is a call at an end that was
/// not made. A frame for which the system has no room is lost. A take at the only end waits about a millisecond for a
/// frame; at one of several it does not wait.
#[derive(Drop)]
pub struct UdpLinks<R: Net> {
    net: R,
    alloc: Global,
    port: u16,
    ends: Vec<UdpEnd>,
    faults: u64,
    ghost low: { port ≤ 65000 },
}

impl<R: Net> UdpLinks<R> {
    /// Links without an end.
    pub fn new(net: R, alloc: Global) -> Self
        ensures { result.faults ≡ 0 }
    {
        UdpLinks {
            net,
            alloc,
            port: 0,
            ends: Vec::new(alloc),
            faults: 0,
        }
    }
}

// Counts a fault if the system refused the call.
fn count_fault<T: Drop>(answer: io::Result<T>, faults: &mut u64) -> Result<T, Failed>
    ensures value { IfOk result (λ value. answer ≡ Ok value) }
    ensures cause { HasCause faults.old faults.new (IsErr result) }
{
    match answer {
        Ok(value) => Ok(value),
        Err(_) => {
            *faults = faults.saturating_add(1);
            Err(Failed)
        }
    }
}

// A socket at this port. Of several ends in one process each only looks whether a frame is there: what the others send
// is there at once. An end alone waits a little for a frame of another process.
fn open<R: Net>(net: &R, port: u16, is_alone: bool) -> io::Result<UdpSocket> {
    let socket = UdpSocket::bind(net, (Ipv4Addr::LOCALHOST, port))?;
    if is_alone {
        socket.set_read_timeout(Some(Duration::from_millis(WAIT_MILLIS)))?;
    } else {
        socket.set_nonblocking(true)?;
    }
    Ok(socket)
}

// An end at this port.
fn open_end<R: Net>(
    net: &R,
    alloc: Global,
    port: u16,
    number: u32,
    is_alone: bool,
) -> io::Result<UdpEnd> {
    let socket = open(net, port, is_alone)?;
    Ok(UdpEnd {
        number,
        socket,
        partials: Reassembly::new(alloc),
    })
}

// Ends by number: `first` to `first + count - 1`. End i is at port `port + i`.
#[derive(Drop)]
struct Ports {
    port: u16,
    first: u32,
    count: u32,
    ghost low: { port ≤ 65000 },
    ghost few: { first + count ≤ 256 },
}

// The ends at these ports, or the first refusal of the system.
fn open_all<R: Net>(
    net: &R,
    alloc: Global,
    ports: &Ports,
) -> Result<io::Result<Vec<UdpEnd>>, NoMemory> {
    let mut ends = Vec::new(alloc);
    for number in ports.first..ports.first + ports.count {
        match open_end(
            net,
            alloc,
            ports.port + number as u16,
            number,
            ports.count == 1,
        ) {
            Ok(end) => ends.push(end)?,
            Err(error) => return Ok(Err(error)),
        }
    }
    Ok(Ok(ends))
}

// `None` if the call would block, or waited in vain.
fn none_if_blocked<T: Drop>(answer: io::Result<T>) -> io::Result<Option<T>>
    ensures { IfOk result (λ r. IfSome r (λ value. answer ≡ Ok value)) }
{
    match answer {
        Ok(value) => Ok(Some(value)),
        Err(error) => match error.kind() {
            ErrorKind::WouldBlock => Ok(None),
            _ => Err(error),
        },
    }
}

// The index of the end with this number.
fn index_of(ends: &[UdpEnd], number: u32) -> io::Result<usize>
    ensures { IfOk result (λ i. i < length ends.now) }
{
    for i in 0..ends.len() {
        if ends[i].number == number {
            return Ok(i);
        }
    }
    Err(ErrorKind::NotFound.into())
}

// Sends a datagram, which is lost if the system has no room for it.
fn send_datagram(socket: &UdpSocket, port: u16, datagram: &[u8]) -> io::Result<()> {
    none_if_blocked(socket.send_to(datagram, (Ipv4Addr::LOCALHOST, port)))?;
    Ok(())
}

// Receives a datagram, if one waits, and returns its length.
fn receive(socket: &UdpSocket, into: &mut [u8]) -> io::Result<Option<usize>>
    ensures { IfOk result (λ r. IfSome r (λ n. n ≤ length into.old)) }
{
    match none_if_blocked(socket.recv_from(into))? {
        Some((len, _)) => Ok(Some(len)),
        None => Ok(None),
    }
}

// The datagram of a part of a packet.
fn datagram_of(alloc: Global, from: u8, number: u64, part: &Part) -> Result<Vec<u8>, NoMemory> {
    let frame = part.frame(alloc, from, number)?;
    write_frame(alloc, &frame)
}

impl UdpEnd {
    // Sends a packet to a port, or its parts before the first that the system refuses.
    fn send_parts(
        &self,
        alloc: Global,
        port: u16,
        from: u8,
        number: u64,
        packet: &Packet,
    ) -> Result<io::Result<()>, NoMemory> {
        for index in 0..packet.parts() {
            let part = Part {
                packet: &*packet,
                index,
            };
            let datagram = datagram_of(alloc, from, number, &part)?;
            let sent = send_datagram(&self.socket, port, &datagram);
            if sent.is_err() {
                return Ok(sent);
            }
        }
        Ok(Ok(()))
    }

    // Takes a frame, if one waits.
    fn take_one(&mut self, alloc: Global) -> Result<io::Result<Arrival>, NoMemory> {
        let mut buffer = [0u8; BUFFER];
        match receive(&self.socket, &mut buffer) {
            Ok(Some(len)) => Ok(Ok(self.partials.take_datagram(alloc, &buffer[..len])?)),
            Ok(None) => Ok(Ok(Arrival::Nothing)),
            Err(error) => Ok(Err(error)),
        }
    }
}

impl<R: Net> Links for UdpLinks<R> {
    ghost use Rattle.std.specs.Prelude.{None};

    ghost ends = { λ links. None };

    ghost faults = { λ links. links.faults };

    fn attach(&mut self, port: u16, first: u32, count: u32) -> Result<(), EndError> {
        self.ends = Vec::new(self.alloc);
        let ports = Ports { port, first, count };
        let opened = open_all(&self.net, self.alloc, &ports)?;
        self.ends = count_fault(opened, &mut self.faults)?;
        self.port = port;
        Ok(())
    }

    fn send(&mut self, from: u32, number: u64, to: u32, packet: &[u8]) -> Result<(), EndError> {
        let i = count_fault(index_of(&self.ends, from), &mut self.faults)?;
        if packet.len() > PACKET_MAX {
            return Ok(());
        }
        let port = self.port + to as u16;
        let whole = Packet { bytes: packet };
        let sent = self.ends[i].send_parts(self.alloc, port, from as u8, number, &whole)?;
        Ok(count_fault(sent, &mut self.faults)?)
    }

    fn take(&mut self, at: u32) -> Result<Arrival, EndError> {
        let i = count_fault(index_of(&self.ends, at), &mut self.faults)?;
        let taken = self.ends[i].take_one(self.alloc)?;
        Ok(count_fault(taken, &mut self.faults)?)
    }
}
