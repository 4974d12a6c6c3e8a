//! A packet of which one byte was changed, or that was cut or extended. Why each is refused follows from the table of
//! the formats, by the field of the byte.
use crate::tests::four::{Four, Told, check};
use crate::tests::spelled::{BEHIND_HEIGHT, batch, request, request_packet, word};
use iss_rules::Why;
use std::alloc::{AllocError, Global};
use std::process::Abort;
use std::test::Fail;

/// Which field of a packet a byte belongs to.
#[derive(Clone, Copy, Debug, PartialEq, Eq)]
enum Part {
    /// The byte is fixed: with any other byte there, no packet has this encoding.
    Form,
    /// A node's number.
    Node,
    Epoch,
    /// What a signature is about, or a part of it.
    Signed,
}

// The fields of a leader's message on a batch with one request. Version, kind, sender, epoch, leader, length; the
// message's number, and the slot; the batch's first byte and its count; client and number, the payload's length, and
// the payload; the request's signature, and the message's own: its height and the rest.
const WORD: [(usize, Part); 15] = [
    (2, Part::Form),
    (1, Part::Node),
    (8, Part::Epoch),
    (1, Part::Node),
    (4, Part::Form),
    (1, Part::Form),
    (8, Part::Signed),
    (2, Part::Form),
    (5, Part::Signed),
    (2, Part::Form),
    (3, Part::Signed),
    (1, Part::Form),
    (BEHIND_HEIGHT, Part::Signed),
    (1, Part::Form),
    (BEHIND_HEIGHT, Part::Signed),
];

// The field of the byte at this place.
fn part_at(fields: &[(usize, Part)], place: usize) -> Part {
    let mut left = place;
    for (bytes, part) in fields {
        if left < *bytes {
            return *part;
        }
        left -= *bytes;
    }
    Part::Form
}

fn total_of(fields: &[(usize, Part)]) -> usize {
    let mut total = 0usize;
    for (bytes, _) in fields {
        total = total.wrapping_add(*bytes);
    }
    total
}

// The number in these bytes.
fn number_of(bytes: &[u8]) -> u64 {
    let mut number = 0u64;
    for byte in bytes {
        number = number.wrapping_mul(256).wrapping_add(u64::from(*byte));
    }
    number
}

// What a node in the first epoch answers if this part is changed to these bytes: the changed byte, and the epoch.
fn answer(part: Part, byte: u8, epoch: u64) -> Told {
    match part {
        Part::Form => Told::Lost(Why::NotPacket),
        Part::Signed => Told::Lost(Why::BadClaim),
        Part::Node if byte < 4 => Told::Lost(Why::BadClaim),
        Part::Node => Told::Lost(Why::NotPacket),
        Part::Epoch if epoch == 1 => Told::Done,
        Part::Epoch => Told::Lost(Why::OtherEpoch),
    }
}

fn expected(part: Part, changed: &[u8], place: usize) -> Told {
    let byte = changed.get(place).copied().unwrap_or(0);
    answer(part, byte, number_of(changed.get(3..11).unwrap_or(&[])))
}

const MASKS: [u8; 8] = [1, 2, 4, 8, 16, 32, 64, 128];

// The masks that change the byte at this place: each bit, or one bit for signed parts.
fn masks_at(part: Part, place: usize) -> &'static [u8] {
    let only = place % 8;
    match part {
        Part::Signed => &MASKS[only..only + 1],
        _ => &MASKS,
    }
}

// The same bytes, with the bits of the mask changed at this place.
fn changed(alloc: Global, bytes: &[u8], place: usize, mask: u8) -> Result<Vec<u8>, AllocError> {
    let mut all = Vec::from_slice(alloc, bytes)?;
    if let Some(byte) = all.get_mut(place) {
        *byte ^= mask;
    }
    Ok(all)
}

// Node 2 receives the packet with changed bits at this place.
fn try_mask(
    rt: &impl Abort,
    alloc: Global,
    four: &mut Four,
    packet: &[u8],
    place: usize,
    mask: u8,
) -> Result<(), Fail> {
    let packet = changed(alloc, packet, place, mask)?;
    let told = four.take(alloc, 2, &packet)?;
    let expected = expected(part_at(&WORD, place), &packet, place);
    check(rt, told, expected, place);
    Ok(())
}

fn try_at(
    rt: &impl Abort,
    alloc: Global,
    four: &mut Four,
    packet: &[u8],
    place: usize,
) -> Result<(), Fail> {
    for mask in masks_at(part_at(&WORD, place), place) {
        try_mask(rt, alloc, four, packet, place, *mask)?;
    }
    Ok(())
}

// Node 2 receives the packet with each byte changed, and then unchanged.
fn try_each(rt: &impl Abort, alloc: Global, four: &mut Four, packet: &[u8]) -> Result<(), Fail> {
    assert_eq!(rt; total_of(&WORD), packet.len());
    for place in 0..packet.len() {
        try_at(rt, alloc, four, packet, place)?;
    }
    let told = four.take(alloc, 2, packet)?;
    check(rt, told, Told::Done, packet.len());
    Ok(())
}

// Node 2 accepts no proper prefix of a packet, and no packet with a byte after it.
fn try_parts(rt: &impl Abort, alloc: Global, four: &mut Four, packet: &[u8]) -> Result<(), Fail> {
    for count in 0..packet.len() {
        let told = four.take(alloc, 2, packet.get(..count).unwrap_or(&[]))?;
        check(rt, told, Told::Lost(Why::NotPacket), count);
    }
    let mut longer = Vec::from_slice(alloc, packet)?;
    longer.push(0)?;
    let told = four.take(alloc, 2, &longer)?;
    check(rt, told, Told::Lost(Why::NotPacket), packet.len());
    Ok(())
}

// Node 1 receives the request and proposes it.
fn cast(rt: &impl Abort, alloc: Global, four: &mut Four, request: &[u8]) -> Result<(), Fail> {
    let packet = request_packet(alloc, request)?;
    let told = four.take(alloc, 1, &packet)?;
    check(rt, told, Told::Done, 0);
    check(rt, four.propose(alloc, 1), Told::Done, 1);
    Ok(())
}

// What all nodes have once node 0 has proposed too and all packets are delivered: both batches.
fn goes_on(rt: &impl Abort, alloc: Global, four: &mut Four) {
    check(rt, four.propose(alloc, 0), Told::Done, 0);
    check(rt, four.calm(alloc), Told::Done, 1);
    for node in 0..4u32 {
        assert_eq!(rt; four.slots(node), 2, "at {node}");
    }
}

// The message that node 1 really sends on the batch with this request.
fn word_of(alloc: Global, request: &[u8]) -> Result<Vec<u8>, Fail> {
    let value = batch(alloc, request)?;
    word(alloc, 1, 0, &value)
}

// All of this in one world, with that message.
fn try_word(
    rt: &impl Abort,
    alloc: Global,
    four: &mut Four,
    request: &[u8],
    word: &[u8],
) -> Result<(), Fail> {
    cast(rt, alloc, four, request)?;
    try_parts(rt, alloc, four, word)?;
    try_each(rt, alloc, four, word)?;
    goes_on(rt, alloc, four);
    Ok(())
}

fn try_in_a_run(rt: &impl Abort, alloc: Global, request: &[u8]) -> Result<(), Fail> {
    let word = word_of(alloc, request)?;
    let mut four = Four::start(alloc)?;
    try_word(rt, alloc, &mut four, request, &word)
}

#[test]
fn a_changed_word_is_refused_by_name(rt: HostRuntime) -> Result<(), Fail> {
    let request = request(rt.alloc(), 1, 0)?;
    try_in_a_run(&rt, rt.alloc(), &request)
}
