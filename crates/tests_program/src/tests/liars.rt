//! Node 0 is Byzantine: it sends one batch to node 1 and another one to nodes 2 and 3.
use crate::tests::four::{Four, Told, check};
use crate::tests::spelled::{ECHO, SAY, batch, echo, request, word, word_signed_as};
use iss_request::Epoch;
use iss_rules::Why;
use std::alloc::{AllocError, Global};
use std::process::Abort;
use std::test::Fail;

// The batch of a request of client 0, as a value.
fn value(alloc: Global, number: u32) -> Result<Vec<u8>, Fail> {
    let request = request(alloc, 0, number)?;
    Ok(batch(alloc, &request)?)
}

fn put_signed(
    alloc: Global,
    packets: &mut Vec<Vec<u8>>,
    node: u8,
    leaf: u32,
    value: &[u8],
) -> Result<(), Fail> {
    packets.push(word(alloc, node, leaf, value)?)?;
    packets.push(echo(alloc, node, leaf.wrapping_add(1), value)?)?;
    Ok(())
}

// What a node would send that proposes that batch: its message and its own echo of it, each signed with a leaf.
fn put_words(
    alloc: Global,
    packets: &mut Vec<Vec<u8>>,
    node: u8,
    number: u32,
    leaf: u32,
) -> Result<(), Fail> {
    let value = value(alloc, number)?;
    put_signed(alloc, packets, node, leaf, &value)
}

// What node 0 sends: its message and its echo of one batch, and then of another.
fn lies(alloc: Global) -> Result<Vec<Vec<u8>>, Fail> {
    let mut packets = Vec::new(alloc);
    put_words(alloc, &mut packets, 0, 0, 0)?;
    put_words(alloc, &mut packets, 0, 4, 2)?;
    Ok(packets)
}

// Which node receives which packet, in this order: node 1 the first message, the others the second, and all of them
// both echoes.
const TOLD: [(u32, usize); 9] = [
    (1, 0),
    (2, 2),
    (3, 2),
    (1, 1),
    (1, 3),
    (2, 1),
    (2, 3),
    (3, 1),
    (3, 3),
];

// A node receives this packet. The run continues.
fn tell(
    rt: &impl Abort,
    alloc: Global,
    four: &mut Four,
    node: u32,
    packet: &[u8],
) -> Result<(), Fail> {
    assert!(rt; node < 4);
    let told = four.take(alloc, node, packet)?;
    assert!(rt;
        matches!(told, Told::Done | Told::Lost(_)),
        "{told:?} to {node}"
    );
    Ok(())
}

// The run continues with all of them.
fn tell_all(
    rt: &impl Abort,
    alloc: Global,
    four: &mut Four,
    packets: &[Vec<u8>],
) -> Result<(), Fail> {
    for (node, place) in TOLD {
        let Some(packet) = packets.get(place) else {
            panic!(rt; "there is a packet {place}");
        };
        tell(rt, alloc, four, node, packet)?;
    }
    check(rt, four.calm(alloc), Told::Done, 9);
    Ok(())
}

// How many slots each node has delivered. All must be in the first epoch.
fn stand(rt: &impl Abort, four: &Four, slots: [usize; 4]) {
    for node in 0..4u32 {
        assert_eq!(rt; four.slots(node), slots[node as usize], "at {node}");
        assert!(rt; four.epoch(node) == Epoch(0));
    }
}

// Nodes 2 and 3 deliver the batch that they received, and node 1 delivers none. So no two nodes deliver different
// batches.
#[test]
fn a_liar_makes_no_two_logs(rt: HostRuntime) -> Result<(), Fail> {
    let packets = lies(rt.alloc())?;
    let mut four = Four::start(rt.alloc())?;
    tell_all(&rt, rt.alloc(), &mut four, &packets)?;
    stand(&rt, &four, [0, 0, 1, 1]);
    Ok(())
}

// The same packet with its last byte changed, which is in its signature.
fn damaged(alloc: Global, packet: &[u8]) -> Result<Vec<u8>, AllocError> {
    let mut bytes = Vec::from_slice(alloc, packet)?;
    if let Some(last) = bytes.last_mut() {
        *last ^= 1;
    }
    Ok(bytes)
}

// A signature that does not verify is refused. One of node 1 that it never made ends the run, before node 2 has
// received it; every later call gets the same answer.
fn forge(
    rt: &impl Abort,
    alloc: Global,
    four: &mut Four,
    packet: &[u8],
    bad: &[u8],
) -> Result<(), Fail> {
    let told = four.take(alloc, 2, bad)?;
    check(rt, told, Told::Lost(Why::BadClaim), 0);
    let told = four.take(alloc, 2, packet)?;
    check(rt, told, Told::Forged, 1);
    let told = four.take(alloc, 3, bad)?;
    check(rt, told, Told::Forged, 2);
    check(rt, four.propose(alloc, 1), Told::Forged, 3);
    stand(rt, four, [0, 0, 0, 0]);
    Ok(())
}

// All of this in a new world.
fn forge_in_a_run(rt: &impl Abort, alloc: Global, packet: &[u8]) -> Result<(), Fail> {
    let bad = damaged(alloc, packet)?;
    let mut four = Four::start(alloc)?;
    forge(rt, alloc, &mut four, packet, &bad)
}

#[test]
fn a_forged_claim_ends_a_run(rt: HostRuntime) -> Result<(), Fail> {
    let value = value(rt.alloc(), 3)?;
    let packet = word(rt.alloc(), 1, 0, &value)?;
    forge_in_a_run(&rt, rt.alloc(), &packet)
}

// A node's message that was signed as this has no effect, and does not end the run.
fn goes_by(
    rt: &impl Abort,
    alloc: Global,
    four: &mut Four,
    node: u8,
    as_what: (u8, u8),
) -> Result<(), Fail> {
    let value = value(alloc, 3)?;
    let packet = word_signed_as(alloc, node, as_what, &value)?;
    let told = four.take(alloc, 2, &packet)?;
    check(rt, told, Told::Lost(Why::BadClaim), usize::from(node));
    Ok(())
}

fn all_go_by(rt: &impl Abort, alloc: Global, four: &mut Four) -> Result<(), Fail> {
    goes_by(rt, alloc, four, 0, (0, ECHO))?;
    goes_by(rt, alloc, four, 0, (1, SAY))?;
    goes_by(rt, alloc, four, 1, (1, ECHO))?;
    goes_by(rt, alloc, four, 1, (2, SAY))?;
    stand(rt, four, [0, 0, 0, 0]);
    Ok(())
}

// What was signed as an echo, or in another leader's instance, is no leader's message here. This holds for the
// Byzantine node 0 and for node 1.
#[test]
fn what_was_signed_elsewhere_is_no_claim_here(rt: HostRuntime) -> Result<(), Fail> {
    let mut four = Four::start(rt.alloc())?;
    all_go_by(&rt, rt.alloc(), &mut four)
}
