//! Journals of snapshots in which one part is another: what of it a node takes, and what makes the journal damaged.
ghost use Rattle.std.specs.Prelude.{◌<◌};

use crate::snapshots::{
    AT_FIRST, AT_SECOND, BEHIND, FIRST, OPENS, check_opens, cut, file_of, joined, request,
    two_snapshots,
};
use iss_journal::AttachError;
use std::alloc::Global;
use std::process::Abort;
use std::test::Fail;

// Parts of a snapshot: where each begins and ends in the file of both. In the first these are its next leaf, its third
// value, its only request, vote and early packet, and the last two bytes of the counts of requests, certificates and
// votes.
const LEAF: (usize, usize) = (28, 32);

const VALUE: (usize, usize) = (26, 28);

const WAITING_COUNT: (usize, usize) = (34, 36);

const WAITING: (usize, usize) = (36, 2256);

const CERT_COUNT: (usize, usize) = (2258, 2260);

const VOTE_COUNT: (usize, usize) = (2262, 2264);

const VOTE: (usize, usize) = (2264, 4526);

const EARLY: (usize, usize) = (4528, 4559);

// The only certificate of the second, and the last two bytes of the count.
const SECOND_COUNT: (usize, usize) = (6817, 6819);

const CERT: (usize, usize) = (6819, 11296);

// Node 1 asks for epoch 1, as an early packet behind its length.
const EARLY_ASK: &[u8] = &[0, 0, 0, 16, 1, 3, 1, 0, 0, 0, 0, 0, 0, 0, 1, 0, 0, 0, 0, 0];

// Checks a journal of these entries.
fn check(
    rt: &impl Abort,
    alloc: Global,
    entries: &[&[u8]],
    expected: Result<(), AttachError>,
) -> Result<(), Fail> {
    let file = file_of(alloc, entries)?;
    check_opens(rt, alloc, &file, expected)
}

// The first snapshot with these bytes in place of a part.
fn with_part(
    alloc: Global,
    all: &[u8],
    part: (usize, usize),
    bytes: &[u8],
) -> Result<Vec<u8>, Fail> {
    let before = cut(all, (FIRST.0, part.0));
    joined(alloc, &[before, bytes, cut(all, (part.1, FIRST.1))])
}

// Checks a journal of the first snapshot, which has these bytes in place of a part.
fn check_with(
    rt: &impl Abort,
    alloc: Global,
    all: &[u8],
    part: ((usize, usize), &[u8]),
    expected: Result<(), AttachError>,
) -> Result<(), Fail> {
    let entry = with_part(alloc, all, part.0, part.1)?;
    check(rt, alloc, &[&entry], expected)
}

// This number of copies of an item, behind the last two bytes of their count.
fn copies(alloc: Global, item: &[u8], count: u16) -> Result<Vec<u8>, Fail> {
    let mut all = Vec::new(alloc);
    all.extend_from_slice(&count.to_be_bytes())?;
    for _ in 0..count {
        all.extend_from_slice(item)?;
    }
    Ok(all)
}

// Checks the first snapshot with this number of copies of its only item, which stands right behind its count.
fn check_copies(
    rt: &impl Abort,
    alloc: Global,
    all: &[u8],
    items: ((usize, usize), u16),
    expected: Result<(), AttachError>,
) -> Result<(), Fail> {
    let ((from, to), count) = items;
    let bytes = copies(alloc, cut(all, (from, to)), count)?;
    let part = ((from.saturating_sub(2), to), bytes.as_slice());
    check_with(rt, alloc, all, part, expected)
}

#[test]
fn a_next_leaf_is_at_most_the_number_of_leaves(rt: HostRuntime) -> Result<(), Fail> {
    let alloc = rt.alloc();
    let all = two_snapshots(alloc, false)?;
    check_with(&rt, alloc, &all, (LEAF, &[0, 0, 0, 0]), OPENS)?;
    check_with(&rt, alloc, &all, (LEAF, &[0, 0, 0, 4]), OPENS)?;
    check_with(&rt, alloc, &all, (LEAF, &[0, 0, 0, 5]), AT_FIRST)
}

// A request or a vote that stands twice would be dropped, and so would an early packet behind 256 others.
#[test]
fn nothing_known_or_past_the_bound_stands_in_a_snapshot(rt: HostRuntime) -> Result<(), Fail> {
    let alloc = rt.alloc();
    let all = two_snapshots(alloc, false)?;
    for (items, expected) in [
        ((WAITING, 0), OPENS),
        ((WAITING, 2), AT_FIRST),
        ((VOTE, 0), OPENS),
        ((VOTE, 2), AT_FIRST),
        ((EARLY, 256), OPENS),
        ((EARLY, 257), AT_FIRST),
    ] {
        check_copies(&rt, alloc, &all, items, expected)?;
    }
    Ok(())
}

// Checks the first snapshot with a request of this number in place of its own. The window has two numbers.
fn check_request(
    rt: &impl Abort,
    alloc: Global,
    all: &[u8],
    number: u32,
    expected: Result<(), AttachError>,
) -> Result<(), Fail>
    requires { number < 4 }
{
    let packet = request(alloc, number)?;
    let body = cut(&packet, (16, packet.len()));
    check_with(rt, alloc, all, (WAITING, body), expected)
}

#[test]
fn a_waiting_request_is_inside_the_window(rt: HostRuntime) -> Result<(), Fail> {
    let alloc = rt.alloc();
    let all = two_snapshots(alloc, false)?;
    check_request(&rt, alloc, &all, 0, OPENS)?;
    check_request(&rt, alloc, &all, 1, OPENS)?;
    check_request(&rt, alloc, &all, 2, AT_FIRST)
}

// The first snapshot whose third value has the request that waits.
fn with_request_in_log(alloc: Global, all: &[u8]) -> Result<Vec<u8>, Fail> {
    let before = cut(all, (FIRST.0, VALUE.0));
    let behind = cut(all, (VALUE.1, FIRST.1));
    joined(alloc, &[before, &[1, 1], cut(all, WAITING), behind])
}

// The first snapshot where no request waits, and whose third value is no batch.
fn with_no_request(alloc: Global, all: &[u8]) -> Result<Vec<u8>, Fail> {
    let before = cut(all, (FIRST.0, VALUE.0));
    let between = cut(all, (VALUE.1, WAITING_COUNT.0));
    let behind = cut(all, (WAITING.1, FIRST.1));
    joined(alloc, &[before, &[0], between, &[0, 0], behind])
}

#[test]
fn a_waiting_request_is_not_in_the_log(rt: HostRuntime) -> Result<(), Fail> {
    let alloc = rt.alloc();
    let all = two_snapshots(alloc, false)?;
    let ordered = with_request_in_log(alloc, &all)?;
    check(&rt, alloc, &[&ordered], AT_FIRST)?;
    let empty = with_no_request(alloc, &all)?;
    check(&rt, alloc, &[&empty], OPENS)
}

#[test]
fn an_early_packet_is_a_message_of_an_instance(rt: HostRuntime) -> Result<(), Fail> {
    let alloc = rt.alloc();
    let all = two_snapshots(alloc, false)?;
    check_with(&rt, alloc, &all, (EARLY, EARLY_ASK), AT_FIRST)
}

// The first snapshot with the certificate of the second, and these votes behind the last two bytes of their count.
fn certified(alloc: Global, all: &[u8], votes: &[u8]) -> Result<Vec<u8>, Fail> {
    let before = cut(all, (FIRST.0, CERT_COUNT.0));
    let between = cut(all, (CERT_COUNT.1, VOTE_COUNT.0));
    let behind = cut(all, (VOTE.1, FIRST.1));
    joined(
        alloc,
        &[before, &[0, 1], cut(all, CERT), between, votes, behind],
    )
}

#[test]
fn a_snapshot_has_no_vote_for_a_certified_epoch(rt: HostRuntime) -> Result<(), Fail> {
    let alloc = rt.alloc();
    let all = two_snapshots(alloc, false)?;
    let voted = certified(alloc, &all, cut(&all, (VOTE_COUNT.0, VOTE.1)))?;
    check(&rt, alloc, &[&voted], AT_FIRST)
}

// The second snapshot with its certificate twice.
fn certified_twice(alloc: Global, all: &[u8]) -> Result<Vec<u8>, Fail> {
    let before = cut(all, (BEHIND.0, SECOND_COUNT.0));
    let behind = cut(all, (CERT.1, BEHIND.1));
    joined(
        alloc,
        &[before, &[0, 2], cut(all, CERT), cut(all, CERT), behind],
    )
}

#[test]
fn a_certificate_stands_once_in_a_snapshot(rt: HostRuntime) -> Result<(), Fail> {
    let alloc = rt.alloc();
    let all = two_snapshots(alloc, false)?;
    let twice = certified_twice(alloc, &all)?;
    check(&rt, alloc, &[cut(&all, FIRST), &twice], AT_SECOND)
}

#[test]
fn a_certificate_stands_in_one_snapshot(rt: HostRuntime) -> Result<(), Fail> {
    let alloc = rt.alloc();
    let all = two_snapshots(alloc, false)?;
    let certified = certified(alloc, &all, &[0, 0])?;
    check(&rt, alloc, &[&certified], OPENS)?;
    let at = certified.len() as u64 + 5;
    check(
        &rt,
        alloc,
        &[&certified, cut(&all, BEHIND)],
        Err(AttachError::Damaged { at }),
    )
}

// What stands between two snapshots is not read. What stands behind the last one is.
#[test]
fn an_event_behind_the_last_snapshot_is_read(rt: HostRuntime) -> Result<(), Fail> {
    let alloc = rt.alloc();
    let all = two_snapshots(alloc, false)?;
    check(
        &rt,
        alloc,
        &[cut(&all, FIRST), &[9], cut(&all, BEHIND)],
        OPENS,
    )?;
    check(&rt, alloc, &[cut(&all, FIRST), &[9]], AT_SECOND)?;
    check(&rt, alloc, &[cut(&all, FIRST), &[4, 2]], OPENS)?;
    check(&rt, alloc, &[cut(&all, FIRST), &[4, 3]], AT_SECOND)
}

// Checks the first snapshot with these requests behind the last two bytes of their count, and request 1 as an event.
fn check_event(
    rt: &impl Abort,
    alloc: Global,
    all: &[u8],
    requests: &[u8],
    expected: Result<(), AttachError>,
) -> Result<(), Fail> {
    let entry = with_part(alloc, all, (WAITING_COUNT.0, WAITING.1), requests)?;
    let packet = request(alloc, 1)?;
    let event = joined(alloc, &[&[1], &packet])?;
    check(rt, alloc, &[&entry, &event], expected)
}

// An event that the node would drop: the request that waits, once more.
#[test]
fn an_event_that_would_be_dropped_is_damaged(rt: HostRuntime) -> Result<(), Fail> {
    let alloc = rt.alloc();
    let all = two_snapshots(alloc, false)?;
    let requests = cut(&all, (WAITING_COUNT.0, WAITING.1));
    check_event(&rt, alloc, &all, requests, AT_SECOND)?;
    check_event(&rt, alloc, &all, &[0, 0], OPENS)
}
