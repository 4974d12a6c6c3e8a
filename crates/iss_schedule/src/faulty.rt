//! The last line of a header, which names the faulty nodes.
ghost use Rattle.std.specs.Prelude.{◌≡◌, ◌⊎◌, ◌↔◌, ◌<◌, ◌≤◌, ◌+◌, IsTrue, IfOk, IfErr, OnOk};
ghost use Rattle.iss_schedule.specs.Forms.{AreNumbers, IsFaultyFormed, NamesFaulty};
ghost use Rattle.iss_schedule.specs.Headers.{faulty_line, node_words};
ghost use Rattle.iss_schedule.specs.Places.{AreFew, GoesPast, IsFaultyRefused};
ghost use Rattle.iss_schedule.specs.Reads.{Reads};

use crate::errors::{LineFault, ReadError, bad_line};
use crate::lines::Lines;
use crate::names::is_same;
use crate::words::{Words, is_number, number_within};
use iss_request::errors::NoMemory;
use iss_request::ids::NodeId;
use iss_request::setups::Nodes;
use std::alloc::Global;

/// How many nodes of a cluster may be faulty, and how many nodes it has.
#[derive(Clone, Copy)]
pub struct Bounds {
    pub most: u32,
    pub n: u32,
    ghost few: { most < 256 },
    ghost bytes: { n ≤ 256 },
}

// Whether the words are numbers.
fn are_numbers(words: &mut Words) -> bool
    ensures { IsTrue result ↔ AreNumbers words.old }
{
    while let Some(word) = words.next() {
        if !is_number(word) {
            return false;
        }
    }
    true
}

// Whether the line names faulty nodes.
fn names_faulty(line: &[u8]) -> bool
    ensures { IsTrue result ↔ NamesFaulty line.now }
{
    let mut words = Words::of(line);
    let Some(word) = words.next() else {
        return false;
    };
    if !is_same(word, b"faulty") {
        return false;
    }
    if words.is_done() {
        return false;
    }
    are_numbers(&mut words)
}

// Whether the line has the form of a header's last line, whatever the size of its numbers.
fn is_formed(line: &[u8]) -> bool
    ensures { IsTrue result ↔ IsFaultyFormed line.now }
{
    is_same(line, b"faulty none") || names_faulty(line)
}

// The nodes in the words: strictly ascending, and within the bounds.
fn nodes_in(alloc: Global, words: &mut Words, bounds: Bounds) -> Result<Option<Nodes>, NoMemory>
    ensures { IfOk result (Reads node_words (AreFew bounds.most bounds.n) words.old) }
{
    let mut nodes = Nodes::new(alloc);
    let mut from = 0u32;
    let mut left = bounds.most;
    while let Some(word) = words.next() {
        if left == 0 {
            return Ok(None);
        }
        let Some(number) = number_within(word, from, bounds.n) else {
            return Ok(None);
        };
        nodes.push(NodeId(number as u8))?;
        from = number + 1;
        left -= 1;
    }
    Ok(Some(nodes))
}

// The faulty nodes in a line.
fn nodes_of(alloc: Global, line: &[u8], bounds: Bounds) -> Result<Option<Nodes>, NoMemory>
    ensures { IfOk result (Reads faulty_line (AreFew bounds.most bounds.n) line.now) }
{
    if is_same(line, b"faulty none") {
        return Ok(Some(Nodes::new(alloc)));
    }
    let mut words = Words::of(line);
    let Some(word) = words.next() else {
        return Ok(None);
    };
    if !is_same(word, b"faulty") {
        return Ok(None);
    }
    if words.is_done() {
        return Ok(None);
    }
    nodes_in(alloc, &mut words, bounds)
}

// What is wrong with a line that should name faulty nodes.
fn fault_of(line: &[u8]) -> LineFault
    ensures faulty { result ≡ LineFault.Faulty → IsFaultyFormed line.now }
    ensures form { result ≡ LineFault.Form → ¬ IsFaultyFormed line.now }
    ensures one { (result ≡ LineFault.Faulty) ⊎ (result ≡ LineFault.Form) }
{
    if is_formed(line) {
        LineFault::Faulty
    } else {
        LineFault::Form
    }
}

/// Reads the line that names the faulty nodes: strictly ascending, and within the bounds.
// rule: Schedules: Faulty nodes are strictly ascending, at most f, and none where nodes only crash
pub fn read_faulty(alloc: Global, lines: &mut Lines, bounds: Bounds) -> Result<Nodes, ReadError>
    requires read { lines.old.read ≡ 10 }
    ensures ok { IfOk result (λ nodes. GoesPast (faulty_line nodes) lines.old lines.new) }
    ensures few { IfOk result (AreFew bounds.most bounds.n) }
    ensures count { OnOk result (lines.new.read ≡ 11) }
    ensures bad { IfErr result (IsFaultyRefused bounds.most bounds.n lines.old) }
{
    let line = match lines.next() {
        Ok(line) => line,
        Err(why) => return Err(bad_line(lines, why)),
    };
    match nodes_of(alloc, line, bounds)? {
        Some(nodes) => Ok(nodes),
        None => Err(bad_line(lines, fault_of(line))),
    }
}
