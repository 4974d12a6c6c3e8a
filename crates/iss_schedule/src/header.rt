//! The header of a schedule.
ghost use Rattle.std.specs.Prelude.{◌≡◌, ◌<◌, ◌≤◌, ◌+◌, suc, [], ◌∷◌, ◌++◌, ℕ, List, length, IfOk, IfErr, OnOk};
ghost use Rattle.sha2.specs.Sha256.{sha256};
ghost use Rattle.iss_schedule.specs.BadLines.{IsFirstBad};
ghost use Rattle.iss_schedule.specs.Headers.{OneOf, Number, AreValues, header_fields, lines_of, lines_of_rows, module_rows, next_field, policy_at, policy_lines, row_at, see, setup_of_row, setup_with, value};
ghost use Rattle.iss_schedule.specs.Places.{ReadsLine, most_faulty as faults_of_kind};
ghost use Rattle.iss_schedule.specs.Words.{Lacks, ended};

use crate::errors::LineFault;
use crate::lines::Lines;
use crate::modules::{Module, module_at, place_of};
use crate::names::is_same;
use crate::words::{behind, is_number, number_within};
use iss_request::setups::{Kind, Nodes, Policy, Setup};
use iss_request::versions::FIRST;
use sha2::{Digest, Sha256};

// The relay's module number.
const RELAY: u8 = 1;

/// How many lines of a header have a value.
pub const FIELDS: usize = 10;

// The value of a line that must be this text, the only one of its field.
fn expect(line: &[u8], text: &[u8]) -> Result<u32, LineFault>
    ensures { (above : List ℕ) → ReadsLine (OneOf (text.now ∷ [])) above line.now result }
{
    if is_same(line, text) {
        Ok(0)
    } else {
        Err(LineFault::Form)
    }
}

// The value of a line that must name a module.
fn module(line: &[u8]) -> Result<u32, LineFault>
    ensures { (above : List ℕ) → ReadsLine (OneOf (lines_of_rows module_rows)) above line.now result }
{
    match place_of(line) {
        Some(place) => Ok(place),
        None => Err(LineFault::Form),
    }
}

// The least number of faults that is too large for the module at this place.
fn too_many(place: u32) -> u32
    ensures { result ≡ suc (row_at place).most_faults }
{
    module_at(place).most_faults + 1
}

/// A module and a number of faults.
#[derive(Clone, Copy)]
pub struct Cluster {
    row: &'static Module,
    f: u32,
    ghost few: { f < 4 },
}

impl Cluster {
    /// Of the header that has these values.
    pub fn of(values: &[u32]) -> Cluster
        requires long { 2 < length values.now }
        requires few { value values.now 2 < 4 }
        ensures row { see result.row.now ≡ row_at (value values.now 1) }
        ensures faults { result.f ≡ value values.now 2 }
    {
        Cluster {
            row: module_at(values[1]),
            f: values[2],
        }
    }

    /// The number of nodes; the relay has three.
    pub fn nodes(self) -> u32
        ensures nodes { result ≡ (setup_of_row (see self.row.now) (0 ∷ 0 ∷ self.f ∷ []) [] []).n }
        ensures few { result ≤ 10 }
    {
        if self.row.number == RELAY {
            return 3;
        }
        match self.row.kind {
            Kind::Byzantine => 3 * self.f + 1,
            Kind::Stopping => 2 * self.f + 1,
        }
    }

    // The size of a quorum; for the relay it is two.
    fn quorum(self) -> u32
        ensures { result ≡ (setup_of_row (see self.row.now) (0 ∷ 0 ∷ self.f ∷ []) [] []).quorum }
    {
        if self.row.number == RELAY {
            return 2;
        }
        match self.row.kind {
            Kind::Byzantine => 2 * self.f + 1,
            Kind::Stopping => self.f + 1,
        }
    }

    /// How many of the nodes may be faulty.
    pub fn most_faulty(self) -> u32
        ensures few { result < 4 }
        ensures most { result ≡ faults_of_kind (see self.row.now).kind self.f }
    {
        match self.row.kind {
            Kind::Byzantine => self.f,
            Kind::Stopping => 0,
        }
    }
}

// The value of a line that must name a policy.
fn policy(line: &[u8]) -> Result<u32, LineFault>
    ensures { (above : List ℕ) → ReadsLine (OneOf policy_lines) above line.now result }
{
    if is_same(line, b"policy simple") {
        Ok(0)
    } else if is_same(line, b"policy backoff") {
        Ok(1)
    } else if is_same(line, b"policy blacklist") {
        Ok(2)
    } else {
        Err(LineFault::Form)
    }
}

// The value of a line that must be this name and a number that is at least `low` and below `end`.
fn number(line: &[u8], name: &[u8], low: u32, end: u32) -> Result<u32, LineFault>
    requires { Lacks 32 name.now }
    ensures { (above : List ℕ) → ReadsLine (Number name.now (λ _. low) (λ _. end)) above line.now result }
{
    let Some(word) = behind(line, name) else {
        return Err(LineFault::Form);
    };
    if let Some(number) = number_within(word, low, end) {
        return Ok(number);
    }
    if is_number(word) {
        Err(LineFault::Range)
    } else {
        Err(LineFault::Form)
    }
}

// The value of the line after these values. This is the table of a header, with one field a line.
// rule: Schedules: A header line is one of its field's texts, or a name and a number in range
fn value_of(line: &[u8], above: &[u32]) -> Result<u32, LineFault>
    requires few { length above.now < 10 }
    requires faults { value above.now 2 < 4 }
    ensures { ReadsLine (next_field above.now) above.now line.now result }
{
    match above.len() {
        0 => expect(line, b"iss 1"),
        1 => module(line),
        2 => number(line, b"f", 0, too_many(above[1])),
        3 => number(line, b"epoch", Cluster::of(above).nodes(), 65),
        4 => number(line, b"buckets", 1, 257),
        5 => number(line, b"batch", 1, 33),
        6 => number(line, b"window", 1, 65),
        7 => policy(line),
        8 => number(line, b"clients", 1, 257),
        _ => number(line, b"keys", 2, 21),
    }
}

/// Reads the lines of a header, and returns their values.
pub fn read_header(lines: &mut Lines) -> Result<[u32; 10], LineFault>
    requires { lines.old.read ≡ 0 }
    ensures read { OnOk result (lines.new.read ≡ 10) }
    ensures few { lines.new.read ≤ 10 }
    ensures size { IfOk result (λ values. length values ≡ 10) }
    ensures ok { IfOk result (λ values. lines.old.rest ≡ ended (lines_of header_fields values) ++ lines.new.rest) }
    ensures range { IfOk result (AreValues header_fields []) }
    ensures bad { IfErr result (IsFirstBad lines.old.rest lines.new.read) }
{
    let mut values = [0u32; FIELDS];
    for place in 0..FIELDS {
        let line = lines.next()?;
        let value = value_of(line, &values[..place])?;
        values[place] = value;
    }
    Ok(values)
}

// The tag of the cluster with this header.
// rule: Schedules: The cluster's tag is the digest of the header's lines
fn tag_of(header: &[u8]) -> [u8; 32]
    ensures { result ≡ sha256 (0x43 ∷ header.now) }
{
    let mut hasher = Sha256::new();
    hasher.update([0x43u8]);
    hasher.update(header);
    hasher.finalize()
}

// The policy whose line has this index.
fn policy_of(place: u32) -> Policy
    ensures { result ≡ policy_at place }
{
    match place {
        1 => Policy::Backoff,
        2 => Policy::Blacklist,
        _ => Policy::Simple,
    }
}

/// The set-up of the cluster whose header has these values, faulty nodes and text.
// rule: Formats: A set-up's fields are in range, and its nodes and quorum fit its fault model and f
pub fn setup_of(values: &[u32], faulty: Nodes, text: &[u8]) -> Setup
    requires size { length values.now ≡ 10 }
    requires range { AreValues header_fields [] values.now }
    ensures { result ≡ setup_with values.now faulty (sha256 (0x43 ∷ text.now)) }
{
    let cluster = Cluster::of(values);
    Setup {
        version: FIRST,
        module: cluster.row.number,
        f: values[2],
        epoch: u64::from(values[3]),
        buckets: values[4],
        batch: values[5],
        window: values[6],
        policy: policy_of(values[7]),
        clients: values[8],
        keys: values[9],
        faulty,
        n: cluster.nodes(),
        quorum: cluster.quorum(),
        kind: cluster.row.kind,
        tag: tag_of(text),
    }
}
