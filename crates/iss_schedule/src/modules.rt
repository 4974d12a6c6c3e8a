//! The modules that schedules can name.
ghost use Rattle.std.specs.Prelude.{◌≡◌, ◌<◌, ◌^◌, suc, [], length, get_or};
ghost use Rattle.iss_schedule.specs.Headers.{lines_of_rows, module_rows, place_among, row_at, see, see_all};
ghost use Rattle.iss_schedule.specs.Reads.{Finds};

use crate::names::is_same;
use iss_request::setups::Kind;

/// A module that schedules can name: its line in a header, its number, its fault model, and the maximal f.
#[derive(Clone, Copy, Debug)]
pub struct Module {
    pub line: &'static [u8],
    pub number: u8,
    pub kind: Kind,
    pub most_faults: u32,
}

// To add a module, add a line here and one in the definition.
#[rattlefmt::skip]
const MODULES: &[Module] = &[
    Module { line: b"module relay", number: 1, kind: Kind::Stopping, most_faults: 0 },
    Module { line: b"module raft", number: 2, kind: Kind::Stopping, most_faults: 3 },
    Module { line: b"module pbft", number: 3, kind: Kind::Byzantine, most_faults: 3 },
    Module { line: b"module hotstuff", number: 4, kind: Kind::Byzantine, most_faults: 3 },
    Module { line: b"module chained", number: 5, kind: Kind::Byzantine, most_faults: 3 },
];

// rule: Schedules: A module is one row: its word, its number, its fault model, the most faults
fn modules() -> &'static [Module]
    ensures { see_all result.now ≡ module_rows }
{
    MODULES
}

/// The module at this place, or the first if there is none.
pub fn module_at(place: u32) -> &'static Module
    ensures { see result.now ≡ row_at place }
{
    let all = modules();
    let place = place as usize;
    if place < all.len() {
        &all[place]
    } else {
        &all[0]
    }
}

// The place of the module with this line.
fn place_in(all: &[Module], line: &[u8]) -> Option<u32>
    requires { length all.now < 2 ^ 32 }
    ensures { Finds (lines_of_rows (see_all all.now)) line.now result }
{
    for place in 0..all.len() {
        if is_same(line, all[place].line) {
            return Some(place as u32);
        }
    }
    None
}

/// The place of the module with this line.
pub fn place_of(line: &[u8]) -> Option<u32>
    ensures { Finds (lines_of_rows module_rows) line.now result }
{
    place_in(modules(), line)
}

// The line of the module with this number.
fn line_in(all: &[Module], number: u8) -> &'static [u8]
    ensures { result.now ≡ get_or (lines_of_rows (see_all all.now)) (place_among number (see_all all.now)) [] }
{
    for place in 0..all.len() {
        if all[place].number == number {
            return all[place].line;
        }
    }
    b""
}

/// The line of the module with this number, or an empty line if there is none.
pub fn line_of(number: u8) -> &'static [u8]
    ensures { result.now ≡ get_or (lines_of_rows module_rows) (place_among number module_rows) [] }
{
    line_in(modules(), number)
}
