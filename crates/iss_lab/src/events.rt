//! One event of a generated schedule.
ghost use Rattle.std.specs.Prelude.{◌≡◌, IfOk};
ghost use Rattle.iss_lab.specs.Generated.{drawn_event, drawn_request, drawn_timeout};

use crate::draws::Draws;
use iss_request::{Bytes, NoMemory, NodeId};
use iss_schedule::Event;
use std::alloc::Global;

// The event with this number.
// rule: Lab: An event's kind is one of sixteen numbers, and its arguments are drawn from left to right
pub(crate) fn draw_event(alloc: Global, draws: &mut Draws, number: u64) -> Result<Event, NoMemory>
    ensures { IfOk result (λ event. (event, draws.new.state) ≡ drawn_event number draws.old.state) }
{
    match draws.draw(16) {
        0..=4 => draw_request(alloc, draws, number),
        5..=8 => Ok(Event::Propose {
            core: draws.draw(4),
        }),
        9 => Ok(draw_timeout(draws)),
        10 => Ok(Event::Deliver {
            packet: u64::from(draws.draw(64)),
        }),
        11 => Ok(Event::Lose {
            packet: u64::from(draws.draw(1024)),
        }),
        12 => Ok(Event::Restart {
            core: draws.draw(4),
        }),
        _ => Ok(Event::Pump),
    }
}

// A request. Its payload is the number of the event.
fn draw_request(alloc: Global, draws: &mut Draws, number: u64) -> Result<Event, NoMemory>
    ensures { IfOk result (λ event. (event, draws.new.state) ≡ drawn_request number draws.old.state) }
{
    let core = draws.draw(4);
    let client = draws.draw(16);
    let leaf = draws.draw(64);
    let payload = Vec::from_slice(alloc, &number.to_be_bytes())?;
    Ok(Event::Request {
        core,
        client: client as u8,
        number: leaf,
        payload: Bytes::of(payload),
    })
}

fn draw_timeout(draws: &mut Draws) -> Event
    ensures { (result, draws.new.state) ≡ drawn_timeout draws.old.state }
{
    let core = draws.draw(4);
    let leader = draws.draw(4);
    Event::Timeout {
        core,
        leader: NodeId(leader as u8),
    }
}
