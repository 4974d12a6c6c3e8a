//! The run of a schedule, event by event.
ghost use Rattle.std.specs.Prelude.{◌≡◌, IfOk, None, OnOk};
ghost use Rattle.iss_model.specs.Courses.{Course, driver_of};
ghost use Rattle.iss_model.specs.Driver.{run_event};
ghost use Rattle.iss_theorems.specs.Headline.{IsWhole, course_after};
ghost use Rattle.iss_rules.specs.Setups.{IsSetupOf};
ghost use Rattle.iss_replay.specs.Refines.{ReportRefinesRun, numbered};
ghost use Rattle.iss_schedule.specs.Events.{AreInRange, IsInRange};
ghost use Rattle.iss_theorems.specs.Readers.{reader_after};
ghost use Rattle.iss_world.specs.Refines.{AreStale, AreStaleBehind, RefinesRun};

use iss_request::{NoMemory, Seq};
use iss_rules::Why;
use iss_sb::{Claim, Sequenced};
use iss_schedule::{Event, Schedule};
use iss_theorems::restarts_change_nothing;
use iss_world::ends::Evidence;
use iss_world::{EventResult, World};
use std::alloc::Global;

/// The result of a schedule: the cluster at the end, the lost events in order, and the evidence that stopped the run,
/// if any. Lost events have their number, from 0, and their reason. The evidence has the number of its event.
#[derive(Drop)]
pub struct Report<M: Sequenced> {
    pub world: World<M>,
    pub drops: Seq<(u64, Why)>,
    pub ended: Option<(u64, Evidence)>,
}

/// Applies the events of a schedule to a new cluster, in order, up to an event that reveals evidence. The headline
/// holds for the run (`whole`, see `IsWhole` in `iss_theorems`). Stale are the cores whose disk has failed and the one
/// that read the evidence (`silent`). The only error is out of memory.
// rule: Log: Of two correct nodes' logs one is a prefix of the other, and no request is in one twice
// rule: Recovery: A run with crashes refines the run of its kept events without crashes
pub fn replay<M: Sequenced>(alloc: Global, schedule: &Schedule) -> Result<Report<M>, NoMemory>
    requires good { IsSetupOf M.spec schedule.now.setup }
    requires range { AreInRange schedule.now.setup schedule.now.events }
    ensures run { IfOk result
        (λ r. ReportRefinesRun M.spec M.refines r.world r.drops r.ended
        (course_after schedule.now.setup M.spec schedule.now.events)) }
    ensures silent { IfOk result (λ r. AreStale r.world
        (course_after schedule.now.setup M.spec schedule.now.events).state
        (reader_after schedule.now.setup M.spec schedule.now.events)) }
    ensures same { IfOk result (λ r. r.world.simulation.setup ≡ schedule.now.setup) }
    ensures whole { IsWhole schedule.now.setup M.spec schedule.now.events }
{
    restarts_change_nothing::<M>();
    play(alloc, schedule)
}

// Applies the events to a new cluster, up to the one that reveals evidence.
fn play<M: Sequenced>(alloc: Global, schedule: &Schedule) -> Result<Report<M>, NoMemory>
    requires good { IsSetupOf M.spec schedule.now.setup }
    requires range { AreInRange schedule.now.setup schedule.now.events }
    ensures run { IfOk result
        (λ r. ReportRefinesRun M.spec M.refines r.world r.drops r.ended
        (course_after schedule.now.setup M.spec schedule.now.events)) }
    ensures silent { IfOk result (λ r. AreStale r.world
        (course_after schedule.now.setup M.spec schedule.now.events).state
        (reader_after schedule.now.setup M.spec schedule.now.events)) }
    ensures same { IfOk result (λ r. r.world.simulation.setup ≡ schedule.now.setup) }
{
    let events = schedule.events.as_slice();
    let mut world = World::start(alloc, &schedule.setup)?;
    let mut drops = Seq::new(alloc);
    for place in 0..events.len() {
        if let Some(end) = run_event(alloc, &mut world, &mut drops, place as u64, &events[place])? {
            let ended = Some((place as u64, end));
            return Ok(Report {
                world,
                drops,
                ended,
            });
        }
    }
    Ok(Report {
        world,
        drops,
        ended: None,
    })
}

/// Applies the next event of a run. If it is lost, notes its number and reason. Returns the evidence if the event
/// reveals some. The only error is out of memory.
// rule: Reports: A replay runs all events and reports all of them
// rule: Program: A run that ends with evidence exits with 6 or 7, and reports the logs before it
pub fn run_event<M: Sequenced>(
    alloc: Global,
    world: &mut World<M>,
    drops: &mut Seq<(u64, Why)>,
    number: u64,
    event: &Event,
) -> Result<Option<Evidence>, NoMemory>
    requires { IsInRange world.old.simulation.setup event.now }
    ensures went { IfOk result
        (λ end. (p : Course M.Msg) → p.event ≡ number → ReportRefinesRun M.spec M.refines world.old drops.old None p →
        ReportRefinesRun M.spec M.refines world.new drops.new (numbered number end)
        (run_event (driver_of world.old.simulation.setup M.spec) p event.now)) }
    ensures silent { OnOk result ((p : Course M.Msg) → p.ended ≡ None → RefinesRun M.spec M.refines world.old p →
        AreStaleBehind (driver_of world.old.simulation.setup M.spec) p event.now world.new) }
    ensures same { world.new.simulation.setup ≡ world.old.simulation.setup }
{
    match world.event(alloc, event) {
        EventResult::Done => Ok(None),
        EventResult::Lost(why) => {
            drops.push((number, why))?;
            Ok(None)
        }
        EventResult::Forged { by, statement, sig } => Ok(Some(Evidence::Forged(Claim {
            by,
            statement,
            sig,
        }))),
        EventResult::Collision { first, second } => Ok(Some(Evidence::Collision { first, second })),
        EventResult::NoMemory | EventResult::Stale => Err(NoMemory),
    }
}
