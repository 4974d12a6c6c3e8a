//! The replies of a schedule's run, and what a client makes of replies.
ghost use Rattle.std.specs.Prelude.{◌≡◌, IfOk};
ghost use Rattle.iss_cli.specs.Answers.{IsOfReplies, IsOfSchedule};
ghost use Rattle.iss_cli.specs.Believing.{AreReplied, IsBelieved, outcome_of_short};
ghost use Rattle.iss_cli.specs.Views.{IsShown};
ghost use Rattle.iss_cli.specs.declared.views.View.TheVariants.{Replied};
ghost use Rattle.iss_schedule.specs.Schedules.{IsFine};
ghost use Rattle.iss_schedule.specs.declared.schedules.Schedule.{Schedule};
ghost use Rattle.iss_schedule.specs.Schedules.{IsKnown};

use crate::answers::{Answer, refuse_line, show_input};
use crate::status::Outcome;
use crate::views::View;
use iss_answers::{Told, accepted_answers_are_the_logs, print, read_replies};
use iss_believed::replies_are_of_one_log;
use iss_request::{NoMemory, ReqId};
use iss_schedule::ReadError;
use sb_chained::Chained;
use sb_hotstuff::HotStuff;
use sb_pbft::Pbft;
use sb_raft::Raft;
use sb_relay::Relay;
use std::alloc::Global;

/// The headline for clients, for every schedule and every module that a schedule can name.
pub fn replies_are_believable()
    ensures { (s : Schedule) → IsFine s → AreReplied s }
{
    replies_are_of_one_log::<Relay>();
    replies_are_of_one_log::<Raft>();
    replies_are_of_one_log::<Pbft>();
    replies_are_of_one_log::<HotStuff>();
    replies_are_of_one_log::<Chained>();
}

/// The answer to an input that must be a schedule: the replies of its run, or the first bad line. What a client accepts
/// of them is the answer of the run's one log. The only error is out of memory.
pub fn reply(alloc: Global, input: &[u8]) -> Result<Answer, NoMemory>
    ensures { IfOk result (IsOfSchedule (λ s a. IsShown Replied s a × AreReplied s) input.now) }
{
    replies_are_believable();
    show_input(alloc, View::Replied, input)
}

/// The answer to an input that must be a text of replies: what a new client makes of them, or the first bad line. Each
/// answer that it prints is the log's, if at most f nodes are faulty and no reply of a correct one was forged (PBFT:
/// f + 1 equal replies). The only error is out of memory.
pub fn believe(alloc: Global, input: &[u8]) -> Result<Answer, NoMemory>
    ensures { IfOk result (IsOfReplies input.now) }
{
    match read_replies(alloc, input) {
        Ok(told) => believe_told(alloc, &told),
        Err(ReadError::BadLine { line, why }) => refuse_line(alloc, line, why),
        Err(ReadError::NoMemory) => Err(NoMemory),
    }
}

// What a new client makes of these replies.
fn believe_told(alloc: Global, told: &Told) -> Result<Answer, NoMemory>
    requires { IsKnown told.now.setup }
    ensures { IfOk result (IsBelieved told.now) }
{
    accepted_answers_are_the_logs();
    let printed = print(alloc, told)?;
    Ok(Answer {
        outcome: outcome_of_short(printed.short),
        printed: printed.text,
    })
}

// The outcome, given the least identity without an answer.
// rule: Program: A reply without an accepted answer exits with 12
fn outcome_of_short(short: Option<ReqId>) -> Outcome
    ensures { result ≡ outcome_of_short short }
{
    match short {
        None => Outcome::Done,
        Some(_) => Outcome::Unconfirmed,
    }
}
