//! Reading a text of replies.
ghost use Rattle.std.specs.Prelude.{◌≡◌, ◌≢◌, ◌≤◌, ◌+◌, ◌++◌, ℕ, IfOk, IfErr, length};
ghost use Rattle.std.specs.List.{AllByRecursion};
ghost use Rattle.iss_schedule.specs.Schedules.{most_events};
ghost use Rattle.iss_schedule.specs.Words.{ended};
ghost use Rattle.iss_texts.specs.Bodies.{last_line};
ghost use Rattle.iss_answers.specs.Internal.Reading.{IsBodyRefused, IsLineRefused};
ghost use Rattle.iss_answers.specs.Lines.{IsInRange, reply_line};
ghost use Rattle.iss_answers.specs.Refusals.{IsFault, IsNoReply, IsRefused};
ghost use Rattle.iss_answers.specs.Texts.{IsTold, body_lines};

use crate::lines::{is_formed, reply_of};
use crate::told::Told;
use iss_reply::Reply;
use iss_request::{NoMemory, Seq};
use iss_schedule::{LineFault, Lines, MOST_BYTES, ReadError, read_setup};
use iss_texts::{bad_line, is_last, next_line, read_behind};
use std::alloc::Global;

// What is wrong with a line that is no reply in range, nor the last one.
// rule: Replies: The first bad line of a text is named, and a wrong form before a number out of range
fn fault_of(alloc: Global, line: &[u8]) -> Result<LineFault, NoMemory>
    requires last { line.now ≢ last_line }
    requires none { IsNoReply line.now }
    ensures { IfOk result (IsFault line.now) }
{
    if is_formed(alloc, line)? {
        Ok(LineFault::Range)
    } else {
        Ok(LineFault::Form)
    }
}

// The reply in the line that was read last, which is not the last one of the text.
fn read_reply(alloc: Global, lines: &Lines, line: &[u8]) -> Result<Reply, ReadError>
    requires last { line.now ≢ last_line }
    ensures line { IfOk result (λ r. line.now ≡ reply_line r) }
    ensures range { IfOk result IsInRange }
    ensures bad { IfErr result (IsLineRefused lines.now.read line.now) }
{
    if let Some(reply) = reply_of(alloc, line)? {
        return Ok(reply);
    }
    let why = fault_of(alloc, line)?;
    Err(bad_line(lines, why))
}

// Reads the lines after the header up to the last line.
fn read_lines(alloc: Global, lines: &mut Lines) -> Result<Seq<Reply>, ReadError>
    requires read { lines.old.read ≡ 11 }
    ensures text { IfOk result (λ rs. lines.old.rest ≡ ended (body_lines rs) ++ lines.new.rest) }
    ensures range { IfOk result (AllByRecursion IsInRange) }
    ensures count { IfOk result (λ rs. lines.new.read ≡ 11 + length (body_lines rs)) }
    ensures few { IfOk result (λ rs. length (body_lines rs) ≤ most_events) }
    ensures bad { IfErr result (IsBodyRefused lines.old.rest) }
{
    let mut replies = Seq::new(alloc);
    'lines: loop {
        let line = next_line(lines)?;
        if is_last(line) {
            return Ok(replies);
        }
        let reply = read_reply(alloc, lines, line)?;
        replies.push(reply)?;
    }
}

// Reads all lines after the header.
fn read_body(alloc: Global, lines: &mut Lines) -> Result<Seq<Reply>, ReadError>
    requires read { lines.old.read ≡ 11 }
    ensures text { IfOk result (λ rs. lines.old.rest ≡ ended (body_lines rs)) }
    ensures range { IfOk result (AllByRecursion IsInRange) }
    ensures few { IfOk result (λ rs. length (body_lines rs) ≤ most_events) }
    ensures bad { IfErr result (IsBodyRefused lines.old.rest) }
{
    let replies = read_lines(alloc, lines)?;
    read_behind(lines)?;
    Ok(replies)
}

/// The replies with this text.
///
/// # Errors
///
/// `BadLine` if the bytes are no text of replies: the first bad line, counted from 1, and the first reason for it.
/// `NoMemory` if out of memory.
// rule: Replies: A text of replies is a header, a line for each reply, and a last line
pub fn read_replies(alloc: Global, bytes: &[u8]) -> Result<Told, ReadError>
    ensures ok { IfOk result (IsTold bytes.now) }
    ensures bad { IfErr result (IsRefused bytes.now) }
{
    if bytes.len() > MOST_BYTES {
        return Err(ReadError::BadLine {
            line: 0,
            why: LineFault::Size,
        });
    }
    let mut lines = Lines::of(bytes);
    let setup = read_setup(alloc, bytes, &mut lines)?;
    let replies = read_body(alloc, &mut lines)?;
    Ok(Told { setup, replies })
}
