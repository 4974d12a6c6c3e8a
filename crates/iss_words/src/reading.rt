//! Reading the words of a call.
ghost use Rattle.std.specs.Prelude.{◌≡◌, ◌≢◌, ◌↔◌, ℕ, List, [], Err, IfNone, IfOk, IfSome, IsTrue, Some, codes, false, map, option_map, string_bytes};
ghost use Rattle.clap.specs.Words.{App, Row, Text, app_of, fault_of, first_of, found_of, kind_of, rows_of, subcommand_of, subcommand_rows_of, with_rule};
ghost use Rattle.clap.specs.declared.Command.TheViews.{out-Command};
ghost use Rattle.iss_words.specs.Commands.{Asks, IsOrder, IsPort, commands, top, word_rule};
ghost use Rattle.iss_words.specs.Forms.{see, see_all, with_commands, with_form, with_words};
ghost use Rattle.iss_words.specs.Numbers.{IsNumberAt};
ghost use Rattle.iss_words.specs.declared.orders.Order.{Order};

use crate::forms::{Form, forms};
use crate::numbers::read_number;
use crate::orders::{NodeOrder, Order, WordsError};
use clap::error::ErrorKind;
use clap::{Arg, ArgMatches, Command, Error};
use std::alloc::{AllocError, Global};

/// What the words of a call ask for. They are refused exactly if `clap` refuses them for another cause than memory, or
/// a number is not spelled as it should be or not in its range.
pub fn read_words<'a>(alloc: Global, words: &'a [String]) -> Result<Order<'a>, WordsError>
    ensures ok { IfOk result (Asks (map string_bytes words.entry.now)) }
    ensures refused { result ≡ Err WordsError.Refused → (order : Order) →
        ¬ Asks (map string_bytes words.entry.now) order }
{
    let matches = matches_of(alloc, words)?;
    order_in(&matches).ok_or(WordsError::Refused)
}

// What is asked for by the command that was found.
fn order_in<'a>(matches: &ArgMatches<'a>) -> Option<Order<'a>>
    ensures some { IfSome result (λ order. (name : Text) × (rows : List Row)
        × (subcommand_rows_of matches.now ≡ Some (name, rows)) × IsOrder name rows order) }
    ensures none { IfNone result ((order : Order) (name : Text) (rows : List Row) →
        subcommand_rows_of matches.now ≡ Some (name, rows) → ¬ IsOrder name rows order) }
{
    let (name, inner) = matches.subcommand()?;
    order_of(name, inner)
}

// What is asked for by the name of a command and its positionals.
fn order_of<'a>(name: &str, matches: &ArgMatches<'a>) -> Option<Order<'a>>
    ensures some { IfSome result (IsOrder name.now (rows_of (found_of matches.now))) }
    ensures none { IfNone result ((order : Order) → ¬ IsOrder name.now (rows_of (found_of matches.now)) order) }
{
    match name {
        "replay" => Some(Order::Replay),
        "lab" => lab_of(matches),
        "replies" => Some(Order::Replies),
        "answers" => Some(Order::Answers),
        "export" => export_of(matches),
        "audit" => Some(Order::Audit),
        "cluster" => cluster_of(matches),
        "node" => node_of(matches),
        _ => None,
    }
}

fn lab_of<'a>(matches: &ArgMatches<'a>) -> Option<Order<'a>>
    ensures some { IfSome result (IsOrder (codes "lab") (rows_of (found_of matches.now))) }
    ensures none { IfNone result ((order : Order) → ¬ IsOrder (codes "lab") (rows_of (found_of matches.now)) order) }
{
    let number = number_at(matches, "number", 0, u64::MAX)?;
    let events = number_at(matches, "events", 1, 100_000)?;
    Some(Order::Lab {
        number,
        events: events as u32,
    })
}

fn export_of<'a>(matches: &ArgMatches<'a>) -> Option<Order<'a>>
    ensures some { IfSome result (IsOrder (codes "export") (rows_of (found_of matches.now))) }
    ensures none { IfNone result ((order : Order) →
        ¬ IsOrder (codes "export") (rows_of (found_of matches.now)) order) }
{
    let core = number_at(matches, "core", 0, 9)?;
    Some(Order::Export { core: core as u32 })
}

fn cluster_of<'a>(matches: &ArgMatches<'a>) -> Option<Order<'a>>
    ensures some { IfSome result (IsOrder (codes "cluster") (rows_of (found_of matches.now))) }
    ensures none { IfNone result ((order : Order) →
        ¬ IsOrder (codes "cluster") (rows_of (found_of matches.now)) order) }
{
    let port = port_at(matches)?;
    Some(Order::Cluster { port })
}

// rule: Program: A file's name may be any word, the empty one too
fn node_of<'a>(matches: &ArgMatches<'a>) -> Option<Order<'a>>
    ensures some { IfSome result (IsOrder (codes "node") (rows_of (found_of matches.now))) }
    ensures none { IfNone result ((order : Order) → ¬ IsOrder (codes "node") (rows_of (found_of matches.now)) order) }
{
    let node = number_at(matches, "node", 0, 9)?;
    let port = port_at(matches)?;
    let file = word_at(matches, "file")?;
    Some(Order::Node(NodeOrder {
        node: node as u32,
        port,
        file,
    }))
}

// The first port of the ends.
fn port_at(matches: &ArgMatches<'_>) -> Option<u16>
    ensures some { IfSome result (IsPort (rows_of (found_of matches.now))) }
    ensures none { IfNone result ((n : ℕ) → ¬ IsPort (rows_of (found_of matches.now)) n) }
{
    let port = number_at(matches, "port", 1024, 65_000)?;
    Some(port as u16)
}

// The number at a positional, if it is spelled as it should be and in the range.
fn number_at(matches: &ArgMatches<'_>, id: &str, low: u64, high: u64) -> Option<u64>
    ensures some { IfSome result (IsNumberAt (rows_of (found_of matches.now)) id.now low high) }
    ensures none { IfNone result ((n : ℕ) → ¬ IsNumberAt (rows_of (found_of matches.now)) id.now low high n) }
{
    match word_at(matches, id) {
        Some(word) => read_number(word, low, high),
        None => None,
    }
}

// The word at a positional.
fn word_at<'a>(matches: &ArgMatches<'a>, id: &str) -> Option<&'a str>
    ensures { option_map (λ s. s.now) result ≡ first_of id.now (rows_of (found_of matches.now)) }
{
    matches.get_str(id)
}

// The matches of the words, if `clap` accepts them.
fn matches_of<'a>(alloc: Global, words: &'a [String]) -> Result<ArgMatches<'a>, WordsError>
    ensures taken { IfOk result (λ m. fault_of commands (map string_bytes words.entry.now) ≡ []) }
    ensures named { IfOk result
        (λ m. subcommand_rows_of m ≡ subcommand_of commands (map string_bytes words.entry.now)) }
    ensures refused { result ≡ Err WordsError.Refused → fault_of commands (map string_bytes words.entry.now) ≢ [] }
{
    let Ok(command) = commands(alloc) else {
        return Err(WordsError::NoMemory);
    };
    match command.try_get_matches_from(words) {
        Ok(matches) => Ok(matches),
        Err(error) => Err(refusal(&error)),
    }
}

// Why words were not read, given `clap`'s error.
fn refusal(error: &Error) -> WordsError
    ensures { result ≡ WordsError.Refused → kind_of error.now ≢ ErrorKind.OutOfMemory }
{
    if is_memory(error) {
        WordsError::NoMemory
    } else {
        WordsError::Refused
    }
}

fn is_memory(error: &Error) -> bool
    ensures { IsTrue result ↔ (kind_of error.now ≡ ErrorKind.OutOfMemory) }
{
    matches!(error.kind(), ErrorKind::OutOfMemory)
}

// The commands, as `clap` sees them.
fn commands<'a>(alloc: Global) -> Result<Command<'a>, AllocError>
    ensures { IfOk result (λ c. app_of c ≡ commands) }
{
    with_commands(alloc, top(alloc), forms())
}

// The command with these commands more under it.
fn with_commands<'a>(
    alloc: Global,
    above: Command<'a>,
    forms: &[Form],
) -> Result<Command<'a>, AllocError>
    ensures { IfOk result (λ c. app_of c ≡ with_commands (app_of above.entry) (see_all forms.now)) }
{
    match forms {
        [] => Ok(above),
        [form, others @ ..] => {
            let command = with_form(alloc, above, form)?;
            with_commands(alloc, command, others)
        }
    }
}

// The command with one more command under it.
fn with_form<'a>(alloc: Global, above: Command<'a>, form: &Form) -> Result<Command<'a>, AllocError>
    ensures { IfOk result (λ c. app_of c ≡ with_form (app_of above.entry) (see form.now)) }
{
    match with_words(alloc, Command::new(alloc, form.name), form.words) {
        Ok(command) => above.subcommand(command),
        Err(error) => Err(error),
    }
}

fn top<'a>(alloc: Global) -> Command<'a>
    ensures { app_of result ≡ top }
{
    Command::new(alloc, "iss").subcommand_required(true)
}

// The command with these positionals more.
fn with_words<'a>(
    alloc: Global,
    command: Command<'a>,
    ids: &[&'a str],
) -> Result<Command<'a>, AllocError>
    ensures shape { IfOk result (λ c. app_of c ≡ with_words (app_of command.entry) (map (λ w. w.now) ids.now)) }
    ensures globals { IfOk result
        (λ c. (out-Command command.entry).has_globals ≡ false → (out-Command c).has_globals ≡ false) }
{
    match ids {
        [] => Ok(command),
        [id, others @ ..] => {
            let command = with_word(alloc, command, *id)?;
            with_words(alloc, command, others)
        }
    }
}

// The command with one more positional.
fn with_word<'a>(
    alloc: Global,
    command: Command<'a>,
    id: &'a str,
) -> Result<Command<'a>, AllocError>
    ensures shape { IfOk result (λ c. app_of c ≡ with_rule (app_of command.entry) (word_rule id.entry.now)) }
    ensures globals { IfOk result
        (λ c. (out-Command command.entry).has_globals ≡ false → (out-Command c).has_globals ≡ false) }
{
    command.arg(Arg::new(alloc, id).required(true))
}
