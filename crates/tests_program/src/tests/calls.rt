//! The top call over links and a disk in memory.
use iss_cli::{MemorySink, MemorySource, Sink, Source, run};
use iss_disk::{Disk, MemoryDisk};
use iss_links::{Links, MemoryLinks};
use std::alloc::{AllocError, Global};
use std::process::Abort;
use std::test::Fail;

/// A call and its answer: the words behind the program's name, separated by one space, the input, the exit status, and
/// what is printed.
#[derive(Clone, Copy)]
pub struct Call<'a> {
    pub line: &'a str,
    pub input: &'a str,
    pub status: u8,
    pub text: &'a str,
}

fn put_word(alloc: Global, words: &mut Vec<String>, word: &str) -> Result<(), AllocError> {
    words.push(String::from_str(alloc, word)?)?;
    Ok(())
}

// The program's words.
fn words(alloc: Global, line: &str) -> Result<Vec<String>, AllocError> {
    let mut words = Vec::new(alloc);
    put_word(alloc, &mut words, "iss")?;
    for word in line.split(' ') {
        put_word(alloc, &mut words, word)?;
    }
    Ok(words)
}

// The exit status of a run. It promises nothing, so later goals do not hold what a run promises.
fn status_of<I: Source, O: Sink, L: Links, D: Disk>(
    alloc: Global,
    words: &[String],
    input: &mut I,
    out: &mut O,
    links: &mut L,
    disk: &mut D,
) -> u8 {
    run(alloc, words, input, out, links, disk).code()
}

fn status_over_memory<I: Source, O: Sink>(
    alloc: Global,
    words: &[String],
    input: &mut I,
    out: &mut O,
) -> Result<u8, Fail> {
    let mut links = MemoryLinks::new(alloc)?;
    let mut disk = MemoryDisk::new(alloc)?;
    Ok(status_of(alloc, words, input, out, &mut links, &mut disk))
}

/// The exit status of a call over a source and a sink.
pub fn run_call<I: Source, O: Sink>(
    alloc: Global,
    line: &str,
    input: &mut I,
    out: &mut O,
) -> Result<u8, Fail> {
    let words = words(alloc, line)?;
    status_over_memory(alloc, &words, input, out)
}

fn answer_to<L: Links, D: Disk>(
    alloc: Global,
    words: &[String],
    input: &[u8],
    links: &mut L,
    disk: &mut D,
) -> Result<(u8, Vec<u8>), AllocError> {
    let mut input = MemorySource::new(Vec::from_slice(alloc, input)?);
    let mut out = MemorySink::new(alloc);
    let status = status_of(alloc, words, &mut input, &mut out, links, disk);
    Ok((status, Vec::from_slice(alloc, out.held())?))
}

/// The exit status of a call over links and a disk, and what it prints.
pub fn call_over<L: Links, D: Disk>(
    alloc: Global,
    line: &str,
    input: &[u8],
    links: &mut L,
    disk: &mut D,
) -> Result<(u8, Vec<u8>), AllocError> {
    let words = words(alloc, line)?;
    answer_to(alloc, &words, input, links, disk)
}

/// The exit status of a call over links and a disk in memory, and what it prints.
pub fn answer(alloc: Global, line: &str, input: &[u8]) -> Result<(u8, Vec<u8>), Fail> {
    let mut links = MemoryLinks::new(alloc)?;
    let mut disk = MemoryDisk::new(alloc)?;
    Ok(call_over(alloc, line, input, &mut links, &mut disk)?)
}

/// Checks the answer to a call over links and a disk.
pub fn check_over<L: Links, D: Disk>(
    rt: &impl Abort,
    alloc: Global,
    call: &Call<'_>,
    links: &mut L,
    disk: &mut D,
) -> Result<(), Fail> {
    let (status, text) = call_over(alloc, call.line, call.input.as_bytes(), links, disk)?;
    assert_eq!(rt; status, call.status, "{}", call.line);
    assert_eq!(rt; text.as_slice(), call.text.as_bytes(), "{}", call.line);
    Ok(())
}
