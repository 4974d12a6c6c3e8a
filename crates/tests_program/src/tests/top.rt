//! The top call with sources and sinks that fail.

use crate::ends::{status_of_sink, status_of_source};
use crate::tests::calls::run_call;
use iss_cli::{FailingSink, FailingSource, MemorySink, MemorySource, Script};
use std::alloc::{AllocError, Global};
use std::process::Abort;
use std::test::Fail;

const INPUT: &[u8] =
    b"iss 1\nmodule relay\nf 0\nepoch 3\nbuckets 3\nbatch 4\nwindow 8\npolicy simple\nclients 1\nkeys 4\nfaulty none\n\
      request 0 0 0 aa\npropose 0\ncalm 10\n";

const TEXT: &[u8] =
    b"node 0 epoch 0 slots 1 requests 1\n0 0 1 0.0\nnode 1 epoch 0 slots 1 requests 1\n0 0 1 0.0\n\
      node 2 epoch 0 slots 1 requests 1\n0 0 1 0.0\nend ok\n";

// How many calls of 16 bytes read the input, the last of which finds its end; and how many write the text.
const READS: u64 = 10;

const PUTS: u64 = 9;

// A source of this input that fails at a call, and gives this many bytes at each.
fn source(
    alloc: Global,
    input: &[u8],
    most: usize,
    call: u64,
) -> Result<FailingSource, AllocError> {
    let failing = vec![in alloc; call]?;
    Ok(FailingSource::new(Vec::from_slice(alloc, input)?, most, Script::new(failing)))
}

// A sink that fails at a call, and takes 16 bytes at each.
fn sink(alloc: Global, call: u64) -> Result<FailingSink, AllocError> {
    Ok(FailingSink::new(alloc, 16, Script::new(vec![in alloc; call]?)))
}

#[test]
fn words_are_met_first(rt: HostRuntime) -> Result<(), Fail> {
    let mut input = source(rt.alloc(), b"", 1, 0)?;
    let mut out = MemorySink::new(rt.alloc());
    let status = run_call(rt.alloc(), "jump", &mut input, &mut out)?;
    assert_eq!(rt; status, 2);
    assert_eq!(rt; out.held(), b"refused words\n".as_slice());
    Ok(())
}

fn check_source(rt: &impl Abort, alloc: Global, call: u64) -> Result<(), Fail> {
    let mut input = source(alloc, INPUT, 16, call)?;
    let mut out = MemorySink::new(alloc);
    let status = run_call(alloc, "replay", &mut input, &mut out)?;
    let text = if call < READS { b"".as_slice() } else { TEXT };
    assert_eq!(rt; status, status_of_source(call, READS), "at call {call}");
    assert_eq!(rt; out.held(), text, "at call {call}");
    Ok(())
}

#[test]
fn a_source_fails_at_each_call(rt: HostRuntime) -> Result<(), Fail> {
    for call in 0..=READS {
        check_source(&rt, rt.alloc(), call)?;
    }
    Ok(())
}

fn check_sink(rt: &impl Abort, alloc: Global, call: u64) -> Result<(), Fail> {
    let mut input = MemorySource::new(Vec::from_slice(alloc, INPUT)?);
    let mut out = sink(alloc, call)?;
    let status = run_call(alloc, "replay", &mut input, &mut out)?;
    let part = TEXT.len().min(16usize.saturating_mul(call as usize));
    assert_eq!(rt; status, status_of_sink(call, PUTS), "at call {call}");
    assert_eq!(rt; out.held(), &TEXT[..part], "at call {call}");
    Ok(())
}

#[test]
fn a_sink_fails_at_each_call(rt: HostRuntime) -> Result<(), Fail> {
    for call in 0..=PUTS {
        check_sink(&rt, rt.alloc(), call)?;
    }
    Ok(())
}
