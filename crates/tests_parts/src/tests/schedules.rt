//! A schedule that is read and written again. Schedules in `rows/` show the rest.
use iss_schedule::{read, write};
use std::alloc::Global;
use std::test::Fail;

const TEXT: &[u8] =
    b"iss 1\nmodule relay\nf 0\nepoch 3\nbuckets 3\nbatch 4\nwindow 8\npolicy simple\nclients 1\nkeys 4\nfaulty none\n\
      request 0 0 0 aa\nrequest 2 0 15 -\nrequest 1 0 7 00ff10\npropose 0\ntimeout 1 2\nask 2 0\n\
      deliver 18446744073709551615\nlose 0\npump\ncalm 1000\ncalm 1\nhold 2\nfree 2\ndrop 1\n\
      restart 2\ncrash 0 0\ncrash 1 1000\n";

// Whether reading and writing this schedule gives the same text.
fn is_written_back(alloc: Global, text: &[u8]) -> Result<bool, Fail> {
    let schedule = read(alloc, text)?;
    let written = write(alloc, &schedule)?;
    Ok(written.as_slice() == text)
}

#[test]
fn a_schedule_is_written_as_it_was_read(rt: HostRuntime) -> Result<(), Fail> {
    assert!(rt; is_written_back(rt.alloc(), TEXT)?);
    Ok(())
}
