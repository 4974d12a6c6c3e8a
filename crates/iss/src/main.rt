//! The program: the top call over standard input and output, UDP sockets and files.
#![tactic(auto)]

use iss_cli::{ReadSource, Status, WriteSink, run};
use iss_disk::FileDisk;
use iss_links::UdpLinks;
use std::io::ErrorKind;
use std::process::ExitCode;
use std::{env, io};

// The program's words, its name first. If one of them is not valid text, returns no words, which are not a call.
fn words(rt: &HostRuntime) -> io::Result<Vec<String>> {
    match env::args(rt) {
        Ok(words) => Ok(words.collect(rt.alloc())?),
        Err(error) => match error.kind() {
            ErrorKind::InvalidData => Ok(Vec::new(rt.alloc())),
            _ => Err(error),
        },
    }
}

fn main(rt: HostRuntime) -> ExitCode {
    let mut input = ReadSource::new(rt.stdin());
    let mut out = WriteSink::new(rt.stdout());
    let mut links = UdpLinks::new(&rt, rt.alloc());
    let mut disk = FileDisk::new(&rt, rt.alloc());
    let status = match words(&rt) {
        Ok(words) => run(
            rt.alloc(),
            &words,
            &mut input,
            &mut out,
            &mut links,
            &mut disk,
        ),
        Err(_) => Status::NoMemory,
    };
    ExitCode::from(status.code())
}
