//! `conductor`: a workflow server. The first word on the command line names what it does.
#![tactic(auto)]

use std::io::ErrorKind;
use std::process::ExitCode;
use std::{env, io};
use wf_commands::batch::batch;
use wf_commands::check::check;
use wf_commands::{GRAMMAR, Status, Word, is_check};
use wf_wire::{ReadSource, SystemClock, WriteSink};

fn main(rt: HostRuntime) -> ExitCode {
    let status = run(&rt);
    if status != Status::Done {
        let _ = tell(&rt, status);
    }
    ExitCode::from(status.code())
}

/// Runs the command that the words name, from standard input to standard output.
fn run(rt: &HostRuntime) -> Status {
    let words = match read_words(rt) {
        Ok(words) => words,
        Err(status) => return status,
    };
    let mut source = ReadSource::new(rt.reader());
    let mut sink = WriteSink::new(io::writer(rt));
    if is_check(&words) {
        return check(rt.alloc(), &words, &mut source, &mut sink);
    }
    let mut clock = SystemClock::new(rt);
    batch(rt.alloc(), &words, &mut source, &mut sink, &mut clock)
}

/// The words behind the program's name. Words that aren't UTF-8 are no command.
fn read_words(rt: &HostRuntime) -> Result<Vec<Word>, Status> {
    let args = match env::args(rt) {
        Ok(args) => args,
        Err(error) => {
            let starved = error.kind() == ErrorKind::OutOfMemory;
            return Err(if starved {
                Status::NoMemory
            } else {
                Status::Usage
            });
        }
    };
    let mut words = Vec::new(rt.alloc());
    for word in args.skip(1) {
        if words.push(word).is_err() {
            return Err(Status::NoMemory);
        }
    }
    Ok(words)
}

/// Says on standard error how the program ended.
fn tell(rt: &HostRuntime, status: Status) -> io::Result<()> {
    match status.offset() {
        Some(offset) => eprintln!(rt;
            "conductor: {} at byte {} (status {})",
            status.name(),
            offset,
            status.code()
        )?,
        None => eprintln!(rt; "conductor: {} (status {})", status.name(), status.code())?,
    }
    if status == Status::Usage {
        eprintln!(rt; "{}", GRAMMAR)?;
    }
    Ok(())
}
