//! The server's program: `b2d replay` reads a script from standard input and prints what was sent.
#![tactic(auto)]

mod edge;

ghost use Rattle.std.specs.Prelude.{◌≡◌};
ghost use Rattle.b2d.specs.Exit.{exit_number};

use b2_base::Text;
use b2_server::{Status, run_b2d};
use edge::{StdIn, StdOut};
use std::alloc::{AllocError, Global};
use std::process::ExitCode;
use std::rt::Env;
use std::{env, io};

/// The exit status of a run: the numbers leave room for the statuses of later commands.
fn exit_number(status: Status) -> u8
    ensures { result ≡ exit_number status }
{
    match status {
        Status::Ok => 0,
        Status::Usage => 1,
        Status::Memory => 2,
        Status::SourceFault => 5,
        Status::SinkFault => 6,
        Status::BadLine(_) => 7,
    }
}

// The words behind the program's name. A word that is not UTF-8 is none that the program knows.
fn words<R: Env + AllocGlobal>(rt: &R) -> Result<Vec<Text>, Status> {
    let args = match env::args(rt) {
        Ok(args) => args,
        Err(error) if error.kind() == io::ErrorKind::OutOfMemory => return Err(Status::Memory),
        Err(_) => return Err(Status::Usage),
    };
    let mut words = Vec::new(rt.alloc());
    for word in args.skip(1) {
        if words.push(Text::of(word)).is_err() {
            return Err(Status::Memory);
        }
    }
    Ok(words)
}

// Says on standard error how a run ended that did not end well.
fn tell(rt: &impl Eprint, status: Status) -> io::Result<()> {
    match status {
        Status::Ok => Ok(()),
        Status::Usage => eprintln!(rt; "b2d: Usage"),
        Status::Memory => eprintln!(rt; "b2d: Memory"),
        Status::SourceFault => eprintln!(rt; "b2d: SourceFault"),
        Status::SinkFault => eprintln!(rt; "b2d: SinkFault"),
        Status::BadLine(line) => eprintln!(rt; "b2d: BadLine {line}"),
    }
}

fn main(rt: HostRuntime) -> ExitCode {
    let status = match words(&rt) {
        Ok(words) => {
            let mut script = StdIn::new(rt.reader());
            let mut out = StdOut::new(io::writer(&rt));
            run_b2d(rt.alloc(), &words, &mut script, &mut out)
        }
        Err(status) => status,
    };
    let _ = tell(&rt, status);
    ExitCode::from(exit_number(status))
}
