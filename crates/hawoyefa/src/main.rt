//! The program: it makes the real source, sink, disks and clock, calls `kv_tool::run_offline`, prints what that came to
//! where it isn't Done, and ends with its status.
#![tactic(auto)]

ghost use Rattle.std.specs.Prelude.{◌≡◌, length, IfOk};

use kv_edge::{StdClock, StdSink, StdSource};
use kv_tool::{AnyDisk, Exit, VERSION_TEXT, run_offline};
use magma_disk::{FileDisk, MemDisk};
use std::alloc::{AllocError, Global};
use std::fs::OpenOptions;
use std::io::ErrorKind;
use std::process::ExitCode;
use std::{env, io};

const HELP: &str = "\
usage: hawoyefa pipe [FILE]
  pipe        reads frames of the memcached binary protocol from standard input,
              answers them from one vbucket, and writes the replies to standard
              output; the vbucket is kept in FILE, which is made where it isn't
              there, or without FILE in memory
  --help      prints this text
  --version   prints the version
";

/// The status where the file of `pipe` can't be opened.
const NO_FILE: u8 = 30;

/// The words behind the program's name. A word that is no text is a faulty command line.
fn words(rt: &HostRuntime) -> Result<Vec<String>, Exit> {
    match env::args(rt) {
        Ok(args) => args
            .skip(1)
            .collect(rt.alloc())
            .map_err(|_refused| Exit::NoMemory),
        Err(error) => match error.kind() {
            ErrorKind::OutOfMemory => Err(Exit::NoMemory),
            _ => Err(Exit::Usage),
        },
    }
}

/// Says what the run came to where it isn't Done, and gives its status.
fn finish(rt: &HostRuntime, came_to: Exit) -> ExitCode {
    if came_to != Exit::Done {
        let _ = eprintln!(rt; "{came_to}");
    }
    ExitCode::from(came_to.status())
}

fn print(rt: &HostRuntime, text: &str) -> ExitCode {
    match print!(rt; "{text}") {
        Ok(()) => ExitCode::SUCCESS,
        Err(_) => finish(rt, Exit::WriteFault),
    }
}

/// Prints the version, which is the one that a connection is told.
fn print_version(rt: &HostRuntime) -> ExitCode {
    match println!(rt; "hawoyefa {VERSION_TEXT}") {
        Ok(()) => ExitCode::SUCCESS,
        Err(_) => finish(rt, Exit::WriteFault),
    }
}

/// A file as a disk, as it is; it is made where it isn't there.
fn open_file(rt: &HostRuntime, name: &str) -> io::Result<AnyDisk> {
    let file = OpenOptions::new()
        .read(true)
        .write(true)
        .create(true)
        .open(rt, name)?;
    Ok(AnyDisk::File(FileDisk::new(file)))
}

/// A disk in memory without a byte.
fn in_memory(alloc: Global) -> AnyDisk {
    AnyDisk::Memory(MemDisk::new(alloc, Vec::new(alloc)))
}

/// Four disks: this one, and three in memory.
fn disks_behind(alloc: Global, first: AnyDisk) -> Result<Vec<AnyDisk>, AllocError>
    ensures { IfOk result (λ disks. length disks.items ≡ 4) }
{
    vec![in alloc; first, in_memory(alloc), in_memory(alloc), in_memory(alloc)].map_err(
        |_refused| AllocError,
    )
}

/// Runs the words over standard input and output, the system's clock, and disks of which this is the first.
fn run(rt: HostRuntime, words: &[String], first: AnyDisk) -> ExitCode {
    let Ok(disks) = disks_behind(rt.alloc(), first) else {
        return finish(&rt, Exit::NoMemory);
    };
    let mut source = StdSource::new(rt.stdin());
    let mut sink = StdSink::new(rt.stdout());
    let mut clock = StdClock::new(rt);
    let (came_to, _) = run_offline(rt.alloc(), words, &mut source, &mut sink, disks, &mut clock);
    finish(&rt, came_to)
}

/// Runs `pipe` over a file.
fn run_on_file(rt: HostRuntime, words: &[String], name: &str) -> ExitCode {
    match open_file(&rt, name) {
        Ok(disk) => run(rt, words, disk),
        Err(error) => {
            let _ = eprintln!(rt; "can't open {name:?}: {error}");
            ExitCode::from(NO_FILE)
        }
    }
}

fn main(rt: HostRuntime) -> ExitCode {
    let words = match words(&rt) {
        Ok(words) => words,
        Err(came_to) => return finish(&rt, came_to),
    };
    match words.as_slice() {
        [word] if word.as_str() == "--help" => print(&rt, HELP),
        [word] if word.as_str() == "--version" => print_version(&rt),
        [word, name] if word.as_str() == "pipe" && !name.is_empty() => {
            run_on_file(rt, &words, name.as_str())
        }
        _ => run(rt, &words, in_memory(rt.alloc())),
    }
}
