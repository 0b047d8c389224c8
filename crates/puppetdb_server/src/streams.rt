//! Makes the arguments and streams of this process, and runs the program over them.
use crate::files::open_files;
use crate::no_disk::NoDisk;
use crate::stderr::StdErrors;
use fleet_app::{Exit, StartFault, needs_disks, run_program};
use fleet_ports::{Disk, Disks};
use front_tcp::TcpFront;
use json_tree::{MOST_PAYLOAD, Text};
use pattern_regex::{Keys, RegexPatterns};
use port_real::{FileDisk, StdSink, StdSource};
use std::alloc::{AllocError, Global};
use std::env;
use std::hash::RandomState;
use std::io::ErrorKind;
use std::process::ExitCode;
use std::sync::Wait;
use std::thread::Threads;

/// Runs the program, and answers its exit status. It opens the files only if the arguments name a command that uses them. The
/// runtime is passed twice, because it may start threads and wait only in `main`. First it takes 16 MiB of memory in one piece,
/// and gives them back. If that fails, nothing is lost. From then on, glibc keeps for the process the memory that is given back.
///
/// A command that uses files hashes texts under random keys. If the system gives no random bytes, the program ends as if memory
/// ran out, before it opens a file. So no query is answered under fixed keys.
pub(crate) fn program<R: Threads + Wait + Sync>(rt: &HostRuntime, threads: &R) -> ExitCode {
    keep_memory(rt.alloc());
    let words = match words_of(rt) {
        Ok(words) => words,
        Err(fault) => return run::<NoDisk, R>(rt, threads, Keys::Fixed, Err(fault)),
    };
    match needs_disks(rt.alloc(), words.as_slice()) {
        Ok(true) => {}
        Ok(false) => {
            let start = Ok((words.as_slice(), NoDisk::four()));
            return run(rt, threads, Keys::Fixed, start);
        }
        Err(_) => return run::<NoDisk, R>(rt, threads, Keys::Fixed, Err(StartFault::Memory)),
    }
    let keys = match RandomState::new(rt) {
        Ok(state) => Keys::Drawn(state),
        Err(_) => return run::<NoDisk, R>(rt, threads, Keys::Fixed, Err(StartFault::Memory)),
    };
    match open_files(rt) {
        Ok(disks) => run(rt, threads, keys, Ok((words.as_slice(), disks))),
        Err(fault) => run::<FileDisk, R>(rt, threads, keys, Err(fault)),
    }
}

// Takes memory for the longest payload in one piece, and gives it back. glibc keeps pieces of memory up to the size of the
// largest piece that was given back, and twice as much at the end of its heap. Otherwise it would return each piece to the
// system, and fetch its pages again (mallopt(3), on the dynamic threshold of mmap).
fn keep_memory(alloc: Global) {
    let _ = Vec::<u8>::with_capacity(alloc, MOST_PAYLOAD as usize);
}

// Runs the program over the standard streams. The keys are fixed if there is no start, or no query in the command.
fn run<D: Disk + Drop + Send, R: Threads + Wait + Sync>(
    rt: &HostRuntime,
    threads: &R,
    keys: Keys,
    start: Result<(&[Text], Disks<D>), StartFault>,
) -> ExitCode {
    let mut spool = StdSource::new(rt);
    let mut out = StdSink::new(rt);
    let mut errors = StdErrors::new(rt);
    let mut front = TcpFront::new(rt);
    let mut patterns = RegexPatterns::with_keys(rt.alloc(), keys);
    let Exit { code, .. } = run_program(
        threads,
        rt.alloc(),
        start,
        &mut spool,
        &mut out,
        &mut errors,
        &mut front,
        &mut patterns,
    );
    code
}

// The arguments of the command line, without the program's name.
fn words_of(rt: &HostRuntime) -> Result<Vec<Text>, StartFault> {
    match env::args(rt) {
        Ok(args) => match texts_of(rt.alloc(), args) {
            Ok(words) => Ok(words),
            Err(_) => Err(StartFault::Memory),
        },
        Err(error) if error.kind() == ErrorKind::OutOfMemory => Err(StartFault::Memory),
        Err(_) => Err(StartFault::NotUtf8),
    }
}

fn texts_of(alloc: Global, args: env::Args) -> Result<Vec<Text>, AllocError> {
    let mut words = Vec::new(alloc);
    for arg in args.skip(1) {
        words.push(Text::from_str(alloc, arg.as_str())?)?;
    }
    Ok(words)
}
