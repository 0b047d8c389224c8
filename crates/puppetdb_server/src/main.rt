//! The program, over the command line, the standard streams and the files of the working folder.
//!
//! [`program`] is all of `main`. It makes the arguments and the streams, and opens the files `queue.a`, `queue.b`, `store.a` and
//! `store.b` if the command uses them. Then it hands everything to `run_program` of `fleet_app`, which says what each command
//! does.
//!
//! The code here is proved safe. The standard error and the disks that aren't there are proved to keep the rules of their ports.
//! No contract says what `program` does with the system's arguments, streams and files. The stored run shows it for one command,
//! by the standard output and the status. That command is `run` with eight workers, on files that `init` made. Its spool has two
//! hundred commands of forty nodes, and one that is cut short.
#![tactic(auto)]

mod files;
mod no_disk;
mod stderr;
mod streams;

use std::process::ExitCode;
use streams::program;

fn main(rt: HostRuntime) -> ExitCode {
    program(&rt, &rt)
}
