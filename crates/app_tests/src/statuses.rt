//! The statuses of commands: their codes and their lines.
use fleet_app::{FileName, Status};
use std::alloc::Global;
use test_support::{number_of, parted};

/// The code and the line of each status of [`status_at`].
const LINES: &str =
    "0 ;2 usage;3 spool bad at 0;3 spool bad at 18446744073709551615;4 read fault;5 write fault;6 queue fault;7 store down;\
8 damaged queue.a at 0;8 damaged queue.b at 1;8 damaged store.a at 16;8 damaged store.b at 18446744073709551615;9 listen fault;\
11 out of memory;12 spent;13 already laid;14 store fault;15 no such receipt 7";

fn damaged(file: FileName, at: u64) -> Status {
    Status::Damaged { file, at }
}

fn status_at(at: usize) -> Status {
    match at {
        0 => Status::Done,
        1 => Status::Usage,
        2 => Status::SpoolBad { at: 0 },
        3 => Status::SpoolBad { at: u64::MAX },
        4 => Status::ReadFault,
        5 => Status::WriteFault,
        6 => Status::QueueFault,
        7 => Status::StoreDown,
        8 => damaged(FileName::QueueA, 0),
        9 => damaged(FileName::QueueB, 1),
        10 => damaged(FileName::StoreA, 16),
        11 => damaged(FileName::StoreB, u64::MAX),
        12 => Status::ListenFault,
        13 => Status::Memory,
        14 => Status::Spent,
        15 => Status::AlreadyLaid,
        16 => Status::StoreFault,
        _ => Status::NoSuch { receipt: 7 },
    }
}

// Whether the status has this code and this line.
fn is_told(alloc: Global, status: Status, code: &str, text: &str) -> bool {
    let has_line = match status.line(alloc) {
        Ok(line) => line.as_slice() == text.as_bytes(),
        Err(_) => false,
    };
    has_line && number_of(code) == u64::from(status.code())
}

// The first line that isn't told; none where each is.
fn untold(alloc: Global) -> Option<&'static str> {
    let mut rest = LINES;
    'lines: for at in 0..18 {
        let (line, more) = parted(rest, ";");
        let (code, text) = parted(line, " ");
        if !is_told(alloc, status_at(at), code, text) {
            return Some(line);
        }
        rest = more;
    }
    None
}

#[test]
fn each_status_has_its_code_and_its_line(rt: HostRuntime) {
    assert!(rt; untold(rt.alloc()).is_none());
}
