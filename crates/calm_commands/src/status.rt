//! Defines the statuses of the program: exit codes and lines.
ghost use Rattle.std.specs.Prelude.{◌≡◌, ◌++◌, IfOk, OnOk};
ghost use Rattle.calm_commands.specs.StatusText.{status_code, status_line, damaged_front, line_front, line_number, number_text, line_end};

use command_core::FileName;
use itoa::Buffer;
use json_tree::Bytes;
use query_answer::QueryRefusal;
use std::alloc::{AllocError, Global};

/// How the program ends.
#[derive(Drop)]
pub enum Status {
    /// The command did all that it should.
    Done,
    /// The arguments are no command, or aren't UTF-8.
    Usage,
    /// The bytes are no spool: no whole item stands at this byte offset.
    SpoolBad { at: u64 },
    /// The source counted a fault.
    ReadFault,
    /// The sink counted a fault. The output was cut short.
    WriteFault,
    /// A disk of the queue counted a fault, or a file of the queue can't be opened.
    QueueFault,
    /// A disk of the store counted faults when a record was written, and again when that was repaired.
    StoreDown,
    /// A file is damaged at this byte offset.
    Damaged { file: FileName, at: u64 },
    /// The listener couldn't listen, or counted a fault while it waited for a connection.
    ListenFault,
    /// The query is refused.
    QueryRefused(QueryRefusal),
    /// There was no memory.
    Memory,
    /// A log has no room for a record, no receipt is left, or a log to be compacted has no generation left.
    Spent,
    /// A file of the queue is open, and so is one of the store.
    AlreadyLaid,
    /// A disk of the store counted a fault, or a file of the store can't be opened.
    StoreFault,
    /// No command was discarded under this receipt.
    NoSuch { receipt: u64 },
}

impl Status {
    /// The exit status of the program: 0 for Done, and 2 to 15 for the others, each a number of its own.
    pub fn code(&self) -> u8
        ensures { result ≡ status_code self.now }
    {
        match self {
            Status::Done => 0,
            Status::Usage => 2,
            Status::SpoolBad { .. } => 3,
            Status::ReadFault => 4,
            Status::WriteFault => 5,
            Status::QueueFault => 6,
            Status::StoreDown => 7,
            Status::Damaged { .. } => 8,
            Status::ListenFault => 9,
            Status::QueryRefused(_) => 10,
            Status::Memory => 11,
            Status::Spent => 12,
            Status::AlreadyLaid => 13,
            Status::StoreFault => 14,
            Status::NoSuch { .. } => 15,
        }
    }

    /// The line for standard error, without a line end. It is printed if the code isn't 0.
    pub fn line(&self, alloc: Global) -> Result<Bytes, AllocError>
        ensures { IfOk result (λ line. line ≡ status_line self.now) }
    {
        let mut line = Vec::new(alloc);
        line.extend_from_slice(self.front())?;
        self.put_end(alloc, &mut line)?;
        Ok(Bytes::from_vec(line))
    }

    // Appends what follows the first part of the line.
    fn put_end(&self, alloc: Global, line: &mut Vec<u8>) -> Result<(), AllocError>
        ensures { OnOk result (line.new.items ≡ line.old.items ++ line_end self.now) }
    {
        match self {
            Status::QueryRefused(why) => {
                let text = why.text(alloc)?;
                line.extend_from_slice(text.as_slice())?;
                Ok(())
            }
            _ => put_number(line, self.number()),
        }
    }

    // The line up to the number that it may end with.
    pub(crate) fn front(&self) -> &'static [u8]
        ensures { result.now ≡ line_front self.now }
    {
        match self {
            Status::Done => b"",
            Status::Usage => b"usage",
            Status::SpoolBad { .. } => b"spool bad at ",
            Status::ReadFault => b"read fault",
            Status::WriteFault => b"write fault",
            Status::QueueFault => b"queue fault",
            Status::StoreDown => b"store down",
            Status::Damaged { file, .. } => damaged(*file),
            Status::ListenFault => b"listen fault",
            Status::QueryRefused(_) => b"query refused: ",
            Status::Memory => b"out of memory",
            Status::Spent => b"spent",
            Status::AlreadyLaid => b"already laid",
            Status::StoreFault => b"store fault",
            Status::NoSuch { .. } => b"no such receipt ",
        }
    }

    // The number that the line ends with, if any.
    pub(crate) fn number(&self) -> Option<u64>
        ensures { result ≡ line_number self.now }
    {
        match self {
            Status::SpoolBad { at } => Some(*at),
            Status::Damaged { at, .. } => Some(*at),
            Status::NoSuch { receipt } => Some(*receipt),
            _ => None,
        }
    }
}

fn put_number(line: &mut Vec<u8>, number: Option<u64>) -> Result<(), AllocError>
    ensures { OnOk result (line.new.items ≡ line.old.items ++ number_text number) }
{
    if let Some(number) = number {
        let mut digits = Buffer::new();
        line.extend_from_slice(digits.format(number).as_bytes())?;
    }
    Ok(())
}

fn damaged(file: FileName) -> &'static [u8]
    ensures { result.now ≡ damaged_front file }
{
    match file {
        FileName::QueueA => b"damaged queue.a at ",
        FileName::QueueB => b"damaged queue.b at ",
        FileName::StoreA => b"damaged store.a at ",
        FileName::StoreB => b"damaged store.b at ",
    }
}
