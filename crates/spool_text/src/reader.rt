//! Reads the next item from the buffered bytes and a source.
ghost use Rattle.std.specs.Prelude.{◌≡◌, ◌≢◌, ◌+◌, ◌≤◌, ◌<◌, [], take, drop, vec_len, IfSome};
ghost use Rattle.std.specs.Io.KnownBytes.{IsAtEnd};
ghost use Rattle.spool_maker.specs.history_spec.Thread.{sweep};
ghost use Rattle.spool_maker.specs.fleet_ports.Counts.{Counts};
ghost use Rattle.spool_maker.specs.fleet_rows.json_tree.Limits.{most_payload};
ghost use Rattle.history_laws.specs.spool_spec.Limits.{most_spool};

use crate::first_line::FirstLine;
use crate::item::NextItem;
use crate::piece::{Feed, Front, MOST_LINE, Payload, Piece, ROOM};
use spool_maker::MOST_SPOOL;
use spool_maker::fleet_ports::Source;
use spool_maker::fleet_rows::{Command, Kind, Kinds};
use spool_maker::json_tree::Bytes;
use spool_maker::stamp_time::Moment;
use std::alloc::Global;

/// The buffered bytes, and the number of bytes of the items returned so far.
#[derive(Drop)]
pub(crate) struct ItemReader {
    alloc: Global,
    piece: Piece,
    given: u64,
    ghost within: { given ≤ most_spool },
}

impl ItemReader {
    ghost use Rattle.spool_text.specs.FirstLine.{first_line_at};
    ghost use Rattle.spool_text.specs.Unread.{buffered, HasLine};
    ghost use Rattle.spool_text.specs.Next.{IfItem, IfNoItem, IfBad, Gives, IsBad, StopsIn};
    ghost use Rattle.spool_text.specs.Lost.{most_item, LosesUpTo};
    ghost use Rattle.spool_text.specs.Inside.{unread, place, reading_of};

    /// A reader before the first item. It allocates no memory.
    pub(crate) fn new(alloc: Global) -> ItemReader
        ensures { reading_of result ≡ record { ahead = []; given = 0 } }
    {
        ItemReader {
            alloc,
            piece: Piece::new(alloc),
            given: 0,
        }
    }

    /// The next item. A command is received at the given moment.
    pub(crate) fn next_item<S: Source + Drop>(
        &mut self,
        source: &mut S,
        received: Moment,
    ) -> NextItem
        ensures item { IfItem result (λ item. Gives received item (place self.old) (place self.new)
            (unread self.old (S.left source.old)) (unread self.new (S.left source.new))) }
        ensures stays { IfNoItem result (place self.new ≡ place self.old) }
        ensures fault { result ≡ NextItem.ReadFault
            → StopsIn received (place self.old) (unread self.old (S.left source.old)) (S.left source.new) }
        ensures lost { IfNoItem result (LosesUpTo most_item (unread self.old (S.left source.old)) (unread self.new (S.left source.new))) }
        ensures end { result ≡ NextItem.End → IsAtEnd (unread self.old (S.left source.old)) }
        ensures read_to_the_end { result ≡ NextItem.End → IsAtEnd (S.left source.new) }
        ensures bad { IfBad result (λ at. (at ≡ place self.old)
            × IfSome (unread self.old (S.left source.old)) (IsBad received at)) }
        ensures within { place self.new ≤ most_spool }
        ensures more { IfItem result (λ item. place self.old < place self.new) }
        ensures cause { Counts (S.fault_count source.old) (S.fault_count source.new) (result ≡ NextItem.ReadFault) }
    {
        if self.piece.prepare(self.alloc).is_err() {
            return NextItem::Memory;
        }
        match self.piece.front(source) {
            Front::Line(len) => self.read_item(source, len, received),
            Front::NoLine => NextItem::SpoolBad { at: self.given },
            Front::Nothing => NextItem::End,
            Front::Failed => NextItem::ReadFault,
        }
    }

    // The item whose first line is buffered.
    fn read_item<S: Source + Drop>(
        &mut self,
        source: &mut S,
        len: usize,
        received: Moment,
    ) -> NextItem
        requires ready { ROOM ≤ vec_len self.old.piece.bytes }
        requires line { HasLine len (buffered self.old.piece) }
        requires short { len < MOST_LINE }
        ensures item { IfItem result (λ item. Gives received item (place self.old) (place self.new)
            (unread self.old (S.left source.old)) (unread self.new (S.left source.new))) }
        ensures stays { IfNoItem result (place self.new ≡ place self.old) }
        ensures fault { result ≡ NextItem.ReadFault
            → StopsIn received (place self.old) (unread self.old (S.left source.old)) (S.left source.new) }
        ensures lost { IfNoItem result (LosesUpTo most_item (unread self.old (S.left source.old)) (unread self.new (S.left source.new))) }
        ensures not_end { result ≢ NextItem.End }
        ensures bad { IfBad result (λ at. (at ≡ place self.old)
            × IfSome (unread self.old (S.left source.old)) (IsBad received at)) }
        ensures more { IfItem result (λ item. place self.old < place self.new) }
        ensures cause { Counts (S.fault_count source.old) (S.fault_count source.new) (result ≡ NextItem.ReadFault) }
    {
        match FirstLine::read(&self.piece.as_slice()[..len]) {
            Some(
                FirstLine::Command {
                    kind,
                    version,
                    size,
                },
            ) => self.read_command(source, len, kind, version, size, received),
            Some(FirstLine::Sweep { kinds, nanos }) => {
                self.read_sweep(len, kinds, Moment::from_nanosecond(nanos))
            }
            None => NextItem::SpoolBad { at: self.given },
        }
    }

    // The command whose first line is buffered.
    fn read_command<S: Source + Drop>(
        &mut self,
        source: &mut S,
        len: usize,
        kind: Kind,
        version: u32,
        size: usize,
        received: Moment,
    ) -> NextItem
        requires ready { ROOM ≤ vec_len self.old.piece.bytes }
        requires line { HasLine len (buffered self.old.piece) }
        requires short { len < MOST_LINE }
        requires small { size ≤ most_payload }
        requires first { first_line_at (take len (buffered self.old.piece)) ≡ Some (FirstLine.Command kind version size) }
        ensures item { IfItem result (λ item. Gives received item (place self.old) (place self.new)
            (unread self.old (S.left source.old)) (unread self.new (S.left source.new))) }
        ensures stays { IfNoItem result (place self.new ≡ place self.old) }
        ensures fault { result ≡ NextItem.ReadFault
            → StopsIn received (place self.old) (unread self.old (S.left source.old)) (S.left source.new) }
        ensures lost { IfNoItem result (LosesUpTo most_item (unread self.old (S.left source.old)) (unread self.new (S.left source.new))) }
        ensures not_end { result ≢ NextItem.End }
        ensures bad { IfBad result (λ at. (at ≡ place self.old)
            × IfSome (unread self.old (S.left source.old)) (IsBad received at)) }
        ensures more { IfItem result (λ item. place self.old < place self.new) }
        ensures cause { Counts (S.fault_count source.old) (S.fault_count source.new) (result ≡ NextItem.ReadFault) }
    {
        let end = self.given + (len + size + 2) as u64;
        if end > MOST_SPOOL {
            return NextItem::SpoolBad { at: self.given };
        }
        self.piece.advance(len + 1);
        match self.piece.take_payload(self.alloc, source, size) {
            Payload::Whole(payload) => match self.piece.take_feed(source) {
                Feed::Taken => {
                    self.given = end;
                    NextItem::Command(Command {
                        kind,
                        version,
                        received,
                        payload: Bytes::from_vec(payload),
                    })
                }
                Feed::Missing => NextItem::SpoolBad { at: self.given },
                Feed::Failed => NextItem::ReadFault,
            },
            Payload::Cut => NextItem::SpoolBad { at: self.given },
            Payload::Failed => NextItem::ReadFault,
            Payload::Memory => NextItem::Memory,
        }
    }

    // The sweep whose line is buffered.
    fn read_sweep(&mut self, len: usize, kinds: Kinds, moment: Moment) -> NextItem
        requires line { HasLine len (buffered self.old.piece) }
        requires short { len < MOST_LINE }
        requires first { first_line_at (take len (buffered self.old.piece)) ≡ Some (FirstLine.Sweep kinds moment) }
        ensures item { IfItem result (λ item. (item ≡ sweep kinds moment) × (place self.new ≡ place self.old + len + 1)
            × (buffered self.new.piece ≡ drop (len + 1) (buffered self.old.piece))) }
        ensures stays { IfNoItem result (self.new ≡ self.old) }
        ensures not_end { result ≢ NextItem.End }
        ensures not_fault { result ≢ NextItem.ReadFault }
        ensures bad { IfBad result (λ at. (at ≡ place self.old) × (most_spool < place self.old + len + 1)) }
    {
        let end = self.given + (len + 1) as u64;
        if end > MOST_SPOOL {
            return NextItem::SpoolBad { at: self.given };
        }
        self.piece.advance(len + 1);
        self.given = end;
        NextItem::Sweep(kinds, moment)
    }
}
