//! Reads items from a borrowed source ([`SpoolReader`]) or from an owned one ([`Spool`]).
ghost use Rattle.std.specs.Prelude.{◌≡◌, ◌≤◌, ◌<◌, [], IfSome};
ghost use Rattle.std.specs.Io.KnownBytes.{IsAtEnd};
ghost use Rattle.spool_maker.specs.fleet_ports.Counts.{Counts};
ghost use Rattle.spool_text.specs.Next.{unread, place, IfItem, IfNoItem, IfBad, Gives, IsBad, StopsIn};
ghost use Rattle.spool_text.specs.Lost.{most_item, LosesUpTo};
ghost use Rattle.spool_text.specs.Owned.{source_of, left_of, given_of};
ghost use Rattle.history_laws.specs.spool_spec.Limits.{most_spool};

use crate::item::NextItem;
use crate::reader::ItemReader;
use spool_maker::fleet_ports::Source;
use spool_maker::stamp_time::Moment;
use std::alloc::Global;
use std::marker::Model;

/// The state between two items of a spool whose source is borrowed at each call.
///
/// A caller that owns the source uses [`Spool`].
#[derive(Drop)]
pub struct SpoolReader {
    items: ItemReader,
}

impl Model for SpoolReader {
    ghost use Rattle.spool_text.specs.Reading.{Reading};

    ghost Value = { Reading };

    ghost use Rattle.spool_text.specs.Inside.{reading_of};

    ghost view = { λ s. reading_of s.items };
}

impl SpoolReader {
    /// A reader before the first item. It allocates no memory before the first call of `next_item`.
    pub fn new(alloc: Global) -> SpoolReader
        ensures ahead { result.ahead ≡ [] }
        ensures place { place result ≡ 0 }
    {
        SpoolReader {
            items: ItemReader::new(alloc),
        }
    }

    /// The next item of the source. A command is received at the given moment.
    pub fn next_item<S: Source + Drop>(&mut self, source: &mut S, received: Moment) -> NextItem
        ensures item { IfItem result (λ item. Gives received item (place self.old) (place self.new)
            (unread self.old (S.left source.old)) (unread self.new (S.left source.new))) }
        ensures more { IfItem result (λ item. place self.old < place self.new) }
        ensures within { place self.new ≤ most_spool }

        // Without an item the count of bytes is unchanged, and at most one item's bytes are lost. Before a read that failed neither an
        // item nor a malformed first line stood whole. Any read may fail, so none is made while one of them stands there.
        ensures stays { IfNoItem result (place self.new ≡ place self.old) }
        ensures fault { result ≡ NextItem.ReadFault
            → StopsIn received (place self.old) (unread self.old (S.left source.old)) (S.left source.new) }
        ensures lost { IfNoItem result (LosesUpTo most_item (unread self.old (S.left source.old))
            (unread self.new (S.left source.new))) }

        ensures end { result ≡ NextItem.End → IsAtEnd (unread self.old (S.left source.old)) }
        ensures read_to_the_end { result ≡ NextItem.End → IsAtEnd (S.left source.new) }
        ensures bad { IfBad result (λ at. (at ≡ place self.old)
            × IfSome (unread self.old (S.left source.old)) (IsBad received at)) }
        ensures cause { Counts (S.fault_count source.old) (S.fault_count source.new) (result ≡ NextItem.ReadFault) }
    {
        self.items.next_item(source, received)
    }
}

/// A spool that is read item by item from the source that it owns.
#[derive(Drop)]
pub struct Spool<S> {
    reader: SpoolReader,
    source: S,
}

impl<S> Model for Spool<S> {
    ghost use Rattle.spool_text.specs.Reading.{Owned, owned_code};

    ghost Value = { Owned S };

    ghost coded = { owned_code S.code };

    ghost view = { λ s. record { reading = s.reader; source = s.source } };
}

impl<S: Source + Drop> Spool<S> {
    /// The spool in this source. It allocates no memory before the first call of `next_item`.
    pub fn new(alloc: Global, source: S) -> Spool<S>
        ensures source { source_of result ≡ source }
        ensures left { left_of S.left result ≡ S.left source }
        ensures given { given_of result ≡ 0 }
    {
        Spool {
            reader: SpoolReader::new(alloc),
            source,
        }
    }

    /// The next item. A command is received at the given moment.
    pub fn next_item(&mut self, received: Moment) -> NextItem
        ensures item { IfItem result (λ item. Gives received item (given_of self.old) (given_of self.new)
            (left_of S.left self.old) (left_of S.left self.new)) }
        ensures more { IfItem result (λ item. given_of self.old < given_of self.new) }
        ensures within { given_of self.new ≤ most_spool }
        ensures stays { IfNoItem result (given_of self.new ≡ given_of self.old) }
        ensures fault { result ≡ NextItem.ReadFault
            → StopsIn received (given_of self.old) (left_of S.left self.old) (S.left (source_of self.new)) }
        ensures lost { IfNoItem result (LosesUpTo most_item (left_of S.left self.old) (left_of S.left self.new)) }
        ensures end { result ≡ NextItem.End → IsAtEnd (left_of S.left self.old) }
        ensures read_to_the_end { result ≡ NextItem.End → IsAtEnd (S.left (source_of self.new)) }
        ensures bad { IfBad result (λ at. (at ≡ given_of self.old) × IfSome (left_of S.left self.old) (IsBad received at)) }
        ensures cause { Counts (S.fault_count (source_of self.old)) (S.fault_count (source_of self.new))
            (result ≡ NextItem.ReadFault) }
    {
        self.reader.next_item(&mut self.source, received)
    }

    /// Returns the source. Bytes that were read ahead are no longer in it.
    pub fn into_source(self) -> S
        ensures { result ≡ source_of self }
    {
        self.source
    }
}
