//! Reads the bytes of a link: the first 2^62 that its source gives.
ghost use Rattle.std.specs.Prelude.{◌≡◌, ◌≤◌, ◌<◌, length};
ghost use Rattle.fleet_ports.specs.Counts.{Counts};
ghost use Rattle.fleet_ports.specs.Streams.{Takes};
ghost use Rattle.http_front.specs.Link.{limited};
ghost use Rattle.http_spec.specs.Limits.{most_link};

use fleet_ports::{Source, Took};
use http_spec::MOST_LINK;

/// Reads some bytes of a link from which `taken` bytes were read before.
pub(crate) fn read_link<L: Source + Drop>(link: &mut L, taken: &mut u64, into: &mut [u8]) -> Took
    requires within { taken.old ≤ most_link }
    requires room { 0 < length into.old }
    ensures within { taken.new ≤ most_link }
    ensures bytes { Takes result into.new (limited taken.old (L.left link.old)) (limited taken.new (L.left link.new)) }
    ensures cause { Counts (L.fault_count link.old) (L.fault_count link.new) (result ≡ Took.Failed) }
{
    let left = MOST_LINK - *taken;
    if left == 0 {
        return Took::Ended;
    }
    let room = left.min(into.len() as u64) as usize;
    match link.read_some(&mut into[..room]) {
        Took::Bytes(count) => {
            *taken += count as u64;
            Took::Bytes(count)
        }
        Took::Ended => Took::Ended,
        Took::Failed => Took::Failed,
    }
}
