//! Steps on the pending commands, and the release of a claim.
ghost use Rattle.std.specs.Prelude.{◌≡◌, ◌+◌, ◌<◌, [], ◌∷◌, IsTrue, flat_map, false};
ghost use Rattle.retry_discard.specs.core_spec.declared.event.Event.TheVariants as event;
ghost use Rattle.compact_laws.specs.core_machine.Claims.{is_claimed};
ghost use Rattle.compact_laws.specs.core_machine.Steps.{at_receipt, marked};
ghost use Rattle.supersede_core.specs.Waiting.{stands};

use crate::events::Events;
use retry_discard::core_spec::Event;
use supersede_core::Pending;

/// Whether the command of the receipt is pending and claimed.
pub fn is_claimed(pending: &Pending, receipt: u64) -> bool
    ensures { result ≡ is_claimed receipt pending.now }
{
    match pending.entry(receipt) {
        None => false,
        Some(entry) => entry.claimed,
    }
}

/// Takes the entry of the receipt out, queued or claimed.
pub fn take_out(pending: &mut Pending, receipt: u64)
    requires { IsTrue (stands receipt pending.old) }
    ensures { pending.new ≡ flat_map (at_receipt receipt (λ e. [])) pending.old }
{
    pending.take(receipt);
}

/// Queues a claimed command again, and notes its release. It takes no memory.
pub fn free_claim(pending: &mut Pending, events: &mut Events, receipt: u64)
    requires claimed { IsTrue (is_claimed receipt pending.old) }
    requires room { 0 < events.old.room }
    ensures pending { pending.new ≡ flat_map (at_receipt receipt (λ e. marked false e ∷ [])) pending.old }
    ensures list { events.new.list ≡ event.Release receipt ∷ events.old.list }
    ensures room { events.new.room + 1 ≡ events.old.room }
{
    pending.unmark(receipt);
    events.note(Event::Release(receipt));
}
