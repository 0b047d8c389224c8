//! Notes an event, of which memory holds the kind alone.
ghost use Rattle.std.specs.Prelude.{◌≡◌};
ghost use Rattle.core_state.specs.EventKinds.{kind_of};

use retry_discard::core_spec::Event;
use std::marker::Model;
use std::snapshot::Snapshot;

/// What kind of event it is, as far as a tally tells events apart.
#[derive(Clone, Copy)]
pub(crate) enum EventKind {
    Submit,
    Apply,
    Supersede,
    Discard,
    Other,
}

fn kind_of(event: &Event) -> EventKind
    ensures { result ≡ kind_of event.now }
{
    match event {
        Event::Submit(_, _) => EventKind::Submit,
        Event::Apply(_, _) => EventKind::Apply,
        Event::Supersede(_, _) => EventKind::Supersede,
        Event::Discard(_, _) => EventKind::Discard,
        _ => EventKind::Other,
    }
}

/// A note of an event. It is one byte, the kind. Contracts see the whole event.
#[derive(Drop)]
pub(crate) struct EventNote {
    kind: EventKind,
    event: Snapshot<Event>,
}

impl Model for EventNote {
    ghost use Rattle.std.specs.Prelude.{◌≡◌};
    ghost use Rattle.retry_discard.specs.core_spec.declared.event.Event.{Event};
    ghost use Rattle.core_state.specs.EventKinds.{kind_of};

    ghost Value = { Event };

    ghost view = { λ a. a.event.value };

    ghost invariant = { λ a. a.kind ≡ kind_of a.event.value };
}

impl EventNote {
    /// A note of the event, which is dropped. A command that came in is held by whoever still needs it.
    pub(crate) fn of(event: Event) -> EventNote
        ensures { result ≡ event }
    {
        let kind = kind_of(&event);
        let told = Snapshot::of(&event);
        drop(event);
        EventNote { kind, event: told }
    }

    /// The kind of the event.
    pub(crate) fn kind(&self) -> EventKind
        ensures { result ≡ kind_of self.now }
    {
        self.kind
    }
}
