ghost use Rattle.run_meaning.specs.NoteLaws.{EachIsLegal, EventsAreNoted, OwnAreNoted};

/// The events that were played are noted, in their order, and no others; and as a client's own those of them that are its.
pub fn events_are_noted()
    ensures all { EventsAreNoted }
    ensures own { OwnAreNoted }
{}

/// No event is legal, and a list with one more is exactly where the list is, and the event in the state that it leads to.
pub fn each_event_is_legal()
    ensures { EachIsLegal }
{}
