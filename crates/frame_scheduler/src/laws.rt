ghost use Rattle.frame_scheduler.specs.End.{NothingBehindTheEnd};
ghost use Rattle.frame_scheduler.specs.EventsApart.{EventsAreApart};

/// The law that the events of a channel lie apart in every cue list that keeps the rules. They are in the order of
/// their slots, and none begins before the one before it has ended, each being sent in two slots (CTA-608-E).
pub fn law_of_events_apart()
    ensures { EventsAreApart }
{}

/// The law that from the end of a cue list that keeps the rules on frames carry nothing: the null pair in each slot, and no service
/// block.
pub fn law_of_the_end()
    ensures { NothingBehindTheEnd }
{}
