//! Laws of the definitions: functions without a body, whose contract is the law.

ghost use Rattle.std.specs.Prelude.{◌≡◌, ◌++◌, ℕ, List};
ghost use Rattle.cdp_packets.specs.Packets.{Frame as FrameOf};
ghost use Rattle.line21_codes.specs.declared.channels.Chan.{Chan};
ghost use Rattle.cc_conceal.specs.Concealers.{Conceals, HasConcealed, concealed_frames, displayed_now};
ghost use Rattle.cc_conceal.specs.Laws.{HeardSinceTheJump, WholeIsReceived};
ghost use Rattle.cc_conceal.specs.declared.concealer.Concealer.{Concealer as ConcealerOf};

/// The frames that are heard are the last one and those before it from the last jump of the counter on.
pub fn frames_are_heard_since_the_jump()
    ensures { HeardSinceTheJump }
{}

/// Where no counter jumps and no pair of line 21 has bad parity, what is shown is what a receiver shows, channel by channel and service
/// by service.
pub fn whole_is_received()
    ensures { WholeIsReceived }
{}

/// More bytes that bring no frame leave the frames that are concealed, of which all calls tell, and so all screens. So where a word is
/// refused, and from then on, the screens, the windows, the number and what is missing stay the last whole frame's.
pub fn refusal_stays()
    ensures frames { (before more : List ℕ) (old new : ConcealerOf) → HasConcealed before old
        → HasConcealed (before ++ more) new → concealed_frames new ≡ concealed_frames old
        → (frames : List FrameOf) × Conceals frames old × Conceals frames new }
    ensures shown { (before more : List ℕ) (old new : ConcealerOf) (chan : Chan)
        → HasConcealed before old
        → HasConcealed (before ++ more) new → concealed_frames new ≡ concealed_frames old
        → displayed_now new chan ≡ displayed_now old chan }
{}
