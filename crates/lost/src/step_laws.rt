//! Laws of the definitions: functions without a body, whose contract is the law.

ghost use Rattle.std.specs.List.{range_with_len};
ghost use Rattle.line21_codes.specs.declared.channels.Chan.TheVariants.{Cc1};
ghost use Rattle.cue_lists.specs.Rules.{IsRuled};
ghost use Rattle.lost.specs.Delivered.{AreDelivered};
ghost use Rattle.lost.specs.Recovered.{IsChannelInStep, IsServiceInStep};
ghost use Rattle.lost.specs.StepExamples.{all_but, fast_list, slow_list};

/// Of a list at 29.97 frame 3 is lost, in which the first caption of CC1 loads, and the first window of service 1. The channel is in step
/// before the loss, not right before the SHOW of the second caption, and at this; the service is at the HIDE of its first window.
pub fn steps_at_29_97()
    ensures ruled { IsRuled slow_list }
    ensures delivered { AreDelivered (all_but 3 18) }
    ensures before { IsChannelInStep slow_list Cc1 (range_with_len 0 3) 2 }
    ensures cut { IsChannelInStep slow_list Cc1 (all_but 3 17) 17 → ⊥ }
    ensures again { IsChannelInStep slow_list Cc1 (all_but 3 18) 18 }
    ensures window { IsServiceInStep slow_list 1 (all_but 3 16) 16 }
{}

/// So it is at 59.94, at twice the frames, where frame 7 is lost.
pub fn steps_at_59_94()
    ensures ruled { IsRuled fast_list }
    ensures delivered { AreDelivered (all_but 7 36) }
    ensures before { IsChannelInStep fast_list Cc1 (range_with_len 0 7) 6 }
    ensures cut { IsChannelInStep fast_list Cc1 (all_but 7 35) 35 → ⊥ }
    ensures again { IsChannelInStep fast_list Cc1 (all_but 7 36) 36 }
    ensures window { IsServiceInStep fast_list 1 (all_but 7 32) 32 }
{}
