//! Worked examples of the rules, as laws on their definitions: these functions do nothing, and their contracts are proved.
ghost use Rattle.std.specs.Prelude.{[], ◌∷◌, Some, None};
ghost use Rattle.cc_base.specs.declared.why.Why.TheVariants as why;
ghost use Rattle.line21_codes.specs.declared.channels.Chan.TheVariants as chan;
ghost use Rattle.cue_lists.specs.Rules.{HasFault, IsRuled};
ghost use Rattle.cue_lists.specs.Rules.Examples.{example_list, pop, paint, roll, white_then_red, window, window_list, fault};

/// A cue that loads where the former cue is shown, and is hidden two frames before the end, keeps the rules.
pub fn two_cues_in_order()
    ensures { IsRuled (example_list (pop chan.Cc1 0 7 20 ∷ pop chan.Cc1 7 30 98 ∷ [])) }
{}

/// A pop-on cue is hidden in the frame after its SHOW, which its EOC takes too.
pub fn hidden_at_once()
    ensures { HasFault (example_list (pop chan.Cc1 0 7 8 ∷ [])) (fault why.Clash 1 None) }
{}

/// The last event of a cue, sent twice, ends after the last frame.
pub fn hidden_past_end()
    ensures { HasFault (example_list (pop chan.Cc1 0 7 99 ∷ [])) (fault why.PastEnd 1 None) }
{}

/// The second cue loads before the first is shown.
pub fn loaded_too_early()
    ensures { HasFault (example_list (pop chan.Cc1 0 7 20 ∷ pop chan.Cc1 5 30 40 ∷ []))
        (fault why.Order 2 (Some 1)) }
{}

/// A cue of the other field between them is no former cue.
pub fn former_of_its_channel()
    ensures { HasFault (example_list
        (pop chan.Cc1 0 7 20 ∷ pop chan.Cc3 0 7 20 ∷ pop chan.Cc1 8 19 40 ∷ []))
        (fault why.Overlap 3 (Some 1)) }
{}

/// A cue is shown in the second frame of the former cue's EDM.
pub fn shown_as_it_hides()
    ensures { HasFault (example_list (pop chan.Cc1 0 7 20 ∷ pop chan.Cc1 8 21 40 ∷ []))
        (fault why.Clash 2 (Some 1)) }
{}

/// The lead cell of a red run is the last cell of a white one.
pub fn lead_cell_counts()
    ensures { HasFault (example_list (white_then_red ∷ [])) (fault why.Overlap 1 None) }
{}

/// A paint-on cue loads while the former cue is shown.
pub fn painted_over_the_former()
    ensures { HasFault (example_list (pop chan.Cc1 0 7 20 ∷ paint chan.Cc1 19 30 40 ∷ []))
        (fault why.Unhidden 2 (Some 1)) }
{}

/// A roll-up cue without a HIDE is continued by one of as many rows on the same base row, and by no other.
pub fn only_continued()
    ensures chain { IsRuled (example_list
        (roll chan.Cc1 2 0 7 None ∷ roll chan.Cc1 2 8 30 (Some 40) ∷ [])) }
    ensures rows { HasFault (example_list
        (roll chan.Cc1 2 0 7 None ∷ roll chan.Cc1 3 8 30 (Some 40) ∷ []))
        (fault why.Unhidden 2 (Some 1)) }
{}

/// A window is used again from the frame on in which its last cue is hidden, and by no cue that loads before.
pub fn window_used_again()
    ensures vacated { IsRuled (window_list (window 0 0 60 120 0 ∷ window 0 120 160 200 0 ∷ [])) }
    ensures busy { HasFault (window_list (window 0 0 60 120 0 ∷ window 0 119 160 200 0 ∷ []))
        (fault why.WindowBusy 2 (Some 1)) }
{}

/// A delay of ten tenths before frame 60 starts in frame 30: an event of another cue may lie there, and in no frame up to 60.
pub fn delay_kept_clear()
    ensures clear { IsRuled (window_list (window 0 0 60 120 10 ∷ window 1 0 30 60 0 ∷ [])) }
    ensures covered { HasFault (window_list (window 0 0 60 200 10 ∷ window 1 0 10 45 0 ∷ []))
        (fault why.DelayCovers 2 (Some 1)) }
    ensures covering { HasFault (window_list (window 0 0 45 200 0 ∷ window 1 0 60 120 10 ∷ []))
        (fault why.DelayCovers 2 (Some 1)) }
    ensures together { HasFault (window_list (window 0 0 60 120 10 ∷ window 1 0 60 200 10 ∷ []))
        (fault why.DelayCovers 2 (Some 1)) }
{}

/// The delay of a window starts after its LOAD, and the cues of a service load in their order.
pub fn windows_loaded_in_order()
    ensures started { HasFault (window_list (window 0 30 60 120 10 ∷ [])) (fault why.Order 1 None) }
    ensures loaded { HasFault (window_list (window 0 10 60 120 0 ∷ window 1 9 70 130 0 ∷ []))
        (fault why.Order 2 (Some 1)) }
{}

/// A window needs a share of its service, and is hidden before the last frame has ended.
pub fn window_in_its_list()
    ensures unshared { HasFault (example_list (window 0 0 60 90 0 ∷ [])) (fault why.Share 1 None) }
    ensures last { IsRuled (window_list (window 0 0 60 299 0 ∷ [])) }
    ensures behind { HasFault (window_list (window 0 0 60 300 0 ∷ [])) (fault why.PastEnd 1 None) }
{}
