//! Laws of the definitions: functions without a body, whose contract is the law.

ghost use Rattle.std.specs.Prelude.{◌≡◌, false, true, [], ◌∷◌, map};
ghost use Rattle.lost.specs.WindowExamples.{interrupted_list, is_seen_since};
ghost use Rattle.lost.specs.WindowLoss.{IsServiceBack, ServiceLossIsRecovered};

/// In a list that is in form and keeps the rules, let a service be reset after a lost frame. It shows just the authored windows at every frame
/// at which each cue of the service that isn't hidden yet has its LOAD after the lost frame, so always where it has no cue. This holds
/// wherever the units stand that the lane allows, with any number of delays and loads under way at the loss, and whatever the service's clock
/// had counted.
pub fn service_loss_is_recovered()
    ensures { ServiceLossIsRecovered }
{}

/// What is seen after the loss of frame 5, worked out by hand. Nothing is seen of a window that was shown by then, nor of one whose
/// DefineWindow came before, though more of its load and what shows it come later. Seen are a window that is loaded later, while the
/// delay of the lost one is on, and one that is loaded and shown when all others are hidden. From frame 20 on no window is left that was
/// loaded before the loss.
pub fn windows_behind_a_loss_are_seen()
    ensures shown { map (is_seen_since 0) (6 ∷ 11 ∷ 12 ∷ 24 ∷ 25 ∷ 29 ∷ 30 ∷ [])
        ≡ false ∷ false ∷ false ∷ false ∷ true ∷ true ∷ false ∷ [] }
    ensures loading { map (is_seen_since 1) (9 ∷ 10 ∷ 19 ∷ 20 ∷ [])
        ≡ false ∷ false ∷ false ∷ false ∷ [] }
    ensures meanwhile { map (is_seen_since 2) (14 ∷ 15 ∷ 19 ∷ 20 ∷ [])
        ≡ false ∷ true ∷ true ∷ false ∷ [] }
    ensures back { IsServiceBack interrupted_list 1 20 5 }
    ensures cut { IsServiceBack interrupted_list 1 19 5 → ⊥ }
{}
