//! Laws of the definitions: functions without a body, whose contract is the law.

ghost use Rattle.std.specs.Prelude.{◌≡◌, ℕ, List, [], All};
ghost use Rattle.std.specs.List.{zip};
ghost use Rattle.cc_base.specs.declared.rate.Rate.{Rate};
ghost use Rattle.cue_types.specs.Cues.{IsCueFormed};
ghost use Rattle.cue_types.specs.declared.cue.Cue.{Cue};
ghost use Rattle.dtvcc_screen.specs.Meaning.{served_after};
ghost use Rattle.dtvcc_author.specs.declared.caption.Caption.{Caption};
ghost use Rattle.dtvcc_author.specs.Captions.{service_captions};
ghost use Rattle.dtvcc_author.specs.Kept.{AreKept};
ghost use Rattle.frame_scheduler.specs.Placing.{IsPlaced};
ghost use Rattle.frame_scheduler.specs.Chunks.{ServiceChunk};
ghost use Rattle.frame_scheduler.specs.ServiceBytes.{bytes_in};
ghost use Rattle.frame_scheduler.specs.ServiceChunks.{service_chunks};
ghost use Rattle.frame_scheduler.specs.ServiceRoom.{caption_lane};
ghost use Rattle.windows_shown.specs.CaptionLanes.{lane_of};
ghost use Rattle.windows_shown.specs.Undelayed.{opened, undelayed};
ghost use Rattle.windows_shown.specs.PlacedLanes.{IsPlacedLane, loaded, unloaded};
ghost use Rattle.windows_shown.specs.Filling.{AllFill};
ghost use Rattle.dtvcc_author.specs.declared.frame_events.Delay.{Delay};
ghost use Rattle.windows_shown.specs.ServiceLanes.{IsInDelay, IsOutside, Lane, lane_frame_bytes, lane_frame_events, opening_events, served};
ghost use Rattle.windows_shown.specs.Soundness.{ArePlain, IsSoundLane};

/// At every byte of every frame at most 127 bytes are held: no byte ever fills the buffer, with any number of delays.
pub fn law_of_the_buffer()
    ensures { (lane : Lane) → IsSoundLane lane → (frame : ℕ)
        → AllFill 127 (served lane frame) (lane_frame_events lane frame) }
{}

/// From the frame in which a delay starts up to the one in which it ends, the screen stays as the events of its first frame
/// left it.
pub fn law_of_screens_in_delays()
    ensures { (lane : Lane) (start frame : ℕ) (delay : Delay) → IsSoundLane lane
        → IsInDelay lane start delay frame
        → (served lane frame).core.screen
        ≡ (served_after (served lane start) (opening_events lane start)).core.screen }
{}

/// Where no delay is on, nothing is held.
pub fn law_outside_of_delays()
    ensures { (lane : Lane) (frame : ℕ) → IsSoundLane lane → IsOutside lane frame
        → (served lane frame).core.held ≡ [] }
{}

/// Units of plain commands that are placed, anywhere that their lane allows, in a service whose events and delays are sound by
/// themselves make a sound lane; so its buffer never fills.
pub fn law_of_placed_lanes()
    ensures sound { (lane : Lane) (room : ℕ → ℕ) (chunks : List ServiceChunk) (frames : List ℕ)
        → IsPlacedLane lane room chunks frames
        → IsSoundLane (loaded lane (zip chunks frames)) }
    ensures fills { (lane : Lane) (room : ℕ → ℕ) (chunks : List ServiceChunk) (frames : List ℕ)
        → IsPlacedLane lane room chunks frames
        → (frame : ℕ) → let all = loaded lane (zip chunks frames) in AllFill 127 (served all frame)
        (lane_frame_events all frame) }
{}

/// The lane of a service's captions gives each frame the bytes of the service. Where the captions keep the rules and the cues
/// are in their ranges it is sound without its units, and these are plain and whole. It is sound with them too, wherever they
/// stand that it allows.
pub fn law_of_caption_lanes()
    ensures bytes { (rate : Rate) (cs : List Caption) (placed : List (ServiceChunk × ℕ)) (frame : ℕ)
        → lane_frame_bytes (lane_of rate cs placed) frame ≡ bytes_in cs placed frame }
    ensures captions { (rate : Rate) (frames : ℕ) (cs : List Caption)
        (placed : List (ServiceChunk × ℕ))
        → AreKept rate frames cs
        → IsSoundLane (unloaded (lane_of rate cs placed)) }
    ensures units { (rate : Rate) (service : ℕ) (cues : List Cue) → All IsCueFormed cues
        → All (λ chunk. ArePlain chunk.unit) (service_chunks rate service cues) }
    ensures placed { (rate : Rate) (share service frames : ℕ) (cues : List Cue) (placed : List ℕ)
        → All IsCueFormed cues
        → let cs = service_captions rate service cues in let chunks = service_chunks rate service cues in
        AreKept rate frames cs → IsPlaced (caption_lane share cs) [] chunks placed
        → IsSoundLane (lane_of rate cs (zip chunks placed)) }
{}

/// The screen of a service is as if nothing were ever put off wherever no delay is on, and within a delay as the events of its
/// first frame leave that.
pub fn law_of_undelayed_screens()
    ensures outside { (lane : Lane) (frame : ℕ) → IsSoundLane lane → IsOutside lane frame
        → (served lane frame).core.screen ≡ undelayed lane frame }
    ensures within { (lane : Lane) (start frame : ℕ) (delay : Delay) → IsSoundLane lane
        → IsInDelay lane start delay frame
        → (served lane frame).core.screen ≡ opened lane start }
{}
