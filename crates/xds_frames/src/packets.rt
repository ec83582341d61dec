ghost use Rattle.std.specs.Option.{option_map_or};
ghost use Rattle.std.specs.Prelude.{◌≡◌, ◌≤◌, ◌<◌, ◌+◌, ◌^◌, ◌&&◌, not, ℕ, Bool, List, length, option_map, suc};
ghost use Rattle.line21_codes.specs.NullPairs.{is_null};
ghost use Rattle.line21_codes.specs.Writing.{pair_of_code};
ghost use Rattle.line21_codes.specs.declared.channels.FieldNumber.TheVariants.{Two};
ghost use Rattle.cue_lists.specs.Cadences.{slot_in};
ghost use Rattle.cue_lists.specs.declared.cue.Cue.{Cue};
ghost use Rattle.xds_frames.specs.Loads.{StandsAt};
ghost use Rattle.xds_frames.specs.Packets.{IsLaying, Laying, frame_next, is_free, laid_frame, loads_in, writer_in};
ghost use Rattle.xds_lists.specs.Writer.{IsBehind};
ghost use Rattle.xds_packets.specs.Places.{given_at};
ghost use Rattle.xds_packets.specs.Sending.{Listed, writing_at, unfinished as unfinished_in};

use crate::loads::Loads;
use frame_carrier::{FrameBytes, Overlay};
use line21_codes::Pair;
use xds_lists::XdsWriter;

/// The packets of a list, whose pairs go into the free slots of field 2: those with the null pair, in frames in which no cue of CC3
/// is loaded.
#[derive(Drop)]
pub struct Packets {
    writer: XdsWriter,
    loads: Loads,
    frame: u32,
}

impl Packets {
    /// The packets of a writer that has sent nothing yet, and the times in which the cues of CC3 are loaded, from frame 0 on.
    pub fn new(writer: XdsWriter, loads: Loads) -> Packets
        ensures writer { writer_in result ≡ writer }
        ensures loads { loads_in result ≡ loads }
        ensures frame { frame_next result ≡ 0 }
    {
        Packets {
            writer,
            loads,
            frame: 0,
        }
    }

    /// The number, from 1, of the first packet that isn't ended; None exactly where all are ended.
    pub fn unfinished(&self) -> Option<u32>
        ensures { (frees : ℕ → Bool) (frame_of : ℕ → ℕ) (listed : List Listed) (n : ℕ)
            → IsBehind frees frame_of listed n (writer_in self.now)
            → result ≡ unfinished_in (length listed) (writing_at frees frame_of listed n) }
    {
        self.writer.unfinished()
    }

    /// Begins anew before frame 0, with the first packet.
    pub fn restart(&mut self)
        ensures laying { (laying : Laying) (frame : ℕ) → IsLaying laying frame self.old
            → IsLaying laying 0 self.new }
        ensures frame { frame_next self.new ≡ 0 }
    {
        self.writer.restart();
        self.loads.restart();
        self.frame = 0;
    }

    // The next frame, with its pair.
    pub(crate) fn lay_on(&mut self, bytes: FrameBytes) -> FrameBytes
        requires { frame_next self.old + 1 < 2 ^ 32 }
        ensures lays { (laying : Laying) (frame : ℕ) → IsLaying laying frame self.old
            → bytes.two ≡ option_map laying.pairs (slot_in laying.cadence frame)
            → (result ≡ laid_frame laying frame bytes) × IsLaying laying (frame + 1) self.new }
        ensures frame { frame_next self.new ≡ frame_next self.old + 1 }
    {
        let frame = self.frame;
        self.frame += 1;
        match bytes.two {
            Some(pair) => FrameBytes {
                one: bytes.one,
                two: Some(self.pair(frame, pair)),
                blocks: bytes.blocks,
            },
            None => bytes,
        }
    }

    // The pair of a slot of field 2: the packets', or else the captions'.
    fn pair(&mut self, frame: u32, pair: Pair) -> Pair
        ensures pair { (cues : List Cue) (frees : ℕ → Bool) (frame_of : ℕ → ℕ)
            (listed : List Listed) (n : ℕ) → StandsAt cues frame (loads_in self.old)
            → IsBehind frees frame_of listed n (writer_in self.old)
            → frees n ≡ is_free cues frame pair → frame_of n ≡ frame
            → (result
            ≡ option_map_or (pair_of_code Two) (given_at frees frame_of listed n) pair)
            × IsBehind frees frame_of listed (suc n) (writer_in self.new) }
        ensures loads { (cues : List Cue) → StandsAt cues frame (loads_in self.old) → (later : ℕ)
            → frame ≤ later → StandsAt cues later (loads_in self.new) }
        ensures frame { frame_next self.new ≡ frame_next self.old }
    {
        let loading = self.loads.has(frame);
        let sent = self.writer.step(frame, is_free(loading, pair));
        sent.unwrap_or(pair)
    }
}

impl Overlay for Packets {
    ghost use Rattle.xds_frames.specs.Packets.{LaysPackets, frames_last};

    ghost lasts = { frames_last };

    ghost Lays = { LaysPackets };

    fn lay(&mut self, bytes: FrameBytes) -> FrameBytes {
        self.lay_on(bytes)
    }
}

// Whether a slot with this pair is free, where a cue of CC3 is loaded in its frame or not.
fn is_free(loading: bool, pair: Pair) -> bool
    ensures { result ≡ (not loading && is_null pair) }
{
    !loading && pair.is_null()
}
