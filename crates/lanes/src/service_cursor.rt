ghost use Rattle.std.specs.Prelude.{◌≡◌, ℕ, ◌+◌, ◌^◌, ◌<◌, ◌≤◌, ◌++◌, List, length};
ghost use Rattle.std.specs.List.{zip};
ghost use Rattle.dtvcc_author.specs.Latest.{IsLatestAt};
ghost use Rattle.dtvcc_author.specs.declared.caption.Caption.{Caption};
ghost use Rattle.lanes.specs.ServiceBytes.{IsLoading, IsReadyForBytes, bytes_in, loads_at};
ghost use Rattle.lanes.specs.Batches.{batch_frames};

use crate::batch::Batch;
use crate::chunk_list::ChunkList;
use arrayvec::ArrayVec;
use dtvcc_author::{Caption, Latest};

/// A place in a service's captions and units, from which the bytes of each frame are given in turn.
#[derive(Clone, Copy)]
pub(crate) struct Cursor {
    frame: u32,
    // How many batches were given.
    next: usize,
    // Where the bytes of the next one start.
    start: usize,
    latest: Latest,
}

impl Cursor {
    /// The cursor at frame 0.
    pub fn start() -> Self
        ensures frame { result.frame ≡ 0 }
        ensures next { result.next ≡ 0 }
        ensures start { result.start ≡ 0 }
        ensures latest { (captions : List Caption) → IsLatestAt captions 0 result.latest }
    {
        Cursor {
            frame: 0,
            next: 0,
            start: 0,
            latest: Latest::start(),
        }
    }

    /// Gives the bytes of the cursor's frame, and moves on by one frame.
    pub fn step(
        &mut self,
        captions: &[Caption],
        chunks: &ChunkList,
        batches: &[Batch],
    ) -> ArrayVec<u8, 31>
        requires small { self.old.frame + 1 < 2 ^ 32 }
        requires ready { IsReadyForBytes captions.now chunks.now batches.now self.old }
        requires within { length
            (bytes_in captions.now (zip chunks.now (batch_frames batches.now)) self.old.frame)
            ≤ 31 }
        ensures bytes { result.items
            ≡ bytes_in captions.now (zip chunks.now (batch_frames batches.now)) self.old.frame }
        ensures frame { self.new.frame ≡ self.old.frame + 1 }
        ensures ready { IsReadyForBytes captions.now chunks.now batches.now self.new }
    {
        let mut bytes = ArrayVec::new();
        let events = self.latest.events(self.frame);
        push(&events.bytes(), &mut bytes);
        self.load(chunks, batches, &mut bytes);
        self.latest.pass_to(captions, self.frame);
        bytes
    }

    // Appends the units of the cursor's frame, and passes on to the next frame.
    fn load(&mut self, chunks: &ChunkList, batches: &[Batch], bytes: &mut ArrayVec<u8, 31>)
        requires small { self.old.frame + 1 < 2 ^ 32 }
        requires loading { IsLoading chunks.now batches.now self.old }
        requires room { length bytes.old.items + length
            (loads_at (zip chunks.now (batch_frames batches.now)) self.old.frame) ≤ 31 }
        ensures bytes { bytes.new.items
            ≡ bytes.old.items ++ loads_at
            (zip chunks.now (batch_frames batches.now)) self.old.frame }
        ensures frame { self.new.frame ≡ self.old.frame + 1 }
        ensures latest { self.new.latest ≡ self.old.latest }
        ensures loading { IsLoading chunks.now batches.now self.new }
    {
        let frame = self.frame;
        self.frame += 1;
        if let Some(batch) = batches.get(self.next)
            && batch.frame == frame
        {
            push(&chunks.bytes()[self.start..batch.bytes], bytes);
            self.start = batch.bytes;
            self.next += 1;
        }
    }
}

// Appends bytes for which there is room.
fn push(bytes: &[u8], out: &mut ArrayVec<u8, 31>)
    requires { length out.old.items + length bytes.now ≤ 31 }
    ensures { out.new.items ≡ out.old.items ++ bytes.now }
{
    match bytes {
        [] => {}
        [byte] => out.push(*byte),
        _ => {
            if out.try_extend_from_slice(bytes).is_err() {
                unreachable!();
            }
        }
    }
}
