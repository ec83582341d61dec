ghost use Rattle.std.specs.Prelude.{◌≡◌, ℕ, ◌≤◌, ◌<◌, ◌==◌, Bool, true, false, List, Option, Some, None, IfSome, IfNone};
ghost use Rattle.std.specs.List.{list_any};
ghost use Rattle.cc_base.specs.declared.rate.Rate.{Rate};
ghost use Rattle.cc_base.specs.Options.{passes};
ghost use Rattle.dtvcc_author.specs.FrameEvents.{has_event_at, is_delayed_at, is_hidden_at, is_shown_at, windows_byte as byte_of};

use crate::caption::Caption;
use crate::frame_events::{Delay, FrameEvents, windows_byte};

/// The bit of each window.
const BITS: [u8; 8] = [0x01, 0x02, 0x04, 0x08, 0x10, 0x20, 0x40, 0x80];

/// In each window of a service the caption that was loaded last before a frame, so that the events of the frame are found
/// without going through all captions.
#[derive(Clone, Copy)]
pub struct Latest {
    // How many captions were loaded.
    next: usize,
    // No caption of a window has an event before this frame; so for most frames one comparison shows that they have none.
    quiet: u32,
    windows: [Option<Caption>; 8],
}

impl Latest {
    ghost use Rattle.dtvcc_author.specs.Kept.{AreKept};
    ghost use Rattle.dtvcc_author.specs.Latest.{AreEventsOf, IsLatestAt, IsQuietUpTo, caption_delay, caption_in};

    /// At frame 0, before which no caption is loaded.
    pub fn start() -> Latest
        ensures { (captions : List Caption) → IsLatestAt captions 0 result }
    {
        Latest {
            next: 0,
            quiet: u32::MAX,
            windows: [None; 8],
        }
    }

    /// Passes on to a later frame, with the captions of the service.
    pub fn pass_to(&mut self, captions: &[Caption], frame: u32)
        requires { (rate : Rate) × ((frames : ℕ) × AreKept rate frames captions.now) }
        ensures { (from : ℕ) → from ≤ frame → IsLatestAt captions.now from self.old
            → IsLatestAt captions.now frame self.new }
    {
        self.load(captions, frame);
        if self.quiet < frame {
            self.quiet = self.next_event(frame);
        }
    }

    // Loads the captions whose LOAD is before the frame.
    fn load(&mut self, captions: &[Caption], frame: u32)
        requires { (rate : Rate) × ((frames : ℕ) × AreKept rate frames captions.now) }
        ensures { (from : ℕ) → from ≤ frame → IsLatestAt captions.now from self.old
            → IsLatestAt captions.now frame self.new }
    {
        while let Some(caption) = captions.get(self.next)
            && caption.load < frame
        {
            self.windows[usize::from(caption.id)] = Some(*caption);
            self.quiet = self.quiet.min(caption.starts);
            self.next += 1;
        }
    }

    // A frame, from this one on, before which no caption of a window has an event.
    fn next_event(&self, frame: u32) -> u32
        ensures { IsQuietUpTo self.now.windows frame result }
    {
        let mut next = u32::MAX;
        for caption in &self.windows {
            next = next.min(next_event(caption, frame));
        }
        next
    }

    /// The events of the frame that this is at.
    pub fn events(&self, frame: u32) -> FrameEvents
        ensures { (rate : Rate) (frames : ℕ) (captions : List Caption)
            → AreKept rate frames captions → IsLatestAt captions frame self.now
            → AreEventsOf frame captions result }
    {
        if frame < self.quiet {
            return FrameEvents {
                hidden: 0,
                shown: 0,
                delay: None,
            };
        }
        FrameEvents {
            hidden: self.hidden(frame),
            shown: self.shown(frame),
            delay: self.delay(frame),
        }
    }

    // The windows that are hidden in the frame, a bit each.
    fn hidden(&self, frame: u32) -> u8
        ensures { result ≡ byte_of (λ id. passes (is_hidden_at frame) (caption_in self.now id)) }
    {
        windows_byte(self.windows.map(|caption| hides(caption, frame)))
    }

    // The windows that are shown in the frame without a delay, a bit each.
    fn shown(&self, frame: u32) -> u8
        ensures { result ≡ byte_of (λ id. passes (is_shown_at frame) (caption_in self.now id)) }
    {
        windows_byte(self.windows.map(|caption| shows(caption, frame)))
    }

    // The delay that starts in the frame.
    fn delay(&self, frame: u32) -> Option<Delay>
        ensures some { IfSome result
            (λ delay. (id : ℕ) × ((c : Caption) × (caption_in self.now id ≡ Some c)
            × (is_delayed_at frame c ≡ true) × (id < 8) × (c.id ≡ id → delay ≡ caption_delay c))) }
        ensures none { IfNone result
            ((id : ℕ) → id < 8 → passes (is_delayed_at frame) (caption_in self.now id) ≡ false) }
    {
        for (window, caption) in self.windows.iter().enumerate() {
            if let Some(caption) = caption
                && delays(caption, frame)
            {
                return Some(Delay {
                    tenths: caption.tenths,
                    windows: BITS[window],
                    ends: caption.show,
                });
            }
        }
        None
    }
}

// A frame, from this one on, before which a caption has no event.
fn next_event(caption: &Option<Caption>, frame: u32) -> u32
    ensures { (other : ℕ) → frame ≤ other → other < result
        → passes (has_event_at other) caption.now ≡ false }
{
    match caption {
        Some(caption) => frame_from(caption.starts, frame).min(frame_from(caption.hide, frame)),
        None => u32::MAX,
    }
}

// A frame, from this one on, before which an event doesn't come.
fn frame_from(event: u32, frame: u32) -> u32
    ensures { (other : ℕ) → frame ≤ other → other < result → (event == other) ≡ false }
{
    if event < frame { u32::MAX } else { event }
}

// Whether a caption is there and is hidden in the frame.
fn hides(caption: Option<Caption>, frame: u32) -> bool
    ensures { result ≡ passes (is_hidden_at frame) caption }
{
    matches!(caption, Some(caption) if caption.hide == frame)
}

// Whether a caption is there and is shown in the frame, without a delay.
fn shows(caption: Option<Caption>, frame: u32) -> bool
    ensures { result ≡ passes (is_shown_at frame) caption }
{
    matches!(caption, Some(caption) if caption.tenths == 0 && caption.starts == frame)
}

// Whether the delay of a caption starts in the frame.
fn delays(caption: &Caption, frame: u32) -> bool
    ensures { result ≡ is_delayed_at frame caption.now }
{
    caption.tenths != 0 && caption.starts == frame
}
