ghost use Rattle.std.specs.Prelude.{◌≡◌, IfOk};
ghost use Rattle.dtvcc_author.specs.Captions.{caption_of, service_captions, window_caption};

use cc_base::Rate;
use cue_types::{Cue, Kind, WinCue};
use std::alloc::{AllocError, Global};

/// When a window cue is sent, shown and hidden, and in which window. Frames are counted from 0.
#[derive(Clone, Copy, PartialEq, Eq)]
pub struct Caption {
    /// The window, 0 to 7.
    pub id: u8,
    /// The delay before it is shown, in tenths of a second; 0 is none.
    pub tenths: u8,
    /// The first frame in which its units may be sent.
    pub load: u32,
    /// The frame in which what shows it is sent, which all of its units come before: where it has a delay, the frame in which
    /// that starts, else the frame in which it is shown.
    pub starts: u32,
    /// The frame in which it is shown.
    pub show: u32,
    /// The frame in which it is hidden.
    pub hide: u32,
}

/// The captions of a service, in the order of the cues. `AllocError` where there is no memory for them.
pub fn captions(
    alloc: Global,
    rate: Rate,
    cues: &[Cue],
    service: u8,
) -> Result<Vec<Caption>, AllocError>
    ensures { IfOk result (λ captions. captions.items ≡ service_captions rate service cues.now) }
{
    let mut captions = Vec::new(alloc);
    for cue in cues {
        if let Some(caption) = caption_of(rate, cue, service) {
            captions.push(caption)?;
        }
    }
    Ok(captions)
}

/// The caption of a cue, where it is a window cue of the service.
pub fn caption_of(rate: Rate, cue: &Cue, service: u8) -> Option<Caption>
    ensures { result ≡ caption_of rate service cue.now }
{
    match cue.kind {
        Kind::Win(window) if window.service == service => Some(window_caption(rate, window, cue)),
        _ => None,
    }
}

// The caption of a cue in this window.
fn window_caption(rate: Rate, window: WinCue, cue: &Cue) -> Caption
    ensures { result ≡ window_caption rate window cue.now }
{
    Caption {
        id: window.id,
        tenths: window.delay,
        load: cue.load,
        starts: cue.show.saturating_sub(rate.delay_frames(window.delay)),
        show: cue.show,
        hide: cue.hide.unwrap_or(0),
    }
}
