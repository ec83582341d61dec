//! What the words of frames are to a receiver, whatever makes the frames: each keeps to its room, they carry a caption channel, and
//! no byte fills a buffer. By a cue list's words each service gets just the bytes of its lane, and shows the authored windows
//! at every frame. Definitions and laws alone.
#![tactic(auto)]

pub mod laws;
pub mod sound_laws;
