ghost use Rattle.std.specs.Prelude.{◌≡◌, ◌≤◌, ◌++◌, ℕ, List, length, slice_index_or, false};
ghost use Rattle.arrayvec.specs.ArrayVec.{array_vec_len};
ghost use Rattle.cc_base.specs.declared.rate.Rate.{Rate};
ghost use Rattle.dtvcc_codes.specs.Writing.{bit};
ghost use Rattle.dtvcc_author.specs.FrameEvents.{windows_byte as byte_of};
ghost use Rattle.dtvcc_author.specs.EventBytes.{command_bytes, delay_bytes, events_bytes};

use arrayvec::ArrayVec;

/// DeleteWindows, DisplayWindows and Delay (CTA-708-E, 8.10.5).
const DELETE_WINDOWS: u8 = 0x8C;

const DISPLAY_WINDOWS: u8 = 0x89;

const DELAY: u8 = 0x8D;

/// A delay of a service, and what it puts off.
#[derive(Clone, Copy, PartialEq, Eq)]
pub struct Delay {
    /// How long it lasts, in tenths of a second, 1 to 255.
    pub tenths: u8,
    /// The windows that are shown when it ends, a bit each.
    pub windows: u8,
    /// The frame in which it ends, counted from 0.
    pub ends: u32,
}

/// What a service is sent in a frame before what loads captions: the windows that are hidden there and those that are shown
/// there, a bit each, and the delay that starts there.
#[derive(Clone, Copy, PartialEq, Eq)]
pub struct FrameEvents {
    pub hidden: u8,
    pub shown: u8,
    pub delay: Option<Delay>,
}

impl FrameEvents {
    ghost use Rattle.dtvcc_author.specs.FrameEvents.{event_bytes};
    ghost use Rattle.dtvcc_author.specs.Kept.{AreKept};
    ghost use Rattle.dtvcc_author.specs.Latest.{AreEventsOf};
    ghost use Rattle.dtvcc_author.specs.declared.caption.Caption.{Caption};

    /// The bytes that send them: one DeleteWindows, one DisplayWindows, and Delay with the DisplayWindows that it puts off,
    /// each where there is something for it to say.
    pub fn bytes(&self) -> ArrayVec<u8, 8>
        ensures bytes { result.items ≡ events_bytes self.now }
        ensures exact { (rate : Rate) (frames frame : ℕ) (captions : List Caption)
            → AreKept rate frames captions
            → AreEventsOf frame captions self.now → result.items ≡ event_bytes frame captions }
    {
        let mut bytes = ArrayVec::new();
        push_command(DELETE_WINDOWS, self.hidden, &mut bytes);
        push_command(DISPLAY_WINDOWS, self.shown, &mut bytes);
        if let Some(delay) = self.delay {
            bytes.push(DELAY);
            bytes.push(delay.tenths);
            bytes.push(DISPLAY_WINDOWS);
            bytes.push(delay.windows);
        }
        bytes
    }
}

/// Appends a command for windows, if there are some.
fn push_command(command: u8, windows: u8, bytes: &mut ArrayVec<u8, 8>)
    requires { length bytes.old.items ≤ 2 }
    ensures { bytes.new.items ≡ bytes.old.items ++ command_bytes command windows }
{
    if windows != 0 {
        bytes.push(command);
        bytes.push(windows);
    }
}

/// The byte in which the bit of each window is set that is named.
pub(crate) fn windows_byte(named: [bool; 8]) -> u8
    ensures { result ≡ byte_of (λ id. slice_index_or named id false) }
{
    let [a, b, c, d, e, f, g, h] = named;
    bit(a, 1)
        + bit(b, 2)
        + bit(c, 4)
        + bit(d, 8)
        + bit(e, 16)
        + bit(f, 32)
        + bit(g, 64)
        + bit(h, 128)
}

/// A bit of this value.
fn bit(on: bool, value: u8) -> u8
    ensures { result ≡ bit on value }
{
    if on { value } else { 0 }
}
