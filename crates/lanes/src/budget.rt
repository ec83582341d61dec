/// The most bytes of loads that may come while a delay lasts. A receiver holds at most 127 bytes: the 128th ends the delay at
/// once (CTA-708-E, Delay). Two of them are the DisplayWindows command's, which the delay puts off.
pub const MOST_LOADS: u8 = 125;

// The most bytes that are held and don't end the delay.
const MOST_HELD: u8 = 127;

/// The bytes of loads that may still come in a delay. Frames are counted from 0.
#[derive(Clone, Copy, PartialEq, Eq)]
pub struct Budget {
    /// The frame in which the delay starts.
    pub start: u32,
    /// The frame in which it ends, and what was held acts.
    pub end: u32,
    /// The bytes that are left, at most 125.
    pub left: u8,
}

impl Budget {
    ghost use Rattle.std.specs.Prelude.{◌≡◌, ◌-◌, ◌≤◌, ◌↔◌, IsTrue};
    ghost use Rattle.std.specs.Bool.{OnFalse, OnTrue};
    ghost use Rattle.lanes.specs.Spending.{held_behind, most_held, most_loads};

    /// The budget of a delay from one frame to another: 125 bytes.
    pub fn begin(start: u32, end: u32) -> Budget
        ensures { result ≡ record { start = start; end = end; left = most_loads } }
    {
        Budget {
            start,
            end,
            left: MOST_LOADS,
        }
    }

    /// Spends this many bytes, where as many are left; else the answer is false, and nothing is spent.
    pub fn spend(&mut self, bytes: u8) -> bool
        ensures fits { IsTrue result ↔ (bytes ≤ self.old.left) }
        ensures spent { OnTrue result
            (self.new ≡ record self.old { left = self.old.left - bytes }) }
        ensures refused { OnFalse result (self.new ≡ self.old) }
    {
        if bytes > self.left {
            return false;
        }
        self.left -= bytes;
        true
    }

    /// The number of bytes that the receiver holds when all that was spent has come: the DisplayWindows command's and
    /// the bytes that were spent.
    pub fn held_after(&self) -> u8
        requires { self.now.left ≤ most_held }
        ensures { result ≡ held_behind self.now.left }
    {
        MOST_HELD - self.left
    }
}
