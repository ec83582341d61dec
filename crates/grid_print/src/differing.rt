ghost use Rattle.std.specs.Prelude.{◌≡◌, false, if◌then◌else◌};
ghost use Rattle.std.specs.List.{list_any};
ghost use Rattle.line21_codes.specs.declared.channels.Chan.{Chan as ChanOf};
ghost use Rattle.grid_print.specs.GridTexts.{channels};

/// Whether the grid of each channel differs from another one.
#[derive(Clone, Copy)]
pub(crate) struct Differing {
    pub(crate) cc1: bool,
    pub(crate) cc2: bool,
    pub(crate) cc3: bool,
    pub(crate) cc4: bool,
}

impl Differing {
    ghost use Rattle.grid_print.specs.Changed.{bits, channel_bit};
    ghost use Rattle.grid_print.specs.Differing.{differs_on};

    /// Whether that of some channel does.
    pub(crate) fn any(self) -> bool
        ensures some { result ≡ list_any (differs_on self) channels }
        ensures none { result ≡ false → (chan : ChanOf) → differs_on self chan ≡ false }
    {
        self.cc1 | self.cc2 | self.cc3 | self.cc4
    }

    /// The bits of those that do.
    pub(crate) fn bits(self) -> u32
        ensures { result ≡ bits (differs_on self) channel_bit channels }
    {
        bit(self.cc1, 1) + bit(self.cc2, 2) + bit(self.cc3, 4) + bit(self.cc4, 8)
    }
}

// A bit, if it is set.
fn bit(set: bool, value: u8) -> u32
    ensures { result ≡ (if set then value else 0) }
{
    if set { u32::from(value) } else { 0 }
}
