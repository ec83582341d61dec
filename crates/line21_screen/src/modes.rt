/// How a data channel's captions appear (CTA-608-E, 47 CFR 79.101).
#[derive(Clone, Copy, PartialEq, Eq)]
pub enum Mode {
    /// No mode was set yet.
    Off,
    /// Pop-on captions: loaded into the hidden memory, and shown at their end.
    PopOn,
    /// Paint-on captions: shown as they are written.
    PaintOn,
    /// Roll-up captions of 2, 3 or 4 rows.
    RollUp(u8),
}
