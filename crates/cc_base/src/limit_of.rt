ghost use Rattle.std.specs.Prelude.{◌≡◌};
ghost use Rattle.cc_base.specs.LimitOf.{limit_name_of};

/// A limit of the suite that an input passed.
#[derive(Clone, Copy, Debug, PartialEq, Eq)]
pub enum LimitOf {
    /// A cue list or an SCC file has more than 67,108,864 bytes, or a words file more than 2,147,483,647.
    Bytes,
    /// FRAMES of a cue list is above 1,000,000, or an import would have more than 2,592,000 frames.
    Frames,
    /// A cue list has more than 20,000 cues.
    Cues,
    /// A distribution packet would have more than 255 bytes.
    Packet,
    /// A pair that isn't null stands at or past the end of the day.
    Day,
}

impl LimitOf {
    /// The limit's name, as it is printed.
    pub fn name(self) -> &'static str
        ensures { result.now ≡ limit_name_of self }
    {
        match self {
            LimitOf::Bytes => "Bytes",
            LimitOf::Frames => "Frames",
            LimitOf::Cues => "Cues",
            LimitOf::Packet => "Packet",
            LimitOf::Day => "Day",
        }
    }
}
