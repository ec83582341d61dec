ghost use Rattle.std.specs.Prelude.{◌≡◌};
ghost use Rattle.line21_codes.specs.Channels.{channel_name, field_of_channel, data_channel_of, numbered_field, numbered_channel};

/// A field of the picture: field 1 carries CC1 and CC2, and field 2 CC3 and CC4 (CTA-608-E; 47 CFR
/// 79.101).
#[derive(Clone, Copy, PartialEq, Eq)]
pub enum FieldNumber {
    One,
    Two,
}

impl FieldNumber {
    /// Field 2, or else field 1.
    pub fn from_second(second_field: bool) -> FieldNumber
        ensures { result ≡ numbered_field second_field }
    {
        if second_field {
            FieldNumber::Two
        } else {
            FieldNumber::One
        }
    }
}

/// A data channel of a field: CC1 and CC3 are data channel 1 of their field, and CC2 and CC4 data
/// channel 2 (CTA-608-E; 47 CFR 79.101).
#[derive(Clone, Copy, PartialEq, Eq)]
pub enum DataChannel {
    One,
    Two,
}

impl DataChannel {
    /// Data channel 2, or else data channel 1.
    pub fn from_second(second_channel: bool) -> DataChannel
        ensures { result ≡ numbered_channel second_channel }
    {
        if second_channel {
            DataChannel::Two
        } else {
            DataChannel::One
        }
    }
}

/// A caption channel of line 21: CC1 and CC2 are the data channels 1 and 2 of field 1, and CC3 and
/// CC4 are field 2's.
#[derive(Clone, Copy, PartialEq, Eq)]
pub enum Chan {
    Cc1,
    Cc2,
    Cc3,
    Cc4,
}

impl Chan {
    /// The field that carries the channel (CTA-608-E; 47 CFR 79.101).
    pub fn field(self) -> FieldNumber
        ensures { result ≡ field_of_channel self }
    {
        match self {
            Chan::Cc1 | Chan::Cc2 => FieldNumber::One,
            Chan::Cc3 | Chan::Cc4 => FieldNumber::Two,
        }
    }

    /// The data channel of its field that the channel is (CTA-608-E; 47 CFR 79.101).
    pub fn data_channel(self) -> DataChannel
        ensures { result ≡ data_channel_of self }
    {
        match self {
            Chan::Cc1 | Chan::Cc3 => DataChannel::One,
            Chan::Cc2 | Chan::Cc4 => DataChannel::Two,
        }
    }

    /// The channel's name.
    pub fn name(self) -> &'static str
        ensures { result.now ≡ channel_name self }
    {
        match self {
            Chan::Cc1 => "CC1",
            Chan::Cc2 => "CC2",
            Chan::Cc3 => "CC3",
            Chan::Cc4 => "CC4",
        }
    }
}
