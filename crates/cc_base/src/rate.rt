ghost use Rattle.std.specs.Prelude.{◌≡◌, ℕ, ◌*◌, ◌≤◌};
ghost use Rattle.cc_base.specs.Rate.{rate_code, rate_of, num_of, den_of, triplets_in_frame, delay_frames_of};

/// A frame rate of caption distribution packets (SMPTE ST 334-2, cdp_header), in the order of its codes 1 to 8.
#[derive(Clone, Copy, PartialEq, Eq)]
pub enum Rate {
    /// 23.976 frames a second.
    F23976,
    /// 24 frames a second.
    F24,
    /// 25 frames a second.
    F25,
    /// 29.97 frames a second.
    F2997,
    /// 30 frames a second.
    F30,
    /// 50 frames a second.
    F50,
    /// 59.94 frames a second.
    F5994,
    /// 60 frames a second.
    F60,
}

impl Rate {
    /// The code of the rate in a distribution packet, 1 to 8.
    pub fn code(self) -> u8
        ensures { result ≡ rate_code self }
    {
        match self {
            Rate::F23976 => 1,
            Rate::F24 => 2,
            Rate::F25 => 3,
            Rate::F2997 => 4,
            Rate::F30 => 5,
            Rate::F50 => 6,
            Rate::F5994 => 7,
            Rate::F60 => 8,
        }
    }

    /// The rate of a code; None for 0 and above 8.
    pub fn from_code(code: u8) -> Option<Rate>
        ensures { result ≡ rate_of code }
    {
        match code {
            1 => Some(Rate::F23976),
            2 => Some(Rate::F24),
            3 => Some(Rate::F25),
            4 => Some(Rate::F2997),
            5 => Some(Rate::F30),
            6 => Some(Rate::F50),
            7 => Some(Rate::F5994),
            8 => Some(Rate::F60),
            _ => None,
        }
    }

    /// Frames in `den` seconds.
    pub fn num(self) -> u32
        ensures { result ≡ num_of self }
    {
        match self {
            Rate::F23976 => 24000,
            Rate::F24 => 24,
            Rate::F25 => 25,
            Rate::F2997 => 30000,
            Rate::F30 => 30,
            Rate::F50 => 50,
            Rate::F5994 => 60000,
            Rate::F60 => 60,
        }
    }

    /// Seconds that `num` frames take, 1 or 1001.
    pub fn den(self) -> u32
        ensures { result ≡ den_of self }
    {
        match self {
            Rate::F23976 => 1001,
            Rate::F24 => 1,
            Rate::F25 => 1,
            Rate::F2997 => 1001,
            Rate::F30 => 1,
            Rate::F50 => 1,
            Rate::F5994 => 1001,
            Rate::F60 => 1,
        }
    }

    /// Triplets of cc_data in each frame, which carry 9,600 bits a second (CTA-708-E, 4.4).
    pub fn triplets(self) -> u8
        ensures { result ≡ triplets_in_frame self }
    {
        match self {
            Rate::F23976 => 25,
            Rate::F24 => 25,
            Rate::F25 => 24,
            Rate::F2997 => 20,
            Rate::F30 => 20,
            Rate::F50 => 12,
            Rate::F5994 => 10,
            Rate::F60 => 10,
        }
    }

    /// The frames of a delay of this many tenths of a second: the least number of frames that last as long.
    pub fn delay_frames(self, tenths: u8) -> u32
        ensures value { result ≡ delay_frames_of self tenths }
        ensures as_long { tenths * num_of self ≤ result * (10 * den_of self) }
        ensures least { (n : ℕ) → tenths * num_of self ≤ n * (10 * den_of self) → result ≤ n }
    {
        (u32::from(tenths) * self.num()).div_ceil(10 * self.den())
    }
}
