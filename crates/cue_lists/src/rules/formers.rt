ghost use Rattle.std.specs.Prelude.{◌≡◌, ◌+◌, ◌≤◌, ◌<◌, List, [], ◌∷◌, length};
ghost use Rattle.std.specs.Option.{option_copied, ForSome};
ghost use Rattle.cue_types.specs.Cues.{IsCueFormed};
ghost use Rattle.cue_types.specs.Windows.{IsWindow};
ghost use Rattle.cue_types.specs.declared.cue.Cue.{Cue};
ghost use Rattle.cue_lists.specs.Rules.Former.{former_number};
ghost use Rattle.cue_lists.specs.Rules.Formers.{Remembers, last_in, last_of, last_on, numbered_cue, with_channel, with_window_former};

use cue_types::{Cue, Kind, WinCue};
use line21_codes::Chan;

/// The numbers of the last cues so far: on each channel of line 21, of each service, and in each window of a service.
#[derive(Clone, Copy)]
pub struct Formers {
    cc1: Option<u32>,
    cc2: Option<u32>,
    cc3: Option<u32>,
    cc4: Option<u32>,
    services: [Option<u32>; 8],
    windows: [Option<u32>; 64],
}

impl Formers {
    /// Before the first cue.
    pub fn new() -> Formers
        ensures { Remembers result [] }
    {
        Formers {
            cc1: None,
            cc2: None,
            cc3: None,
            cc4: None,
            services: [None; 8],
            windows: [None; 64],
        }
    }

    /// The number of the former cue of a cue.
    pub fn number(&self, cue: &Cue) -> Option<u32>
        requires { IsCueFormed cue.now }
        ensures { (earlier : List Cue) → Remembers self.now earlier
            → result ≡ former_number cue.now earlier }
    {
        match cue.kind {
            Kind::Pop(channel) | Kind::Paint(channel) | Kind::Roll(channel, _) => {
                self.last_on(channel)
            }
            Kind::Win(window) => self.last_of(window.service),
        }
    }

    /// The number of the last cue on a channel.
    fn last_on(&self, channel: Chan) -> Option<u32>
        ensures { result ≡ last_on self.now channel }
    {
        match channel {
            Chan::Cc1 => self.cc1,
            Chan::Cc2 => self.cc2,
            Chan::Cc3 => self.cc3,
            Chan::Cc4 => self.cc4,
        }
    }

    /// The number of the last cue of a service.
    fn last_of(&self, service: u8) -> Option<u32>
        requires { service < 8 }
        ensures { result ≡ last_of self.now service }
    {
        self.services[service as usize]
    }

    /// The number of the last cue in the window of an ID of a service.
    pub fn last_in(&self, service: u8, id: u8) -> Option<u32>
        requires service { service < 8 }
        requires id { id < 8 }
        ensures { result ≡ last_in self.now service id }
    {
        self.windows[service as usize * 8 + id as usize]
    }

    /// Remembers the cue of this number.
    pub fn pass(&mut self, cue: &Cue, number: u32)
        requires { IsCueFormed cue.now }
        ensures { (earlier : List Cue) → number ≡ length earlier + 1 → Remembers self.old earlier
            → Remembers self.new (cue.now ∷ earlier) }
    {
        match cue.kind {
            Kind::Pop(channel) | Kind::Paint(channel) | Kind::Roll(channel, _) => {
                self.pass_on(channel, number);
            }
            Kind::Win(window) => self.pass_in(window, number),
        }
    }

    /// Remembers the number of a cue on a channel.
    fn pass_on(&mut self, channel: Chan, number: u32)
        ensures { self.new ≡ with_channel self.old channel number }
    {
        match channel {
            Chan::Cc1 => self.cc1 = Some(number),
            Chan::Cc2 => self.cc2 = Some(number),
            Chan::Cc3 => self.cc3 = Some(number),
            Chan::Cc4 => self.cc4 = Some(number),
        }
    }

    /// Remembers the number of a cue in a window.
    fn pass_in(&mut self, window: WinCue, number: u32)
        requires { IsWindow window }
        ensures { self.new ≡ with_window_former self.old window number }
    {
        let service = window.service as usize;
        self.services[service] = Some(number);
        self.windows[service * 8 + window.id as usize] = Some(number);
    }
}

/// The cue of a number.
pub fn cue_of(earlier: &[Cue], number: Option<u32>) -> Option<&Cue>
    requires { ForSome number (λ n. 1 ≤ n) }
    ensures { option_copied result ≡ numbered_cue earlier.now number }
{
    earlier.get(number? as usize - 1)
}
