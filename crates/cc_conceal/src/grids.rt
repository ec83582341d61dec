ghost use Rattle.std.specs.Prelude.{◌<◌};

use crate::concealer::Concealer;
use cc_receiver::{Grids, Touched};
use dtvcc_windows::Window;
use line21_codes::Chan;
use line21_screen::Memory;

impl Grids for Concealer {
    ghost use Rattle.cc_conceal.specs.Concealers.{ShowsConcealed, displayed_now};

    ghost grids = { displayed_now };

    ghost shows = { ShowsConcealed };

    fn displayed(&self, chan: Chan) -> &Memory {
        Concealer::displayed(self, chan)
    }

    fn window(&self, service: u8, id: u8) -> Option<&Window> {
        Concealer::window(self, service, id)
    }

    fn is_used(&self, service: u8) -> bool {
        Concealer::is_used(self, service)
    }
}

impl Touched for Concealer {
    ghost use Rattle.cc_conceal.specs.Concealers.{TurnedConcealed, concealed_frames};

    ghost has_frame = { λ concealer. 0 < concealed_frames concealer };

    ghost turned = { TurnedConcealed };

    fn is_touched(&self) -> bool {
        Concealer::is_touched(self)
    }
}
