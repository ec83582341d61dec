ghost use Rattle.std.specs.Prelude.{◌≡◌, ◌+◌, ◌-◌, ◌<◌, length};
ghost use Rattle.grid_print.specs.Changed.{bits, service_bit};
ghost use Rattle.grid_print.specs.GridTexts.{all_services};
ghost use Rattle.grid_print.specs.Kept.{changed_at};

use crate::kept::Kept;

/// Which channels and services are shown otherwise than before.
#[derive(Clone, Copy, PartialEq, Eq)]
pub struct Changed {
    /// The channels: 1 for CC1, 2 for CC2, 4 for CC3 and 8 for CC4, added up.
    pub channels: u32,
    /// The services: 2 to the power of each one's number, 1 to 63, added up.
    pub services: u64,
}

/// The bits of the services whose windows changed when they were kept last.
pub(crate) fn service_bits(services: &[Kept]) -> u64
    requires { length services.now ≡ 63 }
    ensures { result
        ≡ bits (λ service. changed_at services.now (service - 1)) service_bit all_services }
{
    let mut bits = 0;
    for place in 0..services.len() {
        if services[place].has_changed() {
            bits += service_bit(place);
        }
    }
    bits
}

// The bit of the service at a place among all.
fn service_bit(place: usize) -> u64
    requires { place < 63 }
    ensures { result ≡ service_bit (place + 1) }
{
    1 << (place as u32 + 1)
}
