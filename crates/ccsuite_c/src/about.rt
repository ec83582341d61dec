ghost use Rattle.std.specs.Prelude.{◌≡◌};
ghost use Rattle.ccsuite_c.specs.Told.{ReasonAnswer};

use crate::told::ARGUMENT;
use reported_runs::{Reason, reason_of, reason_told};

/// The version of the library: 65,536 times its first number, 256 times its second one, and its third one.
#[unsafe(no_mangle)]
pub extern "C" fn ccsuite_version() -> u32
    ensures { result ≡ 65536 }
{
    65_536
}

/// Tells the reason of a number, 1 to 46: 0. 1 where there is none, and then nothing is written.
#[unsafe(no_mangle)]
pub extern "C" fn ccsuite_reason_of(number: u32, reason: &mut Reason) -> u32
    ensures { ReasonAnswer number result reason.old reason.new }
{
    match reason_of(number) {
        Some(why) => {
            *reason = reason_told(why);
            0
        }
        None => ARGUMENT,
    }
}
