ghost use Rattle.std.specs.Prelude.{◌≡◌, ◌≤◌, length, []};
ghost use Rattle.dtvcc_screen.specs.Cores.{is_cancel, is_due, is_reset, tenths_of};

use arrayvec::ArrayVec;
use dtvcc_codes::Command;

/// The number of held bytes that ends a delay (CTA-708-E, the service input buffer).
pub(crate) const FULL: usize = 128;

/// Whether a byte completed Reset.
pub(crate) fn is_reset(completed: &Option<Command>) -> bool
    ensures { result ≡ is_reset completed.now }
{
    matches!(completed, Some(Command::Rst))
}

/// Whether a byte completed DelayCancel.
pub(crate) fn is_cancel(completed: &Option<Command>) -> bool
    ensures { result ≡ is_cancel completed.now }
{
    matches!(completed, Some(Command::Dlc))
}

/// Whether a delay ends in this frame.
pub(crate) fn is_due(until: Option<u64>, now: u64) -> bool
    ensures { result ≡ is_due until now }
{
    match until {
        None => false,
        Some(end) => end == now,
    }
}

/// The tenths of a second for which a command puts off what follows it.
pub(crate) fn tenths_of(command: &Command) -> u8
    ensures { result ≡ tenths_of command.now }
{
    match command {
        Command::Dly(tenths) => *tenths,
        _ => 0,
    }
}

/// Holds bytes, where none are held.
pub(crate) fn hold(held: &mut ArrayVec<u8, FULL>, bytes: &[u8])
    requires empty { held.old.items ≡ [] }
    requires room { length bytes.now ≤ 128 }
    ensures { held.new.items ≡ bytes.now }
{
    let _room = held.try_extend_from_slice(bytes);
}
