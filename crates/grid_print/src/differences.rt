ghost use Rattle.std.specs.Prelude.{◌≡◌, false};
ghost use Rattle.dtvcc_windows.specs.Objects.{window_of};
ghost use Rattle.dtvcc_windows.specs.Showing.{shown};
ghost use Rattle.grid_print.specs.Differences.{differs};

use dtvcc_windows::Window;

/// Whether one window is shown otherwise than another, as far as a viewer sees. It is if one is shown alone, or both are shown
/// at another place, in another size, with other attributes or with other cells.
pub fn differs(one: &Window, other: &Window) -> bool
    ensures told { result ≡ differs (shown (window_of one.now)) (shown (window_of other.now)) }
    ensures same { result ≡ false → shown (window_of one.now) ≡ shown (window_of other.now) }
{
    one.differs(other)
}
