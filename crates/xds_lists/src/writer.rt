ghost use Rattle.std.specs.Prelude.{◌≡◌, ◌≤◌, length};
ghost use Rattle.xds_lists.specs.Packed.{text_before};

use crate::list::XdsList;
use crate::sending::Sending;

/// Sends the packets of a list in the free slots of field 2, in the list's order, whole packet after whole packet.
#[derive(Drop)]
pub struct XdsWriter {
    /// The list.
    pub(crate) list: XdsList,
    /// How many packets have begun.
    pub(crate) begun: usize,
    /// Where the text of the next one begins.
    pub(crate) start: usize,
    /// The packet that is under way.
    pub(crate) under_way: Option<Sending>,
    /// Whether the slot before wasn't free.
    pub(crate) is_broken: bool,
    ghost within: { begun ≤ length list },
    ghost starts: { start ≡ text_before begun list },
}
