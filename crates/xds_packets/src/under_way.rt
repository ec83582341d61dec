ghost use Rattle.std.specs.Prelude.{◌≡◌, ◌≤◌, ◌<◌, List, ◌++◌, length, true, false};
ghost use Rattle.line21_codes.specs.declared.codes.Code.TheVariants.{Text};
ghost use Rattle.xds_packets.specs.Segments.{data_bytes};
ghost use Rattle.xds_packets.specs.OneByOne.{added, finished, label_with, text_bytes};

use crate::packets::{XdsPacket, sum_of};
use crate::texts::XdsText;

/// The packet of a class that is under way.
#[derive(Drop)]
pub struct UnderWay {
    /// Its type.
    pub kind: u8,
    /// Its text so far.
    pub text: XdsText,
}

// Adds a byte of a pair to a text, if it stands in one. Whether there was room for it.
fn add(text: &mut XdsText, byte: u8) -> bool
    ensures fits { length text.new ≤ 32 }
    ensures added { result ≡ true → text.new ≡ text.old ++ text_bytes byte }
    ensures full { result ≡ false → 32 < length (text.old ++ text_bytes byte) }
{
    let _length = text.as_slice();
    if byte < 0x20 { true } else { text.push(byte) }
}

/// The packet with two bytes more, if its type is this; none where its text has become too long.
pub fn grown(
    so_far: Option<UnderWay>,
    class: u8,
    kind: u8,
    first: u8,
    second: u8,
) -> Option<UnderWay>
    ensures { result ≡ added (label_with class kind) (data_bytes (Text first second)) so_far }
{
    match so_far {
        None => None,
        Some(mut under_way) => {
            if under_way.kind != kind {
                Some(under_way)
            } else if !add(&mut under_way.text, first) {
                None
            } else if !add(&mut under_way.text, second) {
                None
            } else {
                Some(under_way)
            }
        }
    }
}

/// The packet that an end pair with this checksum ends, if its type is this.
pub fn finish(so_far: Option<UnderWay>, class: u8, kind: u8, check: u8) -> Option<XdsPacket>
    ensures { result ≡ finished (label_with class kind) so_far check }
{
    match so_far {
        Some(under_way) if under_way.kind == kind => {
            let total = sum_of(under_way.text.as_slice());
            let sum = 2 * u32::from(class) + u32::from(kind) + total + 0x0E + u32::from(check);
            if sum % 128 == 0 {
                Some(XdsPacket {
                    class,
                    kind,
                    text: under_way.text,
                })
            } else {
                None
            }
        }
        _ => None,
    }
}
