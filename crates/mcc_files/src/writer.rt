ghost use Rattle.std.specs.Prelude.{◌≡◌, ◌≤◌, ◌<◌, ◌+◌, ◌++◌, ◌∷◌, [], length};
ghost use Rattle.mcc_files.specs.Payloads.{Payload};
ghost use Rattle.mcc_files.specs.PayloadWords.{IsPayloadOf};
ghost use Rattle.time_codes.specs.Countings.{day_frames_in};
ghost use Rattle.mcc_files.specs.Lines.{format_text};
ghost use Rattle.mcc_files.specs.Writing.{IsWrittenLine, time_text, written_head, written_version};

use crate::{add_payload, write_payload};
use arrayvec::ArrayVec;
use time_codes::{Counting, time_in, time_text};

/// The most bytes of a head.
pub const HEAD: usize = 184;

/// The most bytes of a packet's line: a time code, TAB, a payload and LF.
pub const LINE: usize = 531;

/// What stands between the first line and the time code rate: an empty line and four attributes.
const ATTRIBUTES: &[u8; 132] =
    b"\n\nUUID=00000000-0000-0000-0000-000000000000\nCreation Program=ccsuite\nCreation Date=Thursday, January 1, 1970\nCreation Time=00:00:00\n";

/// The text of the first line: of version 2 at 60 frames a second with drop frame, else of version 1.
fn first_line(count: Counting) -> &'static [u8; 31]
    ensures { result.now ≡ format_text (written_version count) }
{
    match count {
        Counting::F60Drop => b"File Format=MacCaption_MCC V2.0",
        _ => b"File Format=MacCaption_MCC V1.0",
    }
}

/// The head of a file whose time codes count so, into `out`, which is empty before: the first line, an empty one, attributes with the
/// time code rate, and an empty line.
pub fn head(count: Counting, out: &mut ArrayVec<u8, HEAD>)
    requires { out.old.items ≡ [] }
    ensures { out.new.items ≡ written_head count }
{
    add(first_line(count), out);
    add(ATTRIBUTES, out);
    add(b"Time Code Rate=", out);
    add(count.text(), out);
    add(b"\n\n", out);
}

/// The line of a packet with these identifiers and user bytes, at most 255, at a frame of the day, into `out`, which is empty before.
/// It has the frame's time code with a colon throughout, TAB, the payload and LF.
pub fn packet_line(
    count: Counting,
    frame: u32,
    did: u8,
    sdid: u8,
    user: &[u8],
    out: &mut ArrayVec<u8, LINE>,
)
    requires day { frame < day_frames_in count }
    requires few { length user.now ≤ 255 }
    requires empty { out.old.items ≡ [] }
    ensures { IsWrittenLine count frame
        (record { did = did; sdid = sdid; user = user.now }) out.new.items }
{
    let mut payload = ArrayVec::new();
    write_payload(did, sdid, user, &mut payload);
    add_time(count, frame, out);
    add(&payload, out);
    add(b"\n", out);
}

/// The line of the packet of these bytes, whose user words are 8-bit words, at a frame of the day, into `out`, which is empty before: as
/// `packet_line` has it, of what the packet says.
pub fn words_line(count: Counting, frame: u32, packet: &[u8], out: &mut ArrayVec<u8, LINE>)
    requires day { frame < day_frames_in count }
    requires packet { (payload : Payload) × IsPayloadOf payload packet.now }
    requires empty { out.old.items ≡ [] }
    ensures { (payload : Payload) → IsPayloadOf payload packet.now
        → IsWrittenLine count frame payload out.new.items }
{
    add_time(count, frame, out);
    add_payload(packet, out);
    out.push(b'\n');
}

/// The front of a line at a frame of the day, into `out`, which is empty before: the frame's time code with a colon throughout, and TAB.
fn add_time(count: Counting, frame: u32, out: &mut ArrayVec<u8, LINE>)
    requires day { frame < day_frames_in count }
    requires empty { out.old.items ≡ [] }
    ensures { out.new.items ≡ time_text count frame ++ (9 ∷ []) }
{
    let mut time = time_in(count, frame);
    time.drop_frame = false;
    add(&time_text(time), out);
    add(b"\t", out);
}

/// Adds bytes for which there is room.
fn add<const ROOM: usize>(more: &[u8], out: &mut ArrayVec<u8, ROOM>)
    requires { length out.old.items + length more.now ≤ ROOM }
    ensures { out.new.items ≡ out.old.items ++ more.now }
{
    if out.try_extend_from_slice(more).is_err() {
        unreachable!();
    }
}
