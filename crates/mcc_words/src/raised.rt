ghost use Rattle.std.specs.Prelude.{◌≡◌, ◌≤◌, ◌<◌, ◌+◌, ◌*◌, ◌++◌, ◌%◌, [], length};
ghost use Rattle.cdp_packets.specs.Packets.{Frame, IsCdp};
ghost use Rattle.mcc_words.specs.Raised.{IsRaised};

use arrayvec::ArrayVec;

/// Adds bytes for which there is room.
fn add(more: &[u8], bytes: &mut ArrayVec<u8, 255>)
    requires { length bytes.old.items + length more.now ≤ 255 }
    ensures { bytes.new.items ≡ bytes.old.items ++ more.now }
{
    if bytes.try_extend_from_slice(more).is_err() {
        unreachable!();
    }
}

/// The last byte of bytes whose sum modulo 256 is as before, where two bytes stand twice among them in place of others.
fn balanced(last: u8, before: (u8, u8), now: (u8, u8)) -> u8
    ensures balanced { (result + 2 * (now.0 + now.1)) % 256
        ≡ (last + 2 * (before.0 + before.1)) % 256 }
    ensures byte { result < 256 }
{
    let more = u16::from(last) + 2 * (u16::from(before.0) + u16::from(before.1));
    let fewer = 2 * (u16::from(now.0) + u16::from(now.1));
    ((more + 1024 - fewer) % 256) as u8
}

/// Writes the bytes of a distribution packet with its counter raised by this much, modulo 65536, in the header and in the footer,
/// into an empty `out` (SMPTE ST 334-2). Its sum is made right.
pub fn raise(user: &[u8], by: u16, out: &mut ArrayVec<u8, 255>)
    requires few { length user.now ≤ 255 }
    requires packet { (packet : Frame) × IsCdp packet user.now }
    requires empty { out.old.items ≡ [] }
    ensures { IsRaised by user.now out.new.items }
{
    let [a, b, c, d, e, high, low, middle @ .., id, _, _, last] = user else {
        unreachable!();
    };
    let counter = (256 * u16::from(*high) + u16::from(*low)).wrapping_add(by);
    let [high_again, low_again] = counter.to_be_bytes();
    let last_again = balanced(*last, (*high, *low), (high_again, low_again));
    add(&[*a, *b, *c, *d, *e, high_again, low_again], out);
    add(middle, out);
    add(&[*id, high_again, low_again, last_again], out);
}
