ghost use Rattle.std.specs.Prelude.{◌≡◌, ◌≤◌, ◌<◌, ◌+◌, ◌^◌, ◌∷◌, [], ℕ, true, All, Bool, IfSome, IfNone, List, None, drop, length, option_map, suc};
ghost use Rattle.line21_codes.specs.Writable.{IsWritable};
ghost use Rattle.line21_codes.specs.Writing.{pair_of_code};
ghost use Rattle.line21_codes.specs.declared.channels.FieldNumber.TheVariants.{Two};
ghost use Rattle.xds_lists.specs.Writer.{IsBehind, IsSending, IsWriting, is_due};
ghost use Rattle.xds_packets.specs.PacketCodes.{IsXdsPacket, data_codes};
ghost use Rattle.xds_packets.specs.Places.{given_at};
ghost use Rattle.xds_packets.specs.Sending.{Listed, Unsent, begun_at, given_in, new_writing, sent_on, writing_at};
ghost use Rattle.xds_packets.specs.Sending.{unfinished as unfinished_in};

use crate::list::XdsList;
use crate::listed::XdsListed;
use crate::sending::Sending;
use crate::writer::XdsWriter;
use line21_codes::{Code, Pair, write_code};
use xds_packets::checksum;

impl XdsWriter {
    /// Nothing was sent.
    pub fn new(list: XdsList) -> XdsWriter
        ensures { (free : ℕ → Bool) (frame_of : ℕ → ℕ) → IsBehind free frame_of list 0 result }
    {
        XdsWriter {
            list,
            begun: 0,
            start: 0,
            under_way: None,
            is_broken: false,
        }
    }

    /// Begins anew with the first packet, as if nothing had been sent.
    pub fn restart(&mut self)
        ensures { (free : ℕ → Bool) (frame_of : ℕ → ℕ) (listed : List Listed) (n : ℕ)
            → IsBehind free frame_of listed n self.old → IsBehind free frame_of listed 0 self.new }
    {
        self.begun = 0;
        self.start = 0;
        self.under_way = None;
        self.is_broken = false;
    }

    /// The pair of the next slot of field 2, which lies in this frame: None exactly where the slot isn't free or no pair stands
    /// there.
    pub fn step(&mut self, frame: u32, free: bool) -> Option<Pair>
        ensures { (frees : ℕ → Bool) (frame_of : ℕ → ℕ) (listed : List Listed) (n : ℕ)
            → IsBehind frees frame_of listed n self.old → frees n ≡ free → frame_of n ≡ frame
            → (result ≡ option_map (pair_of_code Two) (given_at frees frame_of listed n))
            × IsBehind frees frame_of listed (suc n) self.new }
    {
        match self.code(frame, free) {
            Some(code) => Some(write_code(code, true)),
            None => None,
        }
    }

    /// The number, from 1, of the first packet that isn't ended; None exactly where all are ended.
    pub fn unfinished(&self) -> Option<u32>
        ensures { (frees : ℕ → Bool) (frame_of : ℕ → ℕ) (listed : List Listed) (n : ℕ)
            → IsBehind frees frame_of listed n self.now
            → result ≡ unfinished_in (length listed) (writing_at frees frame_of listed n) }
    {
        let count = self.list.len();
        if self.under_way.is_some() {
            Some(self.begun as u32)
        } else if self.begun < count {
            Some((self.begun + 1) as u32)
        } else {
            None
        }
    }

    // The code of the next slot.
    fn code(&mut self, frame: u32, free: bool) -> Option<Code>
        ensures sends { (s : Unsent) → IsWriting self.old s
            → (result ≡ (given_in free frame s).code)
            × IsWriting self.new (given_in free frame s).next }
        ensures writable { IfSome result (λ code. IsWritable code) }
        ensures list { self.new.list ≡ self.old.list }
    {
        if !free {
            self.is_broken = true;
            return None;
        }
        match self.under_way.take() {
            None => self.begin(frame),
            Some(sending) => Some(self.go_on(sending)),
        }
    }

    // Begins the next packet, if its frame has come.
    fn begin(&mut self, frame: u32) -> Option<Code>
        requires { self.now.under_way ≡ None }
        ensures sends { (s : Unsent) → IsWriting self.old s
            → (result ≡ (begun_at frame s s.left).code)
            × IsWriting self.new (begun_at frame s s.left).next }
        ensures writable { IfSome result (λ code. IsWritable code) }
        ensures list { self.new.list ≡ self.old.list }
    {
        if !self.is_due(frame) {
            return None;
        }
        let XdsListed { from: _, packet } = self.list.listed(self.begun, self.start);
        let code = Code::Xds(2 * packet.class - 1, packet.kind);
        self.start += packet.text.as_slice().len();
        self.begun += 1;
        self.is_broken = false;
        self.under_way = Some(Sending { packet, sent: 0 });
        Some(code)
    }

    // Whether there is a packet more, whose frame has come.
    fn is_due(&self, frame: u32) -> bool
        ensures due { result ≡ is_due frame (drop self.now.begun self.now.list) }
        ensures there { result ≡ true
            → (self.now.begun < length self.now.list) × (length self.now.list < 2 ^ 32) }
    {
        self.begun < self.list.len() && self.list.frame(self.begun) <= frame
    }

    // Continues with the packet that is under way.
    fn go_on(&mut self, mut sending: Sending) -> Code
        requires { self.now.under_way ≡ None }
        ensures sends { (frame : ℕ) (s : Unsent) → s.left ≡ drop self.old.begun self.old.list
            → s.broken ≡ self.old.is_broken → IsSending sending s
            → (Some result ≡ (sent_on s.broken frame s s.codes).code)
            × IsWriting self.new (sent_on s.broken frame s s.codes).next }
        ensures writable { IsWritable result }
        ensures list { self.new.list ≡ self.old.list }
    {
        if self.is_broken {
            self.is_broken = false;
            let code = Code::Xds(2 * sending.packet.class, sending.packet.kind);
            self.under_way = Some(sending);
            return code;
        }
        match code_after(sending.packet.text.as_slice(), sending.sent) {
            Some(code) => {
                sending.sent += 2;
                self.under_way = Some(sending);
                code
            }
            None => {
                let check = checksum(
                    sending.packet.class,
                    sending.packet.kind,
                    sending.packet.text.as_slice(),
                );
                Code::Xds(0x0F, check)
            }
        }
    }
}

// The text pair that goes on from this many bytes.
fn code_after(text: &[u8], sent: usize) -> Option<Code>
    requires { All (λ byte. (0x20 ≤ byte) × (byte ≤ 0x7E)) text.now }
    ensures none { IfNone result (drop sent text.now ≡ []) }
    ensures some { IfSome result
        (λ code. (data_codes (drop sent text.now) ≡ code ∷ data_codes (drop (sent + 2) text.now))
        × (sent < length text.now)) }
    ensures writable { IfSome result (λ code. IsWritable code) }
{
    if sent >= text.len() {
        None
    } else if sent + 1 == text.len() {
        Some(Code::Text(text[sent], 0))
    } else {
        Some(Code::Text(text[sent], text[sent + 1]))
    }
}
