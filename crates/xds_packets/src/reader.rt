ghost use Rattle.std.specs.Prelude.{◌≡◌, ◌<◌, List, [], ◌∷◌, ◌++◌, map};
ghost use Rattle.line21_codes.specs.declared.codes.Code.TheVariants.{Text};
ghost use Rattle.line21_codes.specs.declared.pairs.Pair.{Pair};
ghost use Rattle.line21_codes.specs.Reading.{code_of};
ghost use Rattle.xds_packets.specs.Segments.{data_bytes};
ghost use Rattle.xds_packets.specs.Reading.{ends_at};
ghost use Rattle.xds_packets.specs.OneByOne.{IsCode, given, next_state, gone_on, begun, ended, given_end};
ghost use Rattle.xds_packets.specs.Reader.{state_of, IsState, HasRead};

use crate::packets::XdsPacket;
use crate::segments::OpenSegment;
use crate::texts::XdsText;
use crate::under_way::{UnderWay, finish, grown};
use line21_codes::{Code, Pair, read_pair};

/// Reads packets out of the pairs of field 2, one pair after the other (CTA-608-E, 47 CFR 79.101).
#[derive(Drop)]
pub struct XdsReader {
    segment: Option<OpenSegment>,
    // Of each class; none is of class 0.
    under_way: [Option<UnderWay>; 8],
}

impl XdsReader {
    /// Before the first pair.
    pub fn new() -> XdsReader
        ensures { HasRead [] result }
    {
        XdsReader {
            segment: None,
            under_way: [None, None, None, None, None, None, None, None],
        }
    }

    /// Reads the next pair. Gives the packet that ends there, if one does.
    pub fn pair(&mut self, pair: Pair) -> Option<XdsPacket>
        ensures { (pairs : List Pair) → HasRead pairs self.old
            → (result ≡ ends_at (map code_of pairs) (code_of pair))
            × HasRead (pairs ++ pair ∷ []) self.new }
    {
        match read_pair(pair) {
            Ok(code) => self.code(code),
            Err(_) => None,
        }
    }

    fn code(&mut self, code: Code) -> Option<XdsPacket>
        requires { IsCode code }
        ensures gives { result ≡ given code (state_of self.old) }
        ensures next { IsState (next_state code (state_of self.old)) (state_of self.new) }
    {
        match code {
            Code::Null => None,
            Code::Text(first, second) => {
                self.text(first, second);
                None
            }
            Code::Xds(first, second) => {
                if first < 0x0F {
                    self.begin(first, second);
                    None
                } else {
                    self.end(second)
                }
            }
            Code::Control { .. } => {
                self.segment = None;
                None
            }
        }
    }

    fn text(&mut self, first: u8, second: u8)
        ensures { IsState (gone_on (state_of self.old).label (data_bytes (Text first second))
            (state_of self.old)) (state_of self.new) }
    {
        if let Some(segment) = self.segment {
            let so_far = self.under_way[usize::from(segment.class)].take();
            self.under_way[usize::from(segment.class)] = grown(
                so_far,
                segment.class,
                segment.kind,
                first,
                second,
            );
        }
    }

    fn begin(&mut self, first: u8, second: u8)
        requires { first < 0x0F }
        ensures { IsState (begun first second (state_of self.old)) (state_of self.new) }
    {
        let class = (first + 1) / 2;
        if first % 2 == 1 {
            self.under_way[usize::from(class)] = Some(UnderWay {
                kind: second,
                text: XdsText::new(),
            });
        }
        self.segment = Some(OpenSegment {
            class,
            kind: second,
        });
    }

    fn end(&mut self, check: u8) -> Option<XdsPacket>
        ensures gives { result ≡ given_end (state_of self.old).label (state_of self.old) check }
        ensures next { IsState (ended (state_of self.old).label (state_of self.old))
            (state_of self.new) }
    {
        match self.segment.take() {
            Some(segment) => {
                let so_far = self.under_way[usize::from(segment.class)].take();
                let ends = match &so_far {
                    Some(under_way) => under_way.kind == segment.kind,
                    None => false,
                };
                if ends {
                    finish(so_far, segment.class, segment.kind, check)
                } else {
                    self.under_way[usize::from(segment.class)] = so_far;
                    None
                }
            }
            None => None,
        }
    }
}
