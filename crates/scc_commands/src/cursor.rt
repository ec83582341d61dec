ghost use Rattle.std.specs.Prelude.{◌≡◌};
ghost use Rattle.scc_files.specs.SccFiles.{AreRising};
ghost use Rattle.scc_commands.specs.Cursors.{Passes, pairs_left};

use line21_codes::{NULL_PAIR, Pair};

/// The pairs of an SCC file on their way, frame by frame.
#[derive(Clone, Copy)]
pub struct Cursor<'a> {
    // the pairs of the frames to come
    left: &'a [(u32, Pair)],
}

impl<'a> Cursor<'a> {
    /// A cursor before the frame of the first pair.
    pub fn new(pairs: &'a [(u32, Pair)]) -> Cursor<'a>
        ensures { pairs_left result ≡ pairs.now }
    {
        Cursor { left: pairs }
    }

    /// Passes a frame, before which all frames were passed: the pair at the frame, or the null pair where none stands there.
    pub fn pass(&mut self, frame: u32) -> Pair
        requires { AreRising frame (pairs_left self.old) }
        ensures { Passes frame (pairs_left self.old) (pairs_left self.new) result }
    {
        match self.left.split_first() {
            Some((placed, rest)) => {
                if placed.0 == frame {
                    self.left = rest;
                    placed.1
                } else {
                    NULL_PAIR
                }
            }
            None => NULL_PAIR,
        }
    }
}
