ghost use Rattle.std.specs.Prelude.{◌≡◌, ◌≤◌, ◌<◌, ℕ, List, [], IfErr, IfOk, None, OnErr, length, take};
ghost use Rattle.cc_base.specs.Streams.{PutCause, Puts};
ghost use Rattle.cc_receiver.specs.declared.receiver.Ended.TheVariants as ended;
ghost use Rattle.cdp_packets.specs.Packets.{Frame};
ghost use Rattle.caption_streams.specs.Receptions.{HasFed};

use crate::fault::FeedFault;
use crate::front::Front;
use crate::reception::Reception;
use cc_base::{Put, Sink};
use cc_conceal::Concealer;
use cc_receiver::{Fed, Receiver};
use grid_print::{Changed, Shown, put_all_of};
use std::alloc::{AllocError, Global};

/// A receiver of words, and the screens that were put last.
///
/// All memory that it ever takes is taken by `new` or `concealing`.
#[derive(Drop)]
pub struct Receiving {
    pub(crate) reception: Reception,
    pub(crate) shown: Shown,
}

impl Receiving {
    ghost use Rattle.grid_print.specs.Changed.{HaveChanged};
    ghost use Rattle.grid_print.specs.GridTexts.{all_text, changes_text};
    ghost use Rattle.grid_print.specs.Screens.{LookAlike};
    ghost use Rattle.line21_screen.specs.Grid.{empty_grid};
    ghost use Rattle.caption_streams.specs.Receivings.{last_screens, reception_of};
    ghost use Rattle.caption_streams.specs.Receptions.{AnswersFed, IsConcealing, IsPlain, StandsBehind, number_behind, screens_behind};

    /// A receiver that was fed nothing, of words of which no frame is missing; nothing was put. The error comes if memory isn't found.
    pub fn new(alloc: Global) -> Result<Receiving, AllocError>
        ensures plain { IfOk result (λ made. IsPlain (reception_of made)) }
        ensures fed { IfOk result (λ made. HasFed [] (reception_of made)) }
        ensures grids { IfOk result (λ made. (last_screens made).grids ≡ (λ chan. empty_grid)) }
        ensures windows { IfOk result
            (λ made. (service id : ℕ) → (last_screens made).windows service id ≡ None) }
    {
        Ok(Receiving {
            reception: Reception::Plain(Receiver::new(alloc)?),
            shown: Shown::new(alloc)?,
        })
    }

    /// The same of words of which frames may be missing.
    pub fn concealing(alloc: Global) -> Result<Receiving, AllocError>
        ensures concealing { IfOk result (λ made. IsConcealing (reception_of made)) }
        ensures fed { IfOk result (λ made. HasFed [] (reception_of made)) }
        ensures grids { IfOk result (λ made. (last_screens made).grids ≡ (λ chan. empty_grid)) }
        ensures windows { IfOk result
            (λ made. (service id : ℕ) → (last_screens made).windows service id ≡ None) }
    {
        Ok(Receiving {
            reception: Reception::Concealing(Concealer::new(alloc)?),
            shown: Shown::new(alloc)?,
        })
    }

    /// What receives the words.
    pub fn reception(&self) -> &Reception
        ensures { result.now ≡ reception_of self.now }
    {
        &self.reception
    }

    /// Reads the next bytes, up to the end of an ancillary packet: it stops after the word that ends one. TooManyFrames comes if
    /// 4,294,967,295 frames have ended; Refused where no file can continue with a word, and from then on.
    pub fn feed(&mut self, bytes: &[u8]) -> Result<Fed, FeedFault>
        requires { (before : List ℕ) × HasFed before (reception_of self.old) }
        ensures feeds { (before : List ℕ) → HasFed before (reception_of self.old)
            → AnswersFed before bytes.now (reception_of self.old) (reception_of self.new) result }
        ensures within { IfOk result (λ fed. fed.used ≤ length bytes.now) }
        ensures all { IfOk result (λ fed. fed.ended ≡ ended.No → fed.used ≡ length bytes.now) }
        ensures last { last_screens self.new ≡ last_screens self.old }
        ensures on { (after : List ℕ) × HasFed after (reception_of self.new) }
    {
        if self.reception.frames() == u32::MAX {
            return Err(FeedFault::TooManyFrames);
        }
        match self.reception.feed(bytes) {
            Ok(fed) => Ok(fed),
            Err(refusal) => Err(FeedFault::Refused(refusal)),
        }
    }

    /// Puts the text of what changed from the screens that were put last to those after the last whole frame, as `decode` prints it, or
    /// `conceal`; it is empty where nothing changed. These screens are then the ones that were put last, where the put fails too.
    pub fn put_changes<O: Sink>(&mut self, out: &mut O) -> Put
        ensures bytes { (frames : List Frame) → StandsBehind frames (reception_of self.old)
            → Puts (O.written out.old) (O.written out.new) result
            (changes_text (number_behind (reception_of self.old) frames) (last_screens self.old)
            (screens_behind (reception_of self.old) frames)) }
        ensures cause { PutCause (O.faults out.old) (O.faults out.new) result }
        ensures last { (frames : List Frame) → StandsBehind frames (reception_of self.old)
            → LookAlike (last_screens self.new) (screens_behind (reception_of self.old) frames) }
        ensures reception { reception_of self.new ≡ reception_of self.old }
    {
        let number = self.last_number();
        self.shown.put_changes_of(&self.reception, number, out)
    }

    /// The front of that text, of this many bytes at most. These screens are then the ones that were put last. The error comes if memory
    /// isn't found, and then nothing changed.
    pub fn front_of_changes(&mut self, alloc: Global, most: usize) -> Result<Vec<u8>, AllocError>
        ensures text { (frames : List Frame) → StandsBehind frames (reception_of self.old)
            → IfOk result (λ front. front.items ≡ take most
            (changes_text (number_behind (reception_of self.old) frames) (last_screens self.old)
            (screens_behind (reception_of self.old) frames))) }
        ensures last { (frames : List Frame) → StandsBehind frames (reception_of self.old)
            → IfOk result (λ _. LookAlike (last_screens self.new)
            (screens_behind (reception_of self.old) frames)) }
        ensures reception { reception_of self.new ≡ reception_of self.old }
        ensures memory { OnErr result (self.new ≡ self.old) }
    {
        let mut front = Front::new(alloc, most)?;
        let _ = self.put_changes(&mut front);
        Ok(front.into_bytes())
    }

    /// Which channels and services are shown otherwise after the last whole frame than on the screens that were put last, just where
    /// `put_changes` puts a text of them. These screens are then the ones that were put last.
    pub fn changed(&mut self) -> Changed
        ensures told { (frames : List Frame) → StandsBehind frames (reception_of self.old)
            → HaveChanged (last_screens self.old)
            (screens_behind (reception_of self.old) frames) result }
        ensures last { (frames : List Frame) → StandsBehind frames (reception_of self.old)
            → LookAlike (last_screens self.new) (screens_behind (reception_of self.old) frames) }
        ensures reception { reception_of self.new ≡ reception_of self.old }
    {
        self.shown.changes_of(&self.reception)
    }

    /// Puts the text of all screens after the last whole frame, as `show` prints it; after no frame, with the number 0.
    pub fn put_screens<O: Sink>(&self, out: &mut O) -> Put
        ensures bytes { (frames : List Frame) → StandsBehind frames (reception_of self.now)
            → Puts (O.written out.old) (O.written out.new) result
            (all_text (number_behind (reception_of self.now) frames)
            (screens_behind (reception_of self.now) frames)) }
        ensures cause { PutCause (O.faults out.old) (O.faults out.new) result }
    {
        put_all_of(&self.reception, self.last_number(), out)
    }

    /// The front of that text, of this many bytes at most. The error comes if memory isn't found.
    pub fn front_of_screens(&self, alloc: Global, most: usize) -> Result<Vec<u8>, AllocError>
        ensures { (frames : List Frame) → StandsBehind frames (reception_of self.now)
            → IfOk result (λ front. front.items ≡ take most
            (all_text (number_behind (reception_of self.now) frames)
            (screens_behind (reception_of self.now) frames))) }
    {
        let mut front = Front::new(alloc, most)?;
        let _ = self.put_screens(&mut front);
        Ok(front.into_bytes())
    }

    // The number of the last whole frame; 0 where there is none.
    fn last_number(&self) -> u64
        ensures { (frames : List Frame) → StandsBehind frames (reception_of self.now)
            → result ≡ number_behind (reception_of self.now) frames }
    {
        if self.reception.frames() == 0 {
            0
        } else {
            self.reception.number()
        }
    }
}
