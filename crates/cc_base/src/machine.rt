ghost use Rattle.std.specs.Prelude.{◌≡◌, ℕ, ◌-◌, ◌%◌, ◌<◌, ◌++◌, [], ◌∷◌, List, None, Some};
ghost use Rattle.std.specs.Mem.{FitsInMemory};
ghost use Rattle.cc_base.specs.declared.refusal.Refusal.{Refusal as Refused};
ghost use Rattle.cc_base.specs.declared.step.Step.TheVariants.{Refuse};
ghost use Rattle.cc_base.specs.declared.why.Why.{Why as Reason};
ghost use Rattle.cc_base.specs.Feeding.{hand, place_by, why_of};
ghost use Rattle.cc_base.specs.Steps.{IsTaken, step_why};
ghost use Rattle.cc_base.specs.Syntax.{HasTaken, Syntax, judge_by, open_behind};

use crate::refusal::Refusal;
use crate::resume::{Resume, Upward};
use crate::step::Step;
use crate::why::Why;

/// How a reader judges one item: a state that says all that matters of the items before it. `Fed` makes a reader of it.
pub trait Machine<I, P> {
    /// What a machine is made with.
    ghost Given: { Type 0 };
    /// What is open after some items.
    ghost Front: { Type 0 };
    /// The syntax by which it judges.
    ghost syntax: { Given → Syntax Front I P };
    /// The machine is at this front.
    ghost Matches: { Given → Front → Self → Type 0 };
    /// How many items have one place.
    ghost UNIT: { ℕ };

    const UNIT: u64;

    /// Judges the next item, and goes on after it where it isn't refused.
    fn step(&mut self, item: I) -> Step<P>
        ensures says { (given : Given) (front : Front) → Matches given front self.old
            → result ≡ (syntax given).judge front item }
        ensures leads { (given : Given) (front : Front) → Matches given front self.old
            → IsTaken result
            → Matches given ((syntax given).after front item) self.new };

    /// Places are distinct.
    ghost unit_is_positive: { 0 < UNIT };
    /// An item has a size.
    ghost item_fits: { FitsInMemory I.row };
}

/// A reader made of a machine: it counts the items, and keeps the refusal.
#[derive(Clone, Copy)]
pub struct Fed<M> {
    /// What judges an item.
    pub machine: M,
    /// The number of items taken, modulo 2^64.
    pub taken: u64,
    /// The refusal, if an item was refused.
    pub refusal: Option<Refusal>,
}

impl<M> Fed<M> {
    /// A reader that was fed nothing.
    pub fn new(machine: M) -> Fed<M>
        ensures machine { result.machine ≡ machine }
        ensures taken { result.taken ≡ 0 }
        ensures refusal { result.refusal ≡ None }
    {
        Fed {
            machine,
            taken: 0,
            refusal: None,
        }
    }

    /// Reads the next item by itself, for a caller that takes its parts as they come: what `feed` makes of one item before it
    /// hands the parts upward. A refusal of the reader's own is kept, and answered from then on with nothing read.
    pub fn step<I: Copy, P>(&mut self, item: I) -> Step<P>
    where
        M: Machine<I, P>,
        ensures says { (given : M.Given) (items : List I)
            → HasTaken (M.syntax given) (M.Matches given) items self.old
            → result ≡ (M.syntax given).judge (open_behind (M.syntax given) items) item }
        ensures leads { (given : M.Given) (items : List I)
            → HasTaken (M.syntax given) (M.Matches given) items self.old
            → IsTaken result → HasTaken (M.syntax given) (M.Matches given)
            (items ++ item ∷ []) self.new }
        ensures refused { (given : M.Given) (items : List I) (why : Reason)
            → HasTaken (M.syntax given) (M.Matches given) items self.old
            → result ≡ Refuse why → self.new.refusal
            ≡ Some (record { place = place_by M.UNIT items; why = why }) }
        ensures kept { (refused : Refused) → self.old.refusal ≡ Some refused
            → (result ≡ Refuse refused.why) × (self.new ≡ self.old) }
        ensures told { step_why result ≡ why_of self.new.refusal }
    {
        if let Some(refusal) = self.refusal {
            return Step::Refuse(refusal.why);
        }
        let step = self.machine.step(item);
        match step {
            Step::Refuse(why) => {
                let _refusal = self.refuse(M::UNIT, why);
            }
            _ => self.taken = self.taken.wrapping_add(1),
        }
        step
    }

    // Refuses the next item, where this many items have one place, and keeps the refusal.
    fn refuse(&mut self, unit: u64, why: Why) -> Refusal
        requires { 0 < unit }
        ensures refusal { result
            ≡ record { place = self.old.taken - self.old.taken % unit; why = why } }
        ensures kept { self.new ≡ record self.old { refusal = Some result } }
    {
        let refusal = Refusal {
            place: self.taken - self.taken % unit,
            why,
        };
        self.refusal = Some(refusal);
        refusal
    }
}

/// Hands the parts of a step upward, up to the first refused one, and says why the item is refused, if it is.
fn hand_up<P: Copy, U: Upward<P>>(step: Step<P>, up: &mut U) -> Option<Why>
    ensures why { (above : List P) → U.Took above up.old
        → result ≡ (hand U.verdict above step).why }
    ensures took { (above : List P) → U.Took above up.old
        → U.Took (above ++ (hand U.verdict above step).parts) up.new }
{
    match step {
        Step::Nothing => None,
        Step::One(part) => up.part(part).err(),
        Step::Two(first, second) => match up.part(first) {
            Ok(()) => up.part(second).err(),
            Err(why) => Some(why),
        },
        Step::Refuse(why) => Some(why),
    }
}

impl<I: Copy, P: Copy, M: Machine<I, P>> Resume<I, P> for Fed<M> {
    ghost Given = { M.Given };

    ghost judge = { λ given. judge_by (M.syntax given) };

    ghost place = { place_by M.UNIT };

    ghost Leads = { λ given items reader. HasTaken (M.syntax given) (M.Matches given) items reader };

    ghost refusal = { λ reader. reader.refusal };

    fn feed<U: Upward<P>>(&mut self, input: &[I], up: &mut U) -> Result<(), Refusal> {
        if let Some(refusal) = self.refusal {
            return Err(refusal);
        }
        for item in input {
            if let Some(why) = hand_up(self.machine.step(*item), up) {
                return Err(self.refuse(M::UNIT, why));
            }
            self.taken = self.taken.wrapping_add(1);
        }
        Ok(())
    }

    ghost is_open = { λ given items reader leads. leads.unrefused };

    ghost item_fits = { M.item_fits };
}
