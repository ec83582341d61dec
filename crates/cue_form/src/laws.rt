//! What holds of every cue list, whatever its records.

ghost use Rattle.std.specs.Prelude.{◌≡◌, Err, List, Ok};
ghost use Rattle.cue_form.specs.FirstFault.{IsFirstFault};
ghost use Rattle.cue_types.specs.Listing.{Listing};
ghost use Rattle.cue_form.specs.Reading.{spelled_list};
ghost use Rattle.cue_form.specs.Records.{Record};
ghost use Rattle.cue_form.specs.Spelling.{SpellsList};
ghost use Rattle.cue_form.specs.declared.fault.CueFault.{CueFault};

/// Records that spell a list are read as that list, and so have no fault.
pub fn spelled_is_read()
    ensures { (records : List Record) (list : Listing) → SpellsList records list
        → spelled_list records ≡ Ok list }
{}

/// Records that have a first fault are answered with it: there is one at most.
pub fn first_fault_is_answered()
    ensures { (records : List Record) (fault : CueFault) → IsFirstFault records fault
        → spelled_list records ≡ Err fault }
{}
