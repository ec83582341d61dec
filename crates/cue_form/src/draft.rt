ghost use Rattle.cue_types.specs.Listing.{most_cues};
ghost use Rattle.std.specs.Prelude.{◌≡◌, ◌==◌, ◌+◌, ◌≤◌, ◌++◌, IfOk, Some, option_map, option_to_list, not, nat_le, nat_lt, length};
ghost use Rattle.std.specs.List.{list_any};
ghost use Rattle.csv.specs.Records.{fields_of};
ghost use Rattle.cue_form.specs.Answers.{Answers, GivesBegun};
ghost use Rattle.cue_form.specs.Begun.{IsBegun, nothing, cues_of, with_cue, cue_with_run, awaits_run};
ghost use Rattle.cue_form.specs.Form.{awaits_attributes, awaits_colours, is_bare_window, is_second, last_is_plain, may_stand};
ghost use Rattle.cue_form.specs.Judgements.{room_at};
ghost use Rattle.cue_types.specs.Shares.{shares_taken};
ghost use Rattle.cue_form.specs.Reading.{next, list_ended, adds, opens, runs_on, share_record_of};

use crate::fault::{CueFault, in_record};
use crate::record_kind::RecordKind;
use crate::records::{read_attributes, read_colours, read_cue, read_head, read_run};
use crate::{Offence, count_place, field, out_of_form, read_within};
use cc_base::LimitOf;
use csv::ByteRecord;
use cue_types::lane::is_win;
use cue_types::list::share_room;
use cue_types::{Cue, CueList, Head, Kind, MOST_CUES, Run, Share, Version};
use std::alloc::{AllocError, Global};
use std::marker::Model;

/// A cue list that is begun: what the records so far spell. Further runs belong to its last cue.
#[derive(Drop)]
pub struct Draft {
    head: Option<Head>,
    shares: Vec<Share>,
    earlier: Vec<Cue>,
    last: Option<Cue>,
}

impl Model for Draft {
    ghost use Rattle.cue_form.specs.Begun.{Begun};

    ghost Value = { Begun };

    ghost view = { λ d. record { head = d.head; shares = d.shares.items; earlier = d.earlier.items; last = d.last } };
}

impl Draft {
    /// A list without a record, which takes no memory.
    pub fn new(alloc: Global) -> Draft
        ensures { result ≡ nothing }
    {
        Draft {
            head: None,
            shares: Vec::new(alloc),
            earlier: Vec::new(alloc),
            last: None,
        }
    }

    /// A list that has this head alone, which takes no memory.
    pub fn headed(alloc: Global, head: Head) -> Draft
        ensures { result ≡ record nothing { head = Some head } }
    {
        Draft {
            head: Some(head),
            ..Draft::new(alloc)
        }
    }

    /// The head, if the list has one.
    pub fn head(&self) -> Option<Head>
        ensures { result ≡ self.now.head }
    {
        self.head
    }

    /// The shares so far.
    pub fn shares(&self) -> &[Share]
        ensures { result.now ≡ self.now.shares }
    {
        self.shares.as_slice()
    }

    /// The last cue, with the runs so far, if the list has one.
    pub fn last(&self) -> Option<&Cue>
        ensures { option_map (λ cue. cue.now) result ≡ self.now.last }
    {
        self.last.as_ref()
    }

    /// The last cue, which has the runs so far, if the list has one.
    pub fn into_last(self) -> Option<Cue>
        ensures { result ≡ self.last }
    {
        let Draft {
            head: _,
            shares: _,
            earlier: _,
            last,
        } = self;
        last
    }

    /// Takes the next record: its kind word is judged first, then the number of its fields, then its fields from the
    /// left. After an error the list is of no further use.
    pub fn take(&mut self, alloc: Global, row: &ByteRecord) -> Result<(), Offence>
        ensures { GivesBegun (next self.old (fields_of row.now)) result self.new }
    {
        let Some(kind) = RecordKind::of_word(field(row, 0)) else {
            return Err(out_of_form(1));
        };
        if !self.may_stand(kind) {
            return Err(out_of_form(1));
        }
        self.add(alloc, kind, row)
    }

    /// The list at its end, where the next record would have the number `rec`.
    pub fn finish(self, rec: u32) -> Result<CueList, CueFault>
        requires { IsBegun self }
        ensures { Answers (list_ended self self.head rec) result }
    {
        let Some(head) = self.head else {
            return Err(in_record(out_of_form(1), rec));
        };
        if self.awaits_run() {
            return Err(in_record(out_of_form(1), rec));
        }
        let Draft {
            head: _,
            shares,
            earlier,
            last,
        } = self;
        match with_last(earlier, last) {
            Ok(cues) => Ok(CueList::new(head, shares, cues)),
            Err(error) => Err(CueFault::Memory(error)),
        }
    }

    /// Whether a record of a kind may stand next.
    pub fn may_stand(&self, kind: RecordKind) -> bool
        ensures { result ≡ may_stand self.now kind }
    {
        match kind {
            RecordKind::Ccsuite => self.head.is_none(),
            RecordKind::Share => self.head.is_some() && self.last.is_none(),
            RecordKind::Attr => self.is_second() && self.awaits_attributes(),
            RecordKind::Run => self.last.is_some(),
            RecordKind::Colour => self.is_second() && self.awaits_colours(),
            _ => self.head.is_some() && !self.awaits_run(),
        }
    }

    /// Whether the last cue has no run yet.
    fn awaits_run(&self) -> bool
        ensures { result ≡ awaits_run self.now.last }
    {
        match &self.last {
            None => false,
            Some(cue) => cue.runs.as_slice().is_empty(),
        }
    }

    /// Whether the list is of version 2.
    fn is_second(&self) -> bool
        ensures { result ≡ is_second self.now.head }
    {
        matches!(
            self.head,
            Some(Head {
                version: Version::Two,
                ..
            })
        )
    }

    /// Whether the last record was a window's, whose attributes may follow.
    fn awaits_attributes(&self) -> bool
        ensures { result ≡ awaits_attributes self.now.last }
    {
        match &self.last {
            None => false,
            Some(cue) => cue.runs.as_slice().is_empty() && is_bare_window(cue.kind),
        }
    }

    /// Whether the last record was a run's in a window, whose colours may follow.
    fn awaits_colours(&self) -> bool
        ensures { result ≡ awaits_colours self.now.last }
    {
        match &self.last {
            None => false,
            Some(cue) => is_win(cue.kind) && last_is_plain(cue.runs.as_slice()),
        }
    }

    /// Adds what a record of a kind that may stand here spells.
    fn add(&mut self, alloc: Global, kind: RecordKind, row: &ByteRecord) -> Result<(), Offence>
        ensures { GivesBegun (adds self.old kind (fields_of row.now)) result self.new }
    {
        match kind {
            RecordKind::Ccsuite => self.add_head(row),
            RecordKind::Share => self.add_share(row),
            RecordKind::Attr => self.add_attributes(row),
            RecordKind::Run => self.add_run(alloc, row),
            RecordKind::Colour => self.add_colours(row),
            RecordKind::Pop | RecordKind::Paint | RecordKind::Roll | RecordKind::Win => {
                self.add_cue(alloc, kind, row)
            }
        }
    }

    /// Adds the head.
    fn add_head(&mut self, row: &ByteRecord) -> Result<(), Offence>
        ensures { GivesBegun (adds self.old RecordKind.Ccsuite
            (fields_of row.now)) result self.new }
    {
        self.head = Some(read_head(row)?);
        Ok(())
    }

    /// Adds a share: `share,SERVICE,BYTES`.
    fn add_share(&mut self, row: &ByteRecord) -> Result<(), Offence>
        ensures { GivesBegun (adds self.old RecordKind.Share (fields_of row.now)) result self.new }
    {
        let share = read_share(&self.shares, self.room(), row)?;
        if self.shares.push(share).is_err() {
            return Err(Offence::Memory(AllocError));
        }
        Ok(())
    }

    /// The bytes of a frame that shares may take, at the rate of the head.
    fn room(&self) -> u32
        ensures room { result ≡ room_at self.now.head }
        ensures small { result ≤ 35 }
    {
        match self.head {
            None => 0,
            Some(head) => share_room(head.rate),
        }
    }

    /// Gives the last cue's window attributes of its own.
    fn add_attributes(&mut self, row: &ByteRecord) -> Result<(), Offence>
        ensures { GivesBegun (adds self.old RecordKind.Attr (fields_of row.now)) result self.new }
    {
        let attributes = read_attributes(row)?;
        if let Some(cue) = &mut self.last {
            if let Kind::Win(window) = &mut cue.kind {
                window.attr = Some(attributes);
            }
        }
        Ok(())
    }

    /// Gives the last run colours of its own.
    fn add_colours(&mut self, row: &ByteRecord) -> Result<(), Offence>
        ensures { GivesBegun (adds self.old RecordKind.Colour (fields_of row.now)) result self.new }
    {
        let colours = read_colours(row)?;
        if let Some(cue) = &mut self.last {
            cue.runs.colour_last(colours);
        }
        Ok(())
    }

    /// Adds a cue, of which there are 20,000 at most.
    fn add_cue(&mut self, alloc: Global, kind: RecordKind, row: &ByteRecord) -> Result<(), Offence>
        ensures { GivesBegun (opens self.old kind (fields_of row.now)) result self.new }
    {
        if self.is_full() {
            return Err(Offence::Limit(LimitOf::Cues));
        }
        self.push_cue(read_cue(alloc, kind, row)?)
    }

    /// Adds a run to the last cue.
    fn add_run(&mut self, alloc: Global, row: &ByteRecord) -> Result<(), Offence>
        ensures { GivesBegun (runs_on self.old self.old.last (fields_of row.now)) result self.new }
    {
        let Some(mut cue) = self.last.take() else {
            return Err(out_of_form(1));
        };
        let run = read_run(alloc, &cue, row)?;
        if cue.runs.push(run).is_err() {
            return Err(Offence::Memory(AllocError));
        }
        self.last = Some(cue);
        Ok(())
    }

    /// Whether there are 20,000 cues.
    fn is_full(&self) -> bool
        ensures { result ≡ not (nat_lt (length (cues_of self.now)) most_cues) }
    {
        match &self.last {
            None => self.earlier.len() >= MOST_CUES,
            Some(_) => self.earlier.len() >= MOST_CUES - 1,
        }
    }

    /// Makes this cue the last.
    fn push_cue(&mut self, cue: Cue) -> Result<(), Offence>
        ensures { GivesBegun (Ok (with_cue self.old cue)) result self.new }
    {
        if let Some(former) = self.last.take() {
            if self.earlier.push(former).is_err() {
                return Err(Offence::Memory(AllocError));
            }
        }
        self.last = Some(cue);
        Ok(())
    }
}

/// All cues in order.
fn with_last(mut earlier: Vec<Cue>, last: Option<Cue>) -> Result<Vec<Cue>, AllocError>
    ensures { IfOk result (λ cues. cues.items ≡ earlier.items ++ option_to_list last) }
{
    if let Some(last) = last {
        earlier.push(last)?;
    }
    Ok(earlier)
}

/// A share, after these, which may take this many bytes of a frame together with it.
fn read_share(shares: &[Share], room: u32, row: &ByteRecord) -> Result<Share, Offence>
    requires { room ≤ 35 }
    ensures { result ≡ share_record_of room shares.now (fields_of row.now) }
{
    if row.len() != 3 {
        return Err(out_of_form(count_place(3, row.len())));
    }
    let Some(service) = read_within(1, 6, field(row, 1)) else {
        return Err(out_of_form(2));
    };
    if has_share(shares, service as u8) {
        return Err(out_of_form(2));
    }
    let Some(bytes) = read_within(8, 31, field(row, 2)) else {
        return Err(out_of_form(3));
    };
    if !fits(shares, bytes as u8, room) {
        return Err(out_of_form(3));
    }
    Ok(Share {
        service: service as u8,
        bytes: bytes as u8,
    })
}

/// Whether one of the shares is the service's.
fn has_share(shares: &[Share], service: u8) -> bool
    ensures { result ≡ list_any (λ share. share.service == service) shares.now }
{
    shares.iter().any(|share| share.service == service)
}

/// Whether a share of this many bytes fits in the room together with these shares, each with the header of its block.
fn fits(shares: &[Share], bytes: u8, room: u32) -> bool
    requires { bytes ≤ 31 }
    ensures { result ≡ nat_le (shares_taken shares.now + (bytes + 1)) room }
{
    let own = u32::from(bytes) + 1;
    if room < own {
        return false;
    }
    let mut left = room - own;
    for share in shares {
        let taken = u32::from(share.bytes) + 1;
        if left < taken {
            return false;
        }
        left -= taken;
    }
    true
}

/// A window that has no attributes of its own.
fn is_bare_window(kind: Kind) -> bool
    ensures { result ≡ is_bare_window kind }
{
    match kind {
        Kind::Win(window) => window.attr.is_none(),
        Kind::Pop(_) | Kind::Paint(_) | Kind::Roll(_, _) => false,
    }
}

/// The last of the runs has no colours of its own.
#[tactic(auto, using(crate::proofs::LastRun::last_plain, crate::proofs::LastRun::none_plain))]
fn last_is_plain(runs: &[Run]) -> bool
    ensures { result ≡ last_is_plain runs.now }
{
    let count = runs.len();
    count > 0 && runs[count - 1].colors.is_none()
}
