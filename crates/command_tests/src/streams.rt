use caption_streams::{
    Building, FeedFault, FrameForm, NextFrame, Receiving, SliceSource, Verifying,
};
use cc_base::{MemorySink, Put, Refusal, Source, Took, Why};
use cc_receiver::{Ended, Fed};
use command_base::{Place, Status};
use cue_lists::RuleFault;
use findings::{Finding, Kind45, Which};
use line21_codes::{Chan, Colour};
use std::alloc::Global;
use std::test::Fail;

/// `HI` on CC1, shown at frame 7 and hidden at frame 20.
const LIST: &[u8] = b"ccsuite,1,29.97,30\npop,CC1,0,7,20\nrun,15,0,white,HI\n";

/// The same list with another text.
const OTHER: &[u8] = b"ccsuite,1,29.97,30\npop,CC1,0,7,20\nrun,15,0,white,HO\n";

/// The screens after frame 7, as text.
const SHOWN: &[u8] = b"frame 7\nCC1 1\n15 0 white HI\n";

/// The same again.
const SHOWN_TWICE: &[u8] = b"frame 7\nCC1 1\n15 0 white HI\nframe 7\nCC1 1\n15 0 white HI\n";

/// A whole frame of 29.97 frames a second.
const FRAME: Fed = Fed {
    used: 160,
    ended: Ended::Caption,
};

/// A builder of an accepted list.
fn built(alloc: Global, list: &[u8]) -> Result<Building, Fail> {
    match Building::read(alloc, list) {
        Ok(building) => Ok(building),
        Err(_) => Err(Fail::from("the list is accepted")),
    }
}

#[test]
fn what_changed_is_told_once(rt: HostRuntime) -> Result<(), Fail> {
    let alloc = rt.alloc();
    let mut building = built(alloc, LIST)?;
    let mut receiving = Receiving::new(alloc)?;
    for frame in 0..8 {
        let mut words = [0; 160];
        assert!(rt; building.next(FrameForm::Words, &mut words) == NextFrame::Given(160));
        assert!(rt; receiving.feed(&words) == Ok(FRAME));
    }
    let mut sink = MemorySink::new(alloc, 100, Vec::new(alloc))?;
    assert!(rt; receiving.put_changes(&mut sink) == Put::Done);
    assert!(rt; receiving.put_changes(&mut sink) == Put::Done);
    assert!(rt; sink.bytes() == SHOWN);
    assert!(rt; receiving.put_screens(&mut sink) == Put::Done);
    assert!(rt; sink.bytes() == SHOWN_TWICE);
    let shown = receiving.reception().cell(Chan::Cc1, 15, 1);
    assert!(rt;
        matches!(shown, Some(cell) if cell.ch == 'I' && cell.style.colour == Colour::White)
            && receiving.reception().window(1, 0).is_none()
    );
    Ok(())
}

#[test]
fn words_are_verified_up_to_the_first_finding(rt: HostRuntime) -> Result<(), Fail> {
    let alloc = rt.alloc();
    let mut building = built(alloc, LIST)?;
    let (Ok(mut right), Ok(mut wrong)) = (
        Verifying::read(alloc, LIST),
        Verifying::read(alloc, OTHER),
    ) else {
        return Err(Fail::from("the lists are accepted"));
    };
    let found = Finding {
        frame: 7,
        kind: Kind45::GridDiffers(Which::Chan(Chan::Cc1)),
    };
    for frame in 0..30 {
        assert!(rt; right.verdict() == Status::Short(frame));
        let mut words = [0; 160];
        assert!(rt; building.next(FrameForm::Words, &mut words) == NextFrame::Given(160));
        assert!(rt; right.feed(&words) == Ok(FRAME));
        let answer = if frame < 8 {
            Ok(FRAME)
        } else {
            Err(FeedFault::Found(found))
        };
        assert!(rt; wrong.feed(&words) == answer);
    }
    assert!(rt; building.next(FrameForm::Words, &mut []) == NextFrame::Over);
    assert!(rt;
        right.verdict() == Status::Ok
            && right.finding().is_none()
            && wrong.verdict() == Status::Differs(found)
            && wrong.finding() == Some(found)
    );
    Ok(())
}

#[test]
fn a_frame_without_room_is_the_next_one_still(rt: HostRuntime) -> Result<(), Fail> {
    let alloc = rt.alloc();
    let mut building = built(alloc, LIST)?;
    let mut short = [0; 159];
    assert!(rt; building.next(FrameForm::Words, &mut short) == NextFrame::NoRoom(160));
    assert!(rt; short == [0; 159]);
    let mut words = [0; 160];
    assert!(rt; building.next(FrameForm::Words, &mut words) == NextFrame::Given(160));
    assert!(rt; words.starts_with(b"\0\0\x03\xFF\x03\xFF"));
    Ok(())
}

#[test]
fn a_frame_that_is_missing_is_counted(rt: HostRuntime) -> Result<(), Fail> {
    let alloc = rt.alloc();
    let mut building = built(alloc, LIST)?;
    let mut first = [0; 160];
    assert!(rt; building.next(FrameForm::Words, &mut first) == NextFrame::Given(160));
    let mut second = [0; 160];
    assert!(rt; building.next(FrameForm::Words, &mut second) == NextFrame::Given(160));
    let mut third = [0; 160];
    assert!(rt; building.next(FrameForm::Words, &mut third) == NextFrame::Given(160));
    let mut receiving = Receiving::concealing(alloc)?;
    assert!(rt; receiving.feed(&first) == Ok(FRAME));
    assert!(rt; receiving.feed(&third) == Ok(FRAME));
    let reception = receiving.reception();
    assert!(rt; reception.frames() == 2 && reception.number() == 2 && reception.missing() == 1);
    Ok(())
}

#[test]
fn a_word_above_3ff_is_refused_from_then_on(rt: HostRuntime) -> Result<(), Fail> {
    let mut receiving = Receiving::new(rt.alloc())?;
    let read = Fed {
        used: 2,
        ended: Ended::No,
    };
    assert!(rt; receiving.reception().finish().is_ok());
    assert!(rt; receiving.feed(&[0x00, 0x00]) == Ok(read));
    let cut_short = Refusal {
        place: 2,
        why: Why::Truncated,
    };
    assert!(rt; receiving.reception().finish() == Err(cut_short));
    let refusal = Refusal {
        place: 2,
        why: Why::HighBits,
    };
    assert!(rt; receiving.feed(&[0xFF, 0x03]) == Err(FeedFault::Refused(refusal)));
    assert!(rt; receiving.feed(&[0x03, 0xFF]) == Err(FeedFault::Refused(refusal)));
    assert!(rt; receiving.reception().finish() == Err(refusal));
    Ok(())
}

#[test]
fn a_refused_list_is_answered_with_its_status(rt: HostRuntime) {
    let form = Status::Malformed(Place::Field { rec: 2, field: 5 }, Why::Field);
    let rule = Status::Rule(RuleFault {
        why: Why::Clash,
        cue: 1,
        other: None,
    });
    for (list, builder, verifier) in [
        (
            b"ccsuite,1,29.97,30\npop,CC1,0,7\nrun,15,0,white,HI\n".as_slice(),
            form,
            Some(form),
        ),
        (
            b"ccsuite,1,29.97,30\npop,CC1,0,7,8\nrun,15,0,white,HI\n",
            rule,
            Some(rule),
        ),
        (
            b"ccsuite,1,29.97,30\npop,CC1,0,6,20\nrun,15,0,white,HI\n",
            Status::NoRoom(1),
            None,
        ),
    ] {
        assert!(rt;
            Building::read(rt.alloc(), list).err() == Some(builder)
                && Verifying::read(rt.alloc(), list).err() == verifier
        );
    }
}

#[test]
fn a_source_gives_its_bytes_in_turn(rt: HostRuntime) {
    let mut source = SliceSource::new(b"HELLO");
    let mut piece = [0; 3];
    for (took, bytes) in [
        (Took::Got(3), b"HEL"),
        (Took::Got(2), b"LOL"),
        (Took::End, b"LOL"),
    ] {
        assert!(rt; source.take(&mut piece) == took);
        assert!(rt; piece == *bytes);
    }
}
