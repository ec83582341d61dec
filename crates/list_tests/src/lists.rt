//! Lists of good form that are read and printed, of which `cues` prints none, since they break a rule.

use cue_form::{parse, print};
use std::test::Fail;

#[test]
fn numbers_at_their_ends_are_read(rt: HostRuntime) -> Result<(), Fail> {
    let most = parse(
        rt.alloc(),
        b"ccsuite,1,30,1000000\npop,CC1,0,4294967294,4294967295\nrun,1,0,white,A\n",
    )?;
    assert!(rt;
        most.frames() == 1_000_000
            && most.cues().len() == 1
            && most.cues()[0].load == 0
            && most.cues()[0].show == 4_294_967_294
            && most.cues()[0].hide == Some(4_294_967_295)
    );
    Ok(())
}

#[test]
fn a_printed_list_is_printed_as_it_is(rt: HostRuntime) -> Result<(), Fail> {
    let text =
        b"ccsuite,2,30,500\npop,CC3,10,60,120\nrun,1,0,white-i-u,A\xE2\x99\xAA\nrun,2,31,magenta-u,\xC3\x81\npaint,CC1,0,100,4294967295\nrun,14,3,green,B\nroll,CC1,3,200,210,\nrun,15,0,white-u,C\nrun,15,8,white-i,D\nroll,CC1,4,210,220,300\nrun,4,0,cyan,E\n";
    let list = parse(rt.alloc(), text)?;
    let again = print(rt.alloc(), &list)?;
    assert!(rt; again.as_slice() == text.as_slice());
    Ok(())
}

// The last cue has one run more than the others.
#[test]
fn twenty_thousand_cues_are_read(rt: HostRuntime) -> Result<(), Fail> {
    let alloc = rt.alloc();
    let mut text = b"ccsuite,1,29.97,300\n".to_vec(alloc)?;
    for _ in 0..20_000 {
        text.extend_from_slice(b"pop,CC1,10,60,120\nrun,15,4,white,HELLO\n")?;
    }
    text.extend_from_slice(b"run,1,0,white,A\n")?;
    assert!(rt; text.len() <= 1_000_000);
    let list = parse(alloc, text.as_slice())?;
    assert!(rt;
        list.cues().len() == 20_000
            && list.cues()[0].runs.as_slice().len() == 1
            && list.cues()[19_999].runs.as_slice().len() == 2
    );
    Ok(())
}
