use cue_form::print;
use load_commands::load_list;
use std::test::Fail;

#[test]
fn three_captions_are_written_so(rt: HostRuntime) -> Result<(), Fail> {
    let alloc = rt.alloc();
    let text = print(alloc, &load_list(alloc, 3)?)?;
    let expected = b"ccsuite,2,29.97,390\n\
        share,1,31\n\
        pop,CC1,0,60,150\nrun,14,4,white,AFKPUZEJOTYDINSXCHMR\n\
        win,1,1,90,150,240,10,0,60,50,2,32,0,1,1\nrun,0,0,plain,HMRWBGLQVAFKPUZEJOTY\n\
        paint,CC3,180,240,330\nrun,15,8,yellow,OTYDINSXCHMRWBGLQVAF\n";
    assert!(rt; text.as_slice() == expected.as_slice());
    Ok(())
}
