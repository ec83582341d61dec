use cc_base::Why;
use time_codes::{Counting, TimeCode, frame_in, frame_of, time_in, time_of};

// The frames that time codes of hours, minutes, seconds and frames name, with drop frame or without.
#[test]
fn frames_are_counted_through_the_day(rt: HostRuntime) {
    const TIMES: &[(u8, u8, u8, u8, bool, u32)] = &[
        (0, 0, 0, 0, false, 0),
        (0, 0, 59, 29, false, 1_799),
        (0, 1, 0, 0, false, 1_800),
        (1, 0, 0, 0, false, 108_000),
        (0, 0, 0, 0, true, 0),
        (0, 0, 59, 29, true, 1_799),
        (0, 1, 0, 2, true, 1_800),
        (0, 1, 59, 29, true, 3_597),
        (0, 2, 0, 2, true, 3_598),
        (0, 9, 59, 29, true, 17_981),
        (0, 10, 0, 0, true, 17_982),
        (0, 10, 0, 1, true, 17_983),
        (0, 11, 0, 2, true, 19_782),
        (1, 0, 0, 0, true, 107_892),
        (10, 0, 0, 0, true, 1_078_920),
        (23, 59, 59, 29, true, 2_589_407),
    ];
    for &(h, m, s, f, drop_frame, frame) in TIMES {
        let t = TimeCode {
            h,
            m,
            s,
            f,
            drop_frame,
        };
        assert!(rt;
            frame_of(t) == Ok(frame) && frame < 2_589_408 && time_of(frame, drop_frame) == t
        );
    }
    let last = TimeCode {
        h: 23,
        m: 59,
        s: 59,
        f: 29,
        drop_frame: false,
    };
    assert!(rt; frame_of(last) == Ok(2_591_999) && time_of(2_591_999, false) == last);
}

// At each rate; whether a time code has the mark of drop frame says nothing of its frame.
#[test]
fn frames_are_counted_at_each_rate(rt: HostRuntime) {
    const TIMES: &[(Counting, u8, u8, u8, u8, u32)] = &[
        (Counting::F24, 0, 0, 0, 23, 23),
        (Counting::F24, 0, 0, 1, 0, 24),
        (Counting::F24, 1, 0, 0, 0, 86_400),
        (Counting::F24, 23, 59, 59, 23, 2_073_599),
        (Counting::F25, 0, 1, 0, 0, 1_500),
        (Counting::F25, 10, 0, 0, 24, 900_024),
        (Counting::F25, 23, 59, 59, 24, 2_159_999),
        (Counting::F30, 0, 1, 0, 0, 1_800),
        (Counting::F30, 23, 59, 59, 29, 2_591_999),
        (Counting::F30Drop, 0, 0, 59, 29, 1_799),
        (Counting::F30Drop, 0, 1, 0, 2, 1_800),
        (Counting::F30Drop, 23, 59, 59, 29, 2_589_407),
        (Counting::F50, 0, 0, 1, 49, 99),
        (Counting::F50, 23, 59, 59, 49, 4_319_999),
        (Counting::F60, 0, 0, 59, 59, 3_599),
        (Counting::F60, 0, 1, 0, 0, 3_600),
        (Counting::F60, 23, 59, 59, 59, 5_183_999),
        (Counting::F60Drop, 0, 0, 0, 3, 3),
        (Counting::F60Drop, 0, 0, 59, 59, 3_599),
        (Counting::F60Drop, 0, 1, 0, 4, 3_600),
        (Counting::F60Drop, 0, 1, 1, 0, 3_656),
        (Counting::F60Drop, 0, 1, 59, 59, 7_195),
        (Counting::F60Drop, 0, 2, 0, 4, 7_196),
        (Counting::F60Drop, 0, 9, 59, 59, 35_963),
        (Counting::F60Drop, 0, 10, 0, 0, 35_964),
        (Counting::F60Drop, 0, 10, 0, 3, 35_967),
        (Counting::F60Drop, 0, 11, 0, 4, 39_564),
        (Counting::F60Drop, 1, 0, 0, 0, 215_784),
        (Counting::F60Drop, 23, 59, 59, 59, 5_178_815),
    ];
    for &(count, h, m, s, f, frame) in TIMES {
        let drop_frame = count.has_drop_frame();
        let t = TimeCode {
            h,
            m,
            s,
            f,
            drop_frame,
        };
        let other = TimeCode {
            h,
            m,
            s,
            f,
            drop_frame: !drop_frame,
        };
        assert!(rt; frame_in(count, t) == Ok(frame) && frame_in(count, other) == Ok(frame));
        assert!(rt; frame < count.day_frames());
        assert!(rt; time_in(count, frame) == t);
    }
}

// No text has the numbers 255.
#[test]
fn numbers_above_99_have_no_frame(rt: HostRuntime) {
    for drop_frame in [false, true] {
        let t = TimeCode {
            h: 255,
            m: 255,
            s: 255,
            f: 255,
            drop_frame,
        };
        assert!(rt; frame_of(t) == Err(Why::NoSuchTime));
        assert!(rt; frame_in(Counting::F60, t) == Err(Why::NoSuchTime));
    }
}
