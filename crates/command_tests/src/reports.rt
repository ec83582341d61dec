use cc_base::{LimitOf, Rate, Why};
use command_base::{Place, Status};
use findings::{Finding, Kind45, Misfit, MisfitKind, Which};
use line21_codes::Chan;
use reported_runs::{Command, Report, TEXT, report_of, run_in_memory};

/// A report with no number and no line.
const NOTHING: Report = Report {
    status: 0,
    why: 0,
    limit: 0,
    misfit: 0,
    rec: 0,
    field: 0,
    cue: 0,
    other: 0,
    packet: 0,
    frame: 0,
    channel: 0,
    service: 0,
    expected: 0,
    seen: 0,
    place: 0,
    written: 0,
    wanted: 0,
    reserved: [0; 7],
    text: [0; TEXT],
};

/// One frame with nothing.
const LIST: &[u8] = b"ccsuite,1,29.97,1\n";

/// One frame with nothing, at 30 frames a second.
const LIST_AT_30: &[u8] = b"ccsuite,1,30,1\n";

/// Statuses, the number of each with its limit, cue, packet and frame, and its line.
const STATUSES: &[(Status, [u32; 5], &str)] = &[
    (Status::Ok, [0, 0, 0, 0, 0], ""),
    (Status::Usage, [1, 0, 0, 0, 0], "argument out of range\n"),
    (Status::ReadFault, [2, 0, 0, 0, 0], "read fault\n"),
    (Status::WriteFault, [3, 0, 0, 0, 0], "too little room\n"),
    (Status::Memory, [4, 0, 0, 0, 0], "out of memory\n"),
    (
        Status::Limit(LimitOf::Bytes),
        [5, 1, 0, 0, 0],
        "limit Bytes\n",
    ),
    (
        Status::Limit(LimitOf::Frames),
        [5, 2, 0, 0, 0],
        "limit Frames\n",
    ),
    (
        Status::Limit(LimitOf::Cues),
        [5, 3, 0, 0, 0],
        "limit Cues\n",
    ),
    (
        Status::Limit(LimitOf::Packet),
        [5, 4, 0, 0, 0],
        "limit Packet\n",
    ),
    (Status::Limit(LimitOf::Day), [5, 5, 0, 0, 0], "limit Day\n"),
    (Status::NoRoom(3), [8, 0, 3, 0, 0], "no room: cue 3\n"),
    (Status::Short(30), [10, 0, 0, 0, 30], "short: 30 frames\n"),
    (
        Status::NoRoomBeside(4),
        [11, 0, 4, 0, 0],
        "no room in CUES: cue 4\n",
    ),
    (
        Status::NoXdsRoom(5),
        [12, 0, 0, 5, 0],
        "no room: packet 5\n",
    ),
];

/// What is found at frame 3; its reason with the channel, the service, what is expected and what is seen; and its line.
const FINDINGS: &[(Kind45, [u32; 5], &str)] = &[
    (
        Kind45::CounterJump {
            expected: 5,
            seen: 65_535,
        },
        [40, 0, 0, 5, 65_535],
        "differs at frame 3: CounterJump expected 5 seen 65535\n",
    ),
    (
        Kind45::WrongCount {
            expected: 20,
            seen: 10,
        },
        [41, 0, 0, 20, 10],
        "differs at frame 3: WrongCount expected 20 seen 10\n",
    ),
    (
        Kind45::BufferFull(63),
        [42, 0, 63, 0, 0],
        "differs at frame 3: BufferFull S63\n",
    ),
    (
        Kind45::GridDiffers(Which::Chan(Chan::Cc1)),
        [43, 1, 0, 0, 0],
        "differs at frame 3: GridDiffers CC1\n",
    ),
    (
        Kind45::GridDiffers(Which::Service(2)),
        [43, 0, 2, 0, 0],
        "differs at frame 3: GridDiffers S2\n",
    ),
    (
        Kind45::WrongRate {
            expected: Rate::F2997,
            seen: Rate::F30,
        },
        [44, 0, 0, 4, 5],
        "differs at frame 3: WrongRate expected 4 seen 5\n",
    ),
    (
        Kind45::TwoPairs(2),
        [45, 0, 0, 1, 2],
        "differs at frame 3: TwoPairs expected 1 seen 2\n",
    ),
    (
        Kind45::EightBits,
        [46, 0, 0, 0, 0],
        "differs at frame 3: EightBits\n",
    ),
];

/// Why frame 3 can't be converted; the number of that with the channel, the service and what is seen; and its line.
const MISFITS: &[(MisfitKind, [u32; 4], &str)] = &[
    (
        MisfitKind::Rate(7),
        [1, 0, 0, 7],
        "misfit at frame 3: Rate 7\n",
    ),
    (
        MisfitKind::Count(19),
        [2, 0, 0, 19],
        "misfit at frame 3: Count 19\n",
    ),
    (
        MisfitKind::One(2),
        [3, 0, 0, 2],
        "misfit at frame 3: One 2\n",
    ),
    (
        MisfitKind::Two(3),
        [4, 0, 0, 3],
        "misfit at frame 3: Two 3\n",
    ),
    (
        MisfitKind::Many(20),
        [5, 0, 0, 20],
        "misfit at frame 3: Many 20\n",
    ),
    (
        MisfitKind::Changed(Which::Chan(Chan::Cc4)),
        [6, 4, 0, 0],
        "misfit at frame 3: Changed CC4\n",
    ),
    (
        MisfitKind::Changed(Which::Service(63)),
        [6, 0, 63, 0],
        "misfit at frame 3: Changed S63\n",
    ),
];

/// The numbers of a run that was Ok, and wrote this many bytes.
fn wrote(written: u64) -> Report {
    Report { written, ..NOTHING }
}

/// The text of a line: it, and after it zeros.
fn text_of(line: &str) -> [u8; TEXT] {
    let bytes = line.as_bytes();
    let length = bytes.len().min(TEXT);
    let mut text = [0; TEXT];
    text[..length].copy_from_slice(&bytes[..length]);
    text
}

#[test]
fn a_status_is_told_with_its_number(rt: HostRuntime) {
    for &(answer, [status, limit, cue, packet, frame], line) in STATUSES {
        let report = Report {
            status,
            limit,
            cue,
            packet,
            frame,
            text: text_of(line),
            ..NOTHING
        };
        assert!(rt; report_of(answer, 0) == report);
    }
}

#[test]
fn a_malformed_input_is_told_with_its_place(rt: HostRuntime) {
    for (answer, [why, rec, field], place, line) in [
        (
            Status::Malformed(Place::Byte(4_294_967_296), Why::Count),
            [6, 0, 0],
            4_294_967_296,
            "malformed at byte 4294967296: Count\n",
        ),
        (
            Status::Malformed(Place::Field { rec: 2, field: 5 }, Why::NoCode),
            [21, 2, 5],
            0,
            "malformed at record 2 field 5: NoCode\n",
        ),
    ] {
        let report = Report {
            status: 6,
            why,
            rec,
            field,
            place,
            text: text_of(line),
            ..NOTHING
        };
        assert!(rt; report_of(answer, 0) == report);
    }
}

#[test]
fn a_finding_is_told_with_what_was_seen(rt: HostRuntime) {
    for &(kind, [why, channel, service, expected, seen], line) in FINDINGS {
        let report = Report {
            status: 9,
            frame: 3,
            why,
            channel,
            service,
            expected,
            seen,
            text: text_of(line),
            ..NOTHING
        };
        assert!(rt; report_of(Status::Differs(Finding { frame: 3, kind }), 0) == report);
    }
}

#[test]
fn a_misfit_is_told_with_what_was_seen(rt: HostRuntime) {
    for &(kind, [misfit, channel, service, seen], line) in MISFITS {
        let report = Report {
            status: 13,
            frame: 3,
            misfit,
            channel,
            service,
            seen,
            text: text_of(line),
            ..NOTHING
        };
        assert!(rt; report_of(Status::Misfit(Misfit { frame: 3, kind }), 0) == report);
    }
}

#[test]
fn a_broken_rule_is_told_with_its_cues(rt: HostRuntime) {
    for (list, [why, cue, other], line) in [
        (
            b"ccsuite,1,29.97,30\npop,CC1,0,7,8\nrun,15,0,white,HI\n".as_slice(),
            [24, 1, 0],
            "rule Clash: cue 1\n",
        ),
        (
            b"ccsuite,1,29.97,60\npop,CC1,0,10,30\nrun,15,0,white,A\npop,CC1,12,25,50\nrun,15,0,white,A\n",
            [23, 2, 1],
            "rule Overlap: cue 2 and cue 1\n",
        ),
    ] {
        let report = Report {
            status: 7,
            why,
            cue,
            other,
            text: text_of(line),
            ..NOTHING
        };
        assert!(rt; run_in_memory(rt.alloc(), Command::Cues, list, &[], &mut []) == report);
    }
}

#[test]
fn a_run_fills_the_front_of_its_output(rt: HostRuntime) {
    let alloc = rt.alloc();
    let mut out = [0xAA; 20];
    let report = run_in_memory(alloc, Command::Cues, LIST, &[], &mut out);
    assert!(rt; report == wrote(18));
    assert!(rt; out == *b"ccsuite,2,29.97,1\n\xAA\xAA");
    let report = run_in_memory(alloc, Command::Build, LIST, &[], &mut out);
    let filled = Report {
        status: 3,
        written: 20,
        wanted: 160,
        text: text_of("too little room\n"),
        ..NOTHING
    };
    assert!(rt; report == filled);
    assert!(rt;
        out == *b"\0\0\x03\xFF\x03\xFF\x01\x61\x01\x01\x01\x49\x02\x96\x02\x69\x01\x49\x01\x4F"
    );
}

#[test]
fn a_run_reads_its_side_file(rt: HostRuntime) {
    let alloc = rt.alloc();
    let mut words = [0; 160];
    let report = run_in_memory(alloc, Command::Build, LIST, &[], &mut words);
    assert!(rt; report == wrote(160));
    let mut out = [0xAA; 4];
    let report = run_in_memory(alloc, Command::Verify, &words, LIST, &mut out);
    assert!(rt; report == wrote(3));
    assert!(rt; out == *b"ok\n\xAA");
    let report = run_in_memory(alloc, Command::Verify, &words, LIST_AT_30, &mut out);
    let differs = Report {
        status: 9,
        why: 44,
        expected: 5,
        seen: 4,
        text: text_of("differs at frame 0: WrongRate expected 5 seen 4\n"),
        ..NOTHING
    };
    assert!(rt; report == differs);
}
