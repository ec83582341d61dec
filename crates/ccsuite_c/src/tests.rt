use crate::{
    ChangedSeen, Edge, FedBytes, FrameSeen, Handle, PacketSeen, Shade, StartTime, TextCell,
    WindowCell, WindowSeen, ccsuite_build, ccsuite_builder_close, ccsuite_builder_next,
    ccsuite_builder_next_cc_data, ccsuite_builder_open, ccsuite_cc_data_from_words,
    ccsuite_cdp_from_words, ccsuite_conceal, ccsuite_convert, ccsuite_cues, ccsuite_decode,
    ccsuite_dual, ccsuite_export, ccsuite_export_mcc, ccsuite_import, ccsuite_import_mcc,
    ccsuite_insert, ccsuite_load, ccsuite_pairs, ccsuite_reason_of, ccsuite_receiver_cell,
    ccsuite_receiver_changed, ccsuite_receiver_changes, ccsuite_receiver_close,
    ccsuite_receiver_feed, ccsuite_receiver_feed_cc_data, ccsuite_receiver_finish,
    ccsuite_receiver_frame, ccsuite_receiver_grid, ccsuite_receiver_open, ccsuite_receiver_screens,
    ccsuite_receiver_window, ccsuite_receiver_window_cell, ccsuite_receiver_window_grid,
    ccsuite_show, ccsuite_verifier_close, ccsuite_verifier_feed, ccsuite_verifier_open,
    ccsuite_verifier_verdict, ccsuite_verify, ccsuite_version, ccsuite_words_from_cc_data,
    ccsuite_words_from_cdp, ccsuite_xds, ccsuite_xds_show,
};
use command_base::Status;
use reported_runs::{Reason, Report, report_of};
use std::alloc::Global;

/// One frame with nothing.
const LIST: &[u8] = b"ccsuite,1,29.97,1\n";

/// An SCC file of one pair at frame 0 of its words.
const SCC: &[u8] = b"Scenarist_SCC V1.0\n\n01:00:00:00\t9420\n\n";

const START: StartTime = StartTime {
    hours: 1,
    minutes: 0,
    seconds: 0,
    frames: 0,
    drop_frame: false,
};

/// A report that no call wrote.
fn unwritten() -> Report {
    report_of(Status::Short(9), 9)
}

/// The words of the list.
fn built(alloc: Global) -> [u8; 160] {
    let mut words = [0; 160];
    let mut report = unwritten();
    let _ = ccsuite_build(alloc, LIST, &mut words, &mut report);
    words
}

/// A receiver that was fed nothing.
fn opened(alloc: Global, conceals: bool) -> Handle {
    let mut receiver = Handle::closed();
    let _ = ccsuite_receiver_open(alloc, &mut receiver, conceals);
    receiver
}

#[test]
fn lists_are_run(rt: HostRuntime) {
    let alloc = rt.alloc();
    let mut report = unwritten();
    let mut out = [0; 180];
    assert!(rt; ccsuite_build(alloc, LIST, &mut out, &mut report) == 0);
    assert!(rt; report.written == 160);
    assert!(rt; ccsuite_dual(alloc, LIST, LIST, &mut out, &mut report) == 0);
    assert!(rt; report.written == 160);
    assert!(rt; ccsuite_xds(alloc, LIST, b"xds,0,1,3,NEWS\n", &mut out, &mut report) == 12);
    assert!(rt; report.packet == 1 && report.written == 0);
    assert!(rt; ccsuite_cues(alloc, LIST, &mut out, &mut report) == 0);
    assert!(rt; out.starts_with(b"ccsuite,2,29.97,1\n"));
    assert!(rt; ccsuite_pairs(alloc, LIST, &mut out, &mut report) == 0);
    assert!(rt; out.starts_with(b"8080 8080\n"));
}

#[test]
fn a_list_of_a_byte_too_many_is_told(rt: HostRuntime) {
    let alloc = rt.alloc();
    let mut report = unwritten();
    let mut out = [0; 159];
    assert!(rt; ccsuite_build(alloc, LIST, &mut out, &mut report) == 3);
    assert!(rt; report.written == 159 && report.wanted == 160);
    assert!(rt; report.text.starts_with(b"too little room\n"));
}

#[test]
fn scc_files_are_run(rt: HostRuntime) {
    let alloc = rt.alloc();
    let mut report = unwritten();
    let mut out = [0; 180];
    assert!(rt; ccsuite_import(alloc, SCC, &mut out, &mut report) == 0);
    assert!(rt; report.written == 160);
    assert!(rt; ccsuite_import(alloc, LIST, &mut out, &mut report) == 6);
    assert!(rt; report.status == 6 && report.why == 15 && report.place == 0);
    assert!(rt; ccsuite_export(alloc, &built(alloc), &START, &mut out, &mut report) == 0);
    assert!(rt; out.starts_with(b"Scenarist_SCC V1.0\n"));
    let no_time = StartTime { hours: 24, ..START };
    assert!(rt; ccsuite_export(alloc, &built(alloc), &no_time, &mut out, &mut report) == 1);
}

#[test]
fn mcc_files_are_run(rt: HostRuntime) {
    let alloc = rt.alloc();
    let words = built(alloc);
    let mut report = unwritten();
    let mut out = [0; 2000];
    assert!(rt; ccsuite_export_mcc(alloc, &words, 30, &START, &mut out, &mut report) == 0);
    assert!(rt; out.starts_with(b"File Format=MacCaption_MCC V"));
    let size = report.written as usize;
    let mut again = [0; 180];
    if let Some(file) = out.get(..size) {
        assert!(rt; ccsuite_import_mcc(alloc, file, &mut again, &mut report) == 0);
    }
    assert!(rt; report.written == 160 && again.starts_with(&words));
    assert!(rt; ccsuite_import_mcc(alloc, LIST, &mut again, &mut report) == 6);
    assert!(rt; report.status == 6 && report.place == 0 && report.written == 0);
    assert!(rt; ccsuite_export_mcc(alloc, &words, 25, &START, &mut out, &mut report) == 9);
    assert!(rt; report.why == 44 && report.expected == 3 && report.seen == 4);
    assert!(rt; ccsuite_export_mcc(alloc, &words, 29, &START, &mut out, &mut report) == 1);
}

#[test]
fn words_are_converted_and_a_load_is_tried(rt: HostRuntime) {
    let alloc = rt.alloc();
    let mut report = unwritten();
    let mut out = [0; 320];
    assert!(rt; ccsuite_convert(alloc, &built(alloc), &mut out, &mut report) == 0);
    assert!(rt; report.written == 200);
    assert!(rt; ccsuite_load(alloc, 1, &mut out, &mut report) == 0);
    assert!(rt; out.starts_with(b"cues 1\n"));
    assert!(rt; ccsuite_load(alloc, 0, &mut out, &mut report) == 1);
    assert!(rt; ccsuite_load(alloc, 10_001, &mut out, &mut report) == 1);
}

#[test]
fn words_are_shown(rt: HostRuntime) {
    let alloc = rt.alloc();
    let words = built(alloc);
    let mut report = unwritten();
    let mut out = [0; 180];
    assert!(rt; ccsuite_decode(alloc, &words, &mut out, &mut report) == 0);
    assert!(rt; out.starts_with(b"frames 1\n"));
    assert!(rt; ccsuite_conceal(alloc, &words, &mut out, &mut report) == 0);
    assert!(rt; report.written == 9);
    assert!(rt; ccsuite_xds_show(alloc, &words, &mut out, &mut report) == 0);
    assert!(rt; report.written == 9);
    assert!(rt; ccsuite_show(alloc, &words, 1, &mut out, &mut report) == 10);
    assert!(rt; report.frame == 1 && report.written == 0);
}

#[test]
fn words_are_run_beside_a_list(rt: HostRuntime) {
    let alloc = rt.alloc();
    let words = built(alloc);
    let mut report = unwritten();
    let mut out = [0; 180];
    assert!(rt; ccsuite_verify(alloc, &words, LIST, &mut out, &mut report) == 0);
    assert!(rt; out.starts_with(b"ok\n"));
    assert!(rt; ccsuite_insert(alloc, &words, LIST, &mut out, &mut report) == 0);
    assert!(rt; out.starts_with(&words));
}

#[test]
fn a_builder_gives_its_frames(rt: HostRuntime) {
    let alloc = rt.alloc();
    let mut report = unwritten();
    let mut builder = Handle::closed();
    let mut out = [0xAA; 524];
    let mut written = 9;
    assert!(rt; ccsuite_builder_open(alloc, LIST, &mut builder, &mut report) == 0);
    assert!(rt; ccsuite_builder_next(alloc, &mut builder, &mut out[..159], &mut written) == 3);
    assert!(rt; written == 160 && out[0] == 0xAA);
    assert!(rt; ccsuite_builder_next(alloc, &mut builder, &mut out, &mut written) == 0);
    assert!(rt; written == 160 && out[160] == 0xAA);
    assert!(rt; ccsuite_builder_next(alloc, &mut builder, &mut [], &mut written) == 33);
    assert!(rt; written == 0);
}

const NO_PACKET: PacketSeen = PacketSeen {
    rate: 9,
    counter: 9,
    flags: 9,
    reserved: [9; 5],
};

#[test]
fn triplets_are_read_of_words(rt: HostRuntime) {
    let words = built(rt.alloc());
    let mut packet = NO_PACKET;
    let mut written = 9;
    let mut short = [0xAA; 59];
    assert!(rt; ccsuite_cc_data_from_words(&words, &mut short, &mut written, &mut packet) == 3);
    assert!(rt; written == 60 && packet.rate == 9 && short[0] == 0xAA);
    let mut cc_data = [0xAA; 61];
    assert!(rt; ccsuite_cc_data_from_words(&words, &mut cc_data, &mut written, &mut packet) == 0);
    assert!(rt; written == 60 && cc_data[60] == 0xAA);
    assert!(rt; cc_data.starts_with(&[0xFC, 0x80, 0x80, 0xFD, 0x80, 0x80, 0xFA, 0, 0]));
    assert!(rt; packet.rate == 4 && packet.counter == 0 && packet.flags == 0x43);
    assert!(rt; ccsuite_cc_data_from_words(&cc_data, &mut short, &mut written, &mut packet) == 6);
    assert!(rt; written == 0 && packet.rate == 4);
}

#[test]
fn triplets_are_carried(rt: HostRuntime) {
    let cc_data = [0xFA, 0, 0];
    let mut words = [0xAA; 47];
    let mut written = 9;
    assert!(rt; ccsuite_words_from_cc_data(&cc_data, 4, 0, &mut words, &mut written) == 0);
    assert!(rt; written == 46 && words[46] == 0xAA);
    assert!(rt; words.starts_with(b"\0\0\x03\xFF\x03\xFF\x01\x61\x01\x01\x01\x10"));
    assert!(rt; ccsuite_words_from_cc_data(&cc_data, 9, 0, &mut words, &mut written) == 1);
    assert!(rt; written == 0);
    assert!(rt; ccsuite_words_from_cc_data(&cc_data, 4, 65_536, &mut words, &mut written) == 1);
    assert!(rt; ccsuite_words_from_cc_data(b"\xFA\0", 4, 0, &mut words, &mut written) == 1);
}

#[test]
fn a_distribution_packet_is_read_and_carried(rt: HostRuntime) {
    let words = built(rt.alloc());
    let mut cdp = [0xAA; 73];
    let mut again = [0xAA; 161];
    let mut written = 9;
    assert!(rt; ccsuite_cdp_from_words(&words, &mut cdp, &mut written) == 0);
    assert!(rt;
        written == 73 && cdp.starts_with(&[0x96, 0x69, 0x49, 0x4F, 0x43, 0, 0, 0x72, 0xF4])
    );
    assert!(rt; ccsuite_words_from_cdp(&cdp, &mut again, &mut written) == 0);
    assert!(rt; written == 160 && again.starts_with(&words) && again[160] == 0xAA);
    assert!(rt; ccsuite_words_from_cdp(LIST, &mut again, &mut written) == 6);
    assert!(rt; ccsuite_cdp_from_words(&cdp, &mut again, &mut written) == 6);
    assert!(rt; written == 0);
}

#[test]
fn a_receiver_is_fed_the_triplets_of_a_builder(rt: HostRuntime) {
    let alloc = rt.alloc();
    let mut report = unwritten();
    let mut builder = Handle::closed();
    let mut receiver = opened(alloc, false);
    let (mut out, mut written, mut fed) = ([0; 60], 9, UNFED);
    assert!(rt; ccsuite_builder_open(alloc, LIST, &mut builder, &mut report) == 0);
    assert!(rt; ccsuite_builder_next_cc_data(alloc, &mut builder, &mut out, &mut written) == 0);
    assert!(rt; written == 60);
    assert!(rt; ccsuite_receiver_feed_cc_data(alloc, &mut receiver, &out, 0, 7, &mut fed) == 1);
    assert!(rt; fed.used == 0);
    assert!(rt; ccsuite_receiver_feed_cc_data(alloc, &mut receiver, &out, 4, 7, &mut fed) == 0);
    assert!(rt; fed.used == 160 && fed.ended == 2);
    assert!(rt; ccsuite_receiver_feed_cc_data(alloc, &mut builder, &out, 4, 7, &mut fed) == 32);
}

#[test]
fn a_reason_is_told_by_its_number(rt: HostRuntime) {
    let mut reason = Reason {
        name: [9; 32],
        sentence: [9; 128],
    };
    assert!(rt; ccsuite_reason_of(30, &mut reason) == 1);
    assert!(rt; reason.name == [9; 32]);
    assert!(rt; ccsuite_reason_of(43, &mut reason) == 0);
    assert!(rt; reason.name.starts_with(b"GridDiffers\0"));
    assert!(rt;
        reason
            .sentence
            .starts_with(b"What is shown isn't what was authored.\0")
    );
    assert!(rt; ccsuite_version() == 65_536);
}

#[test]
fn a_closed_builder_says_so(rt: HostRuntime) {
    let alloc = rt.alloc();
    let mut report = unwritten();
    let mut builder = Handle::closed();
    let mut out = [0xAA; 524];
    let mut written = 9;
    assert!(rt; ccsuite_builder_open(alloc, b"x", &mut builder, &mut report) == 6);
    assert!(rt; report.rec == 1 && report.field == 1);
    ccsuite_builder_close(alloc, &mut builder);
    ccsuite_builder_close(alloc, &mut builder);
    assert!(rt; ccsuite_builder_next(alloc, &mut builder, &mut out, &mut written) == 32);
    assert!(rt; written == 0);
}

const UNFED: FedBytes = FedBytes {
    used: 9,
    place: 9,
    ended: 9,
    why: 9,
    reserved: [9; 2],
};

const NO_CELL: TextCell = TextCell {
    ch: 9,
    colour: 9,
    italic: 9,
    underline: 9,
    reserved: 9,
};

#[test]
fn a_receiver_is_fed(rt: HostRuntime) {
    let alloc = rt.alloc();
    let mut receiver = opened(alloc, true);
    let mut fed = UNFED;
    assert!(rt; ccsuite_receiver_feed(alloc, &mut receiver, &built(alloc), &mut fed) == 0);
    assert!(rt; fed.used == 160 && fed.ended == 2);
    assert!(rt; ccsuite_receiver_feed(alloc, &mut receiver, &[0xFF, 0xFF], &mut fed) == 6);
    assert!(rt; fed.used == 0 && fed.place == 160 && fed.ended == 0 && fed.why == 9);
    ccsuite_receiver_close(alloc, &mut receiver);
    assert!(rt; ccsuite_receiver_feed(alloc, &mut receiver, &[0xFF, 0xFF], &mut fed) == 32);
}

#[test]
fn words_may_end_behind_a_packet(rt: HostRuntime) {
    let alloc = rt.alloc();
    let mut receiver = opened(alloc, false);
    let words = built(alloc);
    let mut fed = UNFED;
    assert!(rt; ccsuite_receiver_finish(alloc, &mut receiver, &mut fed) == 0);
    assert!(rt; ccsuite_receiver_feed(alloc, &mut receiver, &words[..7], &mut fed) == 0);
    assert!(rt; ccsuite_receiver_finish(alloc, &mut receiver, &mut fed) == 6);
    assert!(rt; fed.used == 0 && fed.place == 7 && fed.ended == 0 && fed.why == 13);
    assert!(rt; ccsuite_receiver_feed(alloc, &mut receiver, &words[7..], &mut fed) == 0);
    assert!(rt; ccsuite_receiver_finish(alloc, &mut receiver, &mut fed) == 0);
}

#[test]
fn a_receiver_is_read(rt: HostRuntime) {
    let alloc = rt.alloc();
    let mut receiver = opened(alloc, false);
    let mut fed = UNFED;
    let mut frame = FrameSeen {
        number: 9,
        missing: 9,
        frames: 9,
        reserved: [9; 3],
    };
    let mut cell = NO_CELL;
    assert!(rt; ccsuite_receiver_frame(alloc, &mut receiver, &mut frame) == 35);
    assert!(rt; ccsuite_receiver_cell(alloc, &mut receiver, 1, 15, 0, &mut cell) == 0);
    assert!(rt; cell.ch == 0);
    assert!(rt; ccsuite_receiver_cell(alloc, &mut receiver, 5, 15, 0, &mut cell) == 1);
    assert!(rt; ccsuite_receiver_cell(alloc, &mut receiver, 1, 271, 0, &mut cell) == 1);
}

#[test]
fn a_receiver_tells_its_screens(rt: HostRuntime) {
    let alloc = rt.alloc();
    let mut receiver = opened(alloc, false);
    let mut out = [0; 20];
    let mut written = 9;
    assert!(rt; ccsuite_receiver_changes(alloc, &mut receiver, &mut out, &mut written) == 0);
    assert!(rt; written == 0);
    let mut changed = ChangedSeen {
        services: 9,
        channels: 9,
        reserved: [9; 3],
    };
    assert!(rt; ccsuite_receiver_changed(alloc, &mut receiver, &mut changed) == 0);
    assert!(rt; changed.services == 0 && changed.channels == 0 && changed.reserved == [0; 3]);
    assert!(rt; ccsuite_receiver_screens(alloc, &mut receiver, &mut out[..7], &mut written) == 3);
    assert!(rt; ccsuite_receiver_screens(alloc, &mut receiver, &mut out, &mut written) == 0);
    assert!(rt; out.starts_with(b"frame 0\n"));
}

const NO_SHADE: Shade = Shade {
    opacity: 9,
    red: 9,
    green: 9,
    blue: 9,
};

const NO_EDGE: Edge = Edge {
    red: 9,
    green: 9,
    blue: 9,
};

const NO_WINDOW: WindowSeen = WindowSeen {
    visible: 9,
    rows: 9,
    columns: 9,
    row_lock: 9,
    column_lock: 9,
    priority: 9,
    anchor: 9,
    relative: 9,
    vertical: 9,
    horizontal: 9,
    justify: 9,
    print: 9,
    scroll: 9,
    wrap: 9,
    effect: 9,
    effect_direction: 9,
    effect_speed: 9,
    border: 9,
    fill: NO_SHADE,
    border_colour: NO_EDGE,
    reserved: [9; 7],
};

const NO_WINDOW_CELL: WindowCell = WindowCell {
    ch: 9,
    size: 9,
    font: 9,
    tag: 9,
    offset: 9,
    italic: 9,
    underline: 9,
    edge: 9,
    foreground: NO_SHADE,
    background: NO_SHADE,
    edge_colour: NO_EDGE,
    reserved: [9; 2],
};

#[test]
fn a_window_is_told_or_that_there_is_none(rt: HostRuntime) {
    let alloc = rt.alloc();
    let mut receiver = opened(alloc, false);
    let mut window = NO_WINDOW;
    let mut cell = NO_WINDOW_CELL;
    assert!(rt; ccsuite_receiver_window(alloc, &mut receiver, 1, 0, &mut window) == 35);
    assert!(rt; ccsuite_receiver_window(alloc, &mut receiver, 64, 0, &mut window) == 1);
    assert!(rt; ccsuite_receiver_window_cell(alloc, &mut receiver, 1, 0, 15, 63, &mut cell) == 35);
    assert!(rt; ccsuite_receiver_window_cell(alloc, &mut receiver, 1, 0, 16, 0, &mut cell) == 1);
    assert!(rt; window.rows == 9 && cell.ch == 9);
}

#[test]
fn all_cells_are_told_or_that_there_is_too_little_room(rt: HostRuntime) {
    let alloc = rt.alloc();
    let mut receiver = opened(alloc, false);
    let mut few = [NO_CELL; 479];
    assert!(rt; ccsuite_receiver_grid(alloc, &mut receiver, 1, &mut few) == 3);
    assert!(rt; few[0].ch == 9);
    let mut cells = [NO_CELL; 481];
    assert!(rt; ccsuite_receiver_grid(alloc, &mut receiver, 5, &mut cells) == 1);
    assert!(rt; cells[0].ch == 9);
    assert!(rt; ccsuite_receiver_grid(alloc, &mut receiver, 4, &mut cells) == 0);
    assert!(rt; cells[0].ch == 0 && cells[479].ch == 0 && cells[480].ch == 9);
    let mut wide = [NO_WINDOW_CELL; 4];
    assert!(rt; ccsuite_receiver_window_grid(alloc, &mut receiver, 1, 0, &mut wide) == 35);
    assert!(rt; ccsuite_receiver_window_grid(alloc, &mut receiver, 0, 0, &mut wide) == 1);
    assert!(rt; wide[0].ch == 9);
    ccsuite_receiver_close(alloc, &mut receiver);
    assert!(rt; ccsuite_receiver_grid(alloc, &mut receiver, 1, &mut cells) == 32);
}

#[test]
fn a_verifier_finds_and_tells(rt: HostRuntime) {
    let alloc = rt.alloc();
    let mut report = unwritten();
    let mut verifier = Handle::closed();
    let mut fed = UNFED;
    assert!(rt; ccsuite_verifier_open(alloc, b"ccsuite,1,30,1\n", &mut verifier, &mut report) == 0);
    assert!(rt; ccsuite_verifier_feed(alloc, &mut verifier, &built(alloc), &mut fed) == 9);
    assert!(rt; ccsuite_verifier_verdict(alloc, &mut verifier, &mut report) == 9);
    assert!(rt; report.why == 44 && report.frame == 0 && report.expected == 5 && report.seen == 4);
    assert!(rt; ccsuite_receiver_finish(alloc, &mut verifier, &mut fed) == 32);
    ccsuite_builder_close(alloc, &mut verifier);
    ccsuite_receiver_close(alloc, &mut verifier);
    assert!(rt; ccsuite_verifier_verdict(alloc, &mut verifier, &mut report) == 9);
    ccsuite_verifier_close(alloc, &mut verifier);
    assert!(rt; ccsuite_verifier_verdict(alloc, &mut verifier, &mut report) == 32);
}
