use mcc_files::MccReader;
use std::process::Abort;

const HEAD: &[u8] = b"File Format=MacCaption_MCC V1.0\nTime Code Rate=30\n";

// Has a reader take bytes.
fn take(rt: &impl Abort, reader: &mut MccReader, bytes: &[u8]) {
    for byte in bytes {
        assert!(rt; reader.take(*byte).is_ok());
    }
}

// The frame, the number of bytes and the length of the packet's line that is read in one go after a head and lines, where another was read
// before.
fn line_behind(
    rt: &impl Abort,
    head: &[u8],
    lines: &[u8],
    bytes: &[u8],
) -> Option<(u32, usize, usize)> {
    let mut reader = MccReader::new();
    take(rt, &mut reader, head);
    take(rt, &mut reader, lines);
    let mut ahead = MccReader::new();
    let another = b"File Format=MacCaption_MCC V2.0\nTime Code Rate=24\n00:00:00:23.1,5\t80010277";
    take(rt, &mut ahead, another);
    let count = ahead.read_line_behind(&reader, bytes)?;
    assert!(rt; ahead.is_at_start());
    Some((ahead.frame(), ahead.bytes().len(), count))
}

#[test]
fn lines_are_read_in_one_go(rt: HostRuntime) {
    const ROWS: &[(&[u8], &[u8], (u32, usize, usize))] = &[
        (b"", b"00:00:00:00\t8001Z81\n", (0, 4, 20)),
        (b"", b"00:00:00:00\t8001Z81\r\n", (0, 4, 21)),
        (b"", b"00:00:00;05\t80010177f9\n", (5, 5, 23)),
        (b"", b"00:00:00:29\tZZZZ\n00:00:00:28\t", (29, 4, 17)),
        (b"", b"00:00:01:00\t8001Z81\n\n", (30, 4, 20)),
        (b"", b"00:00:01:00\t8001Z81\r\n\n", (30, 4, 21)),
        (b"", b"23:59:59:29\tFA00020000FC\nx", (2_591_999, 6, 25)),
        (
            b"",
            b"01:00:00:00\tT49S494F43ZZ72F4QROO74ZZBFAB\n",
            (108_000, 77, 41),
        ),
        (b"// x\n\n", b"00:00:00:07\t8001Z81\n", (7, 4, 20)),
        (
            b"00:00:00:29\t8001Z81 \n",
            b"00:00:00:29\t80010178FA\n",
            (29, 5, 23),
        ),
        (
            b"00:00:00:29\t8001Z81\r\n",
            b"00:00:01:00\t80010178FA\r\n",
            (30, 5, 24),
        ),
    ];
    for &(lines, bytes, line) in ROWS {
        assert!(rt; line_behind(&rt, HEAD, lines, bytes) == Some(line));
    }
    let head = b"File Format=MacCaption_MCC V2.0\nTime Code Rate=60DF\n";
    let found = line_behind(&rt, head, b"", b"00:10:00:00\t8001Z81\n");
    assert!(rt; found == Some((35_964, 4, 20)));
}

// Lines that are blank, comments, attributes, cut or spelled otherwise, lines that offend, and lines that have begun.
#[test]
fn other_lines_are_not_read_in_one_go(rt: HostRuntime) {
    const LINES: &[&[u8]] = &[
        b"",
        b"\n",
        b"\r\n",
        b" \t\n00:00:00:00\t8001Z81\n",
        b"// 00:00:00:00\n",
        b"UUID=1\n",
        b"Creation Program=x\n",
        b"00:00:00:0",
        b"00:00:00:00",
        b"00:00:00:00\t",
        b"00:00:00:00\t\n",
        b"00:00:00:00\t8001Z8",
        b"00:00:00:00\t8001Z81",
        b"00:00:00:00\t8001Z81\r",
        b"00:00:00:00\t8001Z81\rx",
        b"00:00:00:00\t8001Z81 \n",
        b"00:00:00:00\t8001Z81 \r\n",
        b"00:00:00:00 8001Z81\n",
        b"00:00:00:008001Z81\n",
        b"00:00:00:00.0\t8001Z81\n",
        b"00:00:00.00\t8001Z81\n",
        b"0:00:00:00\t8001Z81\n",
        b" 00:00:00:00\t8001Z81\n",
        b"24:00:00:00\t8001Z81\n",
        b"00:00:00:30\t8001Z81\n",
        b"00:00:00:00\t8\n",
        b"00:00:00:00\t80010177\n",
        b"00:00:00:00\t80010177F8\n",
        b"00:00:00:00\t80010178G\n",
        b"00:00:00:00\t80010177F94\n",
        b"00:00:00:00\t80010177F9Z\n",
        b"00:00:00:00\t80010177F9\t\n",
    ];
    const FRONTS: &[(&[u8], &[u8])] = &[
        (HEAD, b"00:00:01:00\t8001Z81\n"),
        (HEAD, b"/"),
        (HEAD, b" "),
        (HEAD, b"0"),
        (HEAD, b"00:00:00:29\t"),
        (HEAD, b"00:00:00:29\t8001Z81\r"),
        (b"", b""),
        (b"File Format=MacCaption_MCC V1.0\n", b""),
        (b"File Format=MacCaption_MCC V2.0\nTime Code Rate=24", b""),
    ];
    for &bytes in LINES {
        assert!(rt; line_behind(&rt, HEAD, b"", bytes).is_none());
    }
    for &(head, lines) in FRONTS {
        let line = b"00:00:00:29\t8001Z81\n";
        assert!(rt; line_behind(&rt, head, lines, line).is_none());
    }
    let head = b"File Format=MacCaption_MCC V2.0\nTime Code Rate=24\n";
    assert!(rt; line_behind(&rt, head, b"", b"00:00:00:01.0,1\t8001Z81\n").is_none());
}
