ghost use Rattle.std.specs.Prelude.{None};

use cc_base::{Resume, Upward, Why};
use dtvcc_codes::Command::{self, Cw, Df, Dlc, Dly, Etx, Put, Rst, Skipped, Spa, Spl};
use dtvcc_codes::{CommandReader, Definition, PenAttr, write_command};
use std::alloc::Global;

// The commands that were handed upward.
#[derive(Drop)]
struct Seen {
    commands: Vec<Command>,
}

impl Upward<Command> for Seen {
    ghost Took = { λ handed seen. Unit {0} };

    ghost verdict = { λ handed command. None };

    fn part(&mut self, part: Command) -> Result<(), Why> {
        let _ = self.commands.push(part);
        Ok(())
    }
}

// What a new reader makes of these bytes, in two pieces.
fn cut(alloc: Global, first: &[u8], second: &[u8]) -> Vec<Command> {
    let mut reader = CommandReader::new();
    let mut seen = Seen {
        commands: Vec::new(alloc),
    };
    let _first = reader.feed(first, &mut seen);
    let _second = reader.feed(second, &mut seen);
    let Seen { commands } = seen;
    commands
}

const PLAIN: PenAttr = PenAttr {
    size: 1,
    font: 0,
    tag: 0,
    offset: 1,
    italic: false,
    underline: false,
    edge: 0,
};

const DF0: Definition = Definition {
    id: 0,
    visible: false,
    row_lock: true,
    col_lock: true,
    priority: 0,
    relative: false,
    av: 60,
    ah: 50,
    anchor: 0,
    rows: 1,
    cols: 10,
    ws: 1,
    ps: 1,
};

const DF7: Definition = Definition {
    id: 7,
    visible: true,
    row_lock: false,
    col_lock: true,
    priority: 5,
    relative: true,
    av: 99,
    ah: 209,
    anchor: 8,
    rows: 16,
    cols: 64,
    ws: 7,
    ps: 6,
};

// What the bytes of the test below are cut into.
const CUT: [Command; 12] = [
    Etx,
    Put(Some('A')),
    Put(Some('_')),
    Put(Some('C')),
    Put(Some('…')),
    Put(None),
    Dly(0x8E),
    Df(DF0),
    Skipped,
    Put(Some('_')),
    Skipped,
    Rst,
];

#[test]
fn commands_are_read_in_any_two_pieces(rt: HostRuntime) {
    // the last command isn't whole
    let bytes: &[u8] = &[
        0x03, 0x41, 0x18, 0x41, 0x42, 0x43, 0x10, 0x25, 0x10, 0x20, 0x8D, 0x8E, 0x98, 0x18, 0x3C,
        0x32, 0x00, 0x09, 0x09, 0x10, 0x9F, 0xE4, 0x01, 0x02, 0x03, 0x04, 0x10, 0xA0, 0x19, 0x8F,
        0x8F, 0x8F, 0x97, 0x00, 0xC0, 0x64,
    ];
    for at in 0..bytes.len() + 1 {
        let commands = cut(rt.alloc(), &bytes[..at], &bytes[at..]);
        assert!(rt; commands.as_slice() == CUT.as_slice(), "at {at}");
    }
}

#[test]
#[tactic(auto, unfolding(dtvcc_codes::specs::CharacterSpellings::dtvcc_spelling))]
fn commands_are_written_without_bits_that_have_no_meaning(rt: HostRuntime) {
    assert!(rt;
        write_command(&Put(None)).as_slice() == &[0x10, 0x20][..]
            && write_command(&Put(Some('_'))).as_slice() == &[0x5F][..]
            && write_command(&Put(Some('™'))).as_slice() == &[0x10, 0x39][..]
            && write_command(&Cw(7)).as_slice() == &[0x87][..]
            && write_command(&Dly(5)).as_slice() == &[0x8D, 0x05][..]
            && write_command(&Dlc).as_slice() == &[0x8E][..]
            && write_command(&Spa(PLAIN)).as_slice() == &[0x90, 0x05, 0x00][..]
    );
    let location = Spl { row: 11, col: 41 };
    assert!(rt; write_command(&location).as_slice() == &[0x92, 0x0B, 0x29][..]);
    let definition = [0x98, 0x18, 0x3C, 0x32, 0x00, 0x09, 0x09];
    assert!(rt; write_command(&Df(DF0)).as_slice() == &definition[..]);
    let last = [0x9F, 0x2D, 0xE3, 0xD1, 0x8F, 0x3F, 0x3E];
    assert!(rt; write_command(&Df(DF7)).as_slice() == &last[..]);
}
