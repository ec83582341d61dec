//! What receivers of both fields show of the lines that `pairs` prints, beside screens that are written out by hand.

ghost use Rattle.std.specs.Prelude.{◌≤◌};

use crate::given::given_of;
use line21_codes::{Cell, Colour, Pair, Style};
use line21_screen::Field;
use memory_runs::{Status, run_to_end};
use std::alloc::Global;
use std::num::ParseIntError;
use std::str;
use std::test::Fail;

/// White without italics and underline.
const WHITE: Style = Style {
    colour: Colour::White,
    italic: false,
    underline: false,
};

/// The rows of a screen, 1 to 15, that have cells, each with its 32 columns: `_`, which is no character of line 21, stands
/// where no cell is.
type Screen = &'static [(u8, &'static str)];

/// A row without a cell.
const EMPTY_ROW: &str = "________________________________";

/// A cue list of one channel, and what is to be seen of it.
#[derive(Clone, Copy)]
struct Seen {
    list: &'static str,
    /// Whether the channel is CC3, and not CC1.
    third: bool,
    /// Frames at which nothing is on the screen.
    blank: &'static [usize],
    /// Frames at which the caption is.
    shown: &'static [usize],
    /// The screen with the caption.
    screen: Screen,
}

/// A pair of four hex digits.
fn pair_of(digits: &str) -> Result<Pair, ParseIntError> {
    let [a, b] = u16::from_str_radix(digits, 16)?.to_be_bytes();
    Ok(Pair { a, b })
}

/// The receivers of field 1 and field 2 after the lines up to a frame's.
fn receivers_at(alloc: Global, lines: &str, frame: usize) -> Result<[Field; 2], Fail> {
    let mut one = Field::new(alloc, false)?;
    let mut two = Field::new(alloc, true)?;
    let mut rest = lines.lines();
    for _ in 0..=frame {
        let line = rest.next().ok_or("a frame without a line")?;
        let (first, second) = line.split_once(' ').ok_or("a line of one field")?;
        one.apply(pair_of(first)?);
        two.apply(pair_of(second)?);
    }
    Ok([one, two])
}

/// The columns of a row.
fn columns_of(screen: Screen, row: u8) -> &'static str {
    for (at, columns) in screen {
        if *at == row {
            return columns;
        }
    }
    EMPTY_ROW
}

/// The white cell of a column.
fn cell_at(columns: &str, col: u8) -> Option<Cell> {
    match columns.chars().nth(usize::from(col)) {
        None | Some('_') => None,
        Some(ch) => Some(Cell { ch, style: WHITE }),
    }
}

/// Whether a data channel displays these columns in a row.
fn displays_row(field: &Field, second_channel: bool, row: u8, columns: &str) -> bool
    requires from { 1 ≤ row }
    requires to { row ≤ 15 }
{
    for col in 0..32u8 {
        if field.cell(second_channel, row, col) != cell_at(columns, col) {
            return false;
        }
    }
    true
}

/// Whether a data channel displays just this screen.
fn displays(field: &Field, second_channel: bool, screen: Screen) -> bool {
    for row in 1..16u8 {
        if !displays_row(field, second_channel, row, columns_of(screen, row)) {
            return false;
        }
    }
    true
}

/// The first of some frames at which the channel doesn't display the screen, or another one displays anything.
fn first_other(
    alloc: Global,
    lines: &str,
    frames: &[usize],
    third: bool,
    screen: Screen,
) -> Result<Option<usize>, Fail> {
    let nothing: Screen = &[];
    let (of_one, of_three) = if third {
        (nothing, screen)
    } else {
        (screen, nothing)
    };
    for frame in frames {
        let [one, two] = &receivers_at(alloc, lines, *frame)?;
        if !(displays(one, false, of_one)
            && displays(one, true, nothing)
            && displays(two, false, of_three)
            && displays(two, true, nothing))
        {
            return Ok(Some(*frame));
        }
    }
    Ok(None)
}

/// The first frame of a list at which something else is to be seen.
fn first_wrong(alloc: Global, seen: Seen) -> Result<Option<usize>, Fail> {
    let printed = run_to_end(alloc, given_of(&["pairs"], seen.list.as_bytes()))?;
    if printed.status != Status::Ok {
        return Err(Fail::from("a list that is refused"));
    }
    let lines = str::from_utf8(printed.out.bytes())?;
    match first_other(alloc, lines, seen.blank, seen.third, &[])? {
        None => first_other(alloc, lines, seen.shown, seen.third, seen.screen),
        wrong => Ok(wrong),
    }
}

/// Five lines that roll up on CC3: each has roll-up captions of 3 rows, carriage return, the preamble of row 15 and its text.
const FIVE_LINES: &str = "ccsuite,1,29.97,70
roll,CC3,3,0,7,
run,15,0,white,A1
roll,CC3,3,10,17,
run,15,0,white,A2
roll,CC3,3,20,27,
run,15,0,white,A3
roll,CC3,3,30,37,
run,15,0,white,A4
roll,CC3,3,40,47,60
run,15,0,white,A5
";

/// Captions in each kind of row, from several columns on, of one character and of a whole row; a list without a caption; and
/// three of five lines that roll up.
const ALL_SEEN: [Seen; 10] = [
    Seen {
        list: "ccsuite,1,29.97,30\npop,CC1,0,7,20\nrun,15,0,white,HI\n",
        third: false,
        blank: &[0, 6, 20, 29],
        shown: &[7, 8, 19],
        screen: &[(15, "HI______________________________")],
    },
    Seen {
        list: "ccsuite,1,30,12\npop,CC1,1,8,10\nrun,1,0,white,HI\n",
        third: false,
        blank: &[0, 1, 7, 10, 11],
        shown: &[8, 9],
        screen: &[(1, "HI______________________________")],
    },
    Seen {
        list: "ccsuite,1,30,15\npop,CC3,2,11,13\nrun,1,3,white,X\n",
        third: true,
        blank: &[0, 10, 13, 14],
        shown: &[11, 12],
        screen: &[(1, "___X____________________________")],
    },
    Seen {
        list: "ccsuite,1,30,30\npop,CC1,0,7,20\nrun,8,4,white,X\n",
        third: false,
        blank: &[0, 6, 20, 29],
        shown: &[7, 19],
        screen: &[(8, "____X___________________________")],
    },
    Seen {
        list: "ccsuite,1,29.97,40\npop,CC1,0,9,30\nrun,11,31,white,X\n",
        third: false,
        blank: &[8, 30, 39],
        shown: &[9, 29],
        screen: &[(11, "_______________________________X")],
    },
    Seen {
        list: "ccsuite,1,29.97,100\npop,CC1,3,27,90\nrun,8,1,white,ABCDEFGHIJKLMNOPQRSTUVWXYZ01234\n",
        third: false,
        blank: &[3, 26, 90, 99],
        shown: &[27, 89],
        screen: &[(8, "_ABCDEFGHIJKLMNOPQRSTUVWXYZ01234")],
    },
    Seen {
        list: "ccsuite,1,29.97,100\npop,CC1,3,25,90\nrun,1,0,white,WHAT IS AUTHORED IS WHAT IS SEEN\n",
        third: false,
        blank: &[3, 24, 90, 99],
        shown: &[25, 89],
        screen: &[(1, "WHAT IS AUTHORED IS WHAT IS SEEN")],
    },
    Seen {
        list: "ccsuite,1,29.97,30\npop,CC1,0,8,20\nrun,15,4,white,á ñ█\n",
        third: false,
        blank: &[7, 20, 29],
        shown: &[8, 19],
        screen: &[(15, "____á ñ█________________________")],
    },
    Seen {
        list: "ccsuite,1,30,3\n",
        third: false,
        blank: &[0, 1, 2],
        shown: &[],
        screen: &[],
    },
    Seen {
        list: FIVE_LINES,
        third: true,
        blank: &[60, 69],
        shown: &[47, 59],
        screen: &[
            (13, "A3______________________________"),
            (14, "A4______________________________"),
            (15, "A5______________________________"),
        ],
    },
];

#[test]
fn captions_stand_in_their_places_from_show_up_to_hide(rt: HostRuntime) -> Result<(), Fail> {
    for seen in ALL_SEEN {
        assert!(rt; first_wrong(rt.alloc(), seen)?.is_none());
    }
    Ok(())
}
