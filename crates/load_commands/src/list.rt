ghost use Rattle.std.specs.Prelude.{◌≡◌, ◌≤◌, ◌<◌, ◌+◌, ◌*◌, ◌%◌, IfOk};
ghost use Rattle.load_commands.specs.LoadList.{line21_run, load_cue, load_list, load_shown, load_text, most_load};

use cc_base::Rate;
use cue_types::{Cue, CueList, Head, Kind, Pen, Run, Runs, Share, Text, Version, WinCue};
use line21_codes::{Chan, Colour, Style};
use std::alloc::{AllocError, Global};

/// The most captions of a load.
pub const MOST_LOAD: u32 = 10_000;

/// Frames from one caption's LOAD to the next one's.
const PERIOD: u32 = 90;

/// Letters of a caption.
const LETTERS: u32 = 20;

/// The list of this many captions, 1 to 10,000: in turn pop-on on CC1, in a window of service 1 after a delay of a second, and
/// paint-on on CC3, one every 90 frames. The error comes if memory for it isn't found.
pub fn load_list(alloc: Global, count: u32) -> Result<CueList, AllocError>
    requires some { 1 ≤ count }
    requires most { count ≤ most_load }
    ensures { IfOk result (λ list. list ≡ load_list count) }
{
    let head = Head {
        version: Version::One,
        rate: Rate::F2997,
        frames: PERIOD * count + 120,
    };
    let share = Share {
        service: 1,
        bytes: 31,
    };
    let mut shares = Vec::new(alloc);
    shares.push(share)?;
    Ok(CueList::new(head, shares, load_cues(alloc, count)?))
}

/// The captions of the list.
fn load_cues(alloc: Global, count: u32) -> Result<Vec<Cue>, AllocError>
    requires { count ≤ most_load }
    ensures { IfOk result (λ cues. cues.items ≡ (load_list count).cues) }
{
    let mut cues = Vec::new(alloc);
    for number in 0..count {
        cues.push(load_cue(alloc, number)?)?;
    }
    Ok(cues)
}

/// The caption of a number, counted from 0: it is shown two seconds after its LOAD, for three.
fn load_cue(alloc: Global, number: u32) -> Result<Cue, AllocError>
    requires { number < most_load }
    ensures { IfOk result (λ cue. cue ≡ load_cue number) }
{
    let load = PERIOD * number;
    let mut runs = Vec::new(alloc);
    runs.push(load_run(alloc, number)?)?;
    Ok(Cue {
        load,
        show: load + 60,
        hide: Some(load + 150),
        kind: load_kind(number),
        runs: Runs::from_vec(runs),
    })
}

/// How the caption of a number is shown.
fn load_kind(number: u32) -> Kind
    ensures { result ≡ (load_shown number (number % 3)).0 }
{
    match number % 3 {
        0 => Kind::Pop(Chan::Cc1),
        1 => Kind::Win(WinCue {
            service: 1,
            id: (number % 8) as u8,
            delay: 10,
            anchor: 0,
            av: 60,
            ah: 50,
            rows: 2,
            cols: 32,
            priority: 0,
            ws: 1,
            ps: 1,
            attr: None,
        }),
        _ => Kind::Paint(Chan::Cc3),
    }
}

/// The one run of the caption of a number.
fn load_run(alloc: Global, number: u32) -> Result<Run, AllocError>
    requires { number < most_load }
    ensures { IfOk result (λ run. run ≡ (load_shown number (number % 3)).1) }
{
    let text = load_text(alloc, number)?;
    Ok(match number % 3 {
        0 => line21_run(14, 4, Colour::White, text),
        1 => Run {
            row: 0,
            col: 0,
            pen: Pen::Dtv {
                italic: false,
                underline: false,
            },
            text,
            colors: None,
        },
        _ => line21_run(15, 8, Colour::Yellow, text),
    })
}

/// A run of line 21 in a row, from a column on, in a colour.
fn line21_run(row: u8, col: u8, colour: Colour, text: Text) -> Run
    ensures { result ≡ line21_run row col colour text }
{
    Run {
        row,
        col,
        pen: Pen::Line21(Style {
            colour,
            italic: false,
            underline: false,
        }),
        text,
        colors: None,
    }
}

/// The text of the caption of a number: 20 capital letters.
fn load_text(alloc: Global, number: u32) -> Result<Text, AllocError>
    requires { number < most_load }
    ensures { IfOk result (λ text. text ≡ load_text number) }
{
    let mut letters = Vec::new(alloc);
    for place in 0..LETTERS {
        letters.push(letter(7 * number + 5 * place))?;
    }
    Ok(Text::from_vec(letters))
}

/// The capital letter of a number, as they follow one another for ever: A is the letter of 0, and of 26.
fn letter(number: u32) -> char
    ensures { result ≡ 65 + number % 26 }
{
    char::from(b'A' + (number % 26) as u8)
}
