ghost use Rattle.std.specs.Option.{option_copied};
ghost use Rattle.std.specs.Prelude.{◌≡◌, ◌≤◌, [], ◌∷◌, IfSome, Some, None, if◌then◌else◌, map, not, string_bytes, true};
ghost use Rattle.ccsuite_cli.specs.Command.{IsRunnable, command_of, countings, has_side_file, side_path, start_in, start_of};
ghost use Rattle.cue_lists.specs.Fields.{named, number_within};
ghost use Rattle.fit_commands.specs.Fitted.{most_late};
ghost use Rattle.load_commands.specs.LoadList.{most_load};
ghost use Rattle.time_codes.specs.Countings.{has_drop_frame, is_time_code_in};
ghost use Rattle.time_codes.specs.TimeCodes.{is_time_code};

use cue_lists::read_within;
use fit_commands::MOST_LATE;
use help_commands::{Page, page_of};
use load_commands::MOST_LOAD;
use time_codes::{Counting, TimeCode, frame_of, read_time};

/// What the words of a command line ask for.
#[derive(Clone, Copy, PartialEq, Eq)]
pub enum Command {
    /// `pairs`: the pairs of each frame of a cue list.
    Pairs,
    /// `build`: the ancillary words of each frame of a cue list.
    Build,
    /// `cues`: a cue list as it is written.
    Cues,
    /// `decode`: the changed screens of each frame of a words file.
    Decode,
    /// `show FRAME`: all screens at a frame of a words file.
    Show(u32),
    /// `verify CUES`: whether a words file shows what the cue list of the side file authors.
    Verify,
    /// `insert CUES`: a words file with the captions of the cue list of the side file in place of its own.
    Insert,
    /// `import`, and `import TIME`: the words that carry the pairs of an SCC file, whose frame 0 has this time code, if it is given, and
    /// else that of the first line.
    Import(Option<TimeCode>),
    /// `export TIME`: the SCC file of the field 1 pairs of a words file, whose frame 0 has this time code.
    Export(TimeCode),
    /// `load N`: what comes of a list of this many captions, 1 to 10,000.
    Load(u32),
    /// `dual CUES`: the ancillary words of each frame of a cue list, with the one of the side file beside it on CC2 and CC4.
    Dual,
    /// `xds PACKETS`: the ancillary words of each frame of a cue list, with the packets of the side file in the slots of field 2 that its
    /// captions leave free.
    Xds,
    /// `xds-show`: the packets of extended data that end in each frame of a words file.
    XdsShow,
    /// `conceal`: the changed screens of each frame of a words file from which frames may be missing.
    Conceal,
    /// `convert`: a words file at 29.97 frames a second as one at 59.94.
    Convert,
    /// `import-mcc`: the words of the packets of an MCC file, with frames without captions where some are missing.
    ImportMcc,
    /// `export-mcc RATE TIME`: the MCC file of all packets of a words file, whose time codes count so and whose frame 0 has this one.
    ExportMcc(Counting, TimeCode),
    /// `fit N`: a cue list whose cues are shown as few frames late as they need, at most this many, 0 to 1,000.
    Fit(u32),
    /// `fit N CUES`: a second cue list whose cues are shown as few frames late as they need beside the one of the side file, at most this
    /// many, 0 to 1,000.
    FitBeside(u32),
    /// `help`, and `help COMMAND`: a page of help.
    Help(Page),
    /// `version`: the program's version.
    Version,
}

/// The line for words that are no command.
pub(crate) const USAGE: &[u8] =
    b"usage: ccsuite pairs|build|decode|show FRAME|verify CUES|insert CUES|import [TIME]|export TIME|cues|load N|dual CUES|xds PACKETS|xds-show|conceal|convert|import-mcc|export-mcc RATE TIME|fit N [CUES]|help|version\n";

/// The last frame that `show` can name.
const LAST_FRAME: u64 = 4_294_967_294;

/// The path of the side file that the words after the program's name give: the last argument of a command that reads one, whatever
/// it is; None where the words have no side file.
pub fn side_of(words: &[String]) -> Option<&str>
    ensures { option_copied result ≡ side_path (map string_bytes words.now) }
{
    match words {
        [word, path] => path_for(read_two(word.as_str(), path.as_str()), path.as_str()),
        [word, one, path] => path_for(
            read_three(word.as_str(), one.as_str(), path.as_str()),
            path.as_str(),
        ),
        _ => None,
    }
}

/// The path, if the command reads a side file.
fn path_for(command: Option<Command>, path: &str) -> Option<&str>
    ensures { option_copied result ≡ if has_side_file command then Some path.now else None }
{
    if reads_side_file(command) {
        Some(path)
    } else {
        None
    }
}

/// Whether the command reads a side file.
fn reads_side_file(command: Option<Command>) -> bool
    ensures { result ≡ has_side_file command }
{
    matches!(
        command,
        Some(
            Command::Verify | Command::Insert | Command::Dual | Command::Xds | Command::FitBeside(_)
        )
    )
}

/// The command of the words after the program's name; None where they are no command.
pub fn read_command(words: &[String]) -> Option<Command>
    ensures command { result ≡ command_of (map string_bytes words.now) }
    ensures runnable { IsRunnable result }
{
    match words {
        [word] => read_word(word.as_str()),
        [word, argument] => read_two(word.as_str(), argument.as_str()),
        [word, one, other] => read_three(word.as_str(), one.as_str(), other.as_str()),
        _ => None,
    }
}

/// The command of one word.
fn read_word(word: &str) -> Option<Command>
    ensures command { result ≡ command_of (word.now ∷ []) }
    ensures runnable { IsRunnable result }
{
    match word {
        "pairs" => Some(Command::Pairs),
        "build" => Some(Command::Build),
        "cues" => Some(Command::Cues),
        "decode" => Some(Command::Decode),
        "import" => Some(Command::Import(None)),
        "xds-show" => Some(Command::XdsShow),
        "conceal" => Some(Command::Conceal),
        "convert" => Some(Command::Convert),
        "import-mcc" => Some(Command::ImportMcc),
        "help" | "--help" | "-h" => Some(Command::Help(Page::Commands)),
        "version" | "--version" => Some(Command::Version),
        _ => None,
    }
}

/// The command of a word and its argument: `show` with the number of a frame, `verify`, `insert`, `dual` and `xds` with the path of a
/// side file, whatever it is, `import` and `export` with a time code, `load` with the number of captions, `fit` with a number of frames, `help`
/// with the word of a command.
fn read_two(word: &str, argument: &str) -> Option<Command>
    ensures command { result ≡ command_of (word.now ∷ argument.now ∷ []) }
    ensures runnable { IsRunnable result }
{
    match word {
        "show" => read_frame(argument).map(Command::Show),
        "verify" => Some(Command::Verify),
        "insert" => Some(Command::Insert),
        "dual" => Some(Command::Dual),
        "xds" => Some(Command::Xds),
        "import" => match read_start(argument) {
            Some(time) => Some(Command::Import(Some(time))),
            None => None,
        },
        "export" => match read_start(argument) {
            Some(time) => Some(Command::Export(time)),
            None => None,
        },
        "load" => match read_count(argument) {
            Some(count) => Some(Command::Load(count)),
            None => None,
        },
        "fit" => match read_late(argument) {
            Some(late) => Some(Command::Fit(late)),
            None => None,
        },
        "help" => page_of(argument).map(Command::Help),
        _ => None,
    }
}

/// The command of a word and its two arguments: `export-mcc` with a rate and a time code that exists at it, `fit` with a number of frames
/// and the path of a side file, whatever it is.
fn read_three(word: &str, one: &str, other: &str) -> Option<Command>
    ensures command { result ≡ command_of (word.now ∷ one.now ∷ other.now ∷ []) }
    ensures runnable { IsRunnable result }
{
    match word {
        "export-mcc" => match read_rate(one) {
            Some(count) => match read_start_in(count, other) {
                Some(time) => Some(Command::ExportMcc(count, time)),
                None => None,
            },
            None => None,
        },
        "fit" => match read_late(one) {
            Some(late) => Some(Command::FitBeside(late)),
            None => None,
        },
        _ => None,
    }
}

/// How time codes of a rate count, by its text.
fn read_rate(text: &str) -> Option<Counting>
    ensures { result ≡ named countings text.now }
{
    match text {
        "24" => Some(Counting::F24),
        "25" => Some(Counting::F25),
        "30" => Some(Counting::F30),
        "30DF" => Some(Counting::F30Drop),
        "50" => Some(Counting::F50),
        "60" => Some(Counting::F60),
        "60DF" => Some(Counting::F60Drop),
        _ => None,
    }
}

/// The time code of a text, `HH:MM:SS:FF` or `HH:MM:SS;FF` exactly where the count has drop frame, if a frame of the day has it.
fn read_start_in(count: Counting, text: &str) -> Option<TimeCode>
    ensures time { result ≡ start_in count text.now }
    ensures of_day { IfSome result (λ time. is_time_code_in count time ≡ true) }
{
    let time = read_time(text)?;
    if count.has(time) && is_marked(count, time) {
        Some(time)
    } else {
        None
    }
}

/// Whether a time code has the mark of drop frame exactly where the count has drop frame.
fn is_marked(count: Counting, time: TimeCode) -> bool
    ensures { result ≡ (if has_drop_frame count then time.drop_frame else not time.drop_frame) }
{
    if count.has_drop_frame() {
        time.drop_frame
    } else {
        !time.drop_frame
    }
}

/// The time code of a text, `HH:MM:SS:FF` or `HH:MM:SS;FF` for drop frame, if a frame of the day has it.
fn read_start(text: &str) -> Option<TimeCode>
    ensures time { result ≡ start_of text.now }
    ensures of_day { IfSome result (λ time. is_time_code time ≡ true) }
{
    let time = read_time(text)?;
    match frame_of(time) {
        Ok(_) => Some(time),
        Err(_) => None,
    }
}

/// The number of a frame, written as in cue lists: 1 to 10 digits without a sign and without a leading zero.
fn read_frame(number: &str) -> Option<u32>
    ensures { result ≡ number_within 0 4294967294 number.now }
{
    match read_within(0, LAST_FRAME, number.as_bytes()) {
        Some(frame) => Some(frame as u32),
        None => None,
    }
}

/// The number of captions of a load, written as in cue lists, 1 to 10,000.
fn read_count(number: &str) -> Option<u32>
    ensures count { result ≡ number_within 1 most_load number.now }
    ensures within { IfSome result (λ count. (1 ≤ count) × (count ≤ most_load)) }
{
    match read_within(1, u64::from(MOST_LOAD), number.as_bytes()) {
        Some(count) => Some(count as u32),
        None => None,
    }
}

/// The number of frames that `fit` may show a cue late, written as in cue lists, 0 to 1,000.
fn read_late(number: &str) -> Option<u32>
    ensures late { result ≡ number_within 0 most_late number.now }
    ensures within { IfSome result (λ late. late ≤ most_late) }
{
    match read_within(0, u64::from(MOST_LATE), number.as_bytes()) {
        Some(late) => Some(late as u32),
        None => None,
    }
}
