//! The lines of the rows, read.

/// The calls of a run that fail.
#[derive(Clone, Copy)]
pub enum Calls {
    /// The takes of the input.
    Takes,
    /// The takes of the side file.
    Side,
    /// The puts to the output.
    Puts,
    /// The puts to the error output, of a status line's pieces.
    Line,
}

/// A line of the rows.
#[derive(Clone, Copy)]
pub enum Line<'a> {
    /// A line for readers.
    Remark,
    /// A row of this name begins.
    Row(&'a str),
    /// The bytes that are held become others.
    Held(Change<'a>),
    /// The bytes that are held become the side file.
    Side,
    /// They become the output that is due.
    Due,
    /// The last output is held.
    Hold,
    /// This many of the first bytes of the last output become the output that is due.
    Keep(usize),
    /// Something is set for the next run.
    Next(Choice<'a>),
    /// A run without words.
    RunAlone,
    /// A run of the words of this text, split at this character.
    Run(&'a str, char),
    /// A run of these words, whose output is then held.
    Feed(&'a str),
    /// Parts of the last output.
    Cut(Parts),
    /// The low bytes of the words in each of its parts.
    Low(Parts),
}

/// What becomes of the bytes that are held.
#[derive(Clone, Copy)]
pub enum Change<'a> {
    /// This text and a line feed are added.
    Line(&'a str),
    /// This text is added.
    Text(&'a str),
    /// The bytes of these digits are added so often.
    Hex(usize, &'a str),
    /// The packet of captions of this distribution packet is added.
    Packet(&'a str),
    /// The bytes of these digits are put over those from a place on.
    Set(usize, &'a str),
    /// This many bytes from a place on are taken away.
    Drop(usize, usize),
}

/// What is set for the next run.
#[derive(Clone, Copy)]
pub enum Choice<'a> {
    /// The most bytes that a take gives.
    Piece(usize),
    /// The most bytes that the output takes.
    Room(usize),
    /// The numbers of the calls that fail.
    Failing(Calls, &'a str),
    /// The output isn't printed.
    Silent,
}

/// Parts of an output.
#[derive(Clone, Copy)]
pub struct Parts {
    /// The place of the first part.
    pub at: usize,
    /// How far the next one is from each.
    pub every: usize,
    /// The bytes of each part.
    pub count: usize,
}

/// The line of a text; None if it is no line of the rows.
pub fn read_line(text: &str) -> Option<Line<'_>> {
    if text.is_empty() || text.starts_with('#') {
        return Some(Line::Remark);
    }
    if let Some(words) = text.strip_prefix("run|") {
        return Some(Line::Run(words, '|'));
    }
    match text.split_once(' ') {
        None => read_word(text),
        Some((word, rest)) => read_more(word, rest),
    }
}

/// The line of a change of what is held.
fn held(change: Change<'_>) -> Option<Line<'_>> {
    Some(Line::Held(change))
}

/// The line of something that is set.
fn next(choice: Choice<'_>) -> Option<Line<'_>> {
    Some(Line::Next(choice))
}

/// The line of one word.
fn read_word(word: &str) -> Option<Line<'static>> {
    match word {
        "side" => Some(Line::Side),
        "due" => Some(Line::Due),
        "hold" => Some(Line::Hold),
        "silent" => next(Choice::Silent),
        "run" => Some(Line::RunAlone),
        "line" => held(Change::Line("")),
        _ => None,
    }
}

/// The line of a word and the rest.
fn read_more<'a>(word: &str, rest: &'a str) -> Option<Line<'a>> {
    match word {
        "row" => Some(Line::Row(rest)),
        "line" => held(Change::Line(rest)),
        "text" => held(Change::Text(rest)),
        "hex" => held(Change::Hex(1, rest)),
        "packet" => held(Change::Packet(rest)),
        "run" => Some(Line::Run(rest, ' ')),
        "feed" => Some(Line::Feed(rest)),
        "piece" => next(Choice::Piece(rest.parse().ok()?)),
        "room" => next(Choice::Room(rest.parse().ok()?)),
        "keep" => Some(Line::Keep(rest.parse().ok()?)),
        _ => {
            let (first, rest) = rest.split_once(' ')?;
            read_longer(word, first, rest)
        }
    }
}

/// The line of a word, one more and the rest.
fn read_longer<'a>(word: &str, first: &str, rest: &'a str) -> Option<Line<'a>> {
    match word {
        "times" => held(Change::Hex(first.parse().ok()?, rest)),
        "set" => held(Change::Set(first.parse().ok()?, rest)),
        "drop" => held(Change::Drop(first.parse().ok()?, rest.parse().ok()?)),
        "failing" => next(Choice::Failing(read_calls(first)?, rest)),
        "cut" => Some(Line::Cut(read_parts(first, rest)?)),
        "low" => Some(Line::Low(read_parts(first, rest)?)),
        _ => None,
    }
}

/// Parts: where the first begins, how far each is from the next (0 if there is one alone), and the bytes of each.
fn read_parts(first: &str, rest: &str) -> Option<Parts> {
    let (every, count) = rest.split_once(' ')?;
    let every = match every {
        "0" => usize::MAX,
        _ => every.parse().ok()?,
    };
    Some(Parts {
        at: first.parse().ok()?,
        every,
        count: count.parse().ok()?,
    })
}

/// The calls that a word names.
fn read_calls(word: &str) -> Option<Calls> {
    match word {
        "takes" => Some(Calls::Takes),
        "side" => Some(Calls::Side),
        "puts" => Some(Calls::Puts),
        "line" => Some(Calls::Line),
        _ => None,
    }
}
