//! The texts of help, a page for all commands and one for each.

/// The page on all commands.
pub const COMMANDS_PAGE: &[u8] = b"\
ccsuite authors broadcast captions, and shows what a viewer sees of them.

usage: ccsuite COMMAND [ARGUMENT ..] < INPUT > OUTPUT

author
  build                 the words of a cue list, an ancillary packet a frame
  pairs                 its byte pairs, a line a frame
  cues                  the list itself, as it is written
  fit N [CUES]          a list, its cues shown as few frames late as they need
  dual CUES             the words of two lists, the second on CC2 and CC4
  xds PACKETS           the words of a list with packets of extended data
look
  decode                the screens of words, at each frame that changes them
  show FRAME            the screens of words at one frame
  conceal               the same of words from which frames may be missing
  xds-show              the packets of extended data in words
check
  verify CUES           ok, or the first frame at which words differ from a list
  insert CUES           words with a list's captions in place of their own
files
  import [TIME]         the words of an SCC file
  export TIME           the SCC file of words
  import-mcc            the words of an MCC file
  export-mcc RATE TIME  the MCC file of words
more
  convert               words at 29.97 frames a second as words at 59.94
  load N                what comes of a list of N captions
  help [COMMAND]        this page, or one on a command
  version               the version of this program

examples
  ccsuite build < list.csv > list.words
  ccsuite decode < list.words
  ccsuite verify list.csv < list.words

The manual is `man ccsuite`; `ccsuite help COMMAND` has a page on each command.
";

/// The page on `build`.
pub const BUILD_PAGE: &[u8] = b"\
ccsuite build < LIST.csv > LIST.words

reads:  a cue list
writes: its words file, an ancillary packet of captions for each frame, in
  which each code and each command stands in the earliest frame in which it can
status: 5 limit, 6 malformed, 7 rule, 8 no room; 2 read fault, 3 write fault,
  4 out of memory. A list that is refused leaves the output empty.

example:
  ccsuite build < examples/hello.csv > hello.words
";

/// The page on `pairs`.
pub const PAIRS_PAGE: &[u8] = b"\
ccsuite pairs < LIST.csv

reads:  a cue list
writes: a line a frame, the byte pair of field 1 and that of field 2, four hex
  digits each; ---- where the frame has no slot of the field
status: 5 limit, 6 malformed, 7 rule, 8 no room; 2 read fault, 3 write fault,
  4 out of memory

example:
  ccsuite pairs < examples/hello.csv
";

/// The page on `cues`.
pub const CUES_PAGE: &[u8] = b"\
ccsuite cues < LIST.csv > AGAIN.csv

reads:  a cue list
writes: the list in version 2, a record a line. Its form and its rules are
  tried, and not whether its cues have room
status: 5 limit, 6 malformed, 7 rule; 2 read fault, 3 write fault, 4 out of
  memory

example:
  ccsuite cues < examples/hello.csv
";

/// The page on `fit`.
pub const FIT_PAGE: &[u8] = b"\
ccsuite fit N [CUES] < LIST.csv > FITTED.csv

reads:  a cue list; with CUES first the cue list in that file, beside which the
  input is to stand on CC2 and CC4
takes:  N, 0 to 1000: the most frames that a cue may be shown late
writes: the list as cues writes it, with each cue that has no room shown as few
  frames later as it needs; a caption back to back with it is hidden then
status: 5 limit, 6 malformed, 7 rule, each of CUES if that is at fault; 8 no
  room: the first cue for which none of the N frames after its SHOW will do;
  11 no room in CUES; 2 read fault, 3 write fault, 4 out of memory

examples:
  ccsuite fit 45 < list.csv > fitted.csv
  ccsuite fit 45 english.csv < spanish.csv > beside.csv
";

/// The page on `dual`.
pub const DUAL_PAGE: &[u8] = b"\
ccsuite dual CUES < LIST.csv > BOTH.words

reads:  the cue list in the file CUES, which is judged first, then the input, a
  first cue list of the same rate and number of frames
writes: the words of both, the first on CC1, CC3 and services, CUES on CC2 and
  CC4, where CC1 stands for CC2 and CC3 for CC4
status: 5 limit, 6 malformed, 7 rule, each of CUES if that is at fault, else of
  the input; `ccsuite cues < FILE` says which. 8 no room in the
  input, 11 no room in CUES; 2 read fault, also of a CUES that isn't there,
  3 write fault, 4 out of memory

example:
  ccsuite dual examples/spanish.csv < examples/english.csv > both.words
";

/// The page on `xds`.
pub const XDS_PAGE: &[u8] = b"\
ccsuite xds PACKETS < LIST.csv > DATA.words

reads:  the list of packets in the file PACKETS, which is judged first, then the
  input, a cue list
writes: the words of the cue list, with the packets in the slots of field 2 that
  its captions leave free, in order, each from its frame on
status: 5 limit and 6 malformed, each of PACKETS if that is at fault, else of
  the input; 7 rule, 8 no room for a cue, 12 no room for a packet; 2 read fault,
  also of a file that isn't there, 3 write fault, 4 out of memory

example:
  ccsuite xds examples/packets.csv < examples/programme.csv > data.words
";

/// The page on `decode`.
pub const DECODE_PAGE: &[u8] = b"\
ccsuite decode < LIST.words

reads:  a words file
writes: at each frame at which something else is seen the line `frame F`, each
  screen and each window that differs; at the end `frames N`
status: 6 malformed, with the byte of the first word that no file goes on with;
  2 read fault, 3 write fault, 4 out of memory. What was read before stays.

example:
  ccsuite build < examples/hello.csv | ccsuite decode
";

/// The page on `show`.
pub const SHOW_PAGE: &[u8] = b"\
ccsuite show FRAME < LIST.words

reads:  a words file
takes:  FRAME, counted from 0
writes: the line `frame F`, and each screen and window that is seen there
status: 6 malformed, 10 short, where the words have fewer frames; 2 read fault,
  3 write fault, 4 out of memory

example:
  ccsuite build < examples/hello.csv | ccsuite show 7
";

/// The page on `conceal`.
pub const CONCEAL_PAGE: &[u8] = b"\
ccsuite conceal < LIST.words

reads:  a words file from which frames may be missing
writes: what decode writes, and before a frame `lost N before F` where N frames
  are missing right before it: there all screens and windows are reset
status: 6 malformed; 2 read fault, 3 write fault, 4 out of memory

example:
  ccsuite conceal < received.words
";

/// The page on `xds-show`.
pub const XDS_SHOW_PAGE: &[u8] = b"\
ccsuite xds-show < LIST.words

reads:  a words file
writes: a line for each packet of extended data that ends in a frame: its frame,
  class, type and text; at the end `frames N`
status: 6 malformed; 2 read fault, 3 write fault, 4 out of memory

example:
  ccsuite xds-show < data.words
";

/// The page on `verify`.
pub const VERIFY_PAGE: &[u8] = b"\
ccsuite verify CUES < LIST.words

reads:  the cue list in the file CUES, which is judged first, then the input, a
  words file
writes: `ok` where the words show what the list says at every frame
status: 9 differs, with the first frame that does. 5 limit and 7 rule are of
  CUES, and so is 6 malformed with a record: `ccsuite cues < CUES` says so;
  6 malformed at a byte is of the words. 10 short; 2 read fault, also of a CUES
  that isn't there, 3 write fault, 4 out of memory

example:
  ccsuite verify examples/hello.csv < hello.words
";

/// The page on `insert`.
pub const INSERT_PAGE: &[u8] = b"\
ccsuite insert CUES < LIST.words > NEW.words

reads:  the cue list in the file CUES, which is judged first, then the input, a
  words file
writes: the words with the captions of the list in place of those that they
  had; all else of the words stays as it is
status: 5 limit, 7 rule and 8 no room are of CUES, and so is 6 malformed with a
  record: `ccsuite cues < CUES` says so; 6 malformed at a byte is of the
  words. 9 differs; 2 read fault, also of a CUES that isn't there, 3 write
  fault, 4 out of memory

example:
  ccsuite insert examples/hello.csv < hello.words > again.words
";

/// The page on `import`.
pub const IMPORT_PAGE: &[u8] = b"\
ccsuite import [TIME] < CITY.scc > CITY.words

reads:  an SCC file
takes:  TIME, the time code of frame 0, with a semicolon where the file's have
  it; without it frame 0 is that of the first time code
writes: its pairs as words at 29.97 frames a second
status: 5 limit, 6 malformed; 2 read fault, 3 write fault, 4 out of memory

example:
  ccsuite import '01:00:00;00' < examples/city.scc > city.words
";

/// The page on `export`.
pub const EXPORT_PAGE: &[u8] = b"\
ccsuite export TIME < CITY.words > CITY.scc

reads:  a words file at 29.97 frames a second
takes:  TIME, the time code of frame 0: HH:MM:SS:FF, or HH:MM:SS;FF with drop
  frame
writes: the pairs of field 1 as an SCC file
status: 5 limit, 6 malformed, 9 differs; 2 read fault, 3 write fault, 4 out of
  memory

example:
  ccsuite export '01:00:02;10' < city.words
";

/// The page on `import-mcc`.
pub const IMPORT_MCC_PAGE: &[u8] = b"\
ccsuite import-mcc < CITY.mcc > CITY.words

reads:  an MCC file
writes: the words of its packets, with frames without captions where some are
  missing
status: 5 limit, 6 malformed; 2 read fault, 3 write fault, 4 out of memory

example:
  ccsuite import-mcc < city.mcc > again.words
";

/// The page on `export-mcc`.
pub const EXPORT_MCC_PAGE: &[u8] = b"\
ccsuite export-mcc RATE TIME < CITY.words > CITY.mcc

reads:  a words file
takes:  RATE, 24, 25, 30, 30DF, 50, 60 or 60DF, as time codes count; TIME, the
  time code of frame 0, with a semicolon where RATE has DF
writes: all packets of the words as an MCC file
status: 5 limit, 6 malformed; 2 read fault, 3 write fault, 4 out of memory

example:
  ccsuite export-mcc 30DF '01:00:02;10' < city.words > city.mcc
";

/// The page on `convert`.
pub const CONVERT_PAGE: &[u8] = b"\
ccsuite convert < LIST.words > TWICE.words

reads:  a words file at 29.97 frames a second
writes: one at 59.94 that shows the same, two frames for each
status: 6 malformed, 13 misfit, with the first frame that can't be converted; 2
  read fault, 3 write fault, 4 out of memory

example:
  ccsuite convert < hello.words > twice.words
";

/// The page on `load`.
pub const LOAD_PAGE: &[u8] = b"\
ccsuite load N

reads:  nothing
takes:  N, 1 to 10000
writes: the numbers of captions, of frames, of bytes of words and of frames that
  change the screens, of a list of N captions that is sent and received
status: 3 write fault, 4 out of memory

example:
  ccsuite load 300
";

/// The page on `help`.
pub const HELP_PAGE: &[u8] = b"\
ccsuite help [COMMAND]

reads:  nothing
writes: a page on all commands, or on one; `--help` and `-h` are `help`
status: 3 write fault

example:
  ccsuite help build
";

/// The page on `version`.
pub const VERSION_PAGE: &[u8] = b"\
ccsuite version

reads:  nothing
writes: the program's name and its version; `--version` is `version`
status: 3 write fault

example:
  ccsuite version
";

/// What `version` puts.
pub const VERSION_LINE: &[u8] = b"\
ccsuite 1.0
";
