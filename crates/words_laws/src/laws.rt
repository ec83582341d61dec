//! Laws of the words that commands put: functions that do nothing, with the laws as their contracts.
ghost use Rattle.words_laws.specs.Converted.{BuiltWordsAreFit};
ghost use Rattle.words_laws.specs.Seen.{BuiltWordsAreSeen, DualWordsAreSeen, InsertedWordsAreSeen, XdsWordsAreSeen};
ghost use Rattle.words_laws.specs.SeenAgain.{AllFramesAreBuilt, BuiltWordsAreSeenAgain, DeliveredIsConcealed, DeliveredIsUnrefused};
ghost use Rattle.words_laws.specs.Earlier.{EarlierWordsStay};
ghost use Rattle.words_laws.specs.Verified.{BuiltWordsAreVerified, XdsWordsAreVerified};

/// The law that what is authored is what is seen. A receiver that was fed any front of the words that `build` puts of an accepted
/// cue list, cut anywhere, shows the authored grids of the last frame that it counts, wherever that is settled. It shows the
/// authored windows of each service, and no service's buffer was filled.
pub fn built_words_are_seen()
    ensures { BuiltWordsAreSeen }
{}

/// The law that so it is seen beside packets of extended data. Let a receiver be fed any front, cut anywhere, of the words that `xds` puts
/// of an accepted cue list with good packets beside whose captions they have room. It shows what is authored at the last frame that it
/// counts; and no service's buffer was filled.
pub fn xds_words_are_seen()
    ensures { XdsWordsAreSeen }
{}

/// The law that so it is seen where it is inserted. Let a receiver be fed any front, cut anywhere, of what `insert` puts of a words
/// file with the captions of an accepted cue list. Let the file's frames have the list's rate and be as many as it has, at least.
/// The receiver shows what is authored at the last frame that it counts, after the list's end too; and no service's buffer was
/// filled.
pub fn inserted_words_are_seen()
    ensures { InsertedWordsAreSeen }
{}

/// The law that so are two lists. Let a receiver be fed any front, cut anywhere, of what `dual` puts of lists that are accepted together.
/// At the last frame that it counts it shows the authored grids of the first list on CC1 and CC3, and of the second on CC2 and CC4. It
/// shows each where the frame is settled for the channel by its own list, and of each service the first list's windows; and no service's
/// buffer was filled.
pub fn dual_words_are_seen()
    ensures { DualWordsAreSeen }
{}

/// The law that what is authored is seen again where a line loses whole frames of the words that `build` puts of an accepted cue list, fewer
/// than 65,536 in a row. A concealing receiver that was fed any front of the words of those that came, cut anywhere, has refused none of
/// them. At the last frame that it counts it shows what is authored on each channel and in each service that is in step there. The words of
/// all frames are those that `build` puts.
pub fn built_words_are_seen_again()
    ensures whole { AllFramesAreBuilt }
    ensures unrefused { DeliveredIsUnrefused }
    ensures seen { BuiltWordsAreSeenAgain }
{}

/// The law of `conceal` on words of whatever frames of an accepted cue list came, in order and with fewer than 65,536 missing in a row. It
/// answers Ok, or Memory, where neither count of faults rose. For Ok it put the changes of the screens and windows that a concealing
/// receiver shows of these frames, with the lines of the missing ones.
pub fn delivered_words_are_concealed()
    ensures { DeliveredIsConcealed }
{}

/// The law that the words that `build` puts of an accepted cue list are verified against that list: a words file within the limit,
/// with the list's frames, at none of which anything is found.
pub fn built_words_are_verified()
    ensures { BuiltWordsAreVerified }
{}

/// The law of the words that `build` puts of an accepted cue list at 29.97, whose delays have at most 166 tenths. They are a words file
/// within the limit, none of whose frames has a misfit. So `convert` ends with Ok or Memory, where no count of faults rose.
pub fn built_words_are_fit()
    ensures { BuiltWordsAreFit }
{}

/// The law that so are the words that `xds` puts of one with good packets beside whose captions they have room.
pub fn xds_words_are_verified()
    ensures { XdsWordsAreVerified }
{}

/// The law that no frame knows a cue that is loaded later. Take an accepted cue list, and one that has further cues at its end. What
/// `build` puts of both begins with the same words, as far as both have frames: the words of all frames before the least LOAD of the
/// further cues.
pub fn earlier_words_stay()
    ensures { EarlierWordsStay }
{}
