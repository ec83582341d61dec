//! Laws of the definitions: functions without a body, whose contract is the law.

ghost use Rattle.std.specs.Prelude.{◌≡◌, ◌⊎◌, ◌+◌, ◌*◌, ◌%◌, ◌^◌, ◌<◌, ℕ, List, [], ◌∷◌, ◌++◌, All, None, Some, length, map, reverse};
ghost use Rattle.cc_base.specs.declared.refusal.Refusal.{Refusal as Refused};
ghost use Rattle.cc_base.specs.declared.why.Why.{Why as Reason};
ghost use Rattle.cc_base.specs.declared.why.Why.TheVariants as why;
ghost use Rattle.cc_base.specs.Feeding.{Verdict};
ghost use Rattle.cc_base.specs.Steps.{AreAccepted};
ghost use Rattle.cc_base.specs.Syntax.{AllRead, open_behind};
ghost use Rattle.anc_words.specs.Reading.{anc_syntax, nothing_open};
ghost use Rattle.cdp_packets.specs.declared.parts.CdpPart.{CdpPart as Part};
ghost use Rattle.cdp_packets.specs.PacketParts.{packet_parts};
ghost use Rattle.cdp_packets.specs.Packets.{Frame};
ghost use Rattle.words_files.specs.Catching.{caught_in, never, reason_of, refusal_of};
ghost use Rattle.words_files.specs.Frames.{IsFileOf};
ghost use Rattle.words_files.specs.FramesOf.{AreFramesOf};
ghost use Rattle.words_files.specs.Offences.{AreWholeWords, Begins, FirstOffendingWord, IsCutShort, IsFileUnder, IsUnoffending};
ghost use Rattle.words_files.specs.Reasons.{AreOpenBehind, HasReason, OffendsFor};
ghost use Rattle.words_files.specs.Verdicts.{RefusesNone, TakesFilling, layers_of};

/// The bytes of a words file are a file of one list of frames alone.
pub fn files_have_one_list_of_frames()
    ensures { (frames others : List Frame) (bytes : List ℕ) → IsFileOf frames bytes
        → IsFileOf others bytes
        → frames ≡ others }
{}

/// A file after a file is a file, of the frames of both.
pub fn files_are_joined()
    ensures { (frames others : List Frame) (bytes more : List ℕ) → IsFileOf frames bytes
        → IsFileOf others more
        → IsFileOf (frames ++ others) (bytes ++ more) }
{}

/// Bytes have one list of frames, the list of the longest file with which they begin; more bytes bring these frames and more.
/// Their parts are what is caught of the bytes, up to the first refused word.
pub fn bytes_have_one_list_of_frames()
    ensures some { (verdict : Verdict Part) (bytes : List ℕ) → All (λ byte. byte < 256) bytes
        → (frames : List Frame) × AreFramesOf (layers_of verdict) frames bytes }
    ensures one { (verdict : Verdict Part) (frames others : List Frame) (bytes : List ℕ)
        → AreFramesOf (layers_of verdict) frames bytes
        → AreFramesOf (layers_of verdict) others bytes → frames ≡ others }
    ensures file { (verdict : Verdict Part) (frames : List Frame) (bytes : List ℕ)
        → IsFileUnder (layers_of verdict) frames bytes
        → AreFramesOf (layers_of verdict) frames bytes }
    ensures more { (verdict : Verdict Part) (frames others : List Frame) (bytes more : List ℕ)
        → AreFramesOf (layers_of verdict) frames bytes
        → AreFramesOf (layers_of verdict) others (bytes ++ more)
        → (behind : List Frame) × (others ≡ frames ++ behind) }
    ensures caught { (verdict : Verdict Part) (frames : List Frame) (bytes : List ℕ)
        → All (λ byte. byte < 256) bytes
        → AreFramesOf (layers_of verdict) frames bytes
        → (caught_in verdict bytes).frames ≡ reverse (map packet_parts frames) }
{}

/// A file is caught to its end: the parts of its frames, nothing that is open, and no refusal. And bytes that aren't refused and
/// leave nothing open are a file, of whose frames the layers above take all parts.
pub fn files_are_caught()
    ensures caught { (verdict : Verdict Part) (frames : List Frame) (bytes : List ℕ)
        → IsFileUnder (layers_of verdict) frames bytes
        → caught_in verdict bytes
        ≡ record {
          open_caption = None;
          frames = reverse (map packet_parts frames);
          refused = None;
        } }
    ensures unrefused { (verdict : Verdict Part) (frames : List Frame) (bytes : List ℕ)
        → IsFileUnder (layers_of verdict) frames bytes
        → (refusal_of verdict bytes ≡ None) × (open_behind anc_syntax bytes ≡ nothing_open) }
    ensures file { (verdict : Verdict Part) (bytes : List ℕ) → All (λ byte. byte < 256) bytes
        → refusal_of verdict bytes ≡ None → open_behind anc_syntax bytes ≡ nothing_open
        → (frames : List Frame) × IsFileUnder (layers_of verdict) frames bytes }
{}

/// The bytes of a file are whole words, and what begins some file is begun by its own first bytes: where no file begins with
/// bytes, none begins with these and more.
pub fn files_begin_with_their_first_bytes()
    ensures whole { (verdict : Verdict Part) (frames : List Frame) (bytes : List ℕ)
        → IsFileUnder (layers_of verdict) frames bytes → AreWholeWords bytes }
    ensures begins { (verdict : Verdict Part) (bytes more : List ℕ)
        → Begins (layers_of verdict) (bytes ++ more) → Begins (layers_of verdict) bytes }
{}

/// A word offends where no file can continue with it. Bytes are refused exactly where they have an offending word, at the place of
/// the first and for its reason, and they aren't refused exactly where no word of them offends.
pub fn first_offence_exact()
    ensures refused { (verdict : Verdict Part) → TakesFilling verdict
        → (bytes : List ℕ) (refused : Refused) → All (λ byte. byte < 256) bytes
        → refusal_of verdict bytes ≡ Some refused
        → FirstOffendingWord (layers_of verdict) bytes refused }
    ensures offends { (verdict : Verdict Part) → TakesFilling verdict
        → (bytes : List ℕ) (refused : Refused)
        → FirstOffendingWord (layers_of verdict) bytes refused
        → refusal_of verdict bytes ≡ Some refused }
    ensures unrefused { (verdict : Verdict Part) → TakesFilling verdict → (bytes : List ℕ)
        → All (λ byte. byte < 256) bytes
        → refusal_of verdict bytes ≡ None → IsUnoffending (layers_of verdict) bytes }
    ensures unoffending { (verdict : Verdict Part) (bytes : List ℕ)
        → IsUnoffending (layers_of verdict) bytes → refusal_of verdict bytes ≡ None }
{}

/// The first offending word of bytes is one, with one place and one reason, and it stays the first, whatever bytes follow.
pub fn an_offence_is_one()
    ensures one { (verdict : Verdict Part) (bytes : List ℕ) (refused other : Refused)
        → FirstOffendingWord (layers_of verdict) bytes refused
        → FirstOffendingWord (layers_of verdict) bytes other → refused ≡ other }
    ensures stays { (verdict : Verdict Part) (bytes more : List ℕ) (refused : Refused)
        → FirstOffendingWord (layers_of verdict) bytes refused
        → FirstOffendingWord (layers_of verdict) (bytes ++ more) refused }
{}

/// Bytes are cut short exactly where none of their words is refused and something is open after them: half a word, or a packet
/// that isn't whole.
pub fn bytes_are_cut_short_where_something_is_open()
    ensures cut_short { (verdict : Verdict Part) → TakesFilling verdict → (bytes : List ℕ)
        → All (λ byte. byte < 256) bytes
        → refusal_of verdict bytes ≡ None → (open_behind anc_syntax bytes ≡ nothing_open → ⊥)
        → IsCutShort (layers_of verdict) bytes
        (record { place = length bytes % 2 ^ 64; why = why.Truncated }) }
    ensures unrefused { (verdict : Verdict Part) (bytes : List ℕ) (refused : Refused)
        → IsCutShort (layers_of verdict) bytes refused
        → refusal_of verdict bytes ≡ None }
    ensures open { (verdict : Verdict Part) (bytes : List ℕ) (refused : Refused)
        → All (λ byte. byte < 256) bytes
        → IsCutShort (layers_of verdict) bytes refused → open_behind anc_syntax bytes ≡ nothing_open
        → ⊥ }
{}

/// Bytes are a file, or cut short, or they have an offending word, and never two of these.
pub fn every_input_is_a_file_or_cut_short_or_offends()
    ensures each { (verdict : Verdict Part) → TakesFilling verdict → (bytes : List ℕ)
        → All (λ byte. byte < 256) bytes
        → ((frames : List Frame) × IsFileUnder (layers_of verdict) frames bytes)
        ⊎ (((refused : Refused) × IsCutShort (layers_of verdict) bytes refused)
        ⊎ ((refused : Refused) × FirstOffendingWord (layers_of verdict) bytes refused)) }
    ensures file { (verdict : Verdict Part) (frames : List Frame) (bytes : List ℕ)
        (refused : Refused)
        → IsFileUnder (layers_of verdict) frames bytes
        → IsCutShort (layers_of verdict) bytes refused
        ⊎ FirstOffendingWord (layers_of verdict) bytes refused → ⊥ }
    ensures cut_short { (verdict : Verdict Part) (bytes : List ℕ) (refused other : Refused)
        → IsCutShort (layers_of verdict) bytes refused
        → FirstOffendingWord (layers_of verdict) bytes other → ⊥ }
{}

/// Where there is no layer above, all parts of distribution packets are taken, those that fill a packet among them, and each
/// words file is one.
pub fn no_layer_above_takes_all()
    ensures filling { TakesFilling never }
    ensures all { (above parts : List Part) → AreAccepted never above parts }
    ensures file { (frames : List Frame) (bytes : List ℕ) → IsFileOf frames bytes
        → IsFileUnder (layers_of never) frames bytes }
{}

/// A word after bytes none of whose words is refused, which offends by the words of its packet, is refused for this reason, whatever
/// the layers above say. Where these refuse no part, it is refused for no other; and there is one such reason.
pub fn reasons_stand_at_their_words()
    ensures given { (verdict : Verdict Part) (before : List ℕ) (word : ℕ) (reason : Reason)
        → refusal_of verdict before ≡ None
        → OffendsFor (open_behind anc_syntax before).words word reason
        → reason_of verdict before word ≡ Some reason }
    ensures stands { (verdict : Verdict Part) → RefusesNone verdict
        → (before : List ℕ) (word : ℕ) (reason : Reason)
        → refusal_of verdict before ≡ None → reason_of verdict before word ≡ Some reason
        → OffendsFor (open_behind anc_syntax before).words word reason }
    ensures one { (words : List ℕ) (word : ℕ) (reason other : Reason) → OffendsFor words word reason
        → OffendsFor words word other
        → reason ≡ other }
    ensures never { RefusesNone never }
{}

/// The words that the reader keeps are those that are open after whole words, and no other words are.
pub fn the_reader_keeps_the_open_words()
    ensures kept { (bytes : List ℕ) → All (λ byte. byte < 256) bytes → AllRead anc_syntax bytes
        → AreWholeWords bytes
        → AreOpenBehind (open_behind anc_syntax bytes).words bytes }
    ensures one { (words bytes : List ℕ) → AreOpenBehind words bytes → AllRead anc_syntax bytes
        → (open_behind anc_syntax bytes).words ≡ words }
{}

/// After words with which a file begins, a word with which none goes on is refused for the reason for which it offends, by the words of
/// its packet or for the layers above. It is refused by the words of its packet where these refuse no part.
pub fn words_are_refused_for_their_reasons()
    ensures reason { (verdict : Verdict Part) (before : List ℕ) (high low : ℕ) (reason : Reason)
        → All (λ byte. byte < 256) (before ++ high ∷ low ∷ []) → AreWholeWords before
        → Begins (layers_of verdict) before
        → reason_of verdict before (256 * high + low) ≡ Some reason
        → HasReason (layers_of verdict) before high low reason }
    ensures refused { (verdict : Verdict Part) → TakesFilling verdict
        → (before : List ℕ) (high low : ℕ) (reason : Reason)
        → AreWholeWords before → Begins (layers_of verdict) before
        → (Begins (layers_of verdict) (before ++ high ∷ low ∷ []) → ⊥)
        → HasReason (layers_of verdict) before high low reason
        → reason_of verdict before (256 * high + low) ≡ Some reason }
    ensures one { (verdict : Verdict Part) (before : List ℕ) (high low : ℕ) (reason other : Reason)
        → AreWholeWords before
        → Begins (layers_of verdict) before → HasReason (layers_of verdict) before high low reason
        → HasReason (layers_of verdict) before high low other
        → reason ≡ other }
    ensures packet { (verdict : Verdict Part) → RefusesNone verdict
        → (before : List ℕ) (high low : ℕ) (reason : Reason)
        → HasReason (layers_of verdict) before high low reason
        → (words : List ℕ) × AreOpenBehind words before
        × OffendsFor words (256 * high + low) reason }
{}
