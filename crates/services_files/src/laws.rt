//! Laws of the definitions: functions without a body, whose contract is the law.

ghost use Rattle.std.specs.Prelude.{◌≡◌, ◌↔◌, ℕ, ◌%◌, ◌^◌, ◌<◌, ◌⊎◌, List, [], ◌∷◌, ◌++◌, All, None, Some, length, map, reverse};
ghost use Rattle.std.specs.List.{flat_map};
ghost use Rattle.cc_base.specs.declared.refusal.Refusal.{Refusal as Refused};
ghost use Rattle.cc_base.specs.declared.why.Why.{Why as Reason};
ghost use Rattle.cc_base.specs.declared.why.Why.TheVariants as why;
ghost use Rattle.cc_base.specs.Steps.{AreAccepted};
ghost use Rattle.cc_base.specs.Syntax.{open_behind};
ghost use Rattle.words_files.specs.Reading.{anc_syntax, nothing_open};
ghost use Rattle.cdp_packets.specs.declared.parts.CdpPart.{CdpPart as Part};
ghost use Rattle.cdp_packets.specs.declared.parts.CdpPart.TheVariants as part;
ghost use Rattle.cdp_packets.specs.PacketParts.{packet_parts};
ghost use Rattle.cdp_packets.specs.Packets.{Frame};
ghost use Rattle.cc_data.specs.declared.triplet.Triplet.{Triplet};
ghost use Rattle.cc_data.specs.Triplets.{triplet_of};
ghost use Rattle.channel_packets.specs.ChannelPackets.{AreChannelPackets, ChannelPacket};
ghost use Rattle.service_blocks.specs.Channels.{AreChannel, IsHeard, IsHeardBehind, heard_behind, heard_parts, said};
ghost use Rattle.service_blocks.specs.ServiceBlocks.{AreBlocks, Block};
ghost use Rattle.words_files.specs.Catching.{caught_in, refusal_of};
ghost use Rattle.words_files.specs.Offences.{Begins, FirstOffendingWord, IsCutShort, IsFileUnder, IsMalformed, IsUnoffending};
ghost use Rattle.words_files.specs.Reasons.{HasReason};
ghost use Rattle.words_files.specs.Verdicts.{TakesFilling, layers_of};
ghost use Rattle.services_files.specs.CaptionChannel.{caption_channel};
ghost use Rattle.services_files.specs.Events.{events_of, frame_events, rates_of, service_events, untimed};
ghost use Rattle.services_files.specs.Overruns.{Overruns};
ghost use Rattle.services_files.specs.Said.{blocks_in, channel_packets_in, said_behind, said_in};
ghost use Rattle.services_files.specs.Services.{services_say, tried_at, whole_triplets};
ghost use Rattle.services_files.specs.CarriedChannel.{file_triplets};

/// The services take a part exactly where the triplet that it tries is heard after the whole triplets before it. Parts that are
/// all taken have whole triplets that are heard, and the whole triplets of frames' parts are the frames' triplets.
pub fn triplets_are_tried_and_taken()
    ensures taken { (before : List Part) (next : Part)
        → (services_say before next ≡ None)
        ↔ IsHeardBehind (whole_triplets before) (tried_at next) }
    ensures heard { (parts : List Part) → AreAccepted services_say [] parts
        → IsHeard (whole_triplets parts) }
    ensures frames { (frames : List Frame)
        → whole_triplets (flat_map packet_parts frames) ≡ file_triplets frames }
{}

/// The services take what only fills the open packet, wherever they took what came before. So a file that was begun can be
/// completed under them, whatever it lacks.
pub fn filling_is_taken()
    ensures { TakesFilling services_say }
{}

/// The services take the parts of just those words files whose frames carry a caption channel. They refuse the others for the reason for
/// which a word of them offends: no part of a packet, no half of a triplet and no reader stands in this.
pub fn services_say_what_the_channel_is()
    ensures whole { (frames : List Frame) (bytes : List ℕ)
        → IsFileUnder (layers_of services_say) frames bytes
        → IsFileUnder caption_channel frames bytes }
    ensures file { (frames : List Frame) (bytes : List ℕ) → IsFileUnder caption_channel frames bytes
        → IsFileUnder (layers_of services_say) frames bytes }
    ensures begins { (bytes : List ℕ)
        → Begins (layers_of services_say) bytes ↔ Begins caption_channel bytes }
    ensures reason { (before : List ℕ) (high low : ℕ) (reason : Reason)
        → HasReason (layers_of services_say) before high low reason
        ↔ HasReason caption_channel before high low reason }
{}

/// Over all layers, bytes are refused exactly where they have an offending word, at the place of the first and for its reason, and
/// they aren't refused exactly where no word of them offends. Of bytes that aren't refused, those after which something is open
/// are cut short.
pub fn first_offence_over_all_layers()
    ensures refused { (bytes : List ℕ) (refused : Refused) → All (λ byte. byte < 256) bytes
        → refusal_of services_say bytes ≡ Some refused
        → FirstOffendingWord caption_channel bytes refused }
    ensures offends { (bytes : List ℕ) (refused : Refused)
        → FirstOffendingWord caption_channel bytes refused
        → refusal_of services_say bytes ≡ Some refused }
    ensures unrefused { (bytes : List ℕ) → All (λ byte. byte < 256) bytes
        → refusal_of services_say bytes ≡ None → IsUnoffending caption_channel bytes }
    ensures unoffending { (bytes : List ℕ) → IsUnoffending caption_channel bytes
        → refusal_of services_say bytes ≡ None }
    ensures cut_short { (bytes : List ℕ) → All (λ byte. byte < 256) bytes
        → refusal_of services_say bytes ≡ None → (open_behind anc_syntax bytes ≡ nothing_open → ⊥)
        → IsCutShort caption_channel bytes
        (record { place = length bytes % 2 ^ 64; why = why.Truncated }) }
{}

/// Over all layers, bytes are a file, or cut short, or they have an offending word, which is one, with one place and one reason, and never
/// two of these.
pub fn every_input_is_whole_or_cut_short_or_offends()
    ensures each { (bytes : List ℕ) → All (λ byte. byte < 256) bytes
        → ((frames : List Frame) × IsFileUnder caption_channel frames bytes)
        ⊎ (((refused : Refused) × IsCutShort caption_channel bytes refused)
        ⊎ ((refused : Refused) × FirstOffendingWord caption_channel bytes refused)) }
    ensures file { (frames : List Frame) (bytes : List ℕ) (refused : Refused)
        → IsFileUnder caption_channel frames bytes
        → IsMalformed caption_channel bytes refused → ⊥ }
    ensures cut_short { (bytes : List ℕ) (refused other : Refused)
        → IsCutShort caption_channel bytes refused
        → FirstOffendingWord caption_channel bytes other → ⊥ }
    ensures one { (bytes : List ℕ) (refused other : Refused)
        → FirstOffendingWord caption_channel bytes refused
        → FirstOffendingWord caption_channel bytes other → refused ≡ other }
{}

/// A whole file is caught to its end: the parts of its frames, nothing that is open, and no refusal. And bytes that aren't refused
/// and leave nothing open are a whole file.
pub fn whole_files_are_caught()
    ensures caught { (frames : List Frame) (bytes : List ℕ)
        → IsFileUnder caption_channel frames bytes
        → caught_in services_say bytes
        ≡ record {
          open_caption = None;
          frames = reverse (map packet_parts frames);
          refused = None;
        } }
    ensures unrefused { (frames : List Frame) (bytes : List ℕ)
        → IsFileUnder caption_channel frames bytes
        → (refusal_of services_say bytes ≡ None) × (open_behind anc_syntax bytes ≡ nothing_open) }
    ensures file { (bytes : List ℕ) → All (λ byte. byte < 256) bytes
        → refusal_of services_say bytes ≡ None → open_behind anc_syntax bytes ≡ nothing_open
        → (frames : List Frame) × IsFileUnder caption_channel frames bytes }
{}

/// What the readers of packets and of blocks make of any triplets, refused or not, is what the triplets say. After others it is what
/// they say after these, which is all that they add. Triplets have the packets that are cut from them, a packet that is blocks has those
/// that are cut from its bytes, and a caption channel says what its packets and blocks do.
pub fn what_triplets_say_is_heard()
    ensures heard { (triplets : List Triplet) → heard_parts triplets ≡ said_in triplets }
    ensures behind { (before triplets : List Triplet)
        → heard_behind before triplets ≡ said_behind before triplets }
    ensures more { (before triplets : List Triplet)
        → said_in (before ++ triplets) ≡ said_in before ++ said_behind before triplets }
    ensures packets { (packets : List ChannelPacket) (triplets : List Triplet)
        → AreChannelPackets packets triplets ↔ (packets ≡ channel_packets_in triplets) }
    ensures blocks { (room : ℕ) (blocks : List Block) (packet : ChannelPacket)
        → AreBlocks room blocks packet.bytes → blocks ≡ blocks_in packet }
    ensures channel { (packets : List ChannelPacket) (blocks : List (List Block))
        (triplets : List Triplet) → AreChannel packets blocks triplets
        → said_in triplets ≡ said None packets blocks }
{}

/// One more frame adds its events after the earlier frames'.
pub fn events_come_frame_by_frame()
    ensures { (service : ℕ) (frames : List Frame) (frame : Frame)
        → service_events service (frames ++ frame ∷ [])
        ≡ service_events service frames ++ frame_events service (file_triplets frames) frame }
{}

/// The events of a service have one tick for each frame, at the frame's rate. Beside the ticks, nothing but what the blocks of the
/// file's channel packets say to the service is in them, once and in order.
pub fn events_are_what_packets_say()
    ensures ticks { (service : ℕ) (frames : List Frame)
        → rates_of (service_events service frames) ≡ map (λ frame. frame.rate) frames }
    ensures said_packets { (service : ℕ) (frames : List Frame) (packets : List ChannelPacket)
        (blocks : List (List Block))
        → AreChannel packets blocks (file_triplets frames)
        → untimed (service_events service frames) ≡ events_of service (said None packets blocks) }
    ensures frame { (before triplets : List Triplet) (packets others : List ChannelPacket)
        (blocks more : List (List Block))
        → AreChannel packets blocks before → AreChannel others more (before ++ triplets)
        → said None others more ≡ said None packets blocks ++ heard_behind before triplets }
{}

/// The services refuse a header that passes its packet at its own byte, and nothing else: at the second byte of a triplet, and at its
/// third one, where the second one was taken.
pub fn overrun_stands_at_its_own_byte()
    ensures second { (before : List Part) (first next : ℕ) (reason : Reason)
        → (services_say before (part.Half (triplet_of first next 0x00)) ≡ Some reason)
        ↔ ((reason ≡ why.Overrun) × Overruns (whole_triplets before) (first ∷ []) next) }
    ensures third { (before : List Part) (first second next : ℕ) (reason : Reason)
        → services_say before (part.Half (triplet_of first second 0x00)) ≡ None
        → (services_say before (part.Triplet (triplet_of first second next)) ≡ Some reason)
        ↔ ((reason ≡ why.Overrun) × Overruns (whole_triplets before) (first ∷ second ∷ []) next) }
    ensures others { (before : List Part) (next : Part) → tried_at next ≡ []
        → services_say before next ≡ None }
{}
