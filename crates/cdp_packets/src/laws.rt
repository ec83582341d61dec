//! Laws of the definitions: functions without a body, whose contract is the law.

ghost use Rattle.std.specs.Prelude.{◌≡◌, ◌↔◌, ℕ, ◌+◌, ◌<◌, ◌≤◌, ◌++◌, List, [], ◌∷◌, All, IsTrue, None, length};
ghost use Rattle.std.specs.List.{concat};
ghost use Rattle.cc_base.specs.declared.rate.Rate.{Rate};
ghost use Rattle.cc_base.specs.declared.step.Step.TheVariants.{Refuse};
ghost use Rattle.cc_base.specs.declared.why.Why.{Why as Reason};
ghost use Rattle.cc_base.specs.Feeding.{Verdict};
ghost use Rattle.cc_base.specs.Steps.{AreAccepted};
ghost use Rattle.cc_base.specs.Syntax.{AllRead, Reads, open_behind, parts_of, read_under};
ghost use Rattle.cc_data.specs.declared.triplet.Triplet.{Triplet};
ghost use Rattle.cdp_packets.specs.declared.parts.CdpPart.{CdpPart as Part};
ghost use Rattle.cdp_packets.specs.Sections.{IsSection, AreSections, is_id};
ghost use Rattle.cdp_packets.specs.Packets.{Frame, IsCdp};
ghost use Rattle.cdp_packets.specs.PacketParts.{packet_parts};
ghost use Rattle.cdp_packets.specs.PacketTriplets.{section_triplets, packet_triplets};
ghost use Rattle.cdp_packets.specs.Reading.{GoesOnWithFilling, IsPacketLength, cdp_syntax, count_fits, id_fits, judge_cdp, no_section_open, nothing_open};
ghost use Rattle.cdp_packets.specs.Refusals.{CanBegin, StandsAt};
ghost use Rattle.cdp_packets.specs.Written.{cc_data_section, written_packet};

/// Bytes begin with one packet at most: whatever follows them, two packets at the head of one list
/// are the same, and so is what follows.
pub fn packets_are_told_apart()
    ensures packet { (p q : Frame) (front begin rest more : List ℕ) → IsCdp p front → IsCdp q begin
        → front ++ rest ≡ begin ++ more → p ≡ q }
    ensures bytes { (p q : Frame) (front begin rest more : List ℕ) → IsCdp p front → IsCdp q begin
        → front ++ rest ≡ begin ++ more → front ≡ begin }
    ensures rest { (p q : Frame) (front begin rest more : List ℕ) → IsCdp p front → IsCdp q begin
        → front ++ rest ≡ begin ++ more → rest ≡ more }
{}

/// Bytes are a list of sections in one way at most.
pub fn sections_are_cut_once()
    ensures { (cut others : List (List ℕ)) → AreSections cut → AreSections others
        → concat cut ≡ concat others → cut ≡ others }
{}

/// What is written of a packet is that packet and no other, whatever follows it.
pub fn written_is_read_back()
    ensures packet { (rate : Rate) (flags counter : ℕ) (cut : List (List ℕ)) → AreSections cut
        → IsCdp (record { rate = rate; flags = flags; counter = counter; sections = cut })
        (written_packet rate flags counter (concat cut)) }
    ensures read { (rate : Rate) (flags counter : ℕ) (cut : List (List ℕ)) (p : Frame)
        (front rest more : List ℕ) → AreSections cut → IsCdp p front
        → front ++ rest ≡ written_packet rate flags counter (concat cut) ++ more
        → p ≡ record { rate = rate; flags = flags; counter = counter; sections = cut } }
{}

/// What is written for at most 31 triplets is one section, and its triplets are these. A packet with this section
/// alone has these triplets too.
pub fn written_triplets_are_read_back()
    ensures section { (triplets : List Triplet) → length triplets ≤ 31
        → IsSection (cc_data_section triplets) }
    ensures triplets { (triplets : List Triplet) → All (λ t. t.kind < 4) triplets
        → section_triplets (cc_data_section triplets) ≡ triplets }
    ensures packet { (rate : Rate) (flags counter : ℕ) (triplets : List Triplet)
        → All (λ t. t.kind < 4) triplets
        → packet_triplets
        (record {
          rate = rate;
          flags = flags;
          counter = counter;
          sections = cc_data_section triplets ∷ [];
        })
        ≡ triplets }
{}

/// A packet is read to its end: none of its bytes is refused, they make its parts, and no section is open after them. Under a
/// layer that takes these parts they are handed upward, and there is no refusal.
pub fn packets_are_read()
    ensures length { (packet : Frame) (bytes : List ℕ) → IsCdp packet bytes
        → IsPacketLength (length bytes) }
    ensures read { (packet : Frame) (bytes : List ℕ) → IsCdp packet bytes
        → Reads (cdp_syntax (length bytes)) nothing_open bytes (packet_parts packet)
        (no_section_open bytes) }
    ensures handed { (verdict : Verdict Part) (packet : Frame) (bytes : List ℕ) → IsCdp packet bytes
        → AreAccepted verdict [] (packet_parts packet)
        → read_under (cdp_syntax (length bytes)) 1 verdict bytes
        ≡ record { parts = packet_parts packet; refusal = None } }
{}

/// What is read is a packet: as many bytes as the packet is to have, none of which is refused, are a packet, and make its parts.
/// Bytes after them change nothing. Where there is no refusal, no byte was refused, and the layer above took all parts.
pub fn what_is_read_is_a_packet()
    ensures packet { (size : ℕ) (bytes : List ℕ) → IsPacketLength size → length bytes ≡ size
        → AllRead (cdp_syntax size) bytes
        → (packet : Frame) × IsCdp packet bytes
        × (parts_of (cdp_syntax size) bytes ≡ packet_parts packet) }
    ensures behind { (size : ℕ) (bytes more : List ℕ) → IsPacketLength size → length bytes ≡ size
        → AllRead (cdp_syntax size) bytes
        → Reads (cdp_syntax size) (open_behind (cdp_syntax size) bytes) more []
        (open_behind (cdp_syntax size) bytes) }
    ensures unrefused { (size : ℕ) (verdict : Verdict Part) (bytes : List ℕ)
        → (read_under (cdp_syntax size) 1 verdict bytes).refusal ≡ None
        → AllRead (cdp_syntax size) bytes
        × AreAccepted verdict [] (parts_of (cdp_syntax size) bytes) }
{}

/// Bytes none of which is refused begin some packet of the length, also one whose further bytes only fill it; and no packet of
/// the length begins with bytes whose last one is refused.
pub fn a_byte_is_refused_where_no_packet_goes_on()
    ensures begun { (size : ℕ) (bytes : List ℕ) → IsPacketLength size → size < 256
        → All (λ byte. byte < 256) bytes
        → length bytes ≤ size → AllRead (cdp_syntax size) bytes → GoesOnWithFilling size bytes }
    ensures refused { (size : ℕ) (bytes : List ℕ) (byte : ℕ) (reason : Reason) (more : List ℕ)
        (packet : Frame)
        → judge_cdp size (open_behind (cdp_syntax size) bytes) byte ≡ Refuse reason
        → IsCdp packet (bytes ++ byte ∷ more)
        → length (bytes ++ byte ∷ more) ≡ size → ⊥ }
{}

/// An id fits exactly where some list of sections of as many bytes as are left begins with it, and the second byte of a section
/// exactly where some such list can continue with it.
pub fn sections_fit_where_some_can_follow()
    ensures id { (left id : ℕ) → left < 256 → IsTrue (id_fits left id) ↔ CanBegin left (id ∷ []) }
    ensures count { (left id count : ℕ) → left < 256 → IsTrue (is_id id)
        → IsTrue (count_fits left id count) ↔ CanBegin (left + 1) (id ∷ count ∷ []) }
{}

/// A refusal stands at its place: each reason comes at the byte that it speaks of, and there is no other reason.
pub fn refusals_stand_at_their_places()
    ensures one { (size : ℕ) (bytes : List ℕ) (reason other : Reason) → IsPacketLength size
        → StandsAt size bytes reason
        → StandsAt size bytes other → reason ≡ other }
    ensures stands { (size : ℕ) (bytes : List ℕ) (byte : ℕ) (reason : Reason) → IsPacketLength size
        → length bytes ≤ size → AllRead (cdp_syntax size) bytes
        → judge_cdp size (open_behind (cdp_syntax size) bytes) byte ≡ Refuse reason
        → StandsAt size bytes reason }
{}
