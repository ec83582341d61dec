//! Laws of the definitions: functions without a body, whose contract is the law.

ghost use Rattle.std.specs.Prelude.{◌≡◌, ◌<◌, ◌%◌, ℕ, List, Ok, Err};
ghost use Rattle.std.specs.List.{All};
ghost use Rattle.anc_words.specs.EightBitWords.{IsEightBit};
ghost use Rattle.anc_words.specs.Packets.{AncillaryPacket};
ghost use Rattle.anc_words.specs.WordsFiles.{IsPacketBytes};
ghost use Rattle.anc_words.specs.Writing.{packet_of};
ghost use Rattle.cc_base.specs.declared.refusal.Refusal.{Refusal as Refused};
ghost use Rattle.mcc_files.specs.PayloadOffences.{IsFirstOffence};
ghost use Rattle.mcc_files.specs.Payloads.{IsPayload, Payload, payload_bytes};
ghost use Rattle.mcc_files.specs.PayloadWords.{payload_of, payload_words};
ghost use Rattle.mcc_files.specs.PayloadReading.{read_payload};
ghost use Rattle.mcc_files.specs.PayloadWriting.{IsWritten};

/// A text is read as bytes exactly where it is a payload with these bytes.
pub fn payloads_are_read()
    ensures read { (payload : Payload) (text : List ℕ) → IsPayload payload text
        → read_payload text ≡ Ok (payload_bytes payload) }
    ensures payloads { (text bytes : List ℕ) → read_payload text ≡ Ok bytes
        → (payload : Payload) × IsPayload payload text × (bytes ≡ payload_bytes payload) }
{}

/// A text that isn't read as bytes is no payload, and its first offence is the one with which it is refused.
pub fn other_texts_offend()
    ensures offence { (text : List ℕ) (refusal : Refused) → read_payload text ≡ Err refusal
        → IsFirstOffence text refusal }
    ensures refused { (text : List ℕ) (refusal : Refused) → IsFirstOffence text refusal
        → read_payload text ≡ Err refusal }
    ensures none { (text : List ℕ) (refusal : Refused) (payload : Payload)
        → IsFirstOffence text refusal → IsPayload payload text → ⊥ }
    ensures one { (text : List ℕ) (one other : Refused) → IsFirstOffence text one
        → IsFirstOffence text other → one ≡ other }
{}

/// What is written of a payload's bytes is the payload, and so it is read.
pub fn written_payloads_are_payloads()
    ensures payload { (payload : Payload) (text : List ℕ)
        → All (λ byte. byte < 256) (payload_bytes payload)
        → IsWritten (payload_bytes payload) text → IsPayload payload text }
    ensures read { (payload : Payload) (text : List ℕ)
        → All (λ byte. byte < 256) (payload_bytes payload)
        → IsWritten (payload_bytes payload) text → read_payload text ≡ Ok (payload_bytes payload) }
{}

/// The words of a payload are a packet's, and each packet whose user words are 8-bit words has the words of a payload.
pub fn payloads_are_packets()
    ensures packet { (payload : Payload) → All (λ byte. byte < 256) (payload_bytes payload)
        → IsPacketBytes (packet_of payload.did payload.sdid payload.user) (payload_words payload) }
    ensures payload { (packet : AncillaryPacket) (bytes : List ℕ)
        → All (λ word. IsEightBit (word % 256) word) packet.user → IsPacketBytes packet bytes
        → All (λ byte. byte < 256) (payload_bytes (payload_of packet))
        × (bytes ≡ payload_words (payload_of packet)) }
{}
