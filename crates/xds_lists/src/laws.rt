//! What holds of every list of packets, whatever its records.

ghost use Rattle.std.specs.Prelude.{◌≡◌, Err, List, Ok};
ghost use Rattle.cue_form.specs.Records.{Record};
ghost use Rattle.xds_lists.specs.FirstFault.{IsFirstPacketFault};
ghost use Rattle.xds_lists.specs.Form.{SpellPackets};
ghost use Rattle.xds_lists.specs.Reading.{Answers, read_packets};
ghost use Rattle.xds_lists.specs.declared.fault.XdsFault.{XdsFault};
ghost use Rattle.xds_packets.specs.Sending.{Listed};

/// Records that spell a list are read as that list, and so have no fault.
pub fn spelled_is_read()
    ensures { (records : List Record) (listed : List Listed) → SpellPackets records listed
        → read_packets records ≡ Ok listed }
{}

/// Records that have a first fault are answered with it: there is one at most.
pub fn first_fault_is_answered()
    ensures { (records : List Record) (fault : XdsFault) → IsFirstPacketFault records fault
        → Answers (read_packets records) (Err fault) }
{}
