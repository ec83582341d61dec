//! What holds of every cue list that is printed.

ghost use Rattle.std.specs.Prelude.{◌≡◌, ℕ, Ok};
ghost use Rattle.cue_form.specs.Reading.{read_list};
ghost use Rattle.cue_types.specs.Listing.{IsFormed, Listing, share_of};
ghost use Rattle.cue_form.specs.Printing.{in_order, list_bytes};

/// The bytes of a list are read as that list, its shares in ascending order of their services; each service has the share
/// that it had. So a list of version 1 is brought to version 2.
pub fn printed_is_read()
    ensures list { (list : Listing) → IsFormed list
        → read_list (list_bytes list) ≡ Ok (in_order list) }
    ensures shares { (list : Listing) → IsFormed list → (service : ℕ)
        → share_of (in_order list) service ≡ share_of list service }
{}
