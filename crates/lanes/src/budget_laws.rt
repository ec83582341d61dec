//! Laws of the definitions: functions without a body, whose contract is the law.

ghost use Rattle.std.specs.Prelude.{◌≡◌, ◌+◌, ◌-◌, ◌≤◌, ℕ, List, sum};
ghost use Rattle.lanes.specs.Spending.{granted, held_behind, left_behind, most_held, most_loads, shown_bytes};

/// After any pieces, those that were granted and what is left are the whole budget; and as many bytes are held as were
/// granted, with the two of the DisplayWindows command: 127 at most.
pub fn law_of_spends()
    ensures left { (pieces : List ℕ)
        → left_behind most_loads pieces + sum (granted most_loads pieces) ≡ most_loads }
    ensures held { (pieces : List ℕ)
        → held_behind (left_behind most_loads pieces)
        ≡ shown_bytes + sum (granted most_loads pieces) }
    ensures most { (pieces : List ℕ) → held_behind (left_behind most_loads pieces) ≤ most_held }
{}
