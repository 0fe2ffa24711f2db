//! What the definitions promise: what opening finds is the replay of the records that were handed in.

ghost use Rattle.std.specs.Prelude.{ℕ, List, Option, Some, Ok, ◌≡◌, true};
ghost use Rattle.kp_entry.specs.declared.record.Record.{Record};
ghost use Rattle.kp_journal.specs.declared.head.Head.{Head};
ghost use Rattle.kp_snapshot.specs.Snapshots.{Snapshot};
ghost use Rattle.kp_homes.specs.Stands.{Bytes4, Stand, stands, with_more, made};
ghost use Rattle.kp_homes.specs.Opening.{Found, found, found_in, are_fit, blank_start, image_in, with_records};
ghost use Rattle.kp_homes.specs.Replays.{made_found};

/// Opening finds on disks what it finds in the value that they stand for, whichever slot is live.
pub fn what_stands_is_found()
    ensures { (node k : ℕ) (c : Bytes4) (v : Stand) (f : Found) → stands node c ≡ Some (Ok v) → found_in k (Ok v) ≡ Ok f → found node c ≡ Ok f }
{}

/// Once a batch was added, opening finds the replay of its records on what it found before, where each of them may stand
/// behind those before it.
pub fn a_batch_is_replayed()
    ensures { (k l : ℕ) (v : Stand) (f : Found) (rs : List Record) → found_in k (Ok v) ≡ Ok f → are_fit f.start.held rs ≡ true → found_in l (Ok (with_more rs v)) ≡ Ok (with_records rs f) }
{}

/// Once a new slot was made, opening finds its image and the replay of its records behind it.
pub fn a_slot_is_replayed()
    ensures { (l : ℕ) (h : Head) (bytes : List ℕ) (image : Option Snapshot) (rs : List Record) → image_in 0 bytes ≡ Ok image → are_fit (blank_start image).held rs ≡ true → found_in l (Ok (made h bytes rs)) ≡ Ok (made_found image rs) }
{}
