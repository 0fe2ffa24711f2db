//! What the format promises.

ghost use Rattle.std.specs.Prelude.{ℕ, List, Ok, ◌≡◌, ◌<◌, ◌^◌, false, length};
ghost use Rattle.kp_entry.specs.declared.record.Record.{Record};
ghost use Rattle.kp_entry.specs.Records.{spelled, has_base, IsRun};
ghost use Rattle.kp_journal.specs.declared.head.Head.{Head};
ghost use Rattle.kp_journal.specs.Heads.{IsHead};
ghost use Rattle.kp_journal.specs.Journals.{journal_of, finished, new_journal};

/// A new journal, which is made of a head, a batch and the two gates, stands for that head and the records of the batch.
pub fn new_journal_stands()
    ensures { (h : Head) (rs : List Record) (xs : List ℕ) → IsHead h → IsRun rs → has_base rs ≡ false → length (spelled rs) < 2 ^ 32 → 0 < length xs → journal_of h.node (finished h rs xs) ≡ Ok (new_journal h rs) }
{}
