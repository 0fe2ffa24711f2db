//! What the forms promise.

ghost use Rattle.std.specs.Prelude.{◌≡◌, ◌++◌, [], ℕ, List};
ghost use Rattle.kp_jute.specs.Form.{Lawful};
ghost use Rattle.kp_model.specs.LogEntry.{LogEntry};
ghost use Rattle.kp_entry.specs.Fields.{numbers, timeouts, blobs, strings, passwords, origins, acls, lists};
ghost use Rattle.kp_entry.specs.Commands.{cmds};
ghost use Rattle.kp_entry.specs.Entries.{entries};
ghost use Rattle.kp_entry.specs.Records.{records};

/// Each of these is read exactly where the bytes begin with its spelling, and each value has one spelling.
pub fn laws()
    ensures number { Lawful numbers }
    ensures timeout { Lawful timeouts }
    ensures bytes { Lawful blobs }
    ensures text { Lawful strings }
    ensures password { Lawful passwords }
    ensures origin { Lawful origins }
    ensures acl { Lawful (lists acls) }
    ensures command { Lawful cmds }
    ensures entry { Lawful entries }
    ensures step { Lawful records }
{}

/// No spelling of an entry is the beginning of another's.
pub fn no_entry_begins_another()
    ensures { (a b : LogEntry) (more : List ℕ) → entries.Fits a → entries.Fits b → entries.spell a ++ more ≡ entries.spell b → (a ≡ b) × (more ≡ []) }
{}
