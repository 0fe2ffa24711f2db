//! What the forms of the primitives promise.

ghost use Rattle.std.specs.Prelude.{◌≡◌, ℕ, ℤ, Bool, List, Option, IfOk, Ok};
ghost use Rattle.kp_jute.specs.Form.{Lawful, LawfulAtEnd, IsBytes, ◌⊗◌, present, tagged, if_any, remains, whole};
ghost use Rattle.kp_jute.specs.Jute.{ints, longs, unsigned_ints, unsigned_longs, raws, booleans, counts, buffers, texts, untils, vectors, fixed_ints, fixed_booleans, packets, int_or_text};

/// Each primitive is read exactly where the bytes begin with its spelling, and each value has one spelling;
/// so it is with a vector of them, shown of texts, with values up to an end mark, shown of counts up to a null,
/// with one field after another, shown of an int and a text, and with a field behind the one that says which it is,
/// shown of a boolean and an int or a text. A form that looks whether bytes are left, or takes all that are left, is
/// read so where it ends a record, and is lawful with anything behind it where the record is a packet.
pub fn laws()
    ensures int { Lawful ints }
    ensures long { Lawful longs }
    ensures boolean { Lawful booleans }
    ensures count { Lawful counts }
    ensures buffer { Lawful buffers }
    ensures ustring { Lawful texts }
    ensures vector { Lawful (vectors texts) }
    ensures marked { Lawful (untils counts) }
    ensures fields { Lawful (ints ⊗ texts) }
    ensures unsigned_int { Lawful unsigned_ints }
    ensures unsigned_long { Lawful unsigned_longs }
    ensures raw { (n : ℕ) → Lawful (raws n) }
    ensures never_null { Lawful (present texts) }
    ensures one_int { (z : ℤ) → Lawful (fixed_ints z) }
    ensures one_boolean { (b : Bool) → Lawful (fixed_booleans b) }
    ensures case { Lawful (tagged booleans int_or_text) }
    ensures at_end { LawfulAtEnd (ints ⊗ if_any booleans) }
    ensures rest { LawfulAtEnd (ints ⊗ remains) }
    ensures packet { Lawful (packets (ints ⊗ remains)) }
    ensures found { (bytes : List ℕ) → IsBytes bytes → IfOk (whole texts bytes) (λ v. texts.Fits v × (bytes ≡ texts.spell v)) }
    ensures again { (v : Option (List ℕ)) → texts.Fits v → whole texts (texts.spell v) ≡ Ok v }
{}
