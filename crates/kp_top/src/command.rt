ghost use Rattle.std.specs.Prelude.{◌≡◌, ◌<◌, ◌≤◌, ◌↔◌, false, true, List, ℕ, length, Some, None, IfSome, map, string_bytes, Ok, Err};
ghost use Rattle.std.specs.Io.KnownBytes.{IsAtEnd};
ghost use Rattle.kp_io.specs.Faults.{one_more, Rose};
ghost use Rattle.kp_io.specs.Homes.{home_faults};
ghost use Rattle.kp_homes.specs.declared.fail.HomeFail.TheVariants as home_fail;
ghost use Rattle.kp_homes.specs.Stands.{Bytes4};
ghost use Rattle.kp_homes.specs.Opening.{Holds};
ghost use Rattle.kp_homes.specs.Reading.{IsUntouched};
ghost use Rattle.kp_audit.specs.Audits.{audited};
ghost use Rattle.kp_top.specs.Output.{WroteAll, WrotePart, TookMore, TookWithin};
ghost use Rattle.kp_top.specs.Transcript.{transcript, bad_line};
ghost use Rattle.kp_top.specs.Loading.{load_text};
ghost use Rattle.kp_top.specs.Auditing.{audit_command, node_of, home_of, with_home, text_or_nothing, IsOfAudit, IsBehindHome, IsDamagedOrNoMemory};
ghost use Rattle.kp_top.specs.Run.{IsOfStore, IsBeforeLines, IsBehindInput, IsDoneOrNoMemory, IsBadLineOrNoMemory, IsTooLongOrNoMemory, is_store_command, load_command, load_numbers};

use crate::audit::run_audit;
use crate::load::run_load;
use crate::status::Status;
use crate::store::run_store;
use crate::stream::{ReadEnd, read_all};
use kp_io::{Disk, Seven, Sink, Source};
use kp_text::number_of;
use std::alloc::Global;

/// The greatest number that a load starts from: 2^64 - 1.
const GREATEST_START: u64 = 18_446_744_073_709_551_615;

/// The most lines that a load draws.
const MOST_LINES: u64 = 1_000_000;

/// The greatest number of a node.
const LAST_NODE: u64 = 7;

/// Whether the words are those of the store command.
fn is_store(words: &[String]) -> bool
    ensures { result ≡ is_store_command (map string_bytes words.now) }
{
    match words {
        [word] => word.as_str() == "store",
        _ => false,
    }
}

/// The number that a load starts from and how many lines it draws, where both words are such numbers.
fn numbers_of(start: &str, count: &str) -> Option<(u64, u64)>
    ensures numbers { result ≡ load_numbers start.now count.now }
    ensures few { IfSome result (λ l. l.1 ≤ 1000000) }
{
    match (
        number_of(GREATEST_START, start),
        number_of(MOST_LINES, count),
    ) {
        (Some(start), Some(count)) => Some((start, count)),
        _ => None,
    }
}

/// The start and the count of a load, where the words are those of the load command.
fn load_of(words: &[String]) -> Option<(u64, u64)>
    ensures words { result ≡ load_command (map string_bytes words.now) }
    ensures few { IfSome result (λ l. l.1 ≤ 1000000) }
{
    match words {
        [word, start, count] if word.as_str() == "load" => {
            numbers_of(start.as_str(), count.as_str())
        }
        _ => None,
    }
}

/// The node that a word names.
fn node_of(word: &str) -> Option<u8>
    ensures node { result ≡ node_of word.now }
    ensures range { IfSome result (λ n. (1 ≤ n) × (n ≤ 7)) }
{
    match number_of(LAST_NODE, word) {
        None | Some(0) => None,
        Some(node) => Some(node as u8),
    }
}

/// The node whose home is audited, where the words are those of the audit command.
fn audit_of(words: &[String]) -> Option<u8>
    ensures words { result ≡ audit_command (map string_bytes words.now) }
    ensures range { IfSome result (λ n. (1 ≤ n) × (n ≤ 7)) }
{
    match words {
        [word, node] if word.as_str() == "audit" => node_of(node.as_str()),
        _ => None,
    }
}

/// Reads the lines of the store language and runs them.
fn read_store<S: Source, W: Sink>(alloc: Global, input: &mut S, output: &mut W) -> Status
    ensures done { result ≡ Status.Done → IfSome (S.left input.old) (λ text.
        (bad_line text ≡ None) × WroteAll (W.held output.old) (W.held output.new) (transcript text)) }
    ensures bad { (n : ℕ) → result ≡ Status.BadLine n → IfSome (S.left input.old) (λ text.
        (bad_line text ≡ Some n) × WroteAll (W.held output.old) (W.held output.new) (transcript text)) }
    ensures whole { IsBehindInput result → IsAtEnd (S.left input.new) × IfSome (S.left input.old) (λ text. length text ≤ 67108864) }
    ensures too_long { result ≡ Status.TooLong → TookMore (S.left input.old) (S.left input.new) }
    ensures within { (result ≡ Status.TooLong → ⊥) → TookWithin (S.left input.old) (S.left input.new) }
    ensures read_fault { result ≡ Status.ReadFault → S.faults input.new ≡ one_more (S.faults input.old) }
    ensures no_read_fault { (result ≡ Status.ReadFault → ⊥) → S.faults input.new ≡ S.faults input.old }
    ensures write_fault { result ≡ Status.WriteFault → W.faults output.new ≡ one_more (W.faults output.old) }
    ensures no_write_fault { (result ≡ Status.WriteFault → ⊥) → W.faults output.new ≡ W.faults output.old }
    ensures part { IfSome (S.left input.old) (λ text. WrotePart (W.held output.old) (W.held output.new) (transcript text)) }
    ensures nothing { IsBeforeLines result → output.new ≡ output.old }
    ensures others { IsOfStore result }
    ensures ran { (result ≡ Status.Usage) ↔ ⊥ }
    ensures complete { (text : List ℕ) → S.left input.old ≡ Some text
        → length text ≤ 67108864 → bad_line text ≡ None → ¬ (Rose (S.faults input.old) (S.faults input.new)) → ¬ (Rose (W.faults output.old) (W.faults output.new)) → IsDoneOrNoMemory result }
    ensures complete_bad { (text : List ℕ) (n : ℕ) → S.left input.old ≡ Some text
        → length text ≤ 67108864 → bad_line text ≡ Some n → ¬ (Rose (S.faults input.old) (S.faults input.new)) → ¬ (Rose (W.faults output.old) (W.faults output.new)) → IsBadLineOrNoMemory n result }
    ensures complete_long { (text : List ℕ) → S.left input.old ≡ Some text
        → 67108864 < length text → ¬ (Rose (S.faults input.old) (S.faults input.new)) → IsTooLongOrNoMemory result }
{
    match read_all(alloc, input) {
        Ok(text) => run_store(alloc, text.as_slice(), output),
        Err(ReadEnd::Fault) => Status::ReadFault,
        Err(ReadEnd::TooLong) => Status::TooLong,
        Err(ReadEnd::NoMemory) => Status::NoMemory,
    }
}

/// Does what the words of a command line say: `store` runs the store language, from `input` to `output`; `load START COUNT`
/// runs the lines of a load and writes the line of what was counted; `audit N` writes the text of the home of node N, or
/// answers where it is damaged. It waits for nobody and always returns. The disks of the homes are only read, and no home
/// is touched but the one that is audited.
pub fn run_command<S: Source, W: Sink, H: Disk>(
    alloc: Global,
    words: &[String],
    input: &mut S,
    output: &mut W,
    homes: &mut Seven<H>,
) -> Status
    // An audit leaves what the disks of its node's home hold and tell, and every other home as it was; all else every home.
    ensures homes { audit_command (map string_bytes words.now) ≡ None → homes.new ≡ homes.old }
    ensures audited_home { (node : ℕ) → audit_command (map string_bytes words.now) ≡ Some node → IsUntouched H.held H.past (home_of node homes.old) (home_of node homes.new) }
    ensures other_homes { (node : ℕ) → audit_command (map string_bytes words.now) ≡ Some node → homes.new ≡ with_home node (home_of node homes.new) homes.old }

    // Usage exactly where the words are no command; then nothing is written. Nothing is read but by the store command.
    ensures usage { (result ≡ Status.Usage) ↔ ((is_store_command (map string_bytes words.now) ≡ false) × (load_command (map string_bytes words.now) ≡ None) × (audit_command (map string_bytes words.now) ≡ None)) }
    ensures unread { is_store_command (map string_bytes words.now) ≡ false → input.new ≡ input.old }

    // Done: the input was read to its end, has no bad line, and its whole transcript was written; or the line of the load
    // was; or the text of the home was.
    ensures done { is_store_command (map string_bytes words.now) ≡ true → result ≡ Status.Done → IfSome (S.left input.old) (λ text.
        (bad_line text ≡ None) × WroteAll (W.held output.old) (W.held output.new) (transcript text)) }
    ensures loaded { (start count : ℕ) → load_command (map string_bytes words.now) ≡ Some (start, count) → result ≡ Status.Done
        → WroteAll (W.held output.old) (W.held output.new) (load_text start count) }
    ensures audited { (node : ℕ) (b : Bytes4) → audit_command (map string_bytes words.now) ≡ Some node → Holds H.held (home_of node homes.old) b → result ≡ Status.Done
        → (text : List ℕ) × (audited node b ≡ Ok text) × WroteAll (W.held output.old) (W.held output.new) text }

    // BadLine: this is the first line outside the grammar, and the transcript of those before it was written.
    ensures bad { (n : ℕ) → result ≡ Status.BadLine n → IfSome (S.left input.old) (λ text.
        (bad_line text ≡ Some n) × WroteAll (W.held output.old) (W.held output.new) (transcript text)) }

    // Damaged: the home's live slot leaves its format there.
    ensures damaged { (node slot at : ℕ) (b : Bytes4) → audit_command (map string_bytes words.now) ≡ Some node → Holds H.held (home_of node homes.old) b
        → result ≡ Status.Damaged slot at → audited node b ≡ Err (home_fail.Damaged slot at) }

    // Done, BadLine and WriteFault of the store command come once the whole input was read.
    ensures whole { is_store_command (map string_bytes words.now) ≡ true → IsBehindInput result → IsAtEnd (S.left input.new) × IfSome (S.left input.old) (λ text. length text ≤ 67108864) }

    // TooLong exactly where more than 67,108,864 bytes were read.
    ensures too_long { result ≡ Status.TooLong → TookMore (S.left input.old) (S.left input.new) }
    ensures within { (result ≡ Status.TooLong → ⊥) → TookWithin (S.left input.old) (S.left input.new) }

    // A fault raises the count of the object that it came from, and no count rises otherwise.
    ensures read_fault { result ≡ Status.ReadFault → S.faults input.new ≡ one_more (S.faults input.old) }
    ensures no_read_fault { (result ≡ Status.ReadFault → ⊥) → S.faults input.new ≡ S.faults input.old }
    ensures write_fault { result ≡ Status.WriteFault → W.faults output.new ≡ one_more (W.faults output.old) }
    ensures no_write_fault { (result ≡ Status.WriteFault → ⊥) → W.faults output.new ≡ W.faults output.old }
    ensures disk_fault { (node : ℕ) → audit_command (map string_bytes words.now) ≡ Some node → result ≡ Status.DiskFault → Rose (home_faults H.faults (home_of node homes.old)) (home_faults H.faults (home_of node homes.new)) }
    ensures no_disk_fault { (node : ℕ) → audit_command (map string_bytes words.now) ≡ Some node → IsBehindHome result → home_faults H.faults (home_of node homes.new) ≡ home_faults H.faults (home_of node homes.old) }

    // Whatever comes, no more than a beginning of what belongs there was written; before the lines, and where a home has no
    // text, the output isn't touched.
    ensures part { is_store_command (map string_bytes words.now) ≡ true → IfSome (S.left input.old) (λ text. WrotePart (W.held output.old) (W.held output.new) (transcript text)) }
    ensures part_of_load { (start count : ℕ) → load_command (map string_bytes words.now) ≡ Some (start, count) → WrotePart (W.held output.old) (W.held output.new) (load_text start count) }
    ensures part_of_audit { (node : ℕ) (b : Bytes4) → audit_command (map string_bytes words.now) ≡ Some node → Holds H.held (home_of node homes.old) b
        → WrotePart (W.held output.old) (W.held output.new) (text_or_nothing (audited node b)) }
    ensures nothing { IsBeforeLines result → output.new ≡ output.old }
    ensures others { audit_command (map string_bytes words.now) ≡ None → IsOfStore result }
    ensures of_audit { (node : ℕ) → audit_command (map string_bytes words.now) ≡ Some node → IsOfAudit result }

    // Where nothing of this stands against it, all is done, the bad line is named, or the input is too long; or memory ran out.
    ensures complete { (text : List ℕ) → is_store_command (map string_bytes words.now) ≡ true → S.left input.old ≡ Some text
        → length text ≤ 67108864 → bad_line text ≡ None → ¬ (Rose (S.faults input.old) (S.faults input.new)) → ¬ (Rose (W.faults output.old) (W.faults output.new)) → IsDoneOrNoMemory result }
    ensures complete_bad { (text : List ℕ) (n : ℕ) → is_store_command (map string_bytes words.now) ≡ true → S.left input.old ≡ Some text
        → length text ≤ 67108864 → bad_line text ≡ Some n → ¬ (Rose (S.faults input.old) (S.faults input.new)) → ¬ (Rose (W.faults output.old) (W.faults output.new)) → IsBadLineOrNoMemory n result }
    ensures complete_long { (text : List ℕ) → is_store_command (map string_bytes words.now) ≡ true → S.left input.old ≡ Some text
        → 67108864 < length text → ¬ (Rose (S.faults input.old) (S.faults input.new)) → IsTooLongOrNoMemory result }
    ensures complete_load { (start count : ℕ) → load_command (map string_bytes words.now) ≡ Some (start, count)
        → ¬ (Rose (W.faults output.old) (W.faults output.new)) → IsDoneOrNoMemory result }
    ensures complete_audit { (node : ℕ) (b : Bytes4) (text : List ℕ) → audit_command (map string_bytes words.now) ≡ Some node → Holds H.held (home_of node homes.old) b → audited node b ≡ Ok text
        → ¬ (Rose (home_faults H.faults (home_of node homes.old)) (home_faults H.faults (home_of node homes.new))) → ¬ (Rose (W.faults output.old) (W.faults output.new)) → IsDoneOrNoMemory result }
    ensures complete_damaged { (node slot at : ℕ) (b : Bytes4) → audit_command (map string_bytes words.now) ≡ Some node → Holds H.held (home_of node homes.old) b → audited node b ≡ Err (home_fail.Damaged slot at)
        → ¬ (Rose (home_faults H.faults (home_of node homes.old)) (home_faults H.faults (home_of node homes.new))) → IsDamagedOrNoMemory slot at result }
{
    if is_store(words) {
        return read_store(alloc, input, output);
    }
    if let Some((start, count)) = load_of(words) {
        return run_load(alloc, start, count as u32, output);
    }
    match audit_of(words) {
        Some(node) => run_audit(alloc, node, homes, output),
        None => Status::Usage,
    }
}
