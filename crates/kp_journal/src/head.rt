//! The head of a journal.

ghost use Rattle.std.specs.Prelude.{ℕ, List, Some, ◌≡◌, ◌+◌, ◌<◌, ◌≤◌, length, take, OnOk, IfOk, IfSome};
ghost use Rattle.std.specs.Option.{option_map};
ghost use Rattle.std.specs.Int.{w32, w64, from_be_bytes, to_be_bytes};
ghost use Rattle.kp_io.specs.Crash.{LeavesIf, IsLeft, IsSettled, HasFront, HasRoom};
ghost use Rattle.kp_io.specs.Faults.{HasCause, Rose};
ghost use Rattle.kp_journal.specs.Heads.{is_open, head_in, head_fault, generation, head_bytes, headed};
ghost use Rattle.kp_journal.specs.Answers.{TellsHead};

use crate::fail::JournalFail;
use kp_io::{Disk, Failed};
use kp_model::limits::LAST_NUMBER;

/// How many bytes a head has, its gate among them.
pub(crate) const HEAD_LEN: usize = 22;

/// The mark of a journal of this format, `KPJ1` in ASCII.
const MARK: u32 = 0x4b50_4a31;

/// What the head of a journal says.
#[derive(Clone, Copy, PartialEq, Eq)]
pub struct Head {
    /// Of two journals with an open head the one with the greater generation is live. From 1 to 2^62.
    pub generation: u64,
    /// The node to whose home the journal belongs.
    pub node: u8,
    /// How many bytes the image has in the image's disk of the same slot, 0 for no image. At most 2^62.
    pub image_len: u64,
}

/// Whether the head's gate is open, and there is room for a gate behind the head.
pub(crate) fn is_open(bytes: &[u8]) -> bool
    ensures { result ≡ is_open bytes.now }
{
    bytes.len() > HEAD_LEN && bytes[0] == 1
}

/// Reads a head that stands at the front, whatever its gate holds. The first field that is not as it has to be is
/// refused.
#[tactic(auto, unfolding(crate::specs::Heads::head_fault))]
pub(crate) fn read_head(bytes: &[u8], node: u8) -> Result<Head, JournalFail>
    requires { 22 ≤ length bytes.now }
    ensures { TellsHead result (head_fault node (take 22 bytes.now)) (head_in (take 22 bytes.now)) }
{
    let head = fields_in(&bytes[..HEAD_LEN]);
    if word(&bytes[1..5]) != MARK {
        return Err(JournalFail::Damaged { at: 1 });
    }
    if head.generation == 0 || head.generation > LAST_NUMBER {
        return Err(JournalFail::Damaged { at: 5 });
    }
    if head.node != node {
        return Err(JournalFail::Damaged { at: 13 });
    }
    if head.image_len > LAST_NUMBER {
        return Err(JournalFail::Damaged { at: 14 });
    }
    Ok(head)
}

/// The generation of a journal, as it stands.
pub(crate) fn generation_of(bytes: &[u8]) -> u64
    requires { 22 ≤ length bytes.now }
    ensures { result ≡ generation bytes.now }
{
    fields_in(&bytes[..HEAD_LEN]).generation
}

// What the fields of a head say.
fn fields_in(head: &[u8]) -> Head
    requires { length head.now ≡ 22 }
    ensures { result ≡ head_in head.now }
{
    Head {
        generation: long(&head[5..13]),
        node: head[13],
        image_len: long(&head[14..22]),
    }
}

/// Four bytes as a number, the greatest byte first.
pub(crate) fn word(bytes: &[u8]) -> u32
    requires { length bytes.now ≡ 4 }
    ensures { result ≡ from_be_bytes w32 bytes.now }
{
    u32::from_be_bytes([bytes[0], bytes[1], bytes[2], bytes[3]])
}

// Eight bytes as a number, the greatest byte first.
fn long(bytes: &[u8]) -> u64
    requires { length bytes.now ≡ 8 }
    ensures { result ≡ from_be_bytes w64 bytes.now }
{
    u64::from_be_bytes([
        bytes[0], bytes[1], bytes[2], bytes[3], bytes[4], bytes[5], bytes[6], bytes[7],
    ])
}

// The bytes of a head behind its gate, and a closed gate.
fn head_bytes(head: Head) -> [u8; HEAD_LEN]
    ensures { result ≡ head_bytes head }
{
    let mark = MARK.to_be_bytes();
    let generation = head.generation.to_be_bytes();
    let image_len = head.image_len.to_be_bytes();
    let mut bytes = [0; HEAD_LEN];
    bytes[..4].copy_from_slice(&mark);
    bytes[4..12].copy_from_slice(&generation);
    bytes[12] = head.node;
    bytes[13..21].copy_from_slice(&image_len);
    bytes
}

/// Writes a head behind its gate, and a closed gate behind it, ends the journal there, and waits until that outlasts a
/// crash. A crash leaves the head's gate.
pub fn write_head<D: Disk>(disk: &mut D, head: Head, moments: &mut u64) -> Result<(), Failed>
    requires { IfSome (D.held disk.old) (λ xs. 0 < length xs) }
    ensures held { OnOk result (D.held disk.new ≡ option_map (headed head) (D.held disk.old)) }
    ensures settled { (xs : List ℕ) → D.held disk.old ≡ Some xs → IsSettled moments.old xs (D.past disk.old) → HasRoom moments.new
        → OnOk result (IsSettled moments.new (headed head xs) (D.past disk.new)) }
    ensures crash { (xs : List ℕ) → D.held disk.old ≡ Some xs → IsSettled moments.old xs (D.past disk.old) → HasRoom moments.new
        → LeavesIf moments.old moments.new (HasFront 1 xs) (D.past disk.old) (D.past disk.new) }
    ensures left { IsLeft (D.past disk.new) (D.held disk.new) }
    ensures moment { moments.old ≤ moments.new }
    ensures cause { HasCause (D.faults disk.old) (D.faults disk.new) result }
{
    let bytes = head_bytes(head);
    disk.write_at(1, &bytes, moments)?;
    disk.cut(23, moments)?;
    disk.sync(moments)
}
