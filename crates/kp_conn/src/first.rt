//! What a new connection begins with: a connect request or a four-letter word.

ghost use Rattle.std.specs.Prelude.{◌≡◌, ◌≤◌, ◌+◌, ◌++◌, length, take, vec_len, Some, None, IfOk, OnOk, OnErr, if◌then◌else◌};
ghost use Rattle.std.specs.List.{list_any};
ghost use Rattle.std.specs.Str.{bytes_eq};
ghost use Rattle.kp_conn.specs.Fed.{words, is_word, first, first_led, LiesIn};
ghost use Rattle.kp_conn.specs.declared.frames.Lead.TheVariants as leads;
ghost use Rattle.kp_conn.specs.Frames.{lead};

use crate::frames::{Lead, leading};
use kp_model::NoMemory;
use kp_wire::{ConnectRequest, WireFail, read_connect};
use std::alloc::Global;

/// What the bytes of a new connection begin with.
#[derive(Drop)]
pub enum First {
    /// Neither a word nor a whole frame.
    Part,
    /// A four-letter word.
    Word([u8; 4]),
    /// No connect request.
    Wrong,
    /// A connect request, whose frame has so many bytes.
    Connect(ConnectRequest, usize),
}

// The four-letter words that are answered.
const WORDS: [[u8; 4]; 12] = [
    *b"ruok", *b"isro", *b"srvr", *b"cons", *b"stat", *b"mntr", *b"wchs", *b"wchc", *b"wchp",
    *b"dump", *b"lgif", *b"csnp",
];

// Whether the bytes are one of the words.
fn is_among(front: &[u8], words: &[[u8; 4]]) -> bool
    ensures { result ≡ list_any (bytes_eq front.now) words.now }
{
    words.iter().any(|word| front == word.as_slice())
}

// Whether the bytes are a word that is answered.
fn is_known(front: &[u8]) -> bool
    ensures { result ≡ list_any (bytes_eq front.now) words }
{
    is_among(front, WORDS.as_slice())
}

// The word that the bytes begin with.
#[tactic(auto, unfolding(crate::specs::Fed::is_word))]
fn word_of(bytes: &[u8]) -> Option<[u8; 4]>
    ensures { result ≡ (if is_word bytes.now then Some (take 4 bytes.now) else None) }
{
    if bytes.len() < 4 || !is_known(&bytes[..4]) {
        return None;
    }
    Some([bytes[0], bytes[1], bytes[2], bytes[3]])
}

// Puts the piece behind what was kept, and tells what they begin with. Without memory all stays.
pub fn begin_with(kept: &mut Vec<u8>, alloc: Global, piece: &[u8]) -> Result<First, NoMemory>
    ensures first { IfOk result (λ f. f ≡ first (kept.old.items ++ piece.now)) }
    ensures within { IfOk result (λ f. LiesIn (kept.old.items ++ piece.now) f) }
    ensures kept { OnOk result (kept.new.items ≡ kept.old.items ++ piece.now) }
    ensures len { OnOk result (vec_len kept.new ≡ vec_len kept.old + length piece.now) }
    ensures err { OnErr result (kept.new.items ≡ kept.old.items) }
    ensures err_len { OnErr result (vec_len kept.new ≡ vec_len kept.old) }
{
    let had = kept.len();
    kept.extend_from_slice(piece)?;
    match first_of(alloc, kept) {
        Ok(first) => Ok(first),
        Err(none) => {
            kept.truncate(had);
            Err(none)
        }
    }
}

// What the bytes of a new connection begin with.
#[tactic(auto, unfolding(crate::specs::Fed::first))]
fn first_of(alloc: Global, bytes: &[u8]) -> Result<First, NoMemory>
    ensures first { IfOk result (λ f. f ≡ first bytes.now) }
    ensures within { IfOk result (λ f. LiesIn bytes.now f) }
{
    if let Some(word) = word_of(bytes) {
        return Ok(First::Word(word));
    }
    match leading(bytes) {
        Lead::Part => Ok(First::Part),
        Lead::Wrong => Ok(First::Wrong),
        Lead::Frame(n) => read_first(alloc, bytes, n),
    }
}

// Reads the first frame.
fn read_first(alloc: Global, bytes: &[u8], n: usize) -> Result<First, NoMemory>
    requires { n ≤ length bytes.now }
    ensures first { IfOk result (λ f. f ≡ first_led bytes.now (leads.Frame n)) }
    ensures within { IfOk result (λ f. LiesIn bytes.now f) }
{
    match read_connect(alloc, &bytes[..n]) {
        Ok(request) => Ok(First::Connect(request, n)),
        Err(WireFail::BadRecord { .. }) => Ok(First::Wrong),
        Err(WireFail::NoMemory) => Err(NoMemory),
    }
}
