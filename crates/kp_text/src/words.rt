ghost use Rattle.std.specs.Prelude.{◌≡◌, ◌≤◌, IfSome, map, Some, IfOk};
ghost use Rattle.std.specs.List.{list_all};
ghost use Rattle.std.specs.Option.{option_map};
ghost use Rattle.std.specs.Char.{is_ascii_digit};
ghost use Rattle.kp_text.specs.Words.{words_of as words_in, path_of as path_in, is_numeral as is_numeral_of, number_of as number_in, is_lower_hex, hex_of as hex_in, data_of as data_in, passwd_of as passwd_in, of_16, version_of as version_in};

use kp_model::limits::{ANY_VERSION, LAST_COUNT};
use kp_model::{NoMemory, Text};
use std::alloc::{AllocError, Global};

/// The words of a line.
pub fn words_of(alloc: Global, line: &str) -> Result<Vec<&str>, AllocError>
    ensures { IfOk result (λ v. map (λ x. x.now) v.items ≡ words_in line.now) }
{
    line.split(' ').collect(alloc)
}

/// A path: any word, which has one character at least.
pub fn path_of(alloc: Global, word: &str) -> Result<Option<Text>, NoMemory>
    ensures { IfOk result (λ o. o ≡ path_in word.now) }
{
    if word.is_empty() {
        return Ok(None);
    }
    Ok(Some(Text::from_str(alloc, word)?))
}

fn is_numeral(word: &str) -> bool
    ensures { result ≡ is_numeral_of word.now }
{
    let bytes = word.as_bytes();
    all_digits(bytes) && (!bytes.is_empty() && (bytes.len() == 1 || bytes[0] != b'0'))
}

fn all_digits(bytes: &[u8]) -> bool
    ensures { result ≡ list_all is_ascii_digit bytes.now }
{
    bytes.iter().all(|b| b.is_ascii_digit())
}

/// The number that a word is, up to a limit.
#[tactic(auto, unfolding(crate::specs::Words::number_of))]
pub fn number_of(most: u64, word: &str) -> Option<u64>
    ensures value { result ≡ number_in most word.now }
    ensures bound { IfSome result (λ n. n ≤ most) }
{
    if !is_numeral(word) {
        return None;
    }
    match word.parse::<u64>() {
        Ok(n) => { if n <= most { Some(n) } else { None } }
        Err(_) => None,
    }
}

/// The version that a word is, where `-1` stands for the one that matches any.
#[tactic(auto, unfolding(crate::specs::Words::version_of))]
pub fn version_of(word: &str) -> Option<u32>
    ensures { result ≡ version_in word.now }
{
    if word == "-1" {
        return Some(ANY_VERSION);
    }
    match number_of(LAST_COUNT as u64, word) {
        None => None,
        Some(version) => Some(version as u32),
    }
}

fn all_lower_hex(bytes: &[u8]) -> bool
    ensures { result ≡ list_all is_lower_hex bytes.now }
{
    bytes
        .iter()
        .all(|b| b.is_ascii_digit() || (97 <= *b && *b <= 102))
}

/// The bytes that a word is in lower-case hexadecimal.
#[tactic(auto, unfolding(crate::specs::Words::hex_of))]
pub fn hex_of(alloc: Global, word: &str) -> Result<Option<Vec<u8>>, NoMemory>
    ensures { IfOk result (λ o. option_map (λ v. v.items) o ≡ hex_in word.now) }
{
    if !all_lower_hex(word.as_bytes()) {
        return Ok(None);
    }
    match hex::decode(alloc, word) {
        Ok(bytes) => Ok(Some(bytes)),
        Err(hex::FromHexError::OutOfMemory) => Err(NoMemory),
        Err(_) => Ok(None),
    }
}

/// The same of one byte or more, and `-` for none.
#[tactic(auto, unfolding(crate::specs::Words::data_of))]
pub fn data_of(alloc: Global, word: &str) -> Result<Option<Vec<u8>>, NoMemory>
    ensures { IfOk result (λ o. option_map (λ v. v.items) o ≡ data_in word.now) }
{
    if word == "-" {
        return Ok(Some(Vec::new(alloc)));
    }
    if word.is_empty() {
        return Ok(None);
    }
    hex_of(alloc, word)
}

/// A password: 16 bytes in lower-case hexadecimal.
#[tactic(auto, unfolding(crate::specs::Words::passwd_of))]
pub fn passwd_of(alloc: Global, word: &str) -> Result<Option<[u8; 16]>, NoMemory>
    ensures { IfOk result (λ o. o ≡ passwd_in word.now) }
{
    match hex_of(alloc, word)? {
        None => Ok(None),
        Some(bytes) => Ok(array_of(bytes.as_slice())),
    }
}

fn array_of(bytes: &[u8]) -> Option<[u8; 16]>
    ensures { result ≡ of_16 (Some bytes.now) }
{
    if bytes.len() != 16 {
        return None;
    }
    let mut passwd = [0u8; 16];
    passwd.copy_from_slice(bytes);
    Some(passwd)
}
