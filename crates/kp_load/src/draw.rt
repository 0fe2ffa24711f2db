//! What is drawn from a number.
ghost use Rattle.std.specs.Prelude.{◌≡◌, ◌<◌, ◌++◌, codes, IfOk};
ghost use Rattle.std.specs.Fmt.{decimal};
ghost use Rattle.std.specs.Int.{to_be_bytes, w64};
ghost use Rattle.kp_load.specs.Load.{next_number, kind_in, place_in};

use kp_model::{Bytes, NoMemory, Text};
use std::alloc::Global;

// The factor and the summand of the generator.
const FACTOR: u128 = 6_364_136_223_846_793_005;

const SUMMAND: u128 = 1_442_695_040_888_963_407;

// 2^64: how many numbers there are.
const RANGE: u128 = 18_446_744_073_709_551_616;

/// The number behind x.
pub fn next_number(x: u64) -> u64
    ensures { result ≡ next_number x }
{
    ((x as u128 * FACTOR + SUMMAND) % RANGE) as u64
}

/// Which kind of line is drawn, of 16.
pub fn kind_in(x: u64) -> u64
    ensures { result ≡ kind_in x }
{
    x / 8_589_934_592 % 16
}

/// Which node is drawn, of 64.
pub fn place_in(x: u64) -> u64
    ensures { result ≡ place_in x }
{
    x / 8_589_934_592 / 16 % 64
}

/// The path of the node that is drawn.
pub fn path_in(alloc: Global, x: u64) -> Result<Text, NoMemory>
    ensures { IfOk result (λ t. t ≡ codes "/n" ++ decimal (place_in x)) }
{
    let place = place_in(x);
    Ok(Text::from_string(format!(in alloc; "/n{place}")?))
}

/// The path of its children, without their running number.
pub fn child_in(alloc: Global, x: u64) -> Result<Text, NoMemory>
    ensures { IfOk result (λ t. t ≡ (codes "/n" ++ decimal (place_in x)) ++ codes "/s") }
{
    let place = place_in(x);
    Ok(Text::from_string(format!(in alloc; "/n{place}/s")?))
}

/// The data: the number in eight bytes, the highest first.
pub fn bytes_in(alloc: Global, x: u64) -> Result<Bytes, NoMemory>
    ensures { IfOk result (λ b. b ≡ to_be_bytes w64 x) }
{
    Ok(Bytes::from_vec(Vec::from_slice(alloc, &x.to_be_bytes())?))
}
