//! Entries and the strings of a region.

ghost use Rattle.std.specs.Prelude.{◌≡◌, ◌+◌, ◌-◌, ◌<◌, ◌≤◌, ◌++◌, Some, length, map, drop, take, option_map, slice_get, IfSome};
ghost use Rattle.std.specs.List.{AllByRecursion};
ghost use Rattle.kp_entry.specs.Entries.{entries};
ghost use Rattle.kp_entry.specs.Heads.{part_of};
ghost use Rattle.kp_raftlog.specs.Kept.{total};

use kp_entry::Entries;
use kp_region::Region;

/// Takes the first strings away, as many as `count` says.
pub(crate) fn pop_before(region: &mut Region, count: u64)
    requires { count ≤ length region.old.strings }
    ensures { region.new.strings ≡ drop count region.old.strings }
{
    for _ in 0..count {
        region.pop_front();
    }
}

/// Takes the last strings away, as many as `count` says.
pub(crate) fn pop_behind(region: &mut Region, count: u64)
    requires { count ≤ length region.old.strings }
    ensures strings { region.new.strings ≡ take (length region.old.strings - count) region.old.strings }
    ensures records { region.new.spare_records ≡ region.old.spare_records }
    ensures bytes { region.new.spare_bytes ≡ region.old.spare_bytes }
{
    for _ in 0..count {
        region.pop_back();
    }
}

/// The bytes of the entry at this place, counted from 0.
fn bytes_of(from: &Entries, index: usize) -> &[u8]
    requires { index < length from.now }
    ensures bytes { Some result.now ≡ option_map entries.spell (slice_get from.now index) }
    ensures fits { IfSome (slice_get from.now index) entries.Fits }
{
    match from.bytes_at(index) {
        None => &[],
        Some(bytes) => bytes,
    }
}

/// How many bytes the entries have together that stand from the place `first` on and before `until`. None where they are
/// too many to count.
pub(crate) fn total_len(from: &Entries, first: usize, until: usize) -> Option<usize>
    requires from { first ≤ until }
    requires to { until ≤ length from.now }
    ensures { IfSome result (λ n. n ≡ total (part_of first until from.now)) }
{
    let mut sum: usize = 0;
    for index in first..until {
        let len = bytes_of(from, index).len();
        if len > usize::MAX - sum {
            return None;
        }
        sum += len;
    }
    Some(sum)
}

/// Pushes the entries from the place `first` on and before `until`, for which there is room.
pub(crate) fn push_all(region: &mut Region, from: &Entries, first: usize, until: usize)
    requires from { first ≤ until }
    requires to { until ≤ length from.now }
    requires records { until - first ≤ region.old.spare_records }
    requires bytes { total (part_of first until from.now) ≤ region.old.spare_bytes }
    ensures strings { region.new.strings ≡ region.old.strings ++ map entries.spell (part_of first until from.now) }
    ensures fits { AllByRecursion entries.Fits (part_of first until from.now) }
{
    for index in first..until {
        region.push(bytes_of(from, index));
    }
}
