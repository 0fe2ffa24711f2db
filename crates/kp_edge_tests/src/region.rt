//! A region within its spare, at both ends.
ghost use Rattle.std.specs.Prelude.{◌≤◌};

use kp_region::{NoMemory, Region};

// Whether marks run on over pops at both ends, and a mark is given again.
fn runs_on(region: &mut Region) -> bool
    requires records { 3 ≤ region.old.spare_records }
    requires bytes { 4 ≤ region.old.spare_bytes }
{
    let marks = (region.push(&[1, 2]), region.push(&[3]));
    let counted = region.len() == 2 && !region.is_empty();
    let spared = region.spare_records() == 1 && region.spare_bytes() == 1;
    let popped = region.pop_back();
    let again = region.push(&[4]);
    let lent = region.get(2) == Some([4].as_slice())
        && region.run(1, 2) == Some([1, 2, 4].as_slice());
    marks == (1, 2) && counted && spared && popped && again == 2 && lent
}

// Whether both strings go at the front, and then no other does.
fn runs_out(region: &mut Region) -> bool {
    let first = region.pop_front() && region.get(1).is_none() && region.run(1, 2).is_none();
    first && region.pop_front() && !region.pop_front() && region.first() == 3
}

#[test]
fn marks_run_on_over_pops_at_both_ends(rt: HostRuntime) -> Result<(), NoMemory> {
    let mut region = Region::new(rt.alloc());
    region.reserve(3, 4)?;
    let told = runs_on(&mut region);
    let gone = runs_out(&mut region);
    assert!(rt; told && gone);
    Ok(())
}
