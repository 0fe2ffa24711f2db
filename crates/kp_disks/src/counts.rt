ghost use Rattle.std.specs.Prelude.{◌≡◌};
ghost use Rattle.kp_io.specs.Faults.{one_more};

// A count after one more: it stands still at the end of its type.
pub fn raised(count: u64) -> u64
    ensures { result ≡ one_more count }
{
    count.saturating_add(1)
}
