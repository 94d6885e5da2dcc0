ghost use Rattle.std.specs.Prelude.{◌≡◌};
ghost use Rattle.at_io.specs.Faults.{Rose, next_count};

/// A count after one more: at its last value it stays.
pub fn raised(count: u64) -> u64
    ensures value { result ≡ next_count count }
    ensures rose { Rose count result }
{
    count.saturating_add(1)
}
