//! What the fakes and the adapters keep of their calls.

ghost use Rattle.std.specs.Prelude.{◌≡◌, ◌≤◌, ◌↔◌, IsTrue};
ghost use Rattle.std.specs.List.{Contains};
ghost use Rattle.erlay_base.specs.Causes.{next_count};
ghost use Rattle.erlay_base.specs.WireCalls.{IsEndTold};

use base_types::Failed;

/// Counts one more call, and answers whether its number is one of `failing`.
pub fn is_to_fail(failing: &[u64], calls: &mut u64) -> bool
    ensures counted { calls.new ≡ next_count calls.old }
    ensures listed { IsTrue result ↔ Contains failing.now calls.new }
{
    *calls = calls.saturating_add(1);
    failing.contains(calls)
}

/// Counts one more fault.
pub fn fault(faults: &mut u64) -> Failed
    ensures counted { faults.new ≡ next_count faults.old }
    ensures later { faults.old ≤ faults.new }
{
    *faults = faults.saturating_add(1);
    Failed
}

/// Whether an input is over after a call that gave `count` bytes where there was `room` for so many.
pub fn is_over_after(is_over: bool, count: usize, room: usize) -> bool
    ensures { IsEndTold count room is_over result }
{
    is_over || (count == 0 && room > 0)
}
