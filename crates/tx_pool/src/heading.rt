//! The heading of a pool file.

ghost use Rattle.std.specs.Prelude.{◌≡◌};
ghost use Rattle.pool_rules.specs.PoolFile as file;

use crate::number::number_within;
use pool_rules::POOL_LIMIT;

/// What the heading of a text of form 2 begins with.
pub(crate) const FORM: &[u8] = b"pool 2 ";

/// Whether a line begins as a heading of any form does.
pub(crate) fn is_heading(line: &[u8]) -> bool
    ensures { result ≡ file.is_heading line.now }
{
    line.starts_with(b"pool ")
}

/// The number that a heading tells.
pub(crate) fn heading_count(line: &[u8]) -> Option<u64>
    ensures { result ≡ file.heading_count line.now }
{
    number_within(0, POOL_LIMIT as u64, line.strip_prefix(FORM)?)
}
