//! Ranges of a site's logs: entries by their origin and numbers, without their messages.

ghost use Rattle.std.specs.Prelude.{◌≡◌, ◌+◌, ◌++◌, ◌<◌, ◌^◌, ℕ, List, drop, length, OnOk};
ghost use Rattle.sct_message.specs.declared.draft.Draft.{Draft};
ghost use Rattle.sct_delta.specs.Entries.{numbered};
ghost use Rattle.sct_site.specs.Ranges.{in_ranges, size_of, HaveEntries, ReachEnds};

use std::alloc::AllocError;

/// The entries of one origin that are numbered above `above`, up to `upto`.
#[derive(Debug, Clone, Copy, PartialEq, Eq)]
pub struct LogRange {
    pub origin: u16,
    pub above: u64,
    pub upto: u64,
}

/// How many entries ranges have, if logs reach to their ends. O(ranges).
pub fn entries_in(ranges: &[LogRange]) -> u64
    requires { size_of ranges.now < 2 ^ 64 }
    ensures { result ≡ size_of ranges.now }
{
    let mut entries = 0;
    for range in ranges {
        entries += range.upto.saturating_sub(range.above);
    }
    entries
}

/// Appends the range of the entries of an origin that are numbered above `have`, up to `count`, if there is one.
pub(crate) fn push_range(
    ranges: &mut Vec<LogRange>,
    origin: u16,
    have: u64,
    count: u64,
) -> Result<(), AllocError>
    ensures entries { OnOk result ((log : ℕ → List Draft) → count ≡ length (log origin)
        → in_ranges log ranges.new.items
        ≡ in_ranges log ranges.old.items ++ numbered origin (have + 1) (drop have (log origin))) }
    ensures ends { OnOk result ((log : ℕ → List Draft) → count ≡ length (log origin)
        → ReachEnds log ranges.old.items → ReachEnds log ranges.new.items) }
    ensures filled { OnOk result (HaveEntries ranges.old.items → HaveEntries ranges.new.items) }
{
    if have < count {
        ranges.push(LogRange {
            origin,
            above: have,
            upto: count,
        })?;
    }
    Ok(())
}
