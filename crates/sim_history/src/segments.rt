//! Entries in shared segments of one length, and a last part.
ghost use Rattle.std.specs.Prelude.{◌≡◌, ℕ, ◌+◌, ◌*◌, ◌<◌, ◌≤◌, ◌++◌, length, take, drop};
ghost use Rattle.std.specs.Prelude.{slice_get, Some};
ghost use Rattle.sim_history.specs.Segments.{joined, AreSegments, stretch};

use crate::entry::Entry;
use crate::shared_list::SharedList;

/// Segments of one length, shared and never changed.
pub(crate) type Segments = SharedList<Vec<Entry>>;

/// Returns the number of entries.
pub(crate) fn count(interval: usize, segments: &Segments, last: &[Entry]) -> usize
    requires full { AreSegments interval segments.now.items }
    requires few { length (joined segments.now.items ++ last.now) ≤ 65536 }
    ensures { result ≡ length (joined segments.now.items ++ last.now) }
{
    segments.len() * interval + last.len()
}

/// Returns the entry at a place.
pub(crate) fn entry(interval: usize, segments: &Segments, last: &[Entry], i: usize) -> Entry
    requires some { 0 < interval }
    requires full { AreSegments interval segments.now.items }
    requires inside { i < length (joined segments.now.items ++ last.now) }
    requires few { length (joined segments.now.items ++ last.now) ≤ 65536 }
    ensures { slice_get (joined segments.now.items ++ last.now) i ≡ Some result }
{
    let whole = i / interval;
    if whole < segments.len() {
        let segment = segments.get(whole).as_slice();
        segment[i % interval]
    } else {
        last[i - segments.len() * interval]
    }
}

/// Returns the entries from a place up to another, or up to the end of the segment that holds the
/// first.
pub(crate) fn stretch<'a>(
    interval: usize,
    segments: &'a Segments,
    last: &'a [Entry],
    from: usize,
    to: usize,
) -> &'a [Entry]
    requires some { 0 < interval }
    requires full { AreSegments interval segments.now.items }
    requires order { from < to }
    requires within { to ≤ length (joined segments.now.items ++ last.now) }
    requires few { length (joined segments.now.items ++ last.now) ≤ 65536 }
    requires short { length last.now ≤ interval }
    ensures { result.now ≡ take (stretch interval from to)
        (drop from (joined segments.now.items ++ last.now)) }
{
    let whole = from / interval;
    if whole < segments.len() {
        let segment = segments.get(whole).as_slice();
        let start = from % interval;
        &segment[start..interval.min(start + (to - from))]
    } else {
        let before = segments.len() * interval;
        &last[from - before..to - before]
    }
}

/// Returns the number of whole segments that the first `count` entries fill, and the entries after
/// these.
pub(crate) fn head<'a>(
    interval: usize,
    segments: &'a Segments,
    last: &'a [Entry],
    count: usize,
) -> (usize, &'a [Entry])
    requires some { 0 < interval }
    requires full { AreSegments interval segments.now.items }
    requires within { count ≤ length (joined segments.now.items ++ last.now) }
    requires few { length (joined segments.now.items ++ last.now) ≤ 65536 }
    requires short { length last.now ≤ interval }
    ensures entries { joined (take result.0 segments.now.items) ++ result.1.now ≡ take count
        (joined segments.now.items ++ last.now) }
    ensures whole { result.0 ≤ length segments.now.items }
    ensures short { length result.1.now ≤ interval }
{
    let whole = count / interval;
    if whole < segments.len() {
        let segment = segments.get(whole).as_slice();
        (whole, &segment[..count % interval])
    } else {
        (segments.len(), &last[..count - segments.len() * interval])
    }
}
