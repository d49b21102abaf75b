//! The pieces into which the places of a run are cut.
ghost use Rattle.std.specs.Prelude.{◌≡◌, ◌≤◌, ◌<◌};
ghost use Rattle.sim_scan.specs.Search.{pieces, piece};

use crate::places::Piece;

/// Returns the number of pieces of the places from `lo` to `hi`. Each but the last reaches to the
/// place before a multiple of `k`.
pub fn pieces(lo: u32, hi: u32, k: u32) -> u64
    requires least { 1 ≤ k }
    requires most { k ≤ 1024 }
    requires order { lo ≤ hi }
    requires end { hi ≤ 65536 }
    ensures { result ≡ pieces lo hi k }
{
    (hi / k - lo / k + 1) as u64
}

/// Returns piece number `i`, which must be below the number of pieces.
pub fn piece(lo: u32, hi: u32, k: u32, i: u64) -> Piece
    requires least { 1 ≤ k }
    requires most { k ≤ 1024 }
    requires order { lo ≤ hi }
    requires end { hi ≤ 65536 }
    requires number { i < pieces lo hi k }
    ensures { result ≡ piece lo hi k i }
{
    let first = (lo / k + i as u32) * k;
    Piece {
        lo: lo.max(first),
        hi: hi.min(first + (k - 1)),
    }
}
