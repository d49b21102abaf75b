//! How a message crosses an open link.
ghost use Rattle.std.specs.Prelude.{◌≡◌, ◌+◌, ◌^◌, ◌≤◌, slice_index, slice_set};
ghost use Rattle.sim_streams.specs.Word.{word, network};
ghost use Rattle.sim_links.specs.Ways.{IsWay};
ghost use Rattle.sim_pending.specs.Fate.{latency, is_lost};

use sim_links::Way;
use sim_node::MAX_LOSS;
use sim_streams::Streams;

/// How a message crosses an open link: its latency (ms, at most 60,000), and whether it is lost.
#[derive(Clone, Copy)]
pub struct Crossing {
    pub latency: u64,
    pub is_lost: bool,
}

/// Returns the latency of a message over an open link (ms), by a word.
#[inline(always)]
pub fn latency(way: Way, word: u32) -> u64
    requires { IsWay way }
    ensures value { result ≡ latency way word }
    ensures bound { result ≤ 60000 }
{
    u64::from(way.latency_min + word % (way.latency_max - way.latency_min + 1))
}

/// Draws the two words of a message over an open link from the network's stream: the first is for
/// its latency, the second for its loss. It draws both for each message, also where the latency is
/// fixed and nothing is lost, so the words of later messages do not depend on the links.
#[inline(always)]
pub fn draw_crossing(streams: &mut Streams, way: Way) -> Crossing
    requires room { slice_index streams.old.places network + 2 ≤ 2 ^ 40 }
    requires way { IsWay way }
    ensures latency { result.latency ≡ latency way
        (word streams.old.seed network (slice_index streams.old.places network)) }
    ensures lost { result.is_lost ≡ is_lost way
        (word streams.old.seed network (slice_index streams.old.places network + 1)) }
    ensures bound { result.latency ≤ 60000 }
    ensures streams { streams.new ≡ record streams.old {
      places = slice_set streams.old.places network (slice_index streams.old.places network + 2);
    } }
{
    let (late, loss) = streams.draw_two(0);
    Crossing {
        latency: latency(way, late),
        is_lost: loss % MAX_LOSS < way.loss,
    }
}
