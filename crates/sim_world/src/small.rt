//! The small changes of a world, as contracts see them.
use sim_disk::DiskUndo;
use sim_links::LinkUndo;
use sim_pending::Occurrence;
use sim_queue::Item;

/// A small change of a world, as contracts see it. The code builds none: it stores the same as
/// `Compact`, in less memory.
#[derive(Drop)]
pub enum Small<S, M, U> {
    /// An occurrence was taken out: by a step, for a new timer, by a crash.
    Took(Item<Occurrence<M>>),
    /// An occurrence was queued.
    Queued,
    /// The clock was at this time (ms).
    Timed(u64),
    /// This number of words of a stream was drawn.
    Drew(u16, u64),
    /// The node of a host reacted.
    Acted(u16, U),
    /// A host lost this node.
    Stopped(u16, S),
    /// A host got a node.
    Booted(u16),
    /// A host that was not done became done.
    Finished(u16),
    /// The disk of a host changed: by a write, a sync that asks, a sync that comes, a crash.
    Stored(u16, DiskUndo),
    /// A direction got a message that it holds.
    KeptBack(u16, u16),
    /// A direction changed, and the messages that left it were dropped.
    Changed(LinkUndo, Vec<M>),
    /// A direction changed, and this number of messages that left it are the newest in the queue.
    Released(LinkUndo, u64),
}
