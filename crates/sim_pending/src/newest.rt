//! The newest messages of a queue.
ghost use Rattle.std.specs.Prelude.{◌≡◌, [], ◌∷◌, IfOk, OnOk};
ghost use Rattle.sim_queue.specs.Pending.{uninsert_all};
ghost use Rattle.sim_pending.specs.Recall.{AreNewest, newest_messages};

use crate::NoMemory;
use crate::occurrence::Occurrence;
use sim_node::Input;
use sim_queue::Queue;
use std::alloc::Global;

// Takes out the newest occurrence, which must be a message from a to b. Returns the message.
fn recall_one<M: Drop>(queue: &mut Queue<Occurrence<M>>, a: u16, b: u16) -> M
    requires { AreNewest 1 a b queue.old }
    ensures queue { queue.new ≡ uninsert_all 1 queue.old }
    ensures message { newest_messages 1 queue.old [] ≡ result ∷ [] }
{
    match queue.uninsert().body.input {
        Input::Message { msg, .. } => msg,
        Input::Start | Input::Timer | Input::Synced => unreachable!(),
    }
}

/// Takes the newest `count` occurrences out of a queue, which must be messages from a to b. Returns
/// the messages in the order in which they were sent. Fails only for want of memory; the queue may
/// lack some of them then.
pub fn recall<M: Drop>(
    alloc: Global,
    queue: &mut Queue<Occurrence<M>>,
    a: u16,
    b: u16,
    count: u64,
) -> Result<Vec<M>, NoMemory>
    requires { AreNewest count a b queue.old }
    ensures queue { OnOk result (queue.new ≡ uninsert_all count queue.old) }
    ensures messages { IfOk result (λ messages.
        messages.items ≡ newest_messages count queue.old []) }
{
    let mut messages = Vec::new(alloc);
    let mut left = count;
    while left > 0 {
        messages.push(recall_one(queue, a, b))?;
        left -= 1;
    }
    messages.reverse();
    Ok(messages)
}
