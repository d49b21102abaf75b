//! The ten bytes that a server forces to its disk, with the outcome of transaction 1.
ghost use Rattle.std.specs.Prelude.{◌≡◌, ◌+◌, ◌<◌, ◌++◌, length};
ghost use Rattle.sim_two_phase.specs.TwoPhase.{byte_of_first, first_of_byte, server_bytes, forced};
ghost use Rattle.sim_two_phase.specs.TwoPhase.{noted};

use crate::{CommitMsg, First};
use sim_hosts::put_number;
use sim_node::Effects;

/// Returns the outcome of transaction 1, after `transaction` got its outcome.
pub fn noted(transaction: u64, outcome: First, before: First) -> First
    ensures { result ≡ noted transaction outcome before }
{
    if transaction == 1 { outcome } else { before }
}

/// Returns the outcome of transaction 1 for its byte on a disk.
pub fn first_of_byte(byte: u8) -> First
    ensures { result ≡ first_of_byte byte }
{
    match byte {
        1 => First::Committed,
        2 => First::Aborted,
        _ => First::Open,
    }
}

/// Returns the byte for an outcome of transaction 1.
pub fn byte_of_first(first: First) -> u8
    ensures { result ≡ byte_of_first first }
{
    match first {
        First::Open => 0,
        First::Committed => 1,
        First::Aborted => 2,
    }
}

/// Returns a server's 10 bytes: the transaction, the commit flag or the status, and the outcome of
/// transaction 1.
fn server_bytes(transaction: u64, byte: u8, first: First) -> [u8; 10]
    ensures { result ≡ server_bytes transaction byte first }
{
    let mut bytes = [0; 10];
    put_number(&mut bytes, 0, transaction);
    bytes[8] = byte;
    bytes[9] = byte_of_first(first);
    bytes
}

/// Writes a server's bytes to its disk, and asks for a sync.
pub fn force(transaction: u64, byte: u8, first: First, effects: &mut Effects<CommitMsg>)
    requires { length effects.old.list < 38 }
    ensures { effects.new ≡ record effects.old {
      list = effects.old.list ++ forced transaction byte first;
    } }
{
    effects.write(0, &server_bytes(transaction, byte, first));
    effects.sync();
}
