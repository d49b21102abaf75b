//! Worked runs of primary-backup, of the register and of two-phase commit: computed as lemmas over
//! the definitions in `proofs/`, and played in a world as tests.
//!
//! Each node is proved to do what its table says, and the table is a definition. Whether that
//! definition is the table of docs/PROTOCOLS.md, a reader has to judge, and these rows help: small
//! runs that can be worked out by hand, with lemmas on what is seen after them.
//!
//! - `proofs/`: rows of primary-backup, the register and two-phase commit, each a run with what a
//!   query shows after it. `ProtocolBase.antt` has what they stand on.
//! - `plays`: the same runs in a world, there, back by the records, and there again. And rough
//!   runs, over slow links that lose messages, while each server in turn stops and starts. Another
//!   implementation of the same tables computed their ends.
//! - `boots`: servers that boot from given bytes, also from those that a torn write leaves.
//!
//! These tests show that the servers agree at the end of a rough run; no clause says it.
//!
//! What each test would catch, where proofs say nothing or definitions may be wrong:
//!
//! * `backups_play`, `registers_play`, `participants_play`: a node that never has memory; a table
//!   of a protocol that is not the one in plain words, in worked runs and in rough ones, over slow
//!   links that lose messages while each server in turn crashes and starts again. Another
//!   implementation of the same tables computes the end of a rough run; all servers agree there.
//! * `servers_show_what_they_booted`: probes of a server that boots from given bytes, also from
//!   those that a torn write has left.
mod boots;
mod plays;
