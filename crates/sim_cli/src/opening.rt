//! Reads the scenario before a task, and reports its fault.
ghost use Rattle.std.specs.Prelude.{◌≡◌, ◌≤◌, ◌<◌, ℕ, List, Some, length, map, vec_len};
ghost use Rattle.std.specs.Prelude.{IfOk, IfErr, string_bytes};
ghost use Rattle.std.specs.Io.KnownBytes.{prepend_known};
ghost use Rattle.sim_lines.specs.Waiting.{CountsReads};
ghost use Rattle.sim_scenario.specs.Hosts.{names_in};
ghost use Rattle.sim_scenario.specs.Limits.{IsWithinLimits};
ghost use Rattle.sim_scenario.specs.Seen.{seen};
ghost use Rattle.sim_cli.specs.Answers.{Writes};
ghost use Rattle.sim_cli.specs.Opens.{IsNotOpened, IsOpened, WritesFault};
ghost use Rattle.sim_cli.specs.Play.{names_of, scenario};
ghost use Rattle.sim_cli.specs.Subjects.{nodes_by};

use crate::explaining::explain_fault;
use crate::opened::Opened;
use crate::scenario::{WasRead, read_scenario};
use crate::status::{Answered, Status};
use crate::subjects::Subjects;
use indexmap::IndexMap;
use sim_lines::{Ahead, HeadError, put, read_head};
use sim_node::Setup;
use sim_scenario::ScenarioText;
use sim_script::Names;
use sim_world::Scenario;
use std::alloc::{AllocError, Global};
use std::io::{Read, Write};

// Returns the names of the hosts in the order of their numbers. Fails only for want of memory.
fn host_names(alloc: Global, hosts: IndexMap<String, u16>) -> Result<Vec<String>, AllocError>
    ensures { IfOk result (λ names. map string_bytes names.items ≡ names_in hosts) }
{
    hosts.into_keys().collect(alloc)
}

// Returns the scenario of a run and its names, from the text that was read and the names of the
// probes in the order of their numbers. Fails only for want of memory.
fn set_up(
    alloc: Global,
    text: ScenarioText,
    probes: Vec<String>,
) -> Result<(Scenario, Names), AllocError>
    requires within { IsWithinLimits (seen text) }
    requires few { vec_len probes ≤ 255 }
    ensures scenario { IfOk result (λ r. r.0 ≡ scenario (seen text)) }
    ensures names { IfOk result (λ r. r.1
        ≡ record { hosts = names_in text.names; probes = map string_bytes probes.items }) }
{
    let hosts = text.names.len() as u16;
    let names = host_names(alloc, text.names)?;
    let setup = Setup {
        servers: text.servers,
        hosts,
        ops: text.ops,
    };
    let Ok(scenario) = Scenario::new(
        text.seed,
        text.tick,
        text.ways,
        text.disk_latency,
        setup,
        text.checkpoint,
        text.window,
    ) else {
        unreachable!()
    };
    Ok((scenario, Names::new(names, probes)))
}

/// Writes `text` and flushes the writer. If the writer fails, it has taken some front of the text.
pub fn write_text<W: Write>(writer: &mut W, text: &[u8]) -> Answered
    ensures { Writes (W.contents writer.old) (W.contents writer.new) text.now result }
{
    match put(writer, text) {
        Ok(()) => match writer.flush() {
            Ok(()) => Answered::Well,
            Err(_) => Answered::WriterFailed,
        },
        Err(_) => Answered::WriterFailed,
    }
}

// Writes the line of a scenario's fault.
fn write_fault<W: Write>(writer: &mut W, line: &[u8]) -> Status
    ensures { WritesFault (W.contents writer.old) (W.contents writer.new) line.now result }
{
    match write_text(writer, line) {
        Answered::Well => Status::BadScenario,
        Answered::WriterFailed => Status::WriterFailed,
        Answered::MemoryWanted => unreachable!(),
    }
}

// Returns the scenario that was read from `text`, with the names for nodes of its protocol. Fails
// only for want of memory.
fn ready<L: Subjects>(alloc: Global, said: ScenarioText, text: Vec<u8>) -> Result<Opened, Status>
    requires within { IsWithinLimits (seen said) }
    requires known { said.protocol < length L.listed }
    ensures protocol { IfOk result (λ o. o.protocol ≡ said.protocol) }
    ensures scenario { IfOk result (λ o. o.scenario ≡ scenario (seen said)) }
    ensures names { IfOk result (λ o. o.names ≡ names_of (nodes_by L.nodes) (seen said)) }
    ensures text { IfOk result (λ o. o.text.items ≡ text.items) }
    ensures wants { IfErr result (λ status. status ≡ Status.MemoryWanted) }
{
    let protocol = said.protocol;
    let seed = said.seed;
    let Ok(probes) = L::probe_names(alloc, protocol) else {
        return Err(Status::MemoryWanted);
    };
    let Ok((scenario, names)) = set_up(alloc, said, probes) else {
        return Err(Status::MemoryWanted);
    };
    Ok(Opened {
        protocol,
        scenario,
        names,
        seed,
        text,
    })
}

/// Reads a scenario that names one of the subjects, up to the line `---` after it. Otherwise fails
/// with the exit status of the program. Then it has written the line of the scenario's fault, or a
/// part of it if the writer failed, or nothing if the reader failed or memory was wanted.
/// `explain_fault` also explains the fault on standard error.
pub fn open<L: Subjects, H: Eprint, R: Read, W: Write>(
    host: &H,
    alloc: Global,
    reader: &mut R,
    ahead: &mut Ahead,
    writer: &mut W,
) -> Result<Opened, Status>
    requires few { length L.listed ≤ 255 }
    ensures opened { (given : List ℕ) →
        prepend_known ahead.old.bytes (R.remaining reader.old) ≡ Some given →
        IfOk result (IsOpened L.listed (nodes_by L.nodes) given
        (prepend_known ahead.new.bytes (R.remaining reader.new))) }
    ensures known { IfOk result (λ o. o.protocol < length L.listed) }
    ensures same { IfOk result (λ _. W.contents writer.new ≡ W.contents writer.old) }
    ensures not { (given : List ℕ) →
        prepend_known ahead.old.bytes (R.remaining reader.old) ≡ Some given →
        IfErr result (IsNotOpened L.listed given ahead.new (R.remaining reader.new)
        (W.contents writer.old) (W.contents writer.new)) }
    ensures counts { CountsReads ahead.old ahead.new
        (R.remaining reader.old) (R.remaining reader.new) }
{
    let text = match read_head(alloc, reader, ahead) {
        Ok(text) => text,
        Err(HeadError::Failed) => return Err(Status::ReaderFailed),
        Err(HeadError::NoMemory) => return Err(Status::MemoryWanted),
    };
    match read_scenario::<L>(alloc, text.as_slice()) {
        WasRead::Scenario(said) => ready::<L>(alloc, said, text),
        WasRead::Fault(line) => {
            let status = write_fault(writer, line.as_bytes());
            explain_fault::<L, H>(host, alloc, text.as_slice());
            Err(status)
        }
        WasRead::NoMemory => Err(Status::MemoryWanted),
    }
}
