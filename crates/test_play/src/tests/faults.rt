//! Texts that are no scenarios, and plays without a script.
use super::scenes::{status_of, status_of_row};
use sim_cli::Status;
use std::process::Abort;
use std::test::Fail;

/// A row a line: edits of a scenario, as in `status_of_row`, and their fault.
const EDITS: &str = r#"seed = "00 -> seed = "0 | 6 seed
format = 1 -> format = "1" | 5 format
format = 1 -> format = 3 | 8 format
"echo" -> "paxos" | 7 protocol
ops = 2 -> ops = 0 | 9 client
name = "w" -> name = "W" | 10 client
name = "w" -> name = "a" | 12 client
format = 1 -> format = 2; disk_latency = 0 & ops = 2 -> ops = 2; [[link]]; source = "w"; target = "z"; latency_min = 3; latency_max = 3; loss = 0 | 13 link
format = 1 -> format = 2; disk_latency = 0 & ops = 2 -> ops = 2; [[link]]; source = "w"; target = "w"; latency_min = 3; latency_max = 3; loss = 0 | 13 link
format = 1 -> format = 2; disk_latency = 0 & ops = 2 -> ops = 2; [[link]]; source = "w"; target = "a"; latency_min = 3; latency_max = 3; loss = 0; [[link]]; source = "w"; target = "a"; latency_min = 3; latency_max = 3; loss = 0 | 14 link
format = 1 -> format = 2 & ops = 2 -> ops = 2; [[link]]; source = "w"; target = "a"; latency_min = 3; latency_max = 3; loss = 0 | 4 disk_latency
ops = 2 -> ops = 2; [[link]]; source = "w"; target = "a"; latency_min = 3; latency_max = 3; loss = 0 | 3 link
format = 1 -> format = 1; disk_latency = 0 & ops = 2 -> ops = 2; [[link]]; source = "w"; target = "a"; latency_min = 3; latency_max = 3; loss = 0 | 3 disk_latency
format = 1 -> format = 3; disk_latency = 0 & ops = 2 -> ops = 2; [[link]]; source = "w"; target = "a"; latency_min = 3; latency_max = 3; loss = 0 | 3 disk_latency"#;

/// Each fault is told with a script after the scenario and without. The scenario alone has none.
#[test]
fn tells_each_fault(rt: HostRuntime) -> Result<(), Fail> {
    let alloc = rt.alloc();
    assert_eq!(rt; status_of_row(alloc, "- | - | -"), Some(Status::Well));
    for row in EDITS.lines() {
        for script in [" | - | scenario fault ", " | ---; step | scenario fault "] {
            let row = row.replace(alloc, " | ", script)?;
            let status = status_of_row(alloc, row.as_str());
            assert!(rt; status == Some(Status::BadScenario), "{row}");
        }
    }
    Ok(())
}

/// A scenario that ends after its third line.
const CUT: &[u8] =
    b"format = 1\nseed = \"0000000000000000000000000000000000000000000000000000000000000000\"\nprotocol = \"echo\"\n";

#[test]
fn tells_faults_of_texts(rt: HostRuntime) -> Result<(), Fail> {
    let alloc = rt.alloc();
    let long = "#".repeat(alloc, 65_537)?;
    for (text, want) in [
        (b"".as_slice(), "scenario fault 4 format\n"),
        (b"\xff\n".as_slice(), "scenario fault 2 text\n"),
        (b"format = 1\n[".as_slice(), "scenario fault 2 text\n"),
        (CUT, "scenario fault 4 tick\n"),
        (long.as_bytes(), "scenario fault 1 text\n"),
    ] {
        // The last line of a text may lack its end.
        for script in [
            b"".as_slice(),
            b"---\nstep\n".as_slice(),
            b"\n---\nstep\n".as_slice(),
        ] {
            let status = status_of(alloc, text, script, want);
            assert_eq!(rt; status, Some(Status::BadScenario), "{want}");
        }
    }
    Ok(())
}
