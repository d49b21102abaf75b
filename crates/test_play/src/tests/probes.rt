//! The names of probes.
use sim_protocols::{Protocol, probe_name, probe_number};
use std::process::Abort;

#[test]
fn probes_have_names(rt: HostRuntime) {
    for (protocol, k, name) in [
        (Protocol::Echo, 0, "next"),
        (Protocol::Echo, 1, "served"),
        (Protocol::PrimaryBackup, 0, "next"),
        (Protocol::PrimaryBackup, 1, "applied"),
        (Protocol::AbdRegister, 0, "next"),
        (Protocol::AbdRegister, 1, "num"),
        (Protocol::AbdRegister, 2, "val"),
        (Protocol::TwoPhase, 0, "next"),
        (Protocol::TwoPhase, 1, "first"),
    ] {
        assert_eq!(rt; probe_number(protocol, name), Some(k), "{name}");
        assert_eq!(rt; probe_name(protocol, k), Some(name), "{k}");
    }
    assert_eq!(rt; probe_number(Protocol::Echo, "serve"), None);
    assert_eq!(rt; probe_name(Protocol::Echo, 2), None);
}
