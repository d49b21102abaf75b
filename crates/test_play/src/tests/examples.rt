//! The plays of the folder `examples` and their answers, byte by byte. Their texts are in
//! `test_support`.
use super::scenes::status_of;
use sim_cli::Status;
use std::alloc::Global;
use std::process::Abort;
use test_support::examples::{EARLY_OR_TORN, PLAIN};

/// Returns whether a play writes its answers, or `None` if it is not laid out as one.
fn is_right(alloc: Global, example: &str) -> Option<bool> {
    let (_, texts) = example.split_once('\n')?;
    let (input, want) = texts.split_once("~\n")?;
    let want = want.replace(alloc, "; ", "\n").ok()?;
    let status = status_of(alloc, input.as_bytes(), b"", want.as_str());
    Some(status == Some(Status::Well))
}

#[test]
fn plays_the_examples(rt: HostRuntime) {
    for examples in [PLAIN, EARLY_OR_TORN] {
        assert!(rt; examples.starts_with('^'));
        for example in examples.split('^').skip(1) {
            assert!(rt; is_right(rt.alloc(), example) == Some(true), "{example}");
        }
    }
}
