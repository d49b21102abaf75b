//! Says on standard error why words are no condition of a scenario.
use sim_script::{Names, tell_bad_condition};
use std::alloc::Global;

/// Reports on standard error, in a sentence, why words are no condition of a scenario with these
/// names: which word is wrong or missing, or which host or probe there is not. If memory is wanted,
/// reports less. A failure of standard error is ignored.
pub fn report_condition<H: Eprint>(host: &H, alloc: Global, names: &Names, words: &str) {
    let mut said = String::new(alloc);
    let _whole = tell_bad_condition(names, words.as_bytes(), &mut said);
    let _told = eprintln!(host; "condition {words:?}: {said}");
}
