//! Scripts whose visits are kept: each ends and writes as it does if none are kept.

use clk_packet::{FailingSink, FailingSource, Fault};
use clk_script::run_script_logged;
use clk_tree::Plan;
use std::alloc::Global;
use std::process::Abort;

/// Fails unless a script whose visits are kept ends in this way over a tree, and writes exactly this.
pub fn assert_logged(
    rt: &impl Abort,
    alloc: Global,
    tree: &str,
    script: &[u8],
    outcome: Result<(), Fault>,
    expected: &[u8],
) {
    let run = logged(alloc, tree, script, expected.len());
    let (ended, written) = run.expect(rt, "ample memory");
    assert_eq!(rt;
        (ended, written.as_slice()),
        (outcome, expected),
        "with visits, at {script:?}"
    );
}

// How the script ends, and what it writes, if the writer fails after it has taken `room` bytes.
fn logged(
    alloc: Global,
    tree: &str,
    script: &[u8],
    room: usize,
) -> Result<(Result<(), Fault>, Vec<u8>), Fault> {
    let mut reader = FailingSource::new(script.to_vec(alloc)?, usize::MAX);
    let mut writer = FailingSink::new(vec![in alloc; 0; room]?);
    let outcome = match Plan::read(alloc, tree.as_bytes()) {
        Ok(plan) => match run_script_logged(alloc, &mut reader, &mut writer, &plan) {
            Ok(_) => Ok(()),
            Err(fault) => Err(fault),
        },
        Err(fault) => Err(fault),
    };
    Ok((outcome, writer.taken().to_vec(alloc)?))
}
