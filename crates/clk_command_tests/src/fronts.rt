//! Every front of each file of the examples: it is read, or fails with a fault that such a text can have.

use crate::examples::ROWS;
use clk_command_fixtures::AMPLE;
use clk_packet::{FailingSink, FailingSource, Fault, FromRead, Traces};
use clk_script::run_script;
use clk_tree::Plan;
use std::alloc::Global;
use std::process::Abort;
use std::test::Fail;

/// The faults of a tree, except those of allocations, reads and writes.
const OF_TREES: [u8; 12] = [2, 3, 4, 5, 6, 7, 8, 9, 10, 11, 13, 18];

/// The faults of a script, except those of allocations, reads and writes.
const OF_SCRIPTS: [u8; 3] = [15, 16, 18];

/// The faults of a trace, except those of allocations, reads and writes.
const OF_TRACES: [u8; 2] = [14, 18];

// Fails unless there is no fault, or one of these.
fn assert_listed(rt: &impl Abort, fault: Option<Fault>, listed: &[u8], bytes: usize) {
    let fine = match fault {
        Some(fault) => listed.contains(&fault.number()),
        None => true,
    };
    assert!(rt; fine, "{fault:?} after {bytes} bytes");
}

fn assert_trees(rt: &impl Abort, alloc: Global, text: &[u8]) {
    for bytes in 0..=text.len() {
        let fault = Plan::read(alloc, &text[..bytes]).err();
        assert_listed(rt, fault, &OF_TREES, bytes);
    }
}

fn assert_traces(rt: &impl Abort, alloc: Global, text: &[u8]) {
    for bytes in 0..=text.len() {
        let fault = Traces::read_csv(alloc, &mut FromRead::new(&text[..bytes])).err();
        assert_listed(rt, fault, &OF_TRACES, bytes);
    }
}

// Fails unless each front of a script is run, or has a listed fault. Then nothing is written.
fn assert_scripts(rt: &impl Abort, alloc: Global, plan: &Plan, text: &[u8]) -> Result<(), Fail> {
    for bytes in 0..=text.len() {
        let mut reader = FailingSource::new(text[..bytes].to_vec(alloc)?, usize::MAX);
        let mut writer = FailingSink::new(vec![in alloc; 0; AMPLE]?);
        let fault = run_script(alloc, &mut reader, &mut writer, plan).err();
        assert!(rt; fault.is_none() || writer.taken().is_empty());
        assert_listed(rt, fault, &OF_SCRIPTS, bytes);
    }
    Ok(())
}

#[test]
fn fronts_of_examples_are_answered(rt: HostRuntime) -> Result<(), Fail> {
    for (files, words, ..) in ROWS {
        let [(_, tree), (_, input)] = files else {
            assert!(rt; false, "an example has two files");
            continue;
        };
        let plan = Plan::read(rt.alloc(), tree.as_bytes()).expect(&rt, "a tree");
        assert_trees(&rt, rt.alloc(), tree.as_bytes());
        if words.starts_with("script") {
            assert_scripts(&rt, rt.alloc(), &plan, input.as_bytes())?;
        } else {
            assert_traces(&rt, rt.alloc(), input.as_bytes());
        }
    }
    Ok(())
}
