//! What is done with a text, and with the plan that it denotes.

use clk_sched::Session;
use clk_tree::Plan;
use std::alloc::Global;
use std::process::Abort;

/// Fails unless each text has the fault with its line, which has no line feed, or no fault if the line is empty.
pub fn assert_answers(rt: &impl Abort, alloc: Global, rows: &[(&str, &str)]) {
    for (text, line) in rows {
        assert_answer(rt, alloc, text.as_bytes(), line);
    }
}

/// Fails unless a text has the fault with this line, or no fault if the line is empty.
pub fn assert_answer(rt: &impl Abort, alloc: Global, text: &[u8], line: &str) {
    match Plan::read(alloc, text) {
        Ok(_) => assert_eq!(rt; "", line),
        Err(fault) => {
            let told = format!(in alloc; "{fault}").expect(rt, "memory");
            assert_eq!(rt; told.as_str(), line);
        }
    }
}

/// The plan that a text denotes.
pub fn plan_of(rt: &impl Abort, alloc: Global, text: &[u8]) -> Plan {
    Plan::read(alloc, text).expect(rt, "a plan")
}

/// The canonical text of a plan.
pub fn written_of(rt: &impl Abort, alloc: Global, plan: &Plan) -> Vec<u8> {
    plan.write(alloc).expect(rt, "memory")
}

/// A session over the tree of a device of a plan.
pub fn session_of(rt: &impl Abort, alloc: Global, plan: &Plan, device: u16) -> Session {
    assert!(rt; device < plan.devices());
    let tree = plan.tree(alloc, device).expect(rt, "memory");
    Session::new(alloc, tree).expect(rt, "a session")
}
