//! What is written for a tree text, and a trace if there is one.

use clk_lint::lint;
use clk_packet::{FailingSink, Fault, FromRead, Traces};
use clk_tree::Plan;
use std::alloc::Global;
use std::process::Abort;

/// How many bytes a writer takes that isn't meant to fail.
pub const AMPLE: usize = 4096;

/// A tree text, a trace if there is one, and the lines of their warnings.
pub type Row = (&'static str, Option<&'static str>, &'static str);

/// Writes the warnings of a tree text and a trace to a sink that takes so many bytes. Returns the result, and what the sink took.
pub fn linted(
    alloc: Global,
    tree: &str,
    trace: Option<&str>,
    room: usize,
) -> Result<(Result<(), Fault>, Vec<u8>), Fault> {
    let plan = Plan::read(alloc, tree.as_bytes())?;
    let mut writer = FailingSink::new(vec![in alloc; 0; room]?);
    let outcome = match trace {
        None => lint(alloc, &plan, None, &mut writer),
        Some(text) => {
            let traces = Traces::read_csv(alloc, &mut FromRead::new(text.as_bytes()))?;
            lint(alloc, &plan, Some(&traces), &mut writer)
        }
    };
    Ok((outcome, writer.taken().to_vec(alloc)?))
}

/// Fails unless each row has the lines that it says.
pub fn assert_rows(rt: &(impl Abort + AllocGlobal), rows: &[Row]) {
    for (tree, trace, lines) in rows {
        let (outcome, written) = linted(rt.alloc(), tree, *trace, AMPLE).expect(
            rt,
            "a sound tree and trace",
        );
        assert_eq!(rt; outcome, Ok(()), "at {tree}");
        assert_eq!(rt; written.as_slice(), lines.as_bytes(), "at {tree}");
    }
}
