//! Tasks over sources and sinks that fail in mid-stream: what was written then, and what wasn't.

use clk_command::{
    Pace, check_tree, run_over, run_then_visits, run_with_visits, script_over, script_then_visits,
    script_with_visits,
};
use clk_command_fixtures::AMPLE;
use clk_packet::{FailingSink, FailingSource, Fault, read_up_to};
use clk_rows::PRIO_TWO_QUEUES;
use std::alloc::{AllocError, Global};
use std::process::Abort;
use std::sync::Wait;
use std::test::Fail;
use std::thread::Threads;

const TRACE: &str = "0,10\n1,20\n";

const PACE: Pace = Pace {
    step: 1,
    limit: 1000,
};

/// A source of this text, which fails after it has given `limit` bytes.
fn source(alloc: Global, text: &str, limit: usize) -> Result<FailingSource, AllocError> {
    Ok(FailingSource::new(text.as_bytes().to_vec(alloc)?, limit))
}

/// A sink that fails after it has taken `room` bytes.
fn sink(alloc: Global, room: usize) -> Result<FailingSink, AllocError> {
    Ok(FailingSink::new(vec![in alloc; 0; room]?))
}

#[test]
fn a_tree_may_fail_after_any_byte(rt: HostRuntime) -> Result<(), Fail> {
    let alloc = rt.alloc();
    for limit in 0..=PRIO_TWO_QUEUES.tree.len() {
        let mut writer = sink(alloc, AMPLE)?;
        let outcome = check_tree(
            alloc,
            &mut source(alloc, PRIO_TWO_QUEUES.tree, limit)?,
            &mut writer,
        );
        assert_eq!(rt; outcome, Err(Fault::Read), "{limit} bytes");
        assert!(rt; writer.taken().is_empty());
    }
    Ok(())
}

/// The tasks that read a script or a trace after a tree.
#[derive(Clone, Copy, Debug)]
enum Task {
    Script,
    ScriptWithVisits,
    ScriptThenVisits,
    Run,
    RunWithVisits,
    RunThenVisits,
}

impl Task {
    /// What it reads after the tree.
    fn input(self) -> &'static str {
        match self {
            Task::Script | Task::ScriptWithVisits | Task::ScriptThenVisits => {
                PRIO_TWO_QUEUES.script
            }
            Task::Run | Task::RunWithVisits | Task::RunThenVisits => TRACE,
        }
    }
}

/// The sources and sinks of a task. A task without visits, or whose visits follow the answer, doesn't use the last.
#[derive(Drop)]
struct Files {
    tree: FailingSource,
    input: FailingSource,
    writer: FailingSink,
    visits: FailingSink,
}

impl Files {
    /// The sources and sinks of a task. They fail after the tree has given `tree_limit` bytes, the input `limit`, and after the visits have
    /// taken `room`.
    fn new(
        alloc: Global,
        task: Task,
        tree_limit: usize,
        limit: usize,
        room: usize,
    ) -> Result<Files, AllocError> {
        Ok(Files {
            tree: source(alloc, PRIO_TWO_QUEUES.tree, tree_limit)?,
            input: source(alloc, task.input(), limit)?,
            writer: sink(alloc, AMPLE)?,
            visits: sink(alloc, room)?,
        })
    }

    /// Does the task.
    fn perform<H: Threads + Wait + Sync + AllocGlobal>(
        &mut self,
        rt: &H,
        task: Task,
    ) -> Result<(), Fault> {
        let alloc = rt.alloc();
        let Files {
            tree,
            input,
            writer,
            visits,
        } = self;
        match task {
            Task::Script => script_over(alloc, tree, input, writer),
            Task::ScriptWithVisits => script_with_visits(alloc, tree, input, writer, visits),
            Task::ScriptThenVisits => script_then_visits(alloc, tree, input, writer),
            Task::Run => run_over(rt, alloc, rt, tree, input, writer, PACE),
            Task::RunWithVisits => {
                run_with_visits(rt, alloc, rt, tree, input, writer, PACE, visits)
            }
            Task::RunThenVisits => run_then_visits(rt, alloc, rt, tree, input, writer, PACE),
        }
    }
}

/// Fails unless the task ends with fault 19, and writes nothing. Returns the rest of its input.
fn assert_not_read<H: Threads + Wait + Sync + AllocGlobal + Abort>(
    rt: &H,
    task: Task,
    tree_limit: usize,
    limit: usize,
) -> FailingSource {
    let alloc = rt.alloc();
    let mut files = Files::new(alloc, task, tree_limit, limit, AMPLE).expect(rt, "ample memory");
    let outcome = files.perform(rt, task);
    assert_eq!(rt;
        outcome,
        Err(Fault::Read),
        "{task:?} of {tree_limit} and {limit} bytes"
    );
    let Files {
        input,
        writer,
        visits,
        ..
    } = files;
    assert!(rt;
        writer.taken().is_empty() && visits.taken().is_empty(),
        "{task:?}"
    );
    input
}

#[test]
fn either_source_may_fail_after_any_byte(rt: HostRuntime) {
    for &task in &[
        Task::Script,
        Task::ScriptWithVisits,
        Task::ScriptThenVisits,
        Task::Run,
        Task::RunWithVisits,
        Task::RunThenVisits,
    ] {
        for limit in 0..=task.input().len() {
            assert_not_read(&rt, task, usize::MAX, limit);
        }
        for limit in 0..=PRIO_TWO_QUEUES.tree.len() {
            // The input is not read then.
            let mut input = assert_not_read(&rt, task, limit, usize::MAX);
            let rest = read_up_to(rt.alloc(), &mut input, AMPLE).expect(&rt, "ample memory");
            assert_eq!(rt; rest.as_slice(), task.input().as_bytes(), "{task:?}");
        }
    }
}

/// How a script with visits ends if the visits' sink takes `room` bytes, and its sources and sinks after that.
fn visited<H: Threads + Wait + Sync + AllocGlobal>(
    rt: &H,
    room: usize,
) -> Result<(Result<(), Fault>, Files), AllocError> {
    let task = Task::ScriptWithVisits;
    let mut files = Files::new(rt.alloc(), task, usize::MAX, usize::MAX, room)?;
    Ok((files.perform(rt, task), files))
}

#[test]
fn visits_come_after_the_whole_answer(rt: HostRuntime) -> Result<(), Fail> {
    let answer = PRIO_TWO_QUEUES.answer.as_bytes();
    let text = format!(in rt.alloc();
        "pull,node,input,fresh,sender,number,length,passed,moment\n{}",
        PRIO_TWO_QUEUES.visits
    )?;
    for room in 0..text.len() {
        let (outcome, files) = visited(&rt, room)?;
        assert_eq!(rt; outcome, Err(Fault::Write), "{room} bytes");
        assert_eq!(rt; files.writer.taken(), answer);
        assert_eq!(rt; files.visits.taken(), &text.as_bytes()[..room]);
    }
    let (outcome, files) = visited(&rt, text.len())?;
    assert_eq!(rt; outcome, Ok(()));
    assert_eq!(rt;
        (files.writer.taken(), files.visits.taken()),
        (answer, text.as_bytes())
    );
    Ok(())
}
