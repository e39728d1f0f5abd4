//! A session keeps what it was told to, and what it emits doesn't depend on that.

use clk_fixtures::Queues;
use clk_fixtures::trees::prio_over_two;
use clk_packet::Fault;
use clk_rows::script::show_got;
use clk_sched::{Departure, Keeps, Session};
use std::alloc::{AllocError, Global};
use std::process::Abort;

/// A pull of three packets below a PrioSched, and the departures of the drain that follows it from moment 7 on.
const CAME_OUT: &str = "0#0 100\n8: 0#1 200\n9: 1#0 300\n";

fn show_departures(text: &mut String, departures: &[Departure]) -> Result<(), AllocError> {
    for departure in departures {
        write!(text, "{}: ", departure.moment)?;
        show_got(text, Some(departure.packet))?;
        text.push_str("\n")?;
    }
    Ok(())
}

// A session over two queues that keeps this.
fn session_that(rt: &impl Abort, alloc: Global, keeps: Keeps) -> Session {
    let tree = prio_over_two(alloc).expect(rt, "a tree");
    assert!(rt; tree.leaves_distinct());
    Session::keeping(alloc, tree, keeps).expect(rt, "ample memory")
}

// Two queues, of two packets and of one.
fn three_packets(rt: &impl Abort, alloc: Global) -> Queues {
    let mut queues = Queues::new(alloc, 2).expect(rt, "ample memory");
    queues.send(0, &[100, 200]).expect(rt, "ample memory");
    queues.send(1, &[300]).expect(rt, "ample memory");
    queues
}

// Drains a session of two packets from moment 7 on, and returns their departures.
fn close(
    rt: &impl Abort,
    alloc: Global,
    session: &mut Session,
    queues: &mut Queues,
) -> Result<Vec<Departure>, Fault> {
    assert!(rt; session.now() < 1 << 42);
    session.close(alloc, queues, 2, 7)
}

// A session that was pulled once and drained. Fails unless what it emitted is shown so.
fn closed(rt: &impl Abort, alloc: Global, keeps: Keeps) -> Session {
    let mut session = session_that(rt, alloc, keeps);
    assert_emits(rt, alloc, &mut session);
    session
}

// Fails unless what a pull and a drain over three packets emit is shown so.
fn assert_emits(rt: &impl Abort, alloc: Global, session: &mut Session) {
    let mut queues = three_packets(rt, alloc);
    let text = shown(rt, alloc, session, &mut queues).expect(rt, "ample memory");
    assert_eq!(rt; text.as_str(), CAME_OUT);
}

// What a pull and a drain emit.
fn shown(
    rt: &impl Abort,
    alloc: Global,
    session: &mut Session,
    queues: &mut Queues,
) -> Result<String, Fault> {
    let mut text = String::new(alloc);
    show_pull(rt, session, queues, &mut text)?;
    show_drain(rt, alloc, session, queues, &mut text)?;
    Ok(text)
}

// Adds what a pull emits.
fn show_pull(
    rt: &impl Abort,
    session: &mut Session,
    queues: &mut Queues,
    text: &mut String,
) -> Result<(), Fault> {
    assert_eq!(rt; session.due(queues), Some(0));
    show_got(text, session.pull(queues, 5)?)?;
    text.push_str("\n")?;
    Ok(())
}

// Adds what a drain emits.
fn show_drain(
    rt: &impl Abort,
    alloc: Global,
    session: &mut Session,
    queues: &mut Queues,
    text: &mut String,
) -> Result<(), Fault> {
    assert_eq!(rt; session.due(queues), Some(5));
    let departures = close(rt, alloc, session, queues)?;
    assert_eq!(rt; session.due(queues), None);
    show_departures(text, &departures)?;
    Ok(())
}

fn assert_kept(rt: &impl Abort, alloc: Global, keeps: Keeps) {
    let session = closed(rt, alloc, keeps);
    assert_kept_of_pulls(rt, &session, if keeps.visits { 7 } else { 0 }, 3);
    assert_eq!(rt;
        session.as_emitted().len(),
        if keeps.packets { 3 } else { 0 }
    );
    assert_eq!(rt; session.count_emitted(), 3);
    assert_eq!(rt; session.latest().len(), if keeps.latest { 3 } else { 0 });
    assert_handed_out(rt, alloc, session, keeps);
}

// Fails unless what is kept is handed out. If visits are kept but no packets, these are read off the visits.
fn assert_handed_out(rt: &impl Abort, alloc: Global, session: Session, keeps: Keeps) {
    let visits = keeps.visits || keeps.packed;
    let (log, emitted) = session.into_packed(alloc).expect(rt, "ample memory");
    assert_eq!(rt; emitted.len(), if visits || keeps.packets { 3 } else { 0 });
    let (packed, rest) = log.parts();
    assert_eq!(rt; packed.len(), if keeps.packed { 7 } else { 0 });
    assert_eq!(rt; rest.len(), if visits && !keeps.packed { 7 } else { 0 });
}

#[test]
fn sessions_keep_what_they_are_told_to(rt: HostRuntime) {
    for visits in [false, true] {
        for packed in [false, true] {
            for packets in [false, true] {
                for latest in [false, true] {
                    let keeps = Keeps {
                        visits,
                        packed,
                        packets,
                        latest,
                    };
                    assert_kept(&rt, rt.alloc(), keeps);
                }
            }
        }
    }
}

// Fails unless a session keeps so many visits, of so many pulls.
fn assert_kept_of_pulls(rt: &impl Abort, session: &Session, visits: usize, pulls: u64) {
    assert_eq!(rt; session.log().len(), visits);
    assert_eq!(rt; session.pulls(), pulls);
}

// Three pulls made seven visits. The fourth, which finds nothing, asks both inputs of the PrioSched.
#[test]
fn visits_that_were_let_go_of_leave_the_log(rt: HostRuntime) {
    let keeps = Keeps {
        visits: true,
        packed: false,
        packets: false,
        latest: false,
    };
    let mut session = closed(&rt, rt.alloc(), keeps);
    assert_kept_of_pulls(&rt, &session, 7, 3);
    session.let_go();
    assert_kept_of_pulls(&rt, &session, 0, 3);
    let mut queues = Queues::new(rt.alloc(), 2).expect(&rt, "ample memory");
    let got = session.pull(&mut queues, 5).expect(&rt, "ample memory");
    assert_eq!(rt; got, None);
    assert_kept_of_pulls(&rt, &session, 3, 4);
}
