//! What is done with a tree in a row.

use crate::text::{show_packets, show_visit};
use clk_fixtures::Queues;
use clk_packet::{Fault, Offered, Packet};
use clk_rows::Row;
use clk_rows::script::{Command, command_of, show_got, show_pull, show_sent};
use clk_sched::{Ask, Session, Tree};
use std::alloc::{AllocError, Global};
use std::process::Abort;

/// How many queues there are, from 0 on.
const QUEUES: u16 = 250;

/// A step of a row. It shows one line unless it says otherwise.
#[derive(Clone, Copy)]
pub enum Step<'a> {
    /// Packets of a sender, of these lengths, go to the queue of the sender's number. That shows nothing.
    Send(u16, &'a [u16]),
    /// So many packets of a sender, of one length, go to its queue: sender, length and how many. That shows nothing.
    SendMany(u16, u16, u32),
    /// A pull at each of these moments, each with its line: what it emitted.
    Pull(&'a [u64]),
    /// So many pulls at moment 0, each with its line unless it gave the packet of the same sender next to that of the pull before.
    PullMany(u32),
    /// A drain of so many packets after a moment: how many pulls it made, or its fault.
    Drain(u64, u64),
    /// A queue is asked past the session: what it gave.
    Ask(u16),
    /// The closing bound of so many packets.
    Bound(u64),
    /// The counted moment.
    Now,
    /// The packets that are held as heads.
    Heads,
    /// A line for each visit.
    Visits,
    /// How many visits there are, and the line of the last.
    Last,
}

/// Takes the steps over a tree, and fails unless they show what is expected.
pub fn assert_shows(
    rt: &impl Abort,
    alloc: Global,
    tree: Result<Tree, Fault>,
    steps: &[Step],
    expected: &str,
) {
    let mut shown = Shown::of(rt, alloc, tree);
    shown.take_all(rt, alloc, steps).expect(rt, "ample memory");
    assert_eq!(rt; shown.text.as_str(), expected);
}

/// Fails unless a session of the tree of a row shows the row's lines and visits, and has all packets that were emitted.
pub fn assert_row(rt: &impl Abort, alloc: Global, tree: Result<Tree, Fault>, row: &Row) {
    let mut shown = Shown::after(rt, alloc, tree, row, usize::MAX);
    assert!(rt;
        row.is_answered_by(&shown.text),
        "at {}: {}",
        row.name,
        shown.text
    );
    let emitted = shown.session.emitted(alloc).expect(rt, "ample memory");
    assert_eq!(rt; emitted.as_slice(), shown.emitted.as_slice());
    if !row.visits.is_empty() {
        shown.text.clear();
        shown.visits().expect(rt, "ample memory");
        assert_eq!(rt; shown.text.as_str(), row.visits, "at {}", row.name);
    }
}

/// Fails unless these heads are held after so many lines of the script of a row.
pub fn assert_held(
    rt: &impl Abort,
    alloc: Global,
    tree: Result<Tree, Fault>,
    row: &Row,
    lines: usize,
    heads: &str,
) {
    let mut shown = Shown::after(rt, alloc, tree, row, lines);
    shown.text.clear();
    shown.heads(alloc).expect(rt, "ample memory");
    assert_eq!(rt;
        shown.text.as_str(),
        heads,
        "at {} after {lines} lines",
        row.name
    );
}

/// Fails unless a session of a tree is refused with this fault.
pub fn assert_refused(rt: &impl Abort, alloc: Global, tree: Tree, expected: Fault) {
    assert_eq!(rt; session(rt, alloc, tree).err(), Some(expected));
}

// A session of a tree.
fn session(rt: &impl Abort, alloc: Global, tree: Tree) -> Result<Session, Fault> {
    assert!(rt; tree.leaves_distinct());
    Session::new(alloc, tree)
}

/// A session, the queues that it pulls from, and what both have shown.
#[derive(Drop)]
struct Shown {
    session: Session,
    queues: Queues,
    text: String,
    // How many packets the commands of a script sent, and which were emitted.
    sent: u64,
    emitted: Vec<Packet>,
}

impl Shown {
    fn of(rt: &impl Abort, alloc: Global, tree: Result<Tree, Fault>) -> Shown {
        let tree = tree.expect(rt, "a tree");
        Shown {
            session: session(rt, alloc, tree).expect(rt, "ample memory"),
            queues: Queues::new(alloc, QUEUES).expect(rt, "ample memory"),
            text: String::new(alloc),
            sent: 0,
            emitted: Vec::new(alloc),
        }
    }

    // After so many lines of the script of a row, whose lines are shown as the script writes them.
    fn after(
        rt: &impl Abort,
        alloc: Global,
        tree: Result<Tree, Fault>,
        row: &Row,
        lines: usize,
    ) -> Shown {
        let mut shown = Shown::of(rt, alloc, tree);
        for line in row.script.lines().take(lines) {
            let command = command_of(line).expect(rt, "a command");
            shown.carry_out(rt, command).expect(rt, "ample memory");
        }
        shown
    }

    fn carry_out(&mut self, rt: &impl Abort, command: Command) -> Result<(), Fault> {
        match command {
            Command::Send(sender, length) => {
                let packet = self.queues.send_one(sender, length)?;
                self.sent = self.sent.saturating_add(1);
                Ok(show_sent(&mut self.text, packet, Offered::Accepted)?)
            }
            Command::Pull(moment) => self.pull(rt, moment),
            Command::Drain(moment) => self.close(rt, moment),
        }
    }

    fn pull(&mut self, rt: &impl Abort, moment: u64) -> Result<(), Fault> {
        assert!(rt; moment < 1 << 44);
        let got = self.session.pull(&mut self.queues, moment)?;
        if let Some(packet) = got {
            self.emitted.push(packet)?;
        }
        Ok(show_pull(&mut self.text, moment, got)?)
    }

    // Drains what is left, a pull a tick, with a line for each packet that is emitted.
    fn close(&mut self, rt: &impl Abort, moment: u64) -> Result<(), Fault> {
        let left = self.sent.saturating_sub(self.emitted.len() as u64);
        assert!(rt; left <= 1_000_000);
        let latest = self.session.now().max(moment);
        assert!(rt; latest < (1 << 43) - 1);
        let before = self.session.log().len();
        let pulls = self.session.drain(&mut self.queues, left, moment)?;
        assert_eq!(rt; pulls, self.session.now().saturating_sub(latest));
        for visit in self.session.log().iter().skip(before) {
            if let (0, Some(packet)) = (visit.node, visit.got) {
                self.emitted.push(packet)?;
                show_pull(&mut self.text, visit.moment, visit.got)?;
            }
        }
        Ok(())
    }

    fn take_all(&mut self, rt: &impl Abort, alloc: Global, steps: &[Step]) -> Result<(), Fault> {
        for step in steps {
            self.take(rt, alloc, *step)?;
        }
        Ok(())
    }

    fn take(&mut self, rt: &impl Abort, alloc: Global, step: Step) -> Result<(), Fault> {
        match step {
            Step::Send(sender, lengths) => self.queues.send(sender, lengths),
            Step::SendMany(sender, length, count) => self.queues.send_many(sender, length, count),
            Step::Pull(moments) => self.pulls(rt, moments),
            Step::PullMany(count) => self.pull_many(rt, count),
            Step::Drain(left, moment) => self.drain(rt, left, moment),
            Step::Ask(queue) => Ok(self.ask(queue)?),
            Step::Bound(left) => Ok(self.bound(rt, left)?),
            Step::Now => Ok(writeln!(self.text, "now: {}", self.session.now())?),
            Step::Heads => self.heads(alloc),
            Step::Visits => Ok(self.visits()?),
            Step::Last => Ok(self.last()?),
        }
    }

    fn pulls(&mut self, rt: &impl Abort, moments: &[u64]) -> Result<(), Fault> {
        for moment in moments {
            let moment = *moment;
            assert!(rt; moment < 1 << 44);
            let got = self.session.pull(&mut self.queues, moment)?;
            show_pull(&mut self.text, moment, got)?;
        }
        Ok(())
    }

    fn pull_many(&mut self, rt: &impl Abort, count: u32) -> Result<(), Fault> {
        let mut before = None;
        for pull in 0..count {
            let got = self.session.pull(&mut self.queues, 0)?;
            if !follows(before, got) {
                show_pull(&mut self.text, u64::from(pull), got)?;
            }
            before = got;
        }
        Ok(())
    }

    fn drain(&mut self, rt: &impl Abort, left: u64, moment: u64) -> Result<(), Fault> {
        assert!(rt; left <= 1_000_000);
        let latest = self.session.now().max(moment);
        assert!(rt; latest < (1 << 43) - 1);
        match self.session.drain(&mut self.queues, left, moment) {
            Ok(pulls) => writeln!(self.text, "drain: {pulls}")?,
            Err(fault) => writeln!(self.text, "drain: {fault}")?,
        }
        Ok(())
    }

    fn ask(&mut self, queue: u16) -> Result<(), AllocError> {
        let got = self.queues.ask(queue);
        write!(self.text, "queue {queue}: ")?;
        show_got(&mut self.text, got)?;
        self.text.push_str("\n")
    }

    fn bound(&mut self, rt: &impl Abort, left: u64) -> Result<(), AllocError> {
        assert!(rt; left <= 1_000_000);
        writeln!(self.text, "bound: {}", self.session.bound(left))
    }

    fn heads(&mut self, alloc: Global) -> Result<(), Fault> {
        let packets = self.session.held_heads(alloc)?;
        self.text.push_str("heads:")?;
        Ok(show_packets(&mut self.text, &packets)?)
    }

    fn visits(&mut self) -> Result<(), AllocError> {
        for visit in self.session.log() {
            show_visit(&mut self.text, visit)?;
        }
        Ok(())
    }

    fn last(&mut self) -> Result<(), AllocError> {
        let log = self.session.log();
        writeln!(self.text, "visits: {}", log.len())?;
        match log.last() {
            Some(visit) => show_visit(&mut self.text, visit),
            None => Ok(()),
        }
    }
}

// Whether two pulls gave packets that are neighbours of one sender.
fn follows(before: Option<Packet>, got: Option<Packet>) -> bool {
    match (before, got) {
        (Some(before), Some(got)) => {
            before.sender == got.sender && before.number.checked_add(1) == Some(got.number)
        }
        _ => false,
    }
}
