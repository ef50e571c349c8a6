//! Reports of the progress of a run.

use std::fmt;
use std::fmt::{Display, Formatter};
use std::sync::atomic::{AtomicU64, Ordering};

// The number of events between two reported marks.
const EVENTS_BETWEEN_MARKS: u64 = 100_000;

/// The parts of a run, in their order.
#[derive(Clone, Copy, Debug, PartialEq, Eq)]
pub enum Phase {
    Setup,
    Connections,
    LastSweep,
    Settling,
}

/// A mark that a run reached.
#[derive(Clone, Copy, Debug, PartialEq, Eq)]
pub enum Mark {
    /// The beginning of this part, after this number of noted events.
    Phase { phase: Phase, events: u64 },
    /// This number of noted events.
    Events(u64),
}

impl Phase {
    fn text(self) -> &'static str {
        match self {
            Phase::Setup => "setup",
            Phase::Connections => "connections",
            Phase::LastSweep => "last sweep",
            Phase::Settling => "settling",
        }
    }
}

/// `connections, 12 events so far` and `100000 events so far`.
impl Display for Mark {
    fn fmt<W: fmt::Write>(&self, f: &mut Formatter<W>) -> fmt::Result {
        match *self {
            Mark::Phase { phase, events } => {
                f.write_fmt(format_args!("{}, {events} events so far", phase.text()))
            }
            Mark::Events(events) => f.write_fmt(format_args!("{events} events so far")),
        }
    }
}

/// Receives progress reports, from several threads at the same time.
pub trait Progress {
    /// Reports that the run reached the mark.
    fn report(&self, mark: Mark);
}

/// Prints a line on standard error for each mark. If that fails, the mark is left out.
#[derive(Clone, Copy)]
pub struct StandardError<'a, R>(pub &'a R);

impl<R: Eprint> Progress for StandardError<'_, R> {
    fn report(&self, mark: Mark) {
        let _ = self.0.eprintln(format_args!("scribmon: {mark}"));
    }
}

/// The number of events that all threads of a run noted, and the receiver of its reports.
#[derive(Drop)]
pub(crate) struct Tally<'a, P> {
    progress: &'a Option<P>,
    events: AtomicU64,
}

impl<'a, P: Progress> Tally<'a, P> {
    /// Returns a count of 0 events.
    pub(crate) fn new(progress: &'a Option<P>) -> Tally<'a, P> {
        Tally {
            progress,
            events: AtomicU64::new(0),
        }
    }

    /// Reports that this part begins.
    pub(crate) fn begin(&self, phase: Phase) {
        let events = self.events.load(Ordering::Relaxed);
        self.report(Mark::Phase { phase, events });
    }

    /// Counts this number of further events. Reports every 100,000 events.
    pub(crate) fn add(&self, events: u64) {
        let before = self.events.fetch_add(events, Ordering::Relaxed);
        let marks = before.saturating_add(events) / EVENTS_BETWEEN_MARKS;
        if marks > before / EVENTS_BETWEEN_MARKS {
            self.report(Mark::Events(marks * EVENTS_BETWEEN_MARKS));
        }
    }

    fn report(&self, mark: Mark) {
        if let Some(progress) = self.progress {
            progress.report(mark);
        }
    }
}
