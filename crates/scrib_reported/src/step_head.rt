//! The line of a step, as findings need it.

ghost use Rattle.std.specs.Prelude.{◌≡◌};
ghost use Rattle.scrib_report.specs.PutBack.{bytes_of};
ghost use Rattle.scrib_reported.specs.Monitors.{line_of};
ghost use Rattle.scrib_reported.specs.ReportedRuns.{turn_line};

use scrib_core::format::Format;
use scrib_report::label::Label;

/// The line of a step.
#[derive(Clone, Copy)]
pub(crate) struct StepHead<'a> {
    /// The number of the line, from 1.
    pub(crate) number: u64,
    /// What is put back into the replies to the line. Findings have its tag and its name.
    pub(crate) label: Label<'a>,
    /// The format of what is written for the step.
    pub(crate) format: Format,
}

impl<'a> StepHead<'a> {
    /// Returns the line with this name of a conversation, if there is one.
    pub(crate) fn named(self, name: Option<&'a [u8]>) -> StepHead<'a>
        ensures { line_of result ≡ turn_line (line_of self.entry) (bytes_of name.entry) }
    {
        let label = Label { name, ..self.label };
        StepHead { label, ..self }
    }
}
