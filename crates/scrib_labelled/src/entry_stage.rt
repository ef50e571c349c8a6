//! What takes the entries of a script with labels.

use crate::exchange_line::ExchangeLine;
use crate::line_parts::LineParts;
use scrib_labels::session_names::SessionNames;
use scrib_script_io::fault::ScriptFault;
use scrib_script_reader::entry::Entry;
use std::alloc::AllocError;
use std::io::Write;

/// What takes the entries of a script with labels, one after another, and gathers what is to be written for them.
///
/// After an error of [`take`](EntryStage::take), [`note`](EntryStage::note) or [`finish`](EntryStage::finish) a stage
/// takes nothing more. What it gathered until then is a part of its output.
pub trait EntryStage: Drop {
    ghost use Rattle.std.specs.Prelude.{◌≡◌, ◌++◌, ℕ, List, [], true, IfErr, OnErr, OnOk};
    ghost use Rattle.std.specs.Io.KnownBytes.{Appends};
    ghost use Rattle.scrib_core.specs.declared.format.Format.TheVariants as format;
    ghost use Rattle.scrib_core.specs.declared.step.Step.TheVariants.{Note};
    ghost use Rattle.scrib_script_io.specs.Faults.{of_output};
    ghost use Rattle.scrib_script_io.specs.Writes.{AppendsPart};
    ghost use Rattle.scrib_script_reader.specs.declared.entry.Entry.TheVariants as entry;
    ghost use Rattle.scrib_script_reader.specs.declared.item.Item.TheVariants as item;
    ghost use Rattle.scrib_cli.specs.Progress.{WritesFront};
    ghost use Rattle.scrib_labels.specs.declared.session_names.SessionNames.{SessionNames};
    ghost use Rattle.scrib_report.specs.PutBack.{bytes_of, tag_text};
    ghost use Rattle.scrib_labelled.specs.ExchangeLines.{exchange_label};
    ghost use Rattle.scrib_labelled.specs.LabelledEntries.{LabelledEntry};
    ghost use Rattle.scrib_labelled.specs.NamedLines.{IsNumbersOf, label_of, session_of};
    ghost use Rattle.scrib_labelled.specs.Stages.{FailsEnd, FailsEntry, Keeps, TakesEnd, TakesEntry};

    // What is gathered, and not written yet.
    ghost gathered: { Self → List ℕ };

    // The numbers that stand for names.
    ghost names: { Self → SessionNames };

    // Since it was `first`, and had taken no entry, the stage took these entries and gave this output.
    ghost Took: { (first now : Self) → List LabelledEntry → (output : List ℕ) → Type 0 };

    // The same of all entries of a script, whose end it took too.
    ghost TookAll: { (first now : Self) → List LabelledEntry → (output : List ℕ) → Type 0 };

    // The output is a beginning of what a stage that was `first` gives for these entries.
    ghost TookPart: { (first : Self) → List LabelledEntry → (output : List ℕ) → Type 0 };

    /// Returns the numbers that stand for the names of conversations.
    fn names(&self) -> &SessionNames
        ensures { result.now ≡ names self.now };

    /// Takes the entry of a line with this label, and gathers what it gives.
    ///
    /// # Errors
    /// `AllocError` where memory is refused. A part is gathered then.
    fn take(&mut self, entry: Entry, parts: LineParts<'_>) -> Result<(), AllocError>
        requires { IsNumbersOf (names self.old) (session_of parts.session) }
        ensures ok { OnOk result (TakesEntry Took gathered self.old self.new (label_of parts.entry) entry) }
        ensures err { OnErr result
            (FailsEntry Took TookPart gathered self.old self.new (label_of parts.entry) entry) };

    /// Takes the entry of a line that notes an event, as [`take`](EntryStage::take) does.
    ///
    /// # Errors
    /// As those of [`take`](EntryStage::take).
    fn note(&mut self, line: ExchangeLine<'_>) -> Result<(), AllocError>
        requires tag { line.tag_text.now ≡ tag_text (bytes_of line.tag) }
        requires numbers { IsNumbersOf (names self.old) (exchange_label line).session }
        ensures ok { OnOk result (TakesEntry Took gathered self.old self.new (exchange_label line.entry)
            (entry.Item (item.Step format.Line (Note line.entry.id line.entry.event)))) }
        ensures err { OnErr result (FailsEntry Took TookPart gathered self.old self.new (exchange_label line.entry)
            (entry.Item (item.Step format.Line (Note line.entry.id line.entry.event)))) };

    /// Takes the end of the script, and gathers what it gives.
    ///
    /// # Errors
    /// As those of [`take`](EntryStage::take).
    fn finish(&mut self) -> Result<(), AllocError>
        ensures ok { OnOk result (TakesEnd Took TookAll gathered self.old self.new) }
        ensures err { OnErr result (FailsEnd Took TookPart gathered self.old self.new) };

    /// Drops what is gathered.
    fn clear(&mut self)
        ensures none { gathered self.new ≡ [] }
        ensures kept { Keeps Took self.old self.new };

    /// Writes what is gathered, and drops it.
    ///
    /// # Errors
    /// `Write` where the writer fails. A prefix is then written, and all is dropped.
    fn write_all<W: Write>(&mut self, writer: &mut W) -> Result<(), ScriptFault>
        ensures none { gathered self.new ≡ [] }
        ensures kept { Keeps Took self.old self.new }
        ensures all { Keeps TookAll self.old self.new }
        ensures ok { OnOk result (Appends (W.contents writer.old) (W.contents writer.new) (gathered self.old)) }
        ensures err { OnErr result
            (AppendsPart (W.contents writer.old) (W.contents writer.new) (gathered self.old)) }
        ensures fault { IfErr result (λ e. of_output e ≡ true) };

    /// Writes what is gathered, and drops it, where it is long.
    ///
    /// # Errors
    /// `Write` where the writer fails. A prefix is then written, and all is dropped.
    fn write_long<W: Write>(&mut self, writer: &mut W) -> Result<(), ScriptFault>
        ensures kept { Keeps Took self.old self.new }
        ensures ok { OnOk result (WritesFront (gathered self.old) (gathered self.new)
            (W.contents writer.old) (W.contents writer.new)) }
        ensures err { OnErr result
            (AppendsPart (W.contents writer.old) (W.contents writer.new) (gathered self.old)) }
        ensures none { OnErr result (gathered self.new ≡ []) }
        ensures fault { IfErr result (λ e. of_output e ≡ true) };

    // What was given for some entries is a part of it.
    ghost is_part: { (first now : Self) (entries : List LabelledEntry) (out : List ℕ)
        → Took first now entries out → TookPart first entries out };

    // What was given for a script is a part of it.
    ghost all_is_part: { (first now : Self) (entries : List LabelledEntry) (out : List ℕ)
        → TookAll first now entries out → TookPart first entries out };

    // A beginning of a part is one.
    ghost less_is_part: { (first : Self) (entries : List LabelledEntry) (part rest : List ℕ)
        → TookPart first entries (part ++ rest) → TookPart first entries part };
}
