//! Carries out the items that a stage lets out, each with the label of its entry.

use crate::waiting_labels::{KeptLabel, KeptSession, WaitingLabels};
use scrib_hold::item_sink::ItemSink;
use scrib_labelled::label_options::LabelledStyle;
use scrib_labelled::labelled_monitor::LabelledMonitor;
use scrib_script_io::fault::ScriptFault;
use scrib_script_reader::item::Item;
use std::alloc::{AllocError, Global};

/// A monitor, and the labels of the entries whose items were not carried out yet.
#[derive(Drop)]
pub(crate) struct LabelledSink {
    pub(crate) waiting: WaitingLabels,
    pub(crate) monitor: LabelledMonitor,
    /// The conversations with names whose items were carried out since it was emptied.
    pub(crate) met: Vec<KeptSession>,
}

impl LabelledSink {
    ghost use Rattle.std.specs.Prelude.{◌≡◌, ℕ, None, OnErr, OnOk};
    ghost use Rattle.scrib_core.specs.Answers.{initial};
    ghost use Rattle.scrib_hold.specs.Sinks.{GathersItem};
    ghost use Rattle.scrib_held_labels.specs.Sinks.{CarriesItem, gathered_in, state_of, style_of};
    ghost use Rattle.scrib_held_labels.specs.WaitingLabels.{kept_at};

    /// Returns a new monitor, without labels.
    pub(crate) fn new(alloc: Global, style: LabelledStyle) -> LabelledSink
        ensures state { state_of result ≡ initial }
        ensures style { style_of result ≡ style }
        ensures labels { (n : ℕ) → kept_at result.waiting n ≡ None }
    {
        LabelledSink {
            waiting: WaitingLabels::new(alloc),
            monitor: LabelledMonitor::new(alloc, style),
            met: Vec::new(alloc),
        }
    }

    // Carries out the item of the entry of this number with its label, and gathers its replies.
    fn carry_out(&mut self, number: u64, item: Item) -> Result<(), AllocError>
        ensures ok { OnOk result (GathersItem CarriesItem gathered_in self.old self.new number item) }
        ensures err { OnErr result (gathered_in self.new ≡ gathered_in self.old) }
    {
        let Some(kept) = self.waiting.take(number) else {
            // a stage lets each entry out once
            return Err(AllocError);
        };
        let label = kept.label(&self.monitor);
        self.monitor.take(item, label)?;
        self.meet(kept)?;
        self.monitor.gather()
    }

    // Notes the conversation of the label, if it has a name.
    fn meet(&mut self, kept: KeptLabel) -> Result<(), AllocError>
        ensures { self.new ≡ record self.old { met = self.new.met } }
    {
        let KeptLabel { session, .. } = kept;
        if let Some(session) = session {
            self.met.push(session)?;
        }
        Ok(())
    }
}

impl ItemSink for LabelledSink {
    ghost use Rattle.scrib_held_labels.specs.Sinks.{CarriesItem, gathered_in};

    ghost carries = { CarriesItem };

    ghost gathered = { gathered_in };

    fn take(&mut self, number: u64, item: Item) -> Result<(), ScriptFault> {
        self.carry_out(number, item)?;
        Ok(())
    }
}
