use crate::faults::Fault;
use crate::setting::Setting;
use crate::told::Answer;
use crate::words::Words;
use crate::{
    base, ccc, events, frame, header, legacy, lists, picker, requests, roles, rounds, slots, table,
    transfers, wires, word,
};

/// What the first line of a text has before the crate's name.
const CRATE: &str = "crate i3c_";

/// The crate whose calls a text makes.
#[derive(Clone, Copy)]
pub(crate) enum Subject {
    Base,
    Ccc,
    Deftgts,
    Device,
    Entdaa,
    Events,
    Frame,
    Handoff,
    Header,
    Hotjoin,
    Ibi,
    Legacy,
    Picker,
    Table,
    Wires,
    Word,
    Xfer,
}

impl Subject {
    /// The crate that the first line of a text names.
    pub fn named(line: &str) -> Result<Subject, Fault> {
        match line.strip_prefix(CRATE) {
            Some(name) => Subject::of(name),
            None => Err(Fault::NoCrate),
        }
    }

    /// The crate of a name.
    fn of(name: &str) -> Result<Subject, Fault> {
        match name {
            "base" => Ok(Subject::Base),
            "ccc" => Ok(Subject::Ccc),
            "deftgts" => Ok(Subject::Deftgts),
            "device" => Ok(Subject::Device),
            "entdaa" => Ok(Subject::Entdaa),
            "events" => Ok(Subject::Events),
            "frame" => Ok(Subject::Frame),
            "handoff" => Ok(Subject::Handoff),
            "header" => Ok(Subject::Header),
            "hotjoin" => Ok(Subject::Hotjoin),
            "ibi" => Ok(Subject::Ibi),
            "legacy" => Ok(Subject::Legacy),
            "picker" => Ok(Subject::Picker),
            "table" => Ok(Subject::Table),
            "wires" => Ok(Subject::Wires),
            "word" => Ok(Subject::Word),
            "xfer" => Ok(Subject::Xfer),
            _ => Err(Fault::NoCrate),
        }
    }

    /// A call of this crate.
    fn own_call(self, setting: &mut Setting, call: &str, words: &mut Words<'_>) -> Answer {
        match self {
            Subject::Base => base::call(setting, call, words),
            Subject::Ccc => ccc::call(setting, call, words),
            Subject::Deftgts => lists::call(setting, call, words),
            Subject::Device => slots::call(setting, call, words),
            Subject::Entdaa => rounds::call(setting, call, words),
            Subject::Events => events::call(setting, call, words),
            Subject::Frame => frame::call(setting, call, words),
            Subject::Handoff | Subject::Hotjoin => roles::call(setting, call, words),
            Subject::Header => header::call(setting, call, words),
            Subject::Ibi => requests::call(setting, call, words),
            Subject::Legacy => legacy::call(setting, call, words),
            Subject::Picker => picker::call(setting, call, words),
            Subject::Table => table::call(setting, call, words),
            Subject::Wires => wires::call(setting, call, words),
            Subject::Word => word::call(setting, call, words),
            Subject::Xfer => transfers::call(setting, call, words),
        }
    }

    /// A call of this crate, or one that sets up what its calls need: devices, a table, legacy targets, or constants.
    pub fn call(self, setting: &mut Setting, call: &str, words: &mut Words<'_>) -> Answer {
        match self.own_call(setting, call, words) {
            Err(Fault::Unknown) => set_up(setting, call, words),
            answer => answer,
        }
    }
}

/// A call that sets up devices, a table or legacy targets, or tells a constant.
fn set_up(setting: &mut Setting, call: &str, words: &mut Words<'_>) -> Answer {
    match slots::call(setting, call, words) {
        Err(Fault::Unknown) => {}
        answer => return answer,
    }
    match table::call(setting, call, words) {
        Err(Fault::Unknown) => {}
        answer => return answer,
    }
    match legacy::call(setting, call, words) {
        Err(Fault::Unknown) => base::call(setting, call, words),
        answer => answer,
    }
}
