//! What a replay is asked to show.

ghost use Rattle.std.specs.Prelude.{◌≡◌, ◌||◌, not};

use clap::ArgMatches;
use std::alloc::Global;
use tso_front::{Failure, JSON, STREAM, Variant, Word, read_apart, refuse_given, variant_of};
use tso_show::Show;

/// Which trace is replayed, and what is shown of it.
#[derive(Clone, Copy)]
pub struct Replay<'a> {
    pub program: &'a str,
    pub variant: Variant<'a>,
    pub trace: &'a str,
    /// After which label the state is shown; after the last where there is none.
    pub to: Option<u64>,
    /// What is shown beside each label.
    pub show: Show,
    /// Whether labels are printed in brief.
    pub brief: bool,
    /// Whether the calls are shown with their answers, and how far they have an order.
    pub history: bool,
    /// Whether a run is also shown that is good.
    pub partial: bool,
    /// Where the run is written as a page.
    pub html: Option<&'a str>,
    /// Whether labels, the state and what is wrong are printed as objects of JSON.
    pub json: bool,
}

impl Replay<'_> {
    /// Whether nothing is printed beyond labels, the state and what is wrong.
    pub fn is_plain(&self) -> bool
        ensures { result ≡ not (self.now.show.source || self.now.show.registers || self.now.show.buffers || self.now.brief || self.now.history) }
    {
        let Show {
            source,
            registers,
            buffers,
        } = self.show;
        !(source || registers || buffers || self.brief || self.history)
    }
}

/// The words for what is shown.
pub const SHOWN: [Word; 8] = [
    JSON,
    Word::Flag {
        name: "source",
        help: "prints the instruction beside each label, with its line",
    },
    Word::Flag {
        name: "registers",
        help: "prints registers and flags after each label",
    },
    Word::Flag {
        name: "buffers",
        help: "prints memory and store buffers after each label",
    },
    Word::Flag {
        name: "brief",
        help: "prints no steps between registers, and a locked instruction as one line",
    },
    Word::Flag {
        name: "history",
        help: "prints the calls with their answers, and how far they have an order",
    },
    Word::Flag {
        name: "partial",
        help: "shows also a run in which nothing is wrong",
    },
    Word::Text {
        name: "html",
        value: "OUT",
        help: "writes the run as a page that a browser shows",
    },
];

// The words for what is printed, of which no use is made where the page goes to standard output.
const PRINTED: [&str; 7] = [
    "json",
    "source",
    "registers",
    "buffers",
    "brief",
    "history",
    "to",
];

/// What the words of the command ask for.
///
/// Errors: `Usage` where standard input would be read for two of its files, or words are given of which no use is made; `Memory`.
pub fn replay_of<'a>(alloc: Global, replay: &ArgMatches<'a>) -> Result<Replay<'a>, Failure> {
    let program = replay.get_str("FILE").unwrap_or("");
    let trace = replay.get_str("TRACE").unwrap_or("");
    let html = replay.get_str("html");
    read_apart(alloc, program, trace)?;
    if html == Some(STREAM) {
        refuse_given(alloc, replay, &PRINTED, "--html -")?;
    }
    Ok(Replay {
        program,
        variant: variant_of(replay),
        trace,
        to: replay.get_one::<u64>("to"),
        show: Show {
            source: replay.get_flag("source"),
            registers: replay.get_flag("registers"),
            buffers: replay.get_flag("buffers"),
        },
        brief: replay.get_flag("brief"),
        history: replay.get_flag("history"),
        partial: replay.get_flag("partial"),
        html,
        json: replay.get_flag("json"),
    })
}
