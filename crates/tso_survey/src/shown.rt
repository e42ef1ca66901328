//! What the records of all certificates of a survey show together.

ghost use Rattle.std.specs.Prelude.{◌≡◌, ◌||◌};

use serde_json::Value;
use std::alloc::{AllocError, Global};
use std::fmt;
use tso_front::Members;

/// What records show of an instruction.
#[derive(Clone, Copy, PartialEq, Eq)]
pub struct LineShown {
    /// From 1.
    pub line: u32,
    /// Whether in some record a call is at it.
    pub is_met: bool,
    /// Whether in some record a call is cut at it.
    pub is_cut: bool,
}

impl LineShown {
    // What two clients show of one instruction.
    fn with(self, other: LineShown) -> LineShown
        ensures met { result.is_met ≡ (self.is_met || other.is_met) }
        ensures cut { result.is_cut ≡ (self.is_cut || other.is_cut) }
        ensures line { result.line ≡ self.line }
    {
        LineShown {
            line: self.line,
            is_met: self.is_met || other.is_met,
            is_cut: self.is_cut || other.is_cut,
        }
    }
}

/// What the records of certificates show of one or several clients of a queue: counted, and not proved of runs.
#[derive(Drop)]
pub struct Shown {
    /// How many clients have a certificate that was counted.
    pub clients: u64,
    pub records: u64,
    /// All instructions, those of push first.
    pub lines: Vec<LineShown>,
    pub is_push_refused: bool,
    pub is_pop_refused: bool,
    /// The names of the arrays in which an index went round.
    pub rounds: Vec<String>,
    /// How many items the queue had at the most.
    pub most_items: usize,
}

// Notes of each of these lines what the other list, of the same lines, shows.
fn join_lines(lines: &mut [LineShown], others: &[LineShown]) {
    for (line, other) in lines.iter_mut().zip(others) {
        *line = line.with(*other);
    }
}

// Adds the names that are not there.
fn join_names(names: &mut Vec<String>, others: Vec<String>) -> Result<(), AllocError> {
    for other in others {
        if names.iter().any(|name| name.as_str() == other.as_str()) {
            drop(other);
        } else {
            names.push(other)?;
        }
    }
    Ok(())
}

// The numbers of the lines that no call comes to.
fn never_met(alloc: Global, lines: &[LineShown]) -> Result<Value, AllocError> {
    let mut list = Vec::new(alloc);
    for shown in lines {
        if !shown.is_met {
            list.push(Value::from(u64::from(shown.line)))?;
        }
    }
    Ok(Value::Array(list))
}

// The numbers of the lines at which calls are cut.
fn cut_at(alloc: Global, lines: &[LineShown]) -> Result<Value, AllocError> {
    let mut list = Vec::new(alloc);
    for shown in lines {
        if shown.is_cut {
            list.push(Value::from(u64::from(shown.line)))?;
        }
    }
    Ok(Value::Array(list))
}

// Names of arrays.
fn name_list(alloc: Global, names: &[String]) -> Result<Value, AllocError> {
    let mut list = Vec::new(alloc);
    for name in names {
        list.push(Value::String(String::from_str(alloc, name.as_str())?))?;
    }
    Ok(Value::Array(list))
}

fn answer(is: bool) -> &'static str {
    if is { "yes" } else { "no" }
}

/// As `line 14: never met`; nothing of a line that is met and at which no call is cut.
impl fmt::Display for LineShown {
    fn fmt<W: fmt::Write>(&self, f: &mut fmt::Formatter<W>) -> fmt::Result {
        let line = self.line;
        if self.is_cut {
            writeln!(f, "line {line}: cut here")
        } else if !self.is_met {
            writeln!(f, "line {line}: never met")
        } else {
            Ok(())
        }
    }
}

impl Shown {
    /// Takes in what another client of the same queue shows.
    ///
    /// Errors: where an allocation failed.
    pub fn join(&mut self, other: Shown) -> Result<(), AllocError> {
        let Shown {
            clients,
            records,
            lines,
            is_push_refused,
            is_pop_refused,
            rounds,
            most_items,
        } = other;
        self.clients = self.clients.saturating_add(clients);
        self.records = self.records.saturating_add(records);
        join_lines(&mut self.lines, &lines);
        drop(lines);
        self.is_push_refused |= is_push_refused;
        self.is_pop_refused |= is_pop_refused;
        self.most_items = self.most_items.max(most_items);
        join_names(&mut self.rounds, rounds)
    }

    // What calls came to, as members of an object.
    fn members(&self, alloc: Global) -> Result<Members, AllocError> {
        let lines = self.lines.as_slice();
        Members::new(alloc)
            .number("clients", self.clients)?
            .number("records", self.records)?
            .with("never_met", never_met(alloc, lines)?)?
            .with("cut", cut_at(alloc, lines)?)
    }

    /// What is shown, as an object of JSON.
    ///
    /// Errors: where an allocation failed.
    pub fn object(&self, alloc: Global) -> Result<Value, AllocError> {
        let members = self
            .members(alloc)?
            .with("push_refused", Value::from(self.is_push_refused))?
            .with("pop_refused", Value::from(self.is_pop_refused))?
            .with("went_round", name_list(alloc, &self.rounds)?)?
            .number("most_items", self.most_items as u64)?;
        let shown = members.object();
        Ok(Members::new(alloc).with("coverage", shown)?.object())
    }

    // Puts a line for each instruction that is never met, or at which calls are cut, at the end.
    fn put_lines(&self, alloc: Global, text: &mut String) -> Result<(), AllocError> {
        for line in self.lines.iter() {
            text.push_str(line.to_string(alloc)?.as_str())?;
        }
        Ok(())
    }

    // Puts a line for each array in which an index went round at the end.
    fn put_rounds(&self, alloc: Global, text: &mut String) -> Result<(), AllocError> {
        for name in self.rounds.iter() {
            text.push_str(format!(in alloc; "array {name}: index went round\n")?.as_str())?;
        }
        Ok(())
    }

    /// What is shown, one fact a line, as `coverage` says it of one certificate.
    ///
    /// Errors: where an allocation failed.
    pub fn text(&self, alloc: Global) -> Result<String, AllocError> {
        let (clients, records, most) = (self.clients, self.records, self.most_items);
        let mut text = format!(in alloc; "coverage: {clients} clients, {records} records\n")?;
        self.put_lines(alloc, &mut text)?;
        self.put_rounds(alloc, &mut text)?;
        let (push, pop) = (answer(self.is_push_refused), answer(self.is_pop_refused));
        let round = answer(!self.rounds.is_empty());
        text.push_str(format!(in alloc;
            "push refused: {push}\npop refused: {pop}\nindex went round: {round}\nmost items: {most}\n"
        )?.as_str())?;
        Ok(text)
    }
}
