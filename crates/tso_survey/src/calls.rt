//! The calls of a client, as words.

use crate::beginning::Beginning;
use crate::method::{Method, Words};
use std::alloc::{AllocError, Global};
use std::fmt;
use tso_front::Variant;

/// The calls of a client, as `--before` and `--client` take them.
#[derive(Drop)]
pub struct Calls {
    /// Those of the prologue; empty where there is none.
    pub before: String,
    /// Those of the threads.
    pub client: String,
}

/// Which pushes have a value of their own.
#[derive(Clone, Copy, PartialEq, Eq)]
pub enum Numbering {
    /// Those of the larger client.
    Larger,
    /// Those that are taken.
    Taken,
}

// Puts a call at the end, with a comma before it, if it is not the first.
fn put_call(
    alloc: Global,
    text: &mut String,
    number: usize,
    method: Method,
    value: u32,
) -> Result<(), AllocError> {
    if number > 0 {
        text.push_str(", ")?;
    }
    match method {
        Method::Push => text.push_str(format!(in alloc; "push {value}")?.as_str()),
        Method::Pop => text.push_str("pop"),
    }
}

// Puts calls of a thread at the end. Each push that has a value has the next one.
fn put_thread(
    alloc: Global,
    text: &mut String,
    methods: &[Method],
    count: usize,
    numbering: Numbering,
    value: &mut u32,
) -> Result<(), AllocError> {
    for (number, method) in methods.iter().enumerate() {
        let is_taken = number < count;
        if *method == Method::Push && (is_taken || numbering == Numbering::Larger) {
            *value = value.saturating_add(1);
        }
        if is_taken {
            put_call(alloc, text, number, *method, *value)?;
        }
    }
    Ok(())
}

// The calls of a prologue of so many pushes.
fn prologue(alloc: Global, count: usize) -> Result<String, AllocError> {
    let mut text = String::new(alloc);
    for value in 1..=count {
        if value > 1 {
            text.push_str(", ")?;
        }
        text.push_str(format!(in alloc; "push {value}")?.as_str())?;
    }
    Ok(text)
}

impl Calls {
    /// Those of a client behind a prologue of so many pushes, each of them with a value of its own, from 1 on: first the
    /// prologue's, then those of the threads.
    ///
    /// Errors: where a growth was refused.
    pub fn of(
        alloc: Global,
        words: &Words,
        beginning: &Beginning,
        before: u32,
        numbering: Numbering,
    ) -> Result<Calls, AllocError> {
        let mut client = String::new(alloc);
        let mut value = before;
        for taken in beginning.threads.iter() {
            if taken.calls > 0 && !client.is_empty() {
                client.push_str(" | ")?;
            }
            let methods = words.methods(taken.word);
            put_thread(
                alloc,
                &mut client,
                methods,
                taken.calls,
                numbering,
                &mut value,
            )?;
        }
        Ok(Calls {
            before: prologue(alloc, before as usize)?,
            client,
        })
    }

    /// Those that a line says, as it is printed.
    ///
    /// Errors: where a growth was refused.
    pub fn of_line(alloc: Global, line: &str) -> Result<Calls, AllocError> {
        let line = line.trim();
        let (before, client) = match line.strip_prefix("before ") {
            Some(rest) => rest.split_once(':').unwrap_or(("", line)),
            None => ("", line),
        };
        Ok(Calls {
            before: String::from_str(alloc, before.trim())?,
            client: String::from_str(alloc, client.trim())?,
        })
    }

    /// The same once more.
    ///
    /// Errors: where a growth was refused.
    pub fn copied(&self) -> Result<Calls, AllocError> {
        Ok(Calls {
            before: self.before.clone()?,
            client: self.client.clone()?,
        })
    }

    /// How many calls they are.
    pub fn count(&self) -> usize {
        count_of(self.before.as_str()).saturating_add(count_of(self.client.as_str()))
    }

    /// In place of the calls of a text, in this mode, if one is given.
    pub fn variant<'a>(&'a self, mode: Option<&'a str>) -> Variant<'a> {
        Variant {
            client: Some(self.client.as_str()),
            before: Some(self.before.as_str()),
            mode,
        }
    }

    /// What its files are called, but for what stands behind the dot: `push1-push2_pop`.
    ///
    /// Errors: where a growth was refused.
    pub fn name(&self, alloc: Global) -> Result<String, AllocError> {
        let mut name = String::new(alloc);
        if !self.before.is_empty() {
            name.push_str("before-")?;
            put_name(&mut name, self.before.as_str())?;
            name.push('_')?;
        }
        put_name(&mut name, self.client.as_str())?;
        Ok(name)
    }
}

// How many calls a thread has.
fn count_in(thread: &str) -> usize {
    if thread.trim().is_empty() {
        0
    } else {
        thread.split(',').count()
    }
}

// How many calls stand between commas and bars.
fn count_of(calls: &str) -> usize {
    calls.split('|').fold(
        0usize,
        |count, thread| count.saturating_add(count_in(thread)),
    )
}

// Puts calls at the end of a file's name: `-` between calls, `_` between threads.
fn put_name(name: &mut String, calls: &str) -> Result<(), AllocError> {
    for c in calls.chars() {
        match c {
            ' ' => {}
            ',' => name.push('-')?,
            '|' => name.push('_')?,
            c => name.push(c)?,
        }
    }
    Ok(())
}

/// As a line of a survey says it: `before push 1: push 2 | pop`.
impl fmt::Display for Calls {
    fn fmt<W: fmt::Write>(&self, f: &mut fmt::Formatter<W>) -> fmt::Result {
        let client = self.client.as_str();
        if self.before.is_empty() {
            write!(f, "{client}")
        } else {
            let before = self.before.as_str();
            write!(f, "before {before}: {client}")
        }
    }
}
