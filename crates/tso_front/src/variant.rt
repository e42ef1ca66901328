//! Other calls than those that a program text has.

ghost use Rattle.std.specs.Prelude.{◌≡◌, ◌+◌, ◌<◌, ◌≤◌, ◌++◌, Err, IfErr, IfOk, MatchOption, MatchResult, None, Ok, false, length, true, vec_len};
ghost use Rattle.tso_client.specs.Headline.{DenotesChecked};
ghost use Rattle.tso_client.specs.Programs.{IsRefused};
ghost use Rattle.tso_front.specs.Replaced.{calls_line, calls_of, ended, head_line, head_of, lines_of, part_of, prologue_of, replaces, text_of, threads_of, without_end};
ghost use Rattle.tso_front.specs.Variants.{IsMade, IsWhyNot, are_calls, are_fit, are_threads, is_misuse, is_mode, is_plain, too_long_text};
ghost use Rattle.tso_prog.specs.declared.client.Client.{Client};

use crate::failure::{Failure, misused};
use crate::part::{Part, part_of};
use crate::words::Word;
use clap::ArgMatches;
use std::alloc::{AllocError, Global};
use tso_client::{CheckError, checked_of};
use tso_prog::{Code, Fault};

/// A program text has at most so many bytes.
pub const TEXT_BYTES: usize = 65_536;

const CALLS: &str =
    "--client has the calls of one to four threads, with | between two threads; --before has those of the prologue, or none.
Each has one to four calls, push V or pop, with a comma between two, and all together have twelve at most.
";

const MODE: &str = "--mode is strict or weak
";

/// What stands in place of the threads, of the prologue and of the mode of a program text.
#[derive(Clone, Copy)]
pub struct Variant<'a> {
    /// The calls of the threads, with `|` between two threads.
    pub client: Option<&'a str>,
    /// The calls of the prologue; blank where there is to be none.
    pub before: Option<&'a str>,
    /// `strict` or `weak`.
    pub mode: Option<&'a str>,
}

/// A text on its way: what stands before all calls, and the calls that stay.
#[derive(Drop)]
struct Draft {
    head: Vec<u8>,
    // How many lines the head has.
    head_lines: u32,
    calls: Vec<u8>,
}

// What is said of options with which a text is too long.
const LONG: &str = "the program text has more than 65536 bytes";

// Puts a line of two parts at the end.
fn put_line(text: &mut Vec<u8>, word: &[u8], rest: &[u8]) -> Result<(), AllocError>
    ensures { IfOk result (λ _. text.new.items ≡ text.old.items ++ ended (word.now ++ rest.now)) }
{
    text.extend_from_slice(word)?;
    text.extend_from_slice(rest)?;
    text.push(b'\n')?;
    Ok(())
}

// A text without the end of its last line, if that has one.
fn without_end(text: &[u8]) -> &[u8]
    ensures { result.now ≡ without_end text.now }
{
    text.strip_suffix(b"\n").unwrap_or(text)
}

impl Draft {
    // Puts a line of two parts at the end of the head.
    fn put_head(&mut self, word: &[u8], rest: &[u8]) -> Result<(), AllocError>
        requires { self.old.head_lines < u32.MAX }
        ensures head { IfOk result (λ _. self.new.head.items ≡ self.old.head.items ++ ended (word.now ++ rest.now)) }
        ensures lines { IfOk result (λ _. self.new.head_lines ≡ self.old.head_lines + 1) }
        ensures calls { self.new.calls ≡ self.old.calls }
    {
        put_line(&mut self.head, word, rest)?;
        self.head_lines += 1;
        Ok(())
    }
}

// Whether words can stand for calls: neither a comment nor a second line is hidden in them.
fn are_calls(words: &str) -> bool
    ensures { result ≡ are_calls words.now }
{
    words.as_bytes().iter().all(
        |byte| matches!(*byte, b' ' | b',' | b'-' | b'0'..=b'9' | b'a'..=b'z'),
    )
}

// Whether words can stand for the calls of threads.
fn are_threads(words: &str) -> bool
    ensures { result ≡ are_threads words.now }
{
    words.split('|').all(are_calls)
}

// Whether a mode is none, or one of the two.
fn is_mode(mode: Option<&str>) -> bool
    ensures { result ≡ is_mode mode.entry }
{
    matches!(mode, None | Some("strict" | "weak"))
}

/// The options that put other calls in place of a text's.
pub const VARIANT: [Word; 3] = [
    Word::Text {
        name: "client",
        value: "CALLS",
        help: "the calls of the threads, in place of the text's: push 1, push 2 | pop",
    },
    Word::Text {
        name: "before",
        value: "CALLS",
        help: "the calls of the prologue, in place of the text's; none where they are blank",
    },
    Word::Text {
        name: "mode",
        value: "MODE",
        help: "strict or weak, in place of what the text says",
    },
];

/// The first fault of a program text, if it has one.
///
/// Errors: where a growth was refused.
pub fn fault_of(alloc: Global, text: &[u8]) -> Result<Option<Fault>, AllocError>
    ensures { IfOk result (λ found. MatchOption found ((c : Client) × DenotesChecked text.now c) (IsRefused text.now)) }
{
    match checked_of(alloc, text) {
        Ok(checked) => {
            drop(checked);
            Ok(None)
        }
        Err(CheckError::Program(fault)) => Ok(Some(fault)),
        Err(CheckError::Memory) => Err(AllocError),
    }
}

/// What the words put in place of a text's calls.
pub fn variant_of<'a>(matches: &ArgMatches<'a>) -> Variant<'a> {
    Variant {
        client: matches.get_str("client"),
        before: matches.get_str("before"),
        mode: matches.get_str("mode"),
    }
}

// The fault of a text that is too long.
const TOO_LONG: Fault = Fault {
    code: Code::E01,
    line: 0,
};

impl<'a> Variant<'a> {
    /// The text as it stands.
    pub const PLAIN: Variant<'static> = Variant {
        client: None,
        before: None,
        mode: None,
    };

    // Whether nothing stands in place of anything.
    fn is_plain(&self) -> bool
        ensures { result ≡ is_plain self.now }
    {
        self.client.is_none() && self.before.is_none() && self.mode.is_none()
    }

    // Whether another stands in place of this part.
    fn replaces(&self, part: Part) -> bool
        ensures { result ≡ replaces self.now part }
    {
        match part {
            Part::Mode => self.mode.is_some(),
            Part::Before => self.before.is_some(),
            Part::Thread => self.client.is_some(),
            Part::Other => false,
        }
    }

    // Takes over a line of the text, or what stands in its place.
    fn put(&self, draft: &mut Draft, line: &[u8]) -> Result<(), AllocError>
        requires { draft.old.head_lines < u32.MAX }
        ensures head { IfOk result (λ _. draft.new.head.items ≡ draft.old.head.items ++ text_of (head_line self.now (part_of line.now) line.now)) }
        ensures lines { IfOk result (λ _. draft.new.head_lines ≡ draft.old.head_lines + length (head_line self.now (part_of line.now) line.now)) }
        ensures calls { IfOk result (λ _. draft.new.calls.items ≡ draft.old.calls.items ++ text_of (calls_line self.now (part_of line.now) line.now)) }
    {
        let part = part_of(line);
        match (part, self.mode) {
            (Part::Mode, Some(mode)) => draft.put_head(b".mode ", mode.as_bytes()),
            (Part::Mode | Part::Other, _) => draft.put_head(b"", line),
            (Part::Before | Part::Thread, _) if self.replaces(part) => Ok(()),
            (Part::Before | Part::Thread, _) => put_line(&mut draft.calls, b"", line),
        }
    }

    // The text without what is replaced.
    fn draft_of(&self, alloc: Global, text: &[u8]) -> Result<Draft, AllocError>
        requires { length text.now ≤ 65536 }
        ensures head { IfOk result (λ draft. draft.head.items ≡ text_of (head_of self.now (lines_of text.now))) }
        ensures lines { IfOk result (λ draft. draft.head_lines ≡ length (head_of self.now (lines_of text.now))) }
        ensures calls { IfOk result (λ draft. draft.calls.items ≡ text_of (calls_of self.now (lines_of text.now))) }
    {
        let mut draft = Draft {
            head: Vec::new(alloc),
            head_lines: 0,
            calls: Vec::new(alloc),
        };
        for line in without_end(text).split(|byte| *byte == b'\n') {
            self.put(&mut draft, line)?;
        }
        Ok(draft)
    }

    // Puts the prologue at the end, where it has a call.
    fn put_before(&self, text: &mut Vec<u8>) -> Result<(), AllocError>
        ensures { IfOk result (λ _. text.new.items ≡ text.old.items ++ text_of (prologue_of self.now.before)) }
    {
        let before = self.before.unwrap_or("").trim();
        if before.is_empty() {
            return Ok(());
        }
        put_line(text, b".before ", before.as_bytes())
    }

    // Puts the threads at the end, if they stand in the place of others.
    fn put_threads(&self, text: &mut Vec<u8>) -> Result<(), AllocError>
        ensures { IfOk result (λ _. text.new.items ≡ text.old.items ++ text_of (threads_of self.now.client)) }
    {
        let Some(client) = self.client else {
            return Ok(());
        };
        for thread in client.split('|') {
            put_line(text, b".thread ", thread.trim().as_bytes())?;
        }
        Ok(())
    }

    // Puts the prologue behind the head, the calls that stay behind that, and then the threads.
    fn completed(&self, draft: Draft) -> Result<Vec<u8>, AllocError>
        ensures { IfOk result (λ made. made.items ≡ draft.head.items ++ text_of (prologue_of self.now.before) ++ draft.calls.items ++ text_of (threads_of self.now.client)) }
    {
        let mut text = draft.head;
        self.put_before(&mut text)?;
        text.extend_from_slice(&draft.calls)?;
        self.put_threads(&mut text)?;
        Ok(text)
    }

    // Puts the names of the options that are given at the end, with a comma between two.
    fn put_names(&self, names: &mut String) -> Result<(), AllocError> {
        for (name, value) in [
            ("--client", self.client),
            ("--before", self.before),
            ("--mode", self.mode),
        ] {
            if value.is_some() {
                if !names.is_empty() {
                    names.push_str(", ")?;
                }
                names.push_str(name)?;
            }
        }
        Ok(())
    }

    // That the text is too long with these options.
    fn too_long(&self, alloc: Global) -> Failure
        ensures { is_misuse result ≡ true }
    {
        let mut names = String::new(alloc);
        match self.put_names(&mut names) {
            Ok(()) => match format!(in alloc; "{names}: with that {LONG}\n") {
                Ok(text) => Failure::Usage(text),
                Err(_) => Failure::Memory,
            },
            Err(_) => Failure::Memory,
        }
    }

    // The text with other calls in place of its own, which is not too long.
    fn replaced(&self, alloc: Global, text: &[u8]) -> Result<Vec<u8>, Failure>
        requires { length text.now ≤ 65536 }
        ensures made { IfOk result (λ made. IsMade self.now text.now made.items) }
        ensures refused { IfErr result (λ failure. IsWhyNot self.now text.now failure) }
    {
        self.refused(alloc)?;
        let draft = self.draft_of(alloc, text)?;
        let head_lines = draft.head_lines;
        let text = self.completed(draft)?;
        if text.len() > TEXT_BYTES {
            return Err(self.too_long(alloc));
        }
        match fault_of(alloc, &text)? {
            Some(fault) if fault.line > head_lines => Err(misused(alloc, CALLS)),
            _ => Ok(text),
        }
    }

    // Refuses words that can't stand in a text.
    fn refused(&self, alloc: Global) -> Result<(), Failure>
        ensures { MatchResult result (λ _. are_fit self.now ≡ true) (λ failure. (are_fit self.now ≡ false) × (is_misuse failure ≡ true)) }
    {
        if !are_threads(self.client.unwrap_or("")) || !are_calls(self.before.unwrap_or("")) {
            return Err(misused(alloc, CALLS));
        }
        if !is_mode(self.mode) {
            return Err(misused(alloc, MODE));
        }
        Ok(())
    }

    /// The text with other calls in place of its own. What stands before the calls keeps its lines. A text that is too long is refused
    /// as it stands, before anything of it is replaced.
    ///
    /// Errors: `Program` with E01 exactly where the text has more than 65,536 bytes and something is replaced; `Usage` where the words are
    /// no calls, or not those of a program, or the text is too long with them; `Memory`.
    pub fn applied(&self, alloc: Global, text: Vec<u8>) -> Result<Vec<u8>, Failure>
        ensures plain { is_plain self.now ≡ true → result ≡ Ok text }
        ensures long { is_plain self.now ≡ false → 65536 < vec_len text → result ≡ Err too_long_text }
        ensures made { is_plain self.now ≡ false → IfOk result (λ made. IsMade self.now text.items made.items) }
        ensures refused { IfErr result (λ failure. (is_plain self.now ≡ false) × IsWhyNot self.now text.items failure) }
    {
        if self.is_plain() {
            return Ok(text);
        }
        if text.len() > TEXT_BYTES {
            return Err(Failure::Program(TOO_LONG));
        }
        self.replaced(alloc, &text)
    }
}
