//! Changes that are tried together.

use crate::changes::{Attempt, Author, Change, Reason, fenced, taken_back};
use crate::sets::is_any_within;
use crate::sites::Site;
use std::alloc::{AllocError, Global};
use tso_front::Failure;

/// Changes of a text, each with the reason why it is not tried, if it is not, and the texts of the others in the same order.
#[derive(Drop)]
pub struct Trials {
    pub changes: Vec<(Change, Option<Reason>)>,
    pub texts: Vec<Vec<u8>>,
}

impl Trials {
    // None.
    fn new(alloc: Global) -> Trials {
        Trials {
            changes: Vec::new(alloc),
            texts: Vec::new(alloc),
        }
    }

    // Puts a change at the end.
    fn put(&mut self, change: Change, attempt: Attempt) -> Result<(), AllocError> {
        match attempt {
            Attempt::Text(text) => {
                self.texts.push(text)?;
                self.changes.push((change, None))?;
            }
            Attempt::Untried(reason) => self.changes.push((change, Some(reason)))?,
        }
        Ok(())
    }

    /// Of instructions, each of which is taken back.
    ///
    /// Errors: `Memory`.
    pub fn back(alloc: Global, author: &Author<'_>, sites: &[Site]) -> Result<Trials, Failure> {
        let mut trials = Trials::new(alloc);
        for site in sites {
            let change = Change::Back {
                line: site.line,
                form: site.form,
            };
            trials.put(change, taken_back(alloc, author, site)?)?;
        }
        Ok(trials)
    }

    /// Of sets of lines with a store, behind each of which a fence is put; but for those in which one of these sets stands.
    ///
    /// Errors: `Memory`.
    pub fn behind(
        alloc: Global,
        text: &[u8],
        sets: &[Vec<usize>],
        right: &[Vec<usize>],
    ) -> Result<Trials, Failure> {
        let mut trials = Trials::new(alloc);
        for set in sets {
            if !is_any_within(right, set) {
                let attempt = fenced(alloc, text, set)?;
                trials.put(Change::Behind(set.clone()?), attempt)?;
            }
        }
        Ok(trials)
    }
}
