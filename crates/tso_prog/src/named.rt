//! The labels of a procedure.

ghost use Rattle.std.specs.Prelude.{◌≡◌, ◌++◌, ◌∷◌, [], OnOk};
ghost use Rattle.std.specs.List.{list_any};
ghost use Rattle.std.specs.Str.{bytes_eq};

use std::alloc::{AllocError, Global};
use std::collections::BTreeSet;
use std::marker::Model;

/// A label, before the instruction of this number.
#[derive(Clone, Copy)]
pub struct Target<'a> {
    pub name: &'a [u8],
    pub at: usize,
}

/// Labels in the order of their lines. Their names are also in a set, so that a text of labels alone is read in little more than
/// the time of its bytes.
#[derive(Drop)]
pub struct Labels<'a> {
    targets: Vec<Target<'a>>,
    names: BTreeSet<&'a [u8]>,
}

impl<'a> Model for Labels<'a> {
    ghost use Rattle.std.specs.Prelude.{List};
    ghost use Rattle.tso_prog.specs.Names.{AreNamed};
    ghost use Rattle.tso_prog.specs.declared.named.Target.{Target};

    ghost Value = { List Target };

    ghost view = { λ l. l.targets.items };

    ghost invariant = { λ l. AreNamed (λ k. k.now) l.names l.targets.items };
}

impl<'a> Labels<'a> {
    pub fn new(alloc: Global) -> Labels<'a>
        ensures { result ≡ [] }
    {
        Labels {
            targets: Vec::new(alloc),
            names: BTreeSet::new(alloc),
        }
    }

    pub fn as_slice(&self) -> &[Target<'a>]
        ensures { result.now ≡ self.now }
    {
        &self.targets
    }

    /// Whether a label has this name.
    pub fn contains(&self, name: &[u8]) -> bool
        ensures { result ≡ list_any (λ l. bytes_eq l.name.now name.now) self.now }
    {
        self.names.contains(name)
    }

    /// Adds a label. After an `Err` the labels are some list.
    #[tactic(auto, using(crate::proofs::Names::more_are_named))]
    pub fn push(&mut self, target: Target<'a>) -> Result<(), AllocError>
        ensures { OnOk result (self.new ≡ self.old ++ target.entry ∷ []) }
    {
        self.targets.push(target)?;
        if self.names.insert(target.name).is_err() {
            self.targets.pop();
            return Err(AllocError);
        }
        Ok(())
    }
}
