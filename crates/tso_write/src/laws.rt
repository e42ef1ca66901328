//! A law of worked states. It does nothing when it runs.

ghost use Rattle.tso_write.specs.Worked.{AreWorkedOut, HasTree};

use crate::worked::Worked;
use tso_flow::Checked;
use tso_judge::certificates_fit;

/// The records of worked states are those of a tree, whether one is made or not.
pub fn has_tree(checked: &Checked, worked: &Worked<'_>)
    requires worked { AreWorkedOut checked.now.client worked.now }
    ensures { HasTree checked.now.client worked.now }
{
    worked.store.states_differ();
    certificates_fit(checked);
}
