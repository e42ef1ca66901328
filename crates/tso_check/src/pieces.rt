//! Parts that are cut into pieces.

ghost use Rattle.std.specs.Prelude.{OnOk};
ghost use Rattle.tso_check.specs.Pieces.{IsCutInto};

use crate::judging::Part;
use std::alloc::AllocError;

/// Puts the pieces of a part behind others, from left to right: it is halved so often, or as often as forks go.
///
/// Errors: where a growth was refused.
pub fn cut<P: Part + Drop>(part: P, halvings: u32, pieces: &mut Vec<P>) -> Result<(), AllocError>
    requires { P.is_ready part }
    ensures { OnOk result (IsCutInto P.span P.is_ready part pieces.old.items pieces.new.items) }
{
    if halvings == 0 {
        pieces.push(part)?;
        return Ok(());
    }
    let Some((left, right)) = part.halves() else {
        pieces.push(part)?;
        return Ok(());
    };
    cut(left, halvings - 1, pieces)?;
    cut(right, halvings - 1, pieces)?;
    Ok(())
}
