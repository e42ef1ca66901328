//! The page of a code.

ghost use Rattle.std.specs.Prelude.{◌≡◌, IfOk, OnOk};
ghost use Rattle.tso_say.specs.Pages.{page_behind, page_of};

use crate::page::Page;
use crate::said::{meaning, mended, sample};
use crate::topic::{Topic, word};
use std::alloc::{AllocError, Global};

// What is said of a code, behind what is there.
fn put_page(page: &mut Page, topic: Topic) -> Result<(), AllocError>
    ensures { OnOk result (page.new.bytes.items ≡ page_behind page.old.bytes.items topic) }
{
    page.say(word(topic))?;
    page.say(": ")?;
    page.say(meaning(topic))?;
    page.say("\n\nRefused:\n\n")?;
    page.say(sample(topic))?;
    page.say("\nMended:\n\n")?;
    page.say(mended(topic))
}

/// What a code means, a small text that is refused with it, and the mended text.
///
/// Errors: where a growth was refused.
pub fn explanation(alloc: Global, topic: Topic) -> Result<Page, AllocError>
    ensures { IfOk result (λ page. page.bytes.items ≡ page_of topic) }
{
    let mut page = Page::new(alloc);
    put_page(&mut page, topic)?;
    Ok(page)
}
