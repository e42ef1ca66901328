//! What texts and data in a page are to its reader. These functions do nothing when they run.

ghost use Rattle.std.specs.Prelude.{ℕ, ◌==◌, not, List, IsTrue};
ghost use Rattle.std.specs.List.{filter, list_all};
ghost use Rattle.tso_page.specs.Data.{is_data};
ghost use Rattle.tso_page.specs.Escapes.{IsNoMarkup};

/// An escaped text has no quote and no bracket of a tag, and what is read in its place is the text.
pub fn escaped_text_is_no_markup()
    ensures { (text : List ℕ) → IsNoMarkup text }
{}

/// Data has no bracket of a tag, and so nothing that ends a script element.
pub fn data_is_no_markup()
    ensures { (text : List ℕ) → IsTrue (list_all (λ b. not (b == 60)) (filter is_data text)) }
{}
