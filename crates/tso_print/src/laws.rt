//! What the reader answers of a printed text.

ghost use Rattle.tso_print.specs.Denotes.{ReadsBack};

/// Of a text that denotes a client, as each printed text does, `tso_prog::read` answers nothing but a client that is the
/// same but for its lines, or `Memory`.
pub fn printed_is_read_back()
    ensures { ReadsBack }
{}
