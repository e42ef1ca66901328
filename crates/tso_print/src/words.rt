//! The words of modes.

ghost use Rattle.std.specs.Prelude.{◌≡◌};
ghost use Rattle.tso_print.specs.Signs.{sign_text};
ghost use Rattle.tso_print.specs.Layout.{mode_sign};

use tso_line::Mode;

pub fn mode_word(mode: Mode) -> &'static str
    ensures { result.now ≡ sign_text (mode_sign mode) }
{
    match mode {
        Mode::Strict => "strict",
        Mode::Weak => "weak",
    }
}
