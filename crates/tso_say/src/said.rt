//! What is said of each code.

ghost use Rattle.std.specs.Prelude.{◌≡◌};
ghost use Rattle.tso_say.specs.Said.{meaning_of, mended_of, sample_of};

use crate::topic::Topic;
use crate::{bad_certificates, bad_programs, bad_traces, meanings};

/// What the code means, in words.
pub fn meaning(topic: Topic) -> &'static str
    ensures { result.now ≡ meaning_of topic }
{
    match topic {
        Topic::E01 => meanings::E01,
        Topic::E02 => meanings::E02,
        Topic::E03 => meanings::E03,
        Topic::E04 => meanings::E04,
        Topic::E05 => meanings::E05,
        Topic::E06 => meanings::E06,
        Topic::E07 => meanings::E07,
        Topic::E08 => meanings::E08,
        Topic::E09 => meanings::E09,
        Topic::E10 => meanings::E10,
        Topic::E11 => meanings::E11,
        Topic::E12 => meanings::E12,
        Topic::E13 => meanings::E13,
        Topic::E14 => meanings::E14,
        Topic::K01 => meanings::K01,
        Topic::K02 => meanings::K02,
        Topic::K03 => meanings::K03,
        Topic::K04 => meanings::K04,
        Topic::K05 => meanings::K05,
        Topic::K06 => meanings::K06,
        Topic::K07 => meanings::K07,
        Topic::K08 => meanings::K08,
        Topic::K09 => meanings::K09,
        Topic::K10 => meanings::K10,
        Topic::K11 => meanings::K11,
        Topic::K12 => meanings::K12,
        Topic::T01 => meanings::T01,
        Topic::T02 => meanings::T02,
        Topic::T03 => meanings::T03,
    }
}

/// A small text that is refused with the code. Of a certificate, which is no text, it says what differs from the example of
/// docs/FORMATS.md, and of E01, which no small text has, how long the text is.
pub fn sample(topic: Topic) -> &'static str
    ensures { result.now ≡ sample_of topic }
{
    match topic {
        Topic::E01 => bad_programs::E01,
        Topic::E02 => bad_programs::E02,
        Topic::E03 => bad_programs::E03,
        Topic::E04 => bad_programs::E04,
        Topic::E05 => bad_programs::E05,
        Topic::E06 => bad_programs::E06,
        Topic::E07 => bad_programs::E07,
        Topic::E08 => bad_programs::E08,
        Topic::E09 => bad_programs::E09,
        Topic::E10 => bad_programs::E10,
        Topic::E11 => bad_programs::E11,
        Topic::E12 => bad_programs::E12,
        Topic::E13 => bad_programs::E13,
        Topic::E14 => bad_programs::E14,
        Topic::K01 => bad_certificates::K01,
        Topic::K02 => bad_certificates::K02,
        Topic::K03 => bad_certificates::K03,
        Topic::K04 => bad_certificates::K04,
        Topic::K05 => bad_certificates::K05,
        Topic::K06 => bad_certificates::K06,
        Topic::K07 => bad_certificates::K07,
        Topic::K08 => bad_certificates::K08,
        Topic::K09 => bad_certificates::K09,
        Topic::K10 => bad_certificates::K10,
        Topic::K11 => bad_certificates::K11,
        Topic::K12 => bad_certificates::K12,
        Topic::T01 => bad_traces::T01,
        Topic::T02 => bad_traces::T02,
        Topic::T03 => bad_traces::T03,
    }
}

/// The same text without its fault.
pub fn mended(topic: Topic) -> &'static str
    ensures { result.now ≡ mended_of topic }
{
    match topic {
        Topic::E01 => bad_programs::E01_MENDED,
        Topic::E02 => bad_programs::E02_MENDED,
        Topic::E03 => bad_programs::E03_MENDED,
        Topic::E04 => bad_programs::E04_MENDED,
        Topic::E05 => bad_programs::E05_MENDED,
        Topic::E06 => bad_programs::E06_MENDED,
        Topic::E07 => bad_programs::E07_MENDED,
        Topic::E08 => bad_programs::E08_MENDED,
        Topic::E09 => bad_programs::E09_MENDED,
        Topic::E10 => bad_programs::E10_MENDED,
        Topic::E11 => bad_programs::E11_MENDED,
        Topic::E12 => bad_programs::E12_MENDED,
        Topic::E13 => bad_programs::E13_MENDED,
        Topic::E14 => bad_programs::E14_MENDED,
        Topic::K01 => bad_certificates::K01_MENDED,
        Topic::K02 => bad_certificates::K02_MENDED,
        Topic::K03 => bad_certificates::K03_MENDED,
        Topic::K04 => bad_certificates::K04_MENDED,
        Topic::K05 => bad_certificates::K05_MENDED,
        Topic::K06 => bad_certificates::K06_MENDED,
        Topic::K07 => bad_certificates::K07_MENDED,
        Topic::K08 => bad_certificates::K08_MENDED,
        Topic::K09 => bad_certificates::K09_MENDED,
        Topic::K10 => bad_certificates::K10_MENDED,
        Topic::K11 => bad_certificates::K11_MENDED,
        Topic::K12 => bad_certificates::K12_MENDED,
        Topic::T01 => bad_traces::T01_MENDED,
        Topic::T02 => bad_traces::T02_MENDED,
        Topic::T03 => bad_traces::T03_MENDED,
    }
}
