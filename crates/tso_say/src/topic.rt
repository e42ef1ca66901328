//! The codes by their words: one table, by which they are read and printed.

ghost use Rattle.std.specs.Prelude.{◌≡◌, Some, IfSome};
ghost use Rattle.tso_say.specs.Words.{topic_word, topic_named};
ghost use Rattle.tso_say.specs.declared.topic.Topic.{Topic as Code};

/// A code that stands for a refusal: `E` of a program, `K` of a certificate, `T` of a trace.
#[derive(Clone, Copy, PartialEq, Eq, PartialOrd, Ord, Hash)]
pub enum Topic {
    E01,
    E02,
    E03,
    E04,
    E05,
    E06,
    E07,
    E08,
    E09,
    E10,
    E11,
    E12,
    E13,
    E14,
    K01,
    K02,
    K03,
    K04,
    K05,
    K06,
    K07,
    K08,
    K09,
    K10,
    K11,
    K12,
    T01,
    T02,
    T03,
}

/// All codes, by letter and number.
pub const ALL: [Topic; 29] = [
    Topic::E01,
    Topic::E02,
    Topic::E03,
    Topic::E04,
    Topic::E05,
    Topic::E06,
    Topic::E07,
    Topic::E08,
    Topic::E09,
    Topic::E10,
    Topic::E11,
    Topic::E12,
    Topic::E13,
    Topic::E14,
    Topic::K01,
    Topic::K02,
    Topic::K03,
    Topic::K04,
    Topic::K05,
    Topic::K06,
    Topic::K07,
    Topic::K08,
    Topic::K09,
    Topic::K10,
    Topic::K11,
    Topic::K12,
    Topic::T01,
    Topic::T02,
    Topic::T03,
];

/// The code as it is printed.
pub fn word(topic: Topic) -> &'static str
    ensures { result.now ≡ topic_word topic }
{
    match topic {
        Topic::E01 => "E01",
        Topic::E02 => "E02",
        Topic::E03 => "E03",
        Topic::E04 => "E04",
        Topic::E05 => "E05",
        Topic::E06 => "E06",
        Topic::E07 => "E07",
        Topic::E08 => "E08",
        Topic::E09 => "E09",
        Topic::E10 => "E10",
        Topic::E11 => "E11",
        Topic::E12 => "E12",
        Topic::E13 => "E13",
        Topic::E14 => "E14",
        Topic::K01 => "K01",
        Topic::K02 => "K02",
        Topic::K03 => "K03",
        Topic::K04 => "K04",
        Topic::K05 => "K05",
        Topic::K06 => "K06",
        Topic::K07 => "K07",
        Topic::K08 => "K08",
        Topic::K09 => "K09",
        Topic::K10 => "K10",
        Topic::K11 => "K11",
        Topic::K12 => "K12",
        Topic::T01 => "T01",
        Topic::T02 => "T02",
        Topic::T03 => "T03",
    }
}

// The first code of the table with this word.
#[tactic(auto, unfolding(crate::specs::Words::topic_named))]
fn topic_named(text: &str) -> Option<Topic>
    ensures exact { result ≡ topic_named text.now }
    ensures named { IfSome result (λ t. topic_word t ≡ text.now) }
{
    ALL.iter()
        .copied()
        .find(|topic| text.as_bytes() == word(*topic).as_bytes())
}

/// The code that this text is, and no other.
pub fn find(text: &str) -> Option<Topic>
    ensures named { IfSome result (λ t. topic_word t ≡ text.now) }
    ensures each { (t : Code) → topic_word t ≡ text.now → result ≡ Some t }
{
    topic_named(text)
}
