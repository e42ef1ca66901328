//! Texts whose clients' runs are all good.

ghost use Rattle.std.specs.Prelude.{◌≡◌, ◌↔◌, All, IfNone, IfSome, IsTrue};
ghost use Rattle.tso_client.specs.Headline.{DenotesChecked, EachRunIsGood, IsVerified};
ghost use Rattle.tso_client.specs.Clients.{ClientCovers};
ghost use Rattle.tso_survey.specs.Verified.{IsGoodText};

use tso_client::covers;
use tso_flow::Checked;

/// The text of a client each of whose runs is good: ended or not, without a fault, and with an order that explains its calls.
#[derive(Drop)]
pub struct Accepted {
    text: Vec<u8>,
    checked: Checked,
    ghost verified: { ∥ IsGoodText text.items checked.client ∥₁ },
}

impl Accepted {
    /// A text whose client has a valid certificate.
    pub fn certified(text: Vec<u8>, checked: Checked) -> Accepted
        requires denoted { DenotesChecked text.items checked.client }
        requires good { EachRunIsGood checked.client }
        ensures { result.text ≡ text }
    {
        Accepted { text, checked }
    }

    /// A text that was verified.
    pub fn verified(text: Vec<u8>, checked: Checked) -> Accepted
        requires denoted { DenotesChecked text.items checked.client }
        requires verified { IsVerified text.items }
        ensures { result.text ≡ text }
    {
        Accepted { text, checked }
    }

    /// The text of a client that this one covers: each of its threads makes a beginning of the calls of a thread of its own here.
    /// None where it does not.
    pub fn covered(&self, text: Vec<u8>, small: Checked) -> Option<Accepted>
        requires denoted { DenotesChecked text.items small.client }
        ensures some { IfSome result (λ a. a.text ≡ text) }
        ensures none { IfNone result (ClientCovers small.client self.now.checked.client → ⊥) }
    {
        if covers(&small.client, &self.checked.client) {
            Some(Accepted {
                text,
                checked: small,
            })
        } else {
            None
        }
    }

    // Whether it is this text.
    fn is_of(&self, text: &[u8]) -> bool
        ensures { IsTrue result → ∥ IsVerified text.now ∥₁ }
    {
        is_same(&self.text, text)
    }
}

// Whether these bytes are those.
fn is_same(a: &[u8], b: &[u8]) -> bool
    ensures { IsTrue result ↔ (a.now ≡ b.now) }
{
    a == b
}

/// Whether these are the texts that were asked about, one by one: all runs of the client of each of them are good then.
pub fn are_all_accepted(accepted: &[Accepted], texts: &[Vec<u8>]) -> bool
    ensures { IsTrue result → All (λ text. ∥ IsVerified text.items ∥₁) texts.now }
{
    if accepted.len() != texts.len() {
        return false;
    }
    for number in 0..texts.len() {
        if !accepted[number].is_of(&texts[number]) {
            return false;
        }
    }
    true
}
