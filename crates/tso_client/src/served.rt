//! What clients that were accepted say of others, in the words of the check's promise.

ghost use Rattle.std.specs.Prelude.{◌↔◌, All, IsTrue};
ghost use Rattle.tso_client.specs.Headline.{EachRunIsGood};
ghost use Rattle.tso_client.specs.Clients.{ClientCovers};
ghost use Rattle.tso_client.specs.Served.{IsServed, VerifiedServes};

use crate::covering::covers;
use tso_prog::Client;

/// Each run of a client that a verified one covers is good.
pub fn verified_serves()
    ensures { VerifiedServes }
{}

/// Whether the large client covers the small one, so that where each run of the large one is good, each run of the small one is.
pub fn answers_for(large: &Client, small: &Client) -> bool
    ensures exact { IsTrue result ↔ ClientCovers small.now large.now }
    ensures good { IsTrue result → EachRunIsGood large.now → EachRunIsGood small.now }
{
    covers(small, large)
}

/// Whether one of the accepted clients covers the asked one, so that where each run of each of them is good, each run of the asked
/// one is.
pub fn is_served(accepted: &[Client], asked: &Client) -> bool
    ensures exact { IsTrue result ↔ IsServed accepted.now asked.now }
    ensures good { IsTrue result → All EachRunIsGood accepted.now → EachRunIsGood asked.now }
{
    for large in accepted {
        if covers(asked, large) {
            return true;
        }
    }
    false
}
