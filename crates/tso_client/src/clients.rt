//! Clients that cover clients.

ghost use Rattle.tso_client.specs.Clients.{ClientCoversIsTransitive, ClientsCoverThemselves, OrderIsNothing, ProgramsFollow};
ghost use Rattle.tso_client.specs.Served.{GoodnessGoesDown};

/// Where a client covers another, its program of the model covers the other's.
pub fn programs_follow()
    ensures { ProgramsFollow }
{}

/// Where all runs of a client are good, so are all runs of each client that it covers.
pub fn goodness_goes_down()
    ensures { GoodnessGoesDown }
{}

/// A client covers each one that differs from it in nothing but the order of its threads.
pub fn order_is_nothing()
    ensures { OrderIsNothing }
{}

/// A client covers itself.
pub fn clients_cover_themselves()
    ensures { ClientsCoverThemselves }
{}

/// What covers a client covers all that this one covers.
pub fn client_covers_is_transitive()
    ensures { ClientCoversIsTransitive }
{}
