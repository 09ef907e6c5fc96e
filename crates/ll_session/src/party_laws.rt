//! Laws of a party, each proved.

ghost use Rattle.ll_session.specs.Laws.{CallsAreSteps, ConnectsAreSteps, ConnectsMayFail, LooksChangeNothing};
ghost use Rattle.ll_session.specs.Laws.{PointsAreLegal, SpawnsAreSteps};

/// A client's call that creates no client gets the plain tree's reply at that point of the session.
pub fn calls_are_steps()
    ensures { CallsAreSteps }
{}

/// A spawn with a child is the plain tree's, and the child is the next client.
pub fn spawns_are_steps()
    ensures { SpawnsAreSteps }
{}

/// A successful connect is the plain tree's, and creates the next client.
pub fn connects_are_steps()
    ensures { ConnectsAreSteps }
{}

/// If a client learns of all entries made so far, the session stays the same.
pub fn looks_change_nothing()
    ensures { LooksChangeNothing }
{}

/// How the plain tree may refuse the next client's connect.
pub fn connects_may_fail()
    ensures { ConnectsMayFail }
{}

/// At each point the session's entries are a legal history that leads to its tree. At the end they are all entries.
pub fn points_are_legal()
    ensures { PointsAreLegal }
{}
