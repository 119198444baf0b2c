//! Free runs are judged by what is kept of them.

ghost use Rattle.san_law.specs.Network.{Network};
ghost use Rattle.san_legal.specs.Free.{IsFreeNetwork};
ghost use Rattle.san_legal.specs.Laws.{KeptStateIsOne, KeptStatesAreThoseOfRuns, LegalEventsAreThoseOfRuns, LegalEventsBeginRuns, LegalRunsAreThoseOfDraws};

/// The states that some draws reach with given events are those that agree with what is kept, each
/// timer independently of the others with one of its due times.
pub fn kept_states_are_those_of_runs()
    ensures { (network : Network) → IsFreeNetwork network → KeptStatesAreThoseOfRuns network }
{}

/// Events may come one after another exactly where some draws give them, and then a whole run begins
/// with them.
pub fn legal_events_are_those_of_runs()
    ensures reached { (network : Network) → IsFreeNetwork network → LegalEventsAreThoseOfRuns network }
    ensures begin { (network : Network) → IsFreeNetwork network → LegalEventsBeginRuns network }
{}

/// Events and an ending may come, by the kept state alone, exactly where they are the whole run of
/// some draws.
pub fn legal_runs_are_those_of_draws()
    ensures { (network : Network) → IsFreeNetwork network → LegalRunsAreThoseOfDraws network }
{}

/// There is one kept state after given events.
pub fn a_kept_state_is_one()
    ensures { (network : Network) → IsFreeNetwork network → KeptStateIsOne network }
{}
