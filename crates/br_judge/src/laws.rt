// How events lead from place to place. These functions do nothing: each contract is a law of the
// definitions.

ghost use Rattle.br_judge.specs.Steps.{TransfersLead, OutcomesLead, OthersLead, PlacesStand};

/// The places of the judge, event by event: a transfer from its select to its release, what
/// its outcome calls for, and the pins.
pub fn events_lead_on()
    ensures transfers { TransfersLead }
    ensures outcomes { OutcomesLead }
    ensures others { OthersLead }
{}

/// A place says what may follow the events before it, and something may at each place but the one
/// outside the language.
pub fn places_stand()
    ensures { PlacesStand }
{}
