// The safety of the protocol, as theory: what good replicas do is stated as relations (specs/), and each function below
// promises one theorem over all runs of them. Nothing is computed here.
#![tactic(auto)]

ghost use Rattle.std.specs.Prelude.{ℕ};
ghost use Rattle.agreement.specs.Promises.{ChosenFixed, LogsAgree, OneList, PreparedOnce};
ghost use Rattle.agreement.specs.Samples.{SampleChange, SampleCommit};
ghost use Rattle.agreement.specs.Statements.{Statement};

// A kind of requests, whose equality can be decided, and the seals that exist over statements on them, by station.
pub trait Ring {
    ghost Request: { Type 0 };

    ghost same: { Discrete Request };

    ghost sealed: { ℕ → Statement Request → Type 0 };
}

// Two prepared certificates of one view and round have one request.
pub fn prepared_once<R: Ring>()
    ensures { PreparedOnce R.Ring.Request R.Ring.sealed }
{}

// A chosen request is the only one in its view and later, and so are the requests below it.
pub fn chosen_fixed<R: Ring>()
    ensures { ChosenFixed R.Ring.Request R.Ring.sealed }
{}

// Committed logs of good stations agree, with each other and with what is chosen.
pub fn logs_agree<R: Ring>()
    ensures { LogsAgree R.Ring.Request R.Ring.sealed }
{}

// One list of requests holds all committed logs and all that is chosen.
pub fn one_list<R: Ring>()
    ensures { OneList R.Ring.Request R.Ring.sealed }
{}

// A run of four stations that chooses and commits a request.
pub fn sample_commit()
    ensures { SampleCommit }
{}

// A run of four stations whose change of view undoes a line and keeps a chosen one.
pub fn sample_change()
    ensures { SampleChange }
{}
