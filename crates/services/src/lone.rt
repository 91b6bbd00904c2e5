//! The lone service: one service, given payloads one after the other from a first state. What it would hold and
//! answer is what every replica is measured by.

ghost use Rattle.payload.specs.declared.payload.Payload.{Payload};
ghost use Rattle.services.specs.Lone.{Appending, Beginning};

use crate::service::Service;

/// Running a list of payloads and then another is running the two lists as one: state, results, number of results.
pub fn appending_laws<S: Service>()
    ensures { Appending S.Service.State Payload S.Service.step S.Service.result_of }
{}

/// The result at a place is fixed by the payloads up to that place: it is the result of the payload there, in the
/// state after those before it, and what comes later has no say in it.
pub fn beginning_law<S: Service>()
    ensures { Beginning S.Service.State Payload S.Service.step S.Service.result_of }
{}
