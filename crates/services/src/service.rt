//! The service, as a replica sees it.

ghost use Rattle.std.specs.Prelude.{◌≡◌, ℕ};
ghost use Rattle.payload.specs.declared.payload.Payload.{Payload};
ghost use Rattle.services.specs.declared.slip.Slip.{Slip};

use crate::slip::Slip;
use payload::Payload;

/// A service means a state. `step` and `result_of` are fixed by state and payload, whatever holds the state.
/// `undoes s p slip`: the slip is one that undoes the step by `p` from the state `s`.
pub trait Service {
    ghost State: { Type 0 };

    ghost state: { Self → State };

    ghost step: { State → Payload → State };

    ghost result_of: { State → Payload → ℕ };

    ghost undoes: { State → Payload → Slip → Type 0 };

    /// One step: the result, with a slip that undoes it. Any payload is taken.
    fn apply(&mut self, payload: &Payload) -> (u64, Slip)
        ensures steps { state self.new ≡ step (state self.old) payload.now }
        ensures answers { result.0 ≡ result_of (state self.old) payload.now }
        ensures slips { undoes (state self.old) payload.now result.1 };

    /// From the state that a step left, with a slip that undoes the step: exactly the state before it. Any other
    /// slip is taken too, and leaves some state.
    fn undo(&mut self, payload: &Payload, slip: &Slip)
        ensures { (s : State) → state self.old ≡ step s payload.now → undoes s payload.now slip.now → state self.new ≡ s };
}

/// Applies a payload and undoes it: the result that was given, and the service as it was.
pub fn apply_and_undo<S: Service>(service: &mut S, payload: &Payload) -> u64
    ensures answers { result ≡ S.result_of (S.state service.old) payload.now }
    ensures back { S.state service.new ≡ S.state service.old }
{
    let (result, slip) = service.apply(payload);
    service.undo(payload, &slip);
    result
}
