// What the definitions of a script say together.

ghost use Rattle.std.specs.Prelude.{◌≡◌, ◌↔◌, ℕ, List, Ok, Err};
ghost use Rattle.mscp_reader.specs.Common.{Settings, Event, IsFault, Reads, script_outcome, ScriptFault};

/// Bytes are a script of one configuration and one list of events, or have one first fault, and never both.
#[tactic(auto, using(crate::proofs::Whole::outcome_of_read, crate::proofs::Whole::read_of_outcome, crate::proofs::Whole::outcome_of_fault, crate::proofs::Whole::fault_of_outcome))]
pub fn scripts_have_one_meaning()
    ensures read { (bytes : List ℕ) (s : Settings) (es : List Event) → Reads bytes s es ↔ (script_outcome bytes ≡ Ok
        (s, es)) }
    ensures fault { (bytes : List ℕ) (fault : ScriptFault) → IsFault bytes fault ↔ (script_outcome bytes ≡ Err fault) }
{}
