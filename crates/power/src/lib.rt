// The face of the layer: every public call and type, in the order of document 01. A public call is one that is named here.
// A call that changes the unit takes its record by value and hands it back; none has a `requires`.
#![tactic(auto)]

// Conditions and settings.
pub use conditions::{Cause, Condition, Power, place_of};
pub use drive::{Drive, Edition, Made, Millis, Record, Setting, Tenths};
pub use engine::manufacture;
pub use unit::Unit;

// EPC registers.
pub use engine::set_features;
pub use registers::Registers;

// Ticks, medium calls, resets.
pub use engine::{hard_reset, power_on, read, soft_reset, tick, write};

// START STOP UNIT.
pub use bridge::{StartStopped, start_stop_unit};
pub use exchange::{Asked, Replied, answer, next_command};
pub use operations::{Acceptance, Progress, Report, Status};
pub use requests::{Failure, Reply, Request, Stage, Target};
pub use unit::Slot;

// Sense and log bytes.
pub use readouts::{log_page, request_sense};
pub use senses::Sense;

// The log pages of published ACS-2 (document 02, request (vi)).
pub use readouts::new_page;

// Transition counts (document 02, request (i)).
pub use readouts::{transition_counts, transitions_page};

// Another maker's log page (document 02, request (v)).
pub use faults::{Fault, FaultKind, Faults, kind_number, listed_count};
pub use reader::{Reader, open_page, page_faults, page_record, read_faults, read_record};

// Numbers given back.
pub use outcomes::Called;
pub use refusals::{Refusal, number, sense_of};
