//! Runs scripts of sends and pulls over the queues and pull schedulers of a plan.
#![tactic(auto)]

mod answer;
mod fields;
mod held;
mod laws;
mod limits;
mod lines;
mod moment;
mod reading;
mod replay;
mod report;
mod rows;
mod run;
mod script;
mod script_router;
mod text;
mod writer;
mod writing;

pub use laws::{
    closing_examples, devices_of_plans_stand_apart, devices_stand_apart,
    one_device_needs_no_number, plans_have_at_most_one_meaning, record_examples, records_grow,
    records_mean_their_course, records_of_plans_mean_their_course, script_examples,
    scripts_have_at_most_one_meaning, word_examples, writer_examples,
};
pub use limits::{MAX_DEVICE, MAX_LINES, MAX_MOMENT, MAX_SCRIPT_BYTES};
pub use replay::Replay;
pub use report::{accounts_tell, write_accounts};
pub use run::{run_script, run_script_logged};
pub use script::{Command, ScriptLine};
pub use text::{COMMAND_ROOM, command_line, drain_line};
pub use writer::ScriptWriter;
