//! What a run returned, as texts: a line for each sender, and a row for each visit of the logs.
#![tactic(auto)]

mod counts;
mod laws;
mod line;
mod pieces;
mod reports;
mod row;
mod total;
mod visits;

pub use laws::{counts_tell_tallies, one_device_is_not_told, visits_come_in_pieces};
pub use pieces::{put, put_number};
pub use reports::{MAX_DEVICES, report, report_line, report_tallies};
pub use visits::{VisitLog, visit_rows, visits_csv, visits_header};
