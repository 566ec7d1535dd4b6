//! What is written of ends and rounds: the texts of ends, and the lines of reports, phases and pools.
#![tactic(auto)]

mod end;
mod lines;
mod number;
mod report;
#[cfg(test)]
mod tests;
mod words;

pub use end::{end_text, refused_text, side_refused_text, truncated_text};
pub use lines::{put_full_line, put_id_lines, put_phase_line, put_pool_line};
pub use report::put_report_lines;
pub use words::{ending_text, phase_text, side_text};
