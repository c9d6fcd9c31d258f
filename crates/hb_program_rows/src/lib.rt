//! Tests of what a run of the program reads and tells: tables of scripts, and whole scripts that are read and written again; tables of
//! traces and notes, and their reports; audits that fail, and the lines of notes.
#![tactic(auto)]

#[cfg(test)]
mod audit_boxes;
#[cfg(test)]
mod audit_lines;
#[cfg(test)]
mod drip;
#[cfg(test)]
mod report_entries;
#[cfg(test)]
mod report_noted;
#[cfg(test)]
mod report_notes;
#[cfg(test)]
mod reports;
#[cfg(test)]
mod script_entries;
#[cfg(test)]
mod script_forms;
#[cfg(test)]
mod script_notation;
#[cfg(test)]
mod scripts;
#[cfg(test)]
mod valve;
