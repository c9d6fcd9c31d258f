//! Tests of the small types, the fields and the records: tables of values from outside the repository, what each record is
//! read as and written as again, and each public call of hb_base and hb_wire once on its happy path.
#![tactic(auto)]

#[cfg(test)]
mod addresses;
#[cfg(test)]
mod fields;
#[cfg(test)]
mod ips;
#[cfg(test)]
mod parts;
#[cfg(test)]
mod policies;
#[cfg(test)]
mod records;
#[cfg(test)]
mod repeated;
#[cfg(test)]
mod rows;
#[cfg(test)]
mod spelled;
#[cfg(test)]
mod streams;
#[cfg(test)]
mod tables;
#[cfg(test)]
mod texts;
#[cfg(test)]
mod values;
#[cfg(test)]
mod written;
