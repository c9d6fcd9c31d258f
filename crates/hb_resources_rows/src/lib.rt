//! Tests of resources, from gRPC's messages to the lines that tell what is held: what each piece of a stream of messages is answered; what
//! responses are read as, and the bytes of requests; what responses tell and leave, what look-ups find, and that no more than 65,536 are
//! held; what is held where memory was wanting; the lines of responses and of what is held.
#![tactic(auto)]

#[cfg(test)]
mod disco_words;
#[cfg(test)]
mod grpc_answers;
#[cfg(test)]
mod grpc_fronts;
#[cfg(test)]
mod grpc_stream;
#[cfg(test)]
mod grpc_texts;
#[cfg(test)]
mod held_full;
#[cfg(test)]
mod held_lookups;
#[cfg(test)]
mod held_outcomes;
#[cfg(test)]
mod held_records;
#[cfg(test)]
mod held_responses;
#[cfg(test)]
mod hex;
#[cfg(test)]
mod lines;
#[cfg(test)]
mod lines_told;
#[cfg(test)]
mod requests;
#[cfg(test)]
mod responses;
#[cfg(test)]
mod told;
#[cfg(test)]
mod wanting;
#[cfg(test)]
mod written;
