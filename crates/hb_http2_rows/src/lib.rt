//! Tests of the parts of HTTP/2: header compression, frames and windows at values from outside the repository; what fragments of
//! blocks are answered, what waits to be written and what is owed, step by step; and each public call of hb_hpack, hb_frames,
//! hb_windows and hb_blocks once on its happy path.
#![tactic(auto)]

#[cfg(test)]
mod block_cuts;
#[cfg(test)]
mod block_frames;
#[cfg(test)]
mod block_rows;
#[cfg(test)]
mod blocks;
#[cfg(test)]
mod encoding;
#[cfg(test)]
mod fault_texts;
#[cfg(test)]
mod frame_refusals;
#[cfg(test)]
mod frame_vectors;
#[cfg(test)]
mod frames;
#[cfg(test)]
mod hex;
#[cfg(test)]
mod hpack_vectors;
#[cfg(test)]
mod huffman;
#[cfg(test)]
mod outgoing_full;
#[cfg(test)]
mod outgoing_rows;
#[cfg(test)]
mod outgoing_steps;
#[cfg(test)]
mod output;
#[cfg(test)]
mod owed_bench;
#[cfg(test)]
mod owed_rows;
#[cfg(test)]
mod told;
#[cfg(test)]
mod windows;
