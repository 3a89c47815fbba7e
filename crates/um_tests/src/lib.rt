//! Tests of the other crates, and whole runs with sources and sinks in memory.
#![tactic(auto)]

#[cfg(test)]
mod bits;
#[cfg(test)]
mod blocks;
#[cfg(test)]
mod bursts;
#[cfg(test)]
mod code;
#[cfg(test)]
mod coded_bits;
#[cfg(test)]
mod crc;
#[cfg(test)]
mod driver;
#[cfg(test)]
mod end;
#[cfg(test)]
mod erasures;
#[cfg(test)]
mod error_bursts;
#[cfg(test)]
mod error_texts;
#[cfg(test)]
mod failing;
#[cfg(test)]
mod formats;
#[cfg(test)]
mod hostile;
#[cfg(test)]
mod lapdm_frames;
#[cfg(test)]
mod lines;
#[cfg(test)]
mod link;
#[cfg(test)]
mod list_decoding;
#[cfg(test)]
mod make;
#[cfg(test)]
mod margin;
#[cfg(test)]
mod mobile;
#[cfg(test)]
mod network;
#[cfg(test)]
mod outside;
#[cfg(test)]
mod ranked_words;
#[cfg(test)]
mod repair;
#[cfg(test)]
mod replay;
#[cfg(test)]
mod reports;
#[cfg(test)]
mod script;
#[cfg(test)]
mod script_lines;
#[cfg(test)]
mod segments;
#[cfg(test)]
mod show;
#[cfg(test)]
mod streams;
#[cfg(test)]
mod tdma_frames;
#[cfg(test)]
mod time_slots;
#[cfg(test)]
mod training_sequences;
#[cfg(test)]
mod trellis;
#[cfg(test)]
mod window;
#[cfg(test)]
mod world;
