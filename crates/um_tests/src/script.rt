//! Scripts of `link` and their answers in short form: a line, and its answer lines separated by commas. Octets in `takes` and `sends` lines
//! are given without fill octets, and every block is received undamaged.
use crate::outside::check_run_in_pieces;
use std::alloc::{AllocError, Global};
use std::process::Abort;
use um_cli::Status;

/// A script, and the answers to its lines, in the short form.
#[derive(Drop)]
pub struct Script {
    input: String,
    output: String,
}

impl Script {
    pub fn new(alloc: Global) -> Script {
        Script {
            input: String::new(alloc),
            output: String::new(alloc),
        }
    }

    pub fn add(&mut self, line: &str, answer: &str) -> Result<(), AllocError> {
        self.input.push_str(line)?;
        self.input.push('\n')?;
        for short in answer.split(", ") {
            self.add_answer(short)?;
        }
        Ok(())
    }

    pub fn add_all(&mut self, rows: &[(&str, &str)]) -> Result<(), AllocError> {
        for (line, answer) in rows {
            self.add(line, answer)?;
        }
        Ok(())
    }

    pub fn add_times(&mut self, times: u32, rows: &[(&str, &str)]) -> Result<(), AllocError> {
        for _ in 0..times {
            self.add_all(rows)?;
        }
        Ok(())
    }

    /// Expands an answer line from its short form, and appends it.
    fn add_answer(&mut self, short: &str) -> Result<(), AllocError> {
        let mut words = short.split(' ').skip(1);
        let verb = words.next().unwrap_or("");
        let octets = words.next().unwrap_or("");
        self.output.push_str(short)?;
        if verb == "takes" || verb == "sends" {
            for _ in 0..46_usize.saturating_sub(octets.len()) / 2 {
                self.output.push_str("2b")?;
            }
        }
        if verb == "takes" {
            self.output.push_str(" tsc 0 train 0 metric 57912")?;
        }
        self.output.push('\n')
    }

    pub fn input(&self) -> &[u8] {
        self.input.as_bytes()
    }

    /// Checks that `link` writes these answers, however many octets each read and write moves.
    pub fn check(&self, rt: &(impl Abort + AllocGlobal), words: &[&str]) {
        check_run_in_pieces(
            rt,
            words,
            self.input.as_bytes(),
            Status::Done,
            self.output.as_bytes(),
        );
    }
}
