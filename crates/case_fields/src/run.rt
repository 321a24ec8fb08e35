//! Long runs of `x`, which are written as `x*200`.

use case_text::{PlayFault, number};
use std::alloc::{AllocError, Global};

/// The shortest run that is not written out.
const LEAST_RUN: usize = 100;

/// The longest one that is understood.
const MOST_RUN: u64 = 10_000;

/// The text with its first `x*N` as N times `x`.
pub fn expanded(alloc: Global, text: &str) -> Result<String, PlayFault> {
    let mut whole = String::new(alloc);
    let Some((front, rest)) = text.split_once("x*") else {
        whole.push_str(text)?;
        return Ok(whole);
    };
    let (count, back) = match rest.split_once('|') {
        Some((count, back)) => (count, back),
        None => (rest, ""),
    };
    whole.push_str(front)?;
    for _ in 0..number(count)?.min(MOST_RUN) {
        whole.push('x')?;
    }
    if count.len() < rest.len() {
        whole.push('|')?;
    }
    whole.push_str(back)?;
    Ok(whole)
}

/// Appends `x` this often, or how often where that is long.
fn push_run(run: usize, out: &mut String) -> Result<(), AllocError> {
    if run >= LEAST_RUN {
        return write!(out, "x*{run}");
    }
    for _ in 0..run {
        out.push('x')?;
    }
    Ok(())
}

/// The text with each long run of `x` as `x*N`.
pub fn elided(alloc: Global, text: &str) -> Result<String, AllocError> {
    let mut out = String::new(alloc);
    let mut run = 0usize;
    for letter in text.chars() {
        if letter == 'x' {
            run = run.saturating_add(1);
        } else {
            push_run(run, &mut out)?;
            run = 0;
            out.push(letter)?;
        }
    }
    push_run(run, &mut out)?;
    Ok(out)
}
