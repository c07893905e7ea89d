use anyhow::{Context, Result};
use std::alloc::{AllocError, Global};

/// The text with each `[COUNT PART]` in it written out as so many times the part, and each `{N}` as the character with
/// the number N.
pub fn written_out(alloc: Global, text: &str) -> Result<String> {
    let mut out = String::new(alloc);
    for (i, piece) in text.split('[').enumerate() {
        if i == 0 {
            push_coded(&mut out, piece)?;
            continue;
        }
        let (repeat, after) = piece.split_once(']').context("a `[` without its `]`")?;
        let (count, part) = repeat.split_once(' ').context("a `[` without a count")?;
        push_times(&mut out, count.parse()?, part)?;
        push_coded(&mut out, after)?;
    }
    Ok(out)
}

/// The bytes that the digits of such a text spell.
pub fn spelled_out(alloc: Global, text: &str) -> Result<Vec<u8>> {
    let digits = written_out(alloc, text)?;
    hex::decode(alloc, digits.as_str())
        .ok()
        .context("no bytes in hexadecimal")
}

fn push_times(out: &mut String, count: u32, part: &str) -> Result<(), AllocError> {
    for _ in 0..count {
        out.push_str(part)?;
    }
    Ok(())
}

fn push_coded(out: &mut String, text: &str) -> Result<()> {
    for (i, piece) in text.split('{').enumerate() {
        if i == 0 {
            out.push_str(piece)?;
            continue;
        }
        let (code, after) = piece.split_once('}').context("a `{` without its `}`")?;
        out.push(code.parse::<u8>()?.into())?;
        out.push_str(after)?;
    }
    Ok(())
}
