//! What is wrong with a section of a configuration, in words.

use crate::source::Source;
use cell_config::{ConfigFault, SectionFault, SectionKey};
use cell_sensors::{CurveFault, Points};
use std::alloc::AllocError;
use toml_places::Step;

/// Adds what is wrong with a section.
pub fn push_refused_section(
    words: &mut String,
    source: Source<'_>,
    section: SectionKey,
    fault: SectionFault,
) -> Result<(), AllocError> {
    let name = section.text();
    let end = section.axis_end();
    match fault {
        SectionFault::NoTable => {
            source.push_line(words, &[Step::Key(name)])?;
            write!(
                words,
                "{name} takes a section with the keys raw, tol and points; its head is [{name}]"
            )
        }
        SectionFault::Raw(fault) => {
            push_key(words, source, name, "raw")?;
            push_raw(words, fault, end)
        }
        SectionFault::Tol(fault) => {
            push_key(words, source, name, "tol")?;
            push_tol(words, fault)
        }
        SectionFault::Points { fault, line, curve } => {
            push_key(words, source, name, "points")?;
            match curve {
                Some(curve) => push_curve(words, curve, line),
                None => push_points(words, fault, end),
            }
        }
    }
}

/// Adds a key of a section, and its line.
fn push_key(
    words: &mut String,
    source: Source<'_>,
    section: &str,
    key: &str,
) -> Result<(), AllocError> {
    source.push_line(words, &[Step::Key(section), Step::Key(key)])?;
    write!(words, "{key} of {section} ")
}

/// Adds what `raw` takes, on an axis from 0 to `end`.
fn push_raw(words: &mut String, fault: ConfigFault, end: i32) -> Result<(), AllocError> {
    if fault == ConfigFault::Kind {
        return words.push_str("takes two whole numbers, such as [0, 4000]");
    }
    write!(
        words,
        "is out of range: it takes two numbers from 0 to 65535, the second greater by {end} or more"
    )
}

/// Adds what `tol` takes.
fn push_tol(words: &mut String, fault: ConfigFault) -> Result<(), AllocError> {
    if fault == ConfigFault::Kind {
        return words.push_str("takes a whole number, 1 to 10");
    }
    words.push_str("is out of range: it takes 1 to 10")
}

/// Adds what `points` takes, on an axis from 0 to `end`.
fn push_points(words: &mut String, fault: ConfigFault, end: i32) -> Result<(), AllocError> {
    if fault == ConfigFault::Kind {
        return write!(
            words,
            "takes pairs of whole numbers, such as [[0, 0], [4000, {end}]]"
        );
    }
    write!(
        words,
        "has a number out of range: raw values are from 0 to 65535, positions from 0 to {end}"
    )
}

/// Adds why pairs make no curve near a line.
fn push_curve(words: &mut String, fault: CurveFault, line: Points) -> Result<(), AllocError> {
    match fault {
        CurveFault::Count => words.push_str("takes 2 to 32 pairs"),
        CurveFault::Ends => {
            let (low, high) = (line.raw_lo(), line.raw_hi());
            write!(
                words,
                "has wrong ends: by raw its first raw value is {low}, and its last {high}"
            )
        }
        CurveFault::Order => {
            words.push_str("is out of order: each raw value is less than the next")
        }
        CurveFault::OffLine => {
            let end = line.at_hi();
            let most = line.tol() - 1;
            write!(
                words,
                "is off the line: positions are from 0 to {end}, and at most {most} off the straight line"
            )
        }
    }
}
