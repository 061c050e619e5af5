//! Elements of a picture, each a line of SVG. Lengths are in pixels, and y grows downward.
ghost use Rattle.std.specs.Prelude.{◌≡◌, ◌≤◌, ◌<◌, ◌++◌, OnOk, get_or, length, string_bytes};
ghost use Rattle.plan_picture.specs.Elements as spec;

use std::alloc::AllocError;

/// Where a text stands, and how high its letters are: `most`, or less if it doesn't fit the width.
#[derive(Clone, Copy)]
pub(crate) struct Spot {
    /// The left end.
    pub x: usize,
    /// The line on which the letters stand.
    pub y: usize,
    /// The most that letters are high.
    pub most: usize,
    /// The width of which no text is wider.
    pub width: usize,
}

/// The size of letters at which `count` of them fit a width, and `most` at most.
fn fitting(most: usize, width: usize, count: usize) -> usize
    requires { width ≤ 500 }
    ensures { result ≡ spec.fitting most width count }
{
    most.min(width * 5 / 3 / count.max(1))
}

// ---- texts

/// Adds a text as it stands in an element.
fn push_escaped(text: &mut String, content: &str) -> Result<(), AllocError>
    ensures { OnOk result (string_bytes text.new
        ≡ string_bytes text.old ++ spec.escaped content.now) }
{
    push_escaped_bytes(text, content.as_bytes())
}

/// Adds bytes of a text as they stand in an element.
fn push_escaped_bytes(text: &mut String, bytes: &[u8]) -> Result<(), AllocError>
    ensures { OnOk result (string_bytes text.new
        ≡ string_bytes text.old ++ spec.escaped bytes.now) }
{
    'bytes: for at in 0..bytes.len() {
        push_escaped_at(text, bytes, at)?;
    }
    Ok(())
}

/// Adds one of these bytes as it stands in an element.
fn push_escaped_at(text: &mut String, bytes: &[u8], at: usize) -> Result<(), AllocError>
    requires { at < length bytes.now }
    ensures { OnOk result
        (string_bytes text.new ≡ string_bytes text.old
        ++ spec.escaped_byte (get_or bytes.now at 0)) }
{
    push_escaped_byte(text, bytes[at])
}

/// Adds a byte: what means something in XML as its entity.
fn push_escaped_byte(text: &mut String, byte: u8) -> Result<(), AllocError>
    ensures { OnOk result (string_bytes text.new
        ≡ string_bytes text.old ++ spec.escaped_byte byte) }
{
    if byte == b'&' {
        text.push_str("&amp;")
    } else if byte == b'<' {
        text.push_str("&lt;")
    } else if byte == b'>' {
        text.push_str("&gt;")
    } else {
        push_or_quote(text, byte)
    }
}

/// Adds a byte: a quote as its entity.
fn push_or_quote(text: &mut String, byte: u8) -> Result<(), AllocError>
    ensures { OnOk result (string_bytes text.new ≡ string_bytes text.old ++ spec.or_quote byte) }
{
    if byte == b'"' {
        text.push_str("&quot;")
    } else if byte == b'\'' {
        text.push_str("&#39;")
    } else {
        push_or_plain(text, byte)
    }
}

/// Adds a byte, or `?` if it isn't printable ASCII.
fn push_or_plain(text: &mut String, byte: u8) -> Result<(), AllocError>
    ensures { OnOk result (string_bytes text.new ≡ string_bytes text.old ++ spec.or_plain byte) }
{
    if 32 <= byte && byte <= 126 {
        text.push(char::from(byte))
    } else {
        text.push_str("?")
    }
}

/// Adds how a text ends: what it says, and the end of its element.
fn push_closing(text: &mut String, content: &str) -> Result<(), AllocError>
    ensures { OnOk result (string_bytes text.new
        ≡ string_bytes text.old ++ spec.closing content.now) }
{
    push_escaped(text, content)?;
    text.push_str("</text>\n")
}

/// Adds a text whose letters are `most` high, or lower if it doesn't fit a width.
pub(crate) fn push_label(
    text: &mut String,
    class: &str,
    spot: Spot,
    content: &str,
) -> Result<(), AllocError>
    requires { spot.width ≤ 500 }
    ensures { OnOk result (string_bytes text.new ≡ string_bytes text.old
        ++ spec.label class.now spot.x spot.y spot.most spot.width content.now) }
{
    push_opening(text, class, spot, content.len())?;
    push_closing(text, content)
}

/// Adds how a text of `count` letters begins.
fn push_opening(text: &mut String, class: &str, spot: Spot, count: usize) -> Result<(), AllocError>
    requires { spot.width ≤ 500 }
    ensures { OnOk result (string_bytes text.new ≡ string_bytes text.old
        ++ spec.opening class.now spot.x spot.y (spec.fitting spot.most spot.width count)) }
{
    let size = fitting(spot.most, spot.width, count);
    push_sized(text, class, spot.x, spot.y, size)
}

/// Adds how a text begins, with the size of its letters.
fn push_sized(
    text: &mut String,
    class: &str,
    x: usize,
    y: usize,
    size: usize,
) -> Result<(), AllocError>
    ensures { OnOk result (string_bytes text.new
        ≡ string_bytes text.old ++ spec.opening class.now x y size) }
{
    write!(
        text,
        "<text class=\"{class}\" x=\"{x}\" y=\"{y}\" font-size=\"{size}\">"
    )
}

/// Adds a text at a slant, upward.
pub(crate) fn push_slanted(
    text: &mut String,
    class: &str,
    spot: Spot,
    content: &str,
) -> Result<(), AllocError>
    requires { spot.width ≤ 500 }
    ensures { OnOk result (string_bytes text.new ≡ string_bytes text.old
        ++ spec.slanted class.now spot.x spot.y spot.most spot.width content.now) }
{
    push_slope(text, class, spot, content.len())?;
    push_closing(text, content)
}

/// Adds how a text of `count` letters begins at a slant.
fn push_slope(text: &mut String, class: &str, spot: Spot, count: usize) -> Result<(), AllocError>
    requires { spot.width ≤ 500 }
    ensures { OnOk result (string_bytes text.new ≡ string_bytes text.old
        ++ spec.slope class.now spot.x spot.y (spec.fitting spot.most spot.width count)) }
{
    let size = fitting(spot.most, spot.width, count);
    push_sized_slope(text, class, spot.x, spot.y, size)
}

/// Adds how a text begins at a slant, with the size of its letters.
pub(crate) fn push_sized_slope(
    text: &mut String,
    class: &str,
    x: usize,
    y: usize,
    size: usize,
) -> Result<(), AllocError>
    ensures { OnOk result (string_bytes text.new
        ≡ string_bytes text.old ++ spec.slope class.now x y size) }
{
    write!(
        text,
        "<text class=\"{class}\" transform=\"translate({x} {y}) rotate(-45)\" font-size=\"{size}\">"
    )
}

// ---- shapes

/// Adds a box: its left end, its top, its width and its height.
pub(crate) fn push_box(
    text: &mut String,
    class: &str,
    x: usize,
    y: usize,
    width: usize,
    height: usize,
) -> Result<(), AllocError>
    ensures { OnOk result (string_bytes text.new
        ≡ string_bytes text.old ++ spec.box class.now x y width height) }
{
    write!(
        text,
        "<rect class=\"{class}\" x=\"{x}\" y=\"{y}\" width=\"{width}\" height=\"{height}\"/>\n"
    )
}

/// Adds an upright line from one height to another.
pub(crate) fn push_upright(
    text: &mut String,
    class: &str,
    x: usize,
    from: usize,
    to: usize,
) -> Result<(), AllocError>
    ensures { OnOk result (string_bytes text.new
        ≡ string_bytes text.old ++ spec.upright class.now x from to) }
{
    write!(
        text,
        "<line class=\"{class}\" x1=\"{x}\" y1=\"{from}\" x2=\"{x}\" y2=\"{to}\"/>\n"
    )
}

/// Adds a level line at a height, from one distance from the left to another.
pub(crate) fn push_level(
    text: &mut String,
    class: &str,
    y: usize,
    from: usize,
    to: usize,
) -> Result<(), AllocError>
    ensures { OnOk result (string_bytes text.new
        ≡ string_bytes text.old ++ spec.level class.now y from to) }
{
    write!(
        text,
        "<line class=\"{class}\" x1=\"{from}\" y1=\"{y}\" x2=\"{to}\" y2=\"{y}\"/>\n"
    )
}

/// Adds a circle: its middle and its radius.
pub(crate) fn push_circle(
    text: &mut String,
    class: &str,
    x: usize,
    y: usize,
    radius: usize,
) -> Result<(), AllocError>
    ensures { OnOk result (string_bytes text.new
        ≡ string_bytes text.old ++ spec.circle class.now x y radius) }
{
    write!(
        text,
        "<circle class=\"{class}\" cx=\"{x}\" cy=\"{y}\" r=\"{radius}\"/>\n"
    )
}
