//! Elements: texts, rectangles, paths and groups.
use crate::fill::{Edge, Fill, add_edge, add_fill};
use aps_model::NoMemory;
use std::fmt::Write;

/// A place: units from the left and from the top.
#[derive(Clone, Copy)]
pub struct Place {
    pub x: u64,
    pub y: u64,
}

/// A rectangle, by its upper left corner and its sizes.
#[derive(Clone, Copy)]
pub struct Area {
    pub x: u64,
    pub y: u64,
    pub width: u64,
    pub height: u64,
}

/// Which end of a text stands at its place.
#[derive(Clone, Copy)]
pub enum Anchor {
    Start,
    Middle,
    End,
}

/// A text of this size.
pub fn add_text(
    out: &mut String,
    place: Place,
    size: u64,
    anchor: Anchor,
    text: &str,
) -> Result<(), NoMemory> {
    open_text(out, place, size, anchor)?;
    out.push_str(text)?;
    close_text(out)
}

/// The beginning of a text of this size: what is written next stands in it.
pub fn open_text(
    out: &mut String,
    place: Place,
    size: u64,
    anchor: Anchor,
) -> Result<(), NoMemory> {
    let Place { x, y } = place;
    let anchor = word_of(anchor);
    write!(
        out,
        "<text x=\"{x}\" y=\"{y}\" font-size=\"{size}\" text-anchor=\"{anchor}\">"
    )
}

fn word_of(anchor: Anchor) -> &'static str {
    match anchor {
        Anchor::Start => "start",
        Anchor::Middle => "middle",
        Anchor::End => "end",
    }
}

/// The end of a text.
pub fn close_text(out: &mut String) -> Result<(), NoMemory> {
    out.push_str("</text>\n")
}

/// A rectangle.
pub fn add_rect(out: &mut String, area: Area, fill: Fill, edge: Edge) -> Result<(), NoMemory> {
    let Area {
        x,
        y,
        width,
        height,
    } = area;
    write!(
        out,
        "<rect x=\"{x}\" y=\"{y}\" width=\"{width}\" height=\"{height}\" fill=\""
    )?;
    add_fill(out, fill)?;
    out.push_str("\"")?;
    add_edge(out, edge)?;
    out.push_str("/>\n")
}

/// The beginning of a path: what is written next is its data.
pub fn open_path(out: &mut String) -> Result<(), NoMemory> {
    out.push_str("<path d=\"")
}

/// The end of a path, with these attributes.
pub fn close_path(out: &mut String, style: &str) -> Result<(), NoMemory> {
    write!(out, "\" {style}/>\n")
}

/// The end of a path that is filled.
pub fn close_filled(out: &mut String, fill: Fill) -> Result<(), NoMemory> {
    out.push_str("\" fill=\"")?;
    add_fill(out, fill)?;
    out.push_str("\"/>\n")
}

/// The beginning of a group: what is written next stands in it.
pub fn open_group(out: &mut String, name: &str) -> Result<(), NoMemory> {
    write!(out, "<g id=\"{name}\">\n")
}

/// The beginning of one of several groups, which has this number.
pub fn open_numbered(out: &mut String, name: &str, number: usize) -> Result<(), NoMemory> {
    write!(out, "<g id=\"{name}{number}\">\n")
}

/// The end of a group.
pub fn close_group(out: &mut String) -> Result<(), NoMemory> {
    out.push_str("</g>\n")
}
