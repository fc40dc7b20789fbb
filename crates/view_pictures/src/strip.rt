//! The strips below the lanes: overspent budgets, and changes.
ghost use Rattle.std.specs.Prelude.{◌≡◌, ◌+◌, ◌*◌, ◌<◌, ◌≤◌, length, map, IfOk, OnOk, [], nat_lt, if◌then◌else◌};
ghost use Rattle.view_marks.specs.declared.alteration.Alteration.{Alteration};
ghost use Rattle.view_samples.specs.declared.overspent.Overspent.{Overspent};
ghost use Rattle.view_pictures.specs.Strip.{all_drawn, lowest_bar, marks_of, room_behind, with_drawn_mark, with_moment};
ghost use Rattle.view_svg.specs.Span.{lowest_top, page_width};

use crate::mark::Mark;
use crate::scene::Scene;
use aps_model::{Nanos, NoMemory, ThreadRow};
use std::alloc::Global;
use std::fmt::Write;
use view_marks::Alteration;
use view_marks::text::{add_alteration, row_name};
use view_samples::Overspent;
use view_svg::element::add_text;
use view_svg::glyph::add_glyph;
use view_svg::{Anchor, Glyph, Place, Span};

/// How near a mark may stand to the last one drawn, and how much of the space before the next one stays empty.
const NEAR: u64 = 80;

const EMPTY: u64 = 70;

/// How wide a letter is, and how wide a picture.
const LETTER: u64 = 62;

const WIDTH: u64 = 14_000;

/// How far a strip is below the last one.
const STRIP: u64 = 240;

/// The marks of both strips.
#[derive(Drop)]
pub struct Strips {
    overspent: Vec<Mark>,
    changes: Vec<Mark>,
}

impl Strips {
    /// How many strips have a mark.
    pub fn count(&self) -> u64
        ensures same { result
            ≡ (if nat_lt 0 (length self.now.overspent.items) then 1 else 0) + (if nat_lt 0 (length self.now.changes.items) then 1 else 0) }
        ensures few { result ≤ 2 }
    {
        let overspent = if self.overspent.is_empty() { 0 } else { 1 };
        let changes = if self.changes.is_empty() { 0 } else { 1 };
        overspent + changes
    }
}

/// The marks of the strips in this span.
pub fn strips_of(
    alloc: Global,
    span: &Span,
    alterations: &[Alteration],
    overspent: &[Overspent],
) -> Result<Strips, NoMemory>
    ensures overspent { IfOk result (λ strips.
        all_drawn strips.overspent.items ≡ marks_of span.now.from span.now.to (map (λ (one : Overspent). one.moment) overspent.now)) }
    ensures changes { IfOk result (λ strips.
        all_drawn strips.changes.items ≡ marks_of span.now.from span.now.to (map (λ (one : Alteration). one.moment) alterations.now)) }
{
    Ok(Strips {
        overspent: marks_of_overspent(alloc, span, overspent)?,
        changes: marks_of_changes(alloc, span, alterations)?,
    })
}

/// The marks of overspent budgets in this span.
fn marks_of_overspent(
    alloc: Global,
    span: &Span,
    overspent: &[Overspent],
) -> Result<Vec<Mark>, NoMemory>
    ensures { IfOk result (λ marks.
        all_drawn marks.items ≡ marks_of span.now.from span.now.to (map (λ (one : Overspent). one.moment) overspent.now)) }
{
    let mut marks = Vec::new(alloc);
    for (i, one) in overspent.iter().enumerate() {
        add_moment(&mut marks, span, one.moment, i)?;
    }
    Ok(marks)
}

/// The marks of changes in this span.
fn marks_of_changes(
    alloc: Global,
    span: &Span,
    alterations: &[Alteration],
) -> Result<Vec<Mark>, NoMemory>
    ensures { IfOk result (λ marks.
        all_drawn marks.items ≡ marks_of span.now.from span.now.to (map (λ (one : Alteration). one.moment) alterations.now)) }
{
    let mut marks = Vec::new(alloc);
    for (i, one) in alterations.iter().enumerate() {
        add_moment(&mut marks, span, one.moment, i)?;
    }
    Ok(marks)
}

/// The mark of a moment, where the span has it.
fn add_moment(
    marks: &mut Vec<Mark>,
    span: &Span,
    moment: Nanos,
    place: usize,
) -> Result<(), NoMemory>
    ensures { OnOk result
        (all_drawn marks.new.items ≡ with_moment span.now.from span.now.to (all_drawn marks.old.items) moment place) }
{
    if span.has(moment) {
        add_mark(marks, span.x_of(moment), place)?;
    }
    Ok(())
}

/// The mark of what stands at this place of its list: it is counted at the last one where it is too near that.
fn add_mark(marks: &mut Vec<Mark>, x: u64, place: usize) -> Result<(), NoMemory>
    requires { x ≤ page_width }
    ensures { OnOk result (all_drawn marks.new.items ≡ with_drawn_mark (all_drawn marks.old.items) x place) }
{
    if let Some(last) = marks.last().copied() {
        if x < last.x + NEAR {
            let end = marks.len() - 1;
            let more = last.more.saturating_add(1);
            let Mark { x, place, .. } = last;
            marks[end] = Mark { x, place, more };
            return Ok(());
        }
    }
    marks.push(Mark { x, place, more: 0 })?;
    Ok(())
}

/// The strips that have a mark.
pub fn add_strips(
    alloc: Global,
    out: &mut String,
    threads: &[ThreadRow],
    scene: &Scene,
    strips: &Strips,
    alterations: &[Alteration],
    overspent: &[Overspent],
    foot: u64,
) -> Result<(), NoMemory>
    requires { foot ≤ lowest_top }
{
    let mut y = foot;
    if !strips.overspent.is_empty() {
        add_overspent(alloc, out, scene, &strips.overspent, overspent, y)?;
        y += STRIP;
    }
    if !strips.changes.is_empty() {
        add_changes(alloc, out, threads, scene, &strips.changes, alterations, y)?;
    }
    Ok(())
}

/// The strip of overspent budgets: each with its partition.
fn add_overspent(
    alloc: Global,
    out: &mut String,
    scene: &Scene,
    marks: &[Mark],
    overspent: &[Overspent],
    y: u64,
) -> Result<(), NoMemory>
    requires { y ≤ lowest_bar }
{
    add_label(out, y, "overspent")?;
    for i in 0..marks.len() {
        let mut text = String::new(alloc);
        if let Some(one) = overspent.get(marks[i].place) {
            text.push_str(row_name(scene.rows.as_slice(), one.partition))?;
        }
        add_marked(out, Glyph::Spent, marks, i, y, text)?;
    }
    Ok(())
}

/// The strip of changes: each with its words.
fn add_changes(
    alloc: Global,
    out: &mut String,
    threads: &[ThreadRow],
    scene: &Scene,
    marks: &[Mark],
    alterations: &[Alteration],
    y: u64,
) -> Result<(), NoMemory>
    requires { y ≤ lowest_bar }
{
    add_label(out, y, "changes")?;
    for i in 0..marks.len() {
        let mut text = String::new(alloc);
        if let Some(one) = alterations.get(marks[i].place) {
            add_alteration(&mut text, threads, scene.rows.as_slice(), one)?;
        }
        add_marked(out, Glyph::Change, marks, i, y, text)?;
    }
    Ok(())
}

fn add_label(out: &mut String, y: u64, label: &str) -> Result<(), NoMemory>
    requires { y ≤ lowest_bar }
{
    let place = Place {
        x: 1300,
        y: y + 130,
    };
    add_text(out, place, 110, Anchor::End, label)
}

/// The mark at this place, and its text where there is room before the next one.
fn add_marked(
    out: &mut String,
    glyph: Glyph,
    marks: &[Mark],
    i: usize,
    y: u64,
    mut text: String,
) -> Result<(), NoMemory>
    requires place { i < length marks.now }
    requires y { y ≤ lowest_bar }
{
    let Mark { x, more, .. } = marks[i];
    add_glyph(out, glyph, x, y + 60)?;
    if more > 0 {
        write!(text, " +{more}")?;
    }
    if room_behind(marks, i) / LETTER < text.len() as u64 {
        return Ok(());
    }
    let place = Place {
        x: x + 60,
        y: y + 130,
    };
    add_text(out, place, 100, Anchor::Start, text.as_str())
}

/// How much room there is for a text behind the mark at this place.
fn room_behind(marks: &[Mark], i: usize) -> u64
    requires { i < length marks.now }
    ensures { result ≡ room_behind (all_drawn marks.now) i }
{
    let end = match marks.get(i + 1) {
        Some(next) => next.x.saturating_sub(EMPTY),
        None => WIDTH,
    };
    end.saturating_sub(marks[i].x + 60)
}
