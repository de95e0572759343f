//! The runs of a text, and the lives of a run.
ghost use Rattle.std.specs.Prelude.{◌<◌, IfSome, length};
ghost use Rattle.frag_map.specs.Shape.{IsShape};

use crate::worked::fault::Fault;
use crate::worked::line::{Line, parse};
use frag_map::is_shape;
use sig_core::Shape;
use std::alloc::Global;

/// The shape of a run that doesn't tell one.
pub const SHAPE: Shape = Shape {
    nodes: 2,
    replicas: 2,
    fragments: 4,
};

/// The lines of a text that say something.
///
/// # Errors
/// The first line that is none of a run, or `NoMemory`.
pub fn lines_of<'a>(alloc: Global, text: &'a str) -> Result<Vec<Line<'a>>, Fault> {
    let mut lines = Vec::new(alloc);
    let mut at = 0u32;
    let mut nodes = SHAPE.nodes;
    for line in text.lines() {
        at = at.saturating_add(1);
        match parse(line, nodes) {
            Some(Line::Nothing) => {}
            Some(line) if may_stand(lines.last(), &line, nodes) => {
                nodes = nodes_after(nodes, &line);
                lines.extend_from_slice(&[line])?;
            }
            _ => return Err(Fault::Line(at)),
        }
    }
    Ok(lines)
}

// Whether a line may stand behind this one, in a run of so many nodes: a title anywhere, a shape right behind a
// title, or behind a restart if it has the same nodes, what disks do where a run begins, and all else in a run.
fn may_stand(before: Option<&Line>, line: &Line, nodes: u8) -> bool {
    match (before, line) {
        (_, Line::Run(_)) => true,
        (Some(Line::Run(_)), Line::Shape(_)) => true,
        (Some(Line::Restart), Line::Shape(shape)) => shape.nodes == nodes,
        (_, Line::Shape(_)) => false,
        (Some(before), Line::Fail { .. } | Line::Lay { .. }) => is_beginning(before),
        (Some(before), Line::Flip(_)) => is_down(before),
        (before, _) => before.is_some(),
    }
}

// Whether a line is one of those with which a run begins.
fn is_beginning(line: &Line) -> bool {
    matches!(
        line,
        Line::Run(_) | Line::Shape(_) | Line::Fail { .. } | Line::Lay { .. }
    )
}

// Whether the cluster is surely down behind a line.
fn is_down(line: &Line) -> bool {
    matches!(line, Line::Crash | Line::Flip(_))
}

// How many nodes there are in the lines behind one.
fn nodes_after(nodes: u8, line: &Line) -> u8 {
    match line {
        Line::Run(_) => SHAPE.nodes,
        Line::Shape(shape) => shape.nodes,
        _ => nodes,
    }
}

/// The lines of the run whose title stands in front of these.
pub fn front<'a, 'b>(lines: &'b [Line<'a>]) -> &'b [Line<'a>] {
    match lines.iter().position(|line| matches!(line, Line::Run(_))) {
        Some(end) => &lines[..end],
        None => lines,
    }
}

/// How many points a run is made at, where it has any.
pub fn points_of(lines: &[Line]) -> Option<u32> {
    let mut points = None;
    for line in lines {
        if let Line::Points(told) = line {
            points = Some(*told);
        }
    }
    points
}

/// The lines of the life that these begin with, up to the restart behind it.
pub fn life_of<'a, 'b>(lines: &'b [Line<'a>]) -> &'b [Line<'a>] {
    match lines.iter().position(|line| matches!(line, Line::Restart)) {
        Some(end) => &lines[..end],
        None => lines,
    }
}

/// The lines behind the first so many and the restart that follows them.
pub fn behind<'a, 'b>(lines: &'b [Line<'a>], count: usize) -> &'b [Line<'a>] {
    let from = count.saturating_add(1);
    if from < lines.len() {
        &lines[from..]
    } else {
        &[]
    }
}

/// How many lives there are in these lines.
pub fn lives_in(lines: &[Line]) -> u32 {
    let mut lives = 1u32;
    for line in lines {
        if matches!(line, Line::Restart) {
            lives = lives.saturating_add(1);
        }
    }
    lives
}

/// The lines of a life in front of the first loss of power.
pub fn lines_up<'a, 'b>(lines: &'b [Line<'a>]) -> &'b [Line<'a>] {
    match crash_in(lines) {
        Some(end) => &lines[..end],
        None => lines,
    }
}

/// The lines of a life from the first loss of power on.
pub fn lines_down<'a, 'b>(lines: &'b [Line<'a>]) -> &'b [Line<'a>] {
    match crash_in(lines) {
        Some(end) => &lines[end..],
        None => &[],
    }
}

fn crash_in(lines: &[Line]) -> Option<usize>
    ensures { IfSome result (λ end. end < length lines.now) }
{
    lines.iter().position(|line| matches!(line, Line::Crash))
}

/// The shape that lines tell in front of all others, or else this one.
pub fn shape_of(lines: &[Line], before: Shape) -> Shape
    requires { IsShape before }
    ensures { IsShape result }
{
    match lines.first() {
        Some(Line::Shape(shape)) if is_shape(shape) => *shape,
        _ => before,
    }
}
