//! What a line of a run says.
use crate::worked::words::{byte, cut_word, end, host, large, node, number, number_behind};
use frag_map::is_shape;
use script_lang::{Command, parse_line};
use sig_core::{HostId, Shape};
use world_views::Pick;

/// How many signals are taken.
#[derive(Clone, Copy)]
pub enum Signals {
    /// All, until none is under way.
    All,
    /// As many as the point of the run.
    Point,
    Number(u32),
}

/// A byte of the disk of a node.
#[derive(Clone, Copy)]
pub struct DiskByte {
    pub node: u8,
    pub file: u8,
    pub at: u64,
}

/// What a line of a run says.
#[derive(Clone, Copy)]
pub enum Line<'a> {
    /// It is empty, or a comment.
    Nothing,
    /// A run of this title begins, on disks that were never written.
    Run(&'a str),
    /// The shape of its cluster.
    Shape(Shape),
    /// It is made at so many points.
    Points(u32),
    /// The call of this number of a node's disk fails.
    Fail { node: u8, call: u64 },
    /// The next pick of a node's disk.
    Lay { node: u8, pick: u8 },
    /// The shell is asked for this.
    Ask(Command),
    /// The same, and signals are taken to quiet.
    Serve(Command),
    /// A pick is made, so many times.
    Pick { pick: Pick, times: u32 },
    Drive(Signals),
    /// Power is cut.
    Crash,
    /// The next life begins.
    Restart,
    /// A byte of a node's disk is changed, while no life is under way.
    Flip(DiskByte),
    /// It is told how many calls of a node's disk were made.
    Calls(u8),
    /// It is told which life it is, and what it began with.
    Life,
    /// The steps of a host are told.
    Log(HostId),
    /// It is told how many signals of a kind were taken.
    Count(&'a str),
}

/// What a line says in a cluster of so many nodes, if it is a line of a run.
pub fn parse<'a>(line: &'a str, nodes: u8) -> Option<Line<'a>> {
    let (first, rest) = cut_word(line);
    match first {
        "" if rest.is_empty() => Some(Line::Nothing),
        "#" => Some(Line::Nothing),
        "run" => Some(Line::Run(rest)),
        "shape" => shape(rest),
        "points" => points(rest),
        "fail" => fail(rest, nodes),
        "lay" => lay(rest, nodes),
        "ask" => Some(Line::Ask(command(rest, nodes)?)),
        "do" => Some(Line::Serve(command(rest, nodes)?)),
        "take" => take(rest),
        "stop" => stop(rest),
        "cut" => cut(rest, nodes),
        "drive" => drive(rest),
        "crash" if rest.is_empty() => Some(Line::Crash),
        "restart" if rest.is_empty() => Some(Line::Restart),
        "flip" => flip(rest, nodes),
        "calls" => calls(rest, nodes),
        "life" if rest.is_empty() => Some(Line::Life),
        "log" => log(rest),
        "count" => Some(Line::Count(rest)),
        _ => None,
    }
}

// Something that a cluster is asked for. That it crashes and restarts has lines of its own.
fn command(rest: &str, nodes: u8) -> Option<Command> {
    match parse_line(rest.as_bytes(), false, nodes) {
        Ok(Some(Command::Crash | Command::Restart)) => None,
        Ok(command) => command,
        Err(_) => None,
    }
}

fn shape<'a>(rest: &'a str) -> Option<Line<'a>> {
    let mut words = rest.split_whitespace();
    let nodes = byte(&mut words)?;
    let replicas = byte(&mut words)?;
    let fragments = byte(&mut words)?;
    let shape = Shape {
        nodes,
        replicas,
        fragments,
    };
    if !is_shape(&shape) {
        return None;
    }
    end(&mut words)?;
    Some(Line::Shape(shape))
}

fn points<'a>(rest: &'a str) -> Option<Line<'a>> {
    let mut words = rest.split_whitespace();
    let points = number(&mut words)?;
    end(&mut words)?;
    Some(Line::Points(points))
}

fn fail<'a>(rest: &'a str, nodes: u8) -> Option<Line<'a>> {
    let mut words = rest.split_whitespace();
    let node = node(&mut words, nodes)?;
    let call = large(&mut words)?;
    end(&mut words)?;
    Some(Line::Fail { node, call })
}

fn lay<'a>(rest: &'a str, nodes: u8) -> Option<Line<'a>> {
    let mut words = rest.split_whitespace();
    let node = node(&mut words, nodes)?;
    let pick = byte(&mut words)?;
    end(&mut words)?;
    Some(Line::Lay { node, pick })
}

fn take<'a>(rest: &'a str) -> Option<Line<'a>> {
    let mut words = rest.split_whitespace();
    let host_taking = host(&mut words)?;
    let from = host(&mut words)?;
    let times = number_behind(&mut words, "times", 1)?;
    end(&mut words)?;
    let pick = Pick::Take {
        host: host_taking,
        from,
    };
    Some(Line::Pick { pick, times })
}

fn stop<'a>(rest: &'a str) -> Option<Line<'a>> {
    let mut words = rest.split_whitespace();
    let host = host(&mut words)?;
    let lost = number_behind(&mut words, "lose", 0)?;
    end(&mut words)?;
    let pick = Pick::Stop { host, lost };
    Some(Line::Pick { pick, times: 1 })
}

fn cut<'a>(rest: &'a str, nodes: u8) -> Option<Line<'a>> {
    let mut words = rest.split_whitespace();
    let host = host(&mut words)?;
    let node = node(&mut words, nodes)?;
    end(&mut words)?;
    let pick = Pick::Cut { host, node };
    Some(Line::Pick { pick, times: 1 })
}

fn drive<'a>(rest: &'a str) -> Option<Line<'a>> {
    match rest {
        "" => Some(Line::Drive(Signals::All)),
        "point" => Some(Line::Drive(Signals::Point)),
        _ => {
            let mut words = rest.split_whitespace();
            let signals = number(&mut words)?;
            end(&mut words)?;
            Some(Line::Drive(Signals::Number(signals)))
        }
    }
}

fn flip<'a>(rest: &'a str, nodes: u8) -> Option<Line<'a>> {
    let mut words = rest.split_whitespace();
    let node = node(&mut words, nodes)?;
    let file = byte(&mut words)?;
    let at = large(&mut words)?;
    end(&mut words)?;
    Some(Line::Flip(DiskByte { node, file, at }))
}

fn calls<'a>(rest: &'a str, nodes: u8) -> Option<Line<'a>> {
    let mut words = rest.split_whitespace();
    let node = node(&mut words, nodes)?;
    end(&mut words)?;
    Some(Line::Calls(node))
}

fn log<'a>(rest: &'a str) -> Option<Line<'a>> {
    let mut words = rest.split_whitespace();
    let host = host(&mut words)?;
    end(&mut words)?;
    Some(Line::Log(host))
}
