//! What fails in a run of the table, and when.
ghost use Rattle.std.specs.Prelude.{◌≤◌, ◌<◌};

/// How many nodes there are.
const NODES: u64 = 4;
/// All pairs of them.
const PAIRS: [(u8, u8); 6] = [(1, 2), (1, 3), (1, 4), (2, 3), (2, 4), (3, 4)];
/// Behind a stop so many times as many signals are taken, at most, as in the life in which nothing fails.
const UNREST: u64 = 3;

/// What fails in a run, behind so many signals that were taken since the transaction was asked for.
#[derive(Clone, Copy)]
pub enum Failing {
    /// A node stops.
    Stop {
        after: u64,
        node: u8,
    },
    /// Two nodes are cut off from each other.
    Cut {
        after: u64,
        one: u8,
        other: u8,
    },
    /// A node stops, and another one behind so many more signals.
    Stops {
        after: u64,
        node: u8,
        then: u64,
        other: u8,
        /// The table has no later moment for it.
        last: bool,
    },
}

/// What fails in the run of this number, from 0, where the life in which nothing fails has so many signals; none behind
/// the last. First come all stops of a node, then all cuts, and then all stops of two nodes.
pub fn failing_of(number: u64, events: u64) -> Option<Failing> {
    let moments = events.saturating_add(1);
    let stops = moments.saturating_mul(NODES);
    if number < stops {
        return Some(stop_of(number));
    }
    let behind_stops = number - stops;
    let cuts = moments.saturating_mul(6);
    if behind_stops < cuts {
        return Some(cut_of(behind_stops));
    }
    stops_of(behind_stops - cuts, moments)
}

fn stop_of(number: u64) -> Failing {
    let (after, node) = split(number, NODES);
    Failing::Stop {
        after,
        node: 1 + node as u8,
    }
}

fn cut_of(number: u64) -> Failing {
    let (after, pair) = split(number, 6);
    let (one, other) = PAIRS[pair as usize];
    Failing::Cut { after, one, other }
}

// None behind the last of so many moments.
fn stops_of(number: u64, moments: u64) -> Option<Failing> {
    let width = moments.saturating_mul(UNREST).max(1);
    let (rest, node) = split(number, NODES);
    let (rest, more) = split(rest, NODES - 1);
    let (after, then) = split(rest, width);
    if after >= moments {
        return None;
    }
    Some(Failing::Stops {
        after,
        node: 1 + node as u8,
        then,
        other: 1 + ((node + 1 + more) % NODES) as u8,
        last: then == width - 1,
    })
}

// A number in digits of this base: those before the last, and the last.
fn split(number: u64, base: u64) -> (u64, u64)
    requires { 0 < base }
    ensures { result.1 < base }
{
    (number / base, number % base)
}
