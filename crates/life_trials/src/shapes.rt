//! The shape of a run's cluster.
ghost use Rattle.frag_map.specs.Shape.{IsShape};
ghost use Rattle.std.specs.Prelude.{◌≤◌, ◌<◌};

use frag_map::is_shape;
use life_judge::Dice;
use sig_core::Shape;

/// The smallest shape in which each row is on two nodes.
const PAIR: Shape = Shape {
    nodes: 2,
    replicas: 2,
    fragments: 1,
};

/// The shape that a seed has, and the dice for what is drawn besides. In one case of four any shape is as likely.
pub fn drawn(seed: u64) -> (Dice, Shape)
    ensures { IsShape result.1 }
{
    let mut dice = Dice::new(seed);
    let shape = shape_of(&mut dice);
    (dice, shape)
}

fn shape_of(dice: &mut Dice) -> Shape
    ensures { IsShape result }
{
    let (nodes, replicas, fragments) = match dice.roll(12) {
        0 | 1 => (4, 2, 4),
        2 => (3, 3, 1),
        4 => (6, 3, 2),
        5 => (4, 4, 3),
        7 => (8, 2, 32),
        8 => (3, 1, 6),
        9 | 11 => (2, 2, 1),
        _ => return any_shape(dice),
    };
    Shape {
        nodes,
        replicas,
        fragments,
    }
}

fn any_shape(dice: &mut Dice) -> Shape
    ensures { IsShape result }
{
    let replicas = 1 + dice.roll(4) as u8;
    let groups = 1 + dice.roll(most_groups(replicas)) as u8;
    let shape = Shape {
        nodes: replicas.saturating_mul(groups),
        replicas,
        fragments: 1 + dice.roll(32) as u8,
    };
    if is_shape(&shape) { shape } else { PAIR }
}

// How many groups of so many nodes eight nodes make.
fn most_groups(replicas: u8) -> u64
    ensures some { 0 < result }
    ensures few { result ≤ 8 }
{
    match replicas {
        1 => 8,
        2 => 4,
        _ => 2,
    }
}
