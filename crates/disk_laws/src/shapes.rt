//! The shape that system slots have.
ghost use Rattle.disk_laws.specs.Shapes.{ShapesAreKept, ShapesAreRead};

/// Of a system file whose slots are all of one shape the latest slot is the one in use.
pub fn shapes_are_read()
    ensures { ShapesAreRead }
{}

/// Whatever a step of a host has the disk of its node write, its system slots are of the cluster's shape.
pub fn shapes_are_kept()
    ensures { ShapesAreKept }
{}
