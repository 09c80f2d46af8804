// The piles of layers that a case may ask.

// Which layers stand over the walk, from the lowest to the highest.
#[derive(Clone, Copy)]
pub enum Shape {
    Walk,
    Gate,
    Opposite,
    GateOppositeGate,
    TwoGates,
}

// A case is all numbers, so that a shape is one too.
impl From<u16> for Shape {
    fn from(number: u16) -> Shape {
        match number {
            0 => Shape::Walk,
            1 => Shape::Gate,
            2 => Shape::Opposite,
            3 => Shape::GateOppositeGate,
            _ => Shape::TwoGates,
        }
    }
}
