//! The shape of a tree of records.
ghost use Rattle.std.specs.Prelude.{◌≡◌, ◌≤◌};
ghost use Rattle.tso_scan.specs.Scanned.{shape_count};

use std::boxed::Box;

/// A tree without its records: how many each leaf has, from left to right, and which trees are halves of one fork.
#[derive(Drop)]
pub enum Shape {
    Leaf(u32),
    Fork(Box<Shape>, Box<Shape>),
}

impl Shape {
    /// How many records a tree of this shape has, which are within the limits of a certificate.
    pub fn len(&self) -> u64
        requires { shape_count self.now ≤ 4194304 }
        ensures { result ≡ shape_count self.now }
    {
        match self {
            Shape::Leaf(count) => u64::from(*count),
            Shape::Fork(left, right) => left.len() + right.len(),
        }
    }
}
