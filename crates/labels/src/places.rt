//! Where things stand, in pixels.
ghost use Rattle.std.specs.Prelude.{◌≡◌, ◌-◌};
ghost use Rattle.labels.specs.Places.{IsNear, pixels, place_and_size};

use crate::style::FARTHEST;
use markup::{Attribute, AttributeName};

/// Where something with four sides stands.
#[derive(Clone, Copy)]
pub struct Frame {
    pub left: u64,
    pub right: u64,
    pub top: u64,
    pub bottom: u64,
}

impl Frame {
    /// How wide it is.
    fn width(self) -> u64
        ensures { result ≡ self.right - self.left }
    {
        self.right.saturating_sub(self.left)
    }

    /// How high it is.
    fn height(self) -> u64
        ensures { result ≡ self.bottom - self.top }
    {
        self.bottom.saturating_sub(self.top)
    }

    /// Where it begins, and its size: the attributes of a rectangle.
    pub fn attributes(self) -> [Attribute<'static>; 4]
        ensures { result ≡ place_and_size self }
    {
        [
            Attribute::Number(AttributeName::X, self.left),
            Attribute::Number(AttributeName::Y, self.top),
            Attribute::Number(AttributeName::Width, self.width()),
            Attribute::Number(AttributeName::Height, self.height()),
        ]
    }
}

/// So many steps beyond a start; but nothing stands farther than 10^18 pixels.
pub fn pixels(start: u64, count: usize, step: u64) -> u64
    ensures pixels { result ≡ pixels start count step }
    ensures near { IsNear result }
{
    (count as u64)
        .saturating_mul(step)
        .saturating_add(start)
        .min(FARTHEST)
}
