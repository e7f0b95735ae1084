// What the choice answers.
use gf2::Feedback;

// The feedback that was taken, and how many feedbacks of at least the low degree have a code up to its own.
#[derive(Clone, Copy, Debug, PartialEq, Eq)]
pub struct Choice {
    pub feedback: Feedback,
    pub tried: u32,
}
