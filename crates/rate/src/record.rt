// What a reading and a rate hold.

// A count that was packed: one exact count, or a band from a low to a high count.
#[derive(Clone, Copy)]
pub enum Reading {
    Exact(f64),
    Between(f64, f64),
}

// Counts a second: of the low and of the high edge, and over how many seconds.
#[derive(Clone, Copy)]
pub struct Rate {
    pub low: f64,
    pub high: f64,
    pub seconds: f64,
}
