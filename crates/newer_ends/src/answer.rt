// The ends of a newer recorder's file.

// How many ends there are, and where the first one's payload stands: 0 where there is none.
#[derive(Clone, Copy)]
pub enum Ends {
    Good { count: usize, at: usize },
    Wrong,
}
