// What stands before the frames of a replay, and after them.

// The blocks of codes end at a place: how many there are, and how many of their bytes are codes.
#[derive(Clone, Copy)]
pub enum Codes {
    Ended {
        at: usize,
        blocks: usize,
        actual: usize,
    },
    Wrong,
}

// How many ends there are.
#[derive(Clone, Copy)]
pub enum Ends {
    Good { count: usize },
    Wrong,
}
