// Where a replay stands after some of its events.
use read_order::stage::Stage;
use read_scan::tally::Tally;

// After its start and so many full blocks of codes; among its frames; after an end at a place; after two.
#[derive(Clone, Copy)]
pub enum Standing {
    Coding { blocks: usize },
    Framing { stage: Stage, tally: Tally },
    Ending { at: usize },
    Over,
}

// An event came, or it may not.
#[derive(Clone, Copy)]
pub enum Turned {
    Goes { standing: Standing },
    Wrong { reason: u8 },
}
