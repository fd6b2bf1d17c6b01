// What is known before the pass over a file's events.
use super::spans::Spans;
use game::frames::Counts;

// How many bytes events have, whether a FrameStart begins each frame, and how many rows there are.
#[derive(Clone, Copy)]
pub struct Course {
    pub spans: Spans,
    pub start: bool,
    pub counts: Counts,
}

// Where the widths of each family's columns end in one table: they begin where those of the family before them end.
#[derive(Clone, Copy)]
pub struct Borders {
    pub start: usize,
    pub end: usize,
    pub item: usize,
    pub fod: usize,
    pub whispy: usize,
    pub stadium: usize,
}

// For the stores that are no player's: also whether the version has items and a stage's rows. The table of widths is lent beside it.
#[derive(Clone, Copy)]
pub struct Known {
    pub course: Course,
    pub item: bool,
    pub stage: bool,
    pub borders: Borders,
}
