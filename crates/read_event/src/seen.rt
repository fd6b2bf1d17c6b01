// What a pass has seen.

// How many frames began, and the last one's id.
#[derive(Clone, Copy)]
pub struct Open {
    pub frames: usize,
    pub id: u32,
}

// The next row of each store that has one row an event.
#[derive(Clone, Copy)]
pub struct Next {
    pub starts: usize,
    pub ends: usize,
    pub items: usize,
    pub fods: usize,
    pub whispys: usize,
    pub stadiums: usize,
}

#[derive(Clone, Copy)]
pub struct Seen {
    pub opened: Open,
    pub next: Next,
}
