// What a mask is asked for.

// Rollback-aware processing typically ignores all but the first or last rollback for a frame.
#[derive(Clone, Copy)]
pub enum Rollbacks {
    ExceptFirst,
    ExceptLast,
}
