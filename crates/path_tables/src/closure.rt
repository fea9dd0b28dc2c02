use crate::pairs::ActivityPairs;

mod calls;

/// What each activity reaches by one or more links.
#[derive(Clone, Copy)]
pub struct Reach {
    pairs: ActivityPairs,
}
