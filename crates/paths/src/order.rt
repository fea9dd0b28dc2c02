use lists::BoundedList;

mod calls;

/// The activities by rank.
#[derive(Clone, Copy)]
pub struct Ranking {
    order: BoundedList<u8, 32>,
}
