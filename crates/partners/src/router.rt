pub mod calls;
pub mod making;

/// A layer over two partners: operations under the border go to the first, the others to the second.
#[derive(PartialEq, Eq, Debug, Drop)]
pub struct Router<A, B> {
    border: u32,
    first: A,
    second: B,
}
