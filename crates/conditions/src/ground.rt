use values::container::Container;

/// The status of an incoming link.
#[derive(Clone, Copy, PartialEq, Eq, Debug)]
pub struct Incoming {
    pub link: u8,
    pub status: bool,
}

/// What the tests of a text are weighed over.
#[derive(Clone, Copy, PartialEq, Eq, Debug)]
pub enum Ground<'a> {
    /// Those of a transition text over the output of the link's source.
    Transition(Container),
    /// Those of a join text over the activity's incoming links with their statuses.
    Join(&'a [Incoming]),
}
