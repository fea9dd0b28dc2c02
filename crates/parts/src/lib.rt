//! The records of a definition, as its bytes have them.

#![tactic(auto)]

ghost use Rattle.parts.specs.Kinds.{HasKind};

/// An activity: its operation, its priority, and its flags.
#[derive(Clone, Copy, PartialEq, Eq, Default, Debug)]
pub struct Activity {
    pub operation: u16,
    pub priority: u8,
    pub flags: u8,
}

/// A link from one activity to another.
#[derive(Clone, Copy, PartialEq, Eq, Default, Debug)]
pub struct Link {
    pub source: u8,
    pub target: u8,
}

/// What a field of an activity's input is taken from.
#[derive(Clone, Copy, PartialEq, Eq, Default, Debug)]
pub struct Connector {
    pub target: u8,
    pub target_field: u8,
    /// A byte as it was read: that it is the number of a kind is for the rules to say.
    pub kind: u8,
    pub source: u8,
    pub source_field: u8,
}

/// What a connector takes a field of.
#[derive(Clone, Copy, PartialEq, Eq, Debug)]
pub enum ConnectorKind {
    /// Of the case.
    Case,
    /// Of an activity's output.
    Output,
}

/// A number that stands for no kind of connector.
#[derive(Clone, Copy, PartialEq, Eq, Debug)]
pub struct UnknownKind(pub u8);

impl TryFrom<u8> for ConnectorKind {
    type Error = UnknownKind;

    ghost try_from_gives = { HasKind };

    fn try_from(number: u8) -> Result<ConnectorKind, UnknownKind> {
        match number {
            1 => Ok(ConnectorKind::Case),
            2 => Ok(ConnectorKind::Output),
            _ => Err(UnknownKind(number)),
        }
    }
}
