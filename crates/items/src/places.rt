// The order of lines: the environment before the first call, and a host's rows between the host and the next call.
ghost use Rattle.std.specs.Prelude.{◌≡◌};
ghost use Rattle.items.specs.Order.{class_of, next};

use crate::faults::Malformed;
use crate::items::{HostKind, Item};

/// Where the reading of a file has come to.
#[derive(Clone, Copy)]
pub struct Place {
    /// Whether a call has been read.
    called: bool,
    /// The host that takes rows.
    host: Option<HostKind>,
}

/// What a line is, as far as its place goes.
#[derive(Drop)]
enum Class {
    Environment,
    Host(HostKind),
    /// A row of a host of that kind.
    Row(HostKind),
    /// A row of any host.
    Sign,
    Call,
}

impl From<Item> for Class {
    ghost from_gives = { λ item class. class ≡ class_of item };

    fn from(item: Item) -> Class {
        match item {
            Item::Limit { .. }
            | Item::Expand { .. }
            | Item::Symbol { .. }
            | Item::Type { .. }
            | Item::Const { .. }
            | Item::Term { .. }
            | Item::Source { .. } => Class::Environment,
            Item::Host { kind } => Class::Host(kind),
            Item::Row { .. } => Class::Row(HostKind::Measure),
            Item::Code { .. } | Item::Make { .. } | Item::Lit { .. } => {
                Class::Row(HostKind::Listed)
            }
            Item::Sign { .. } => Class::Sign,
            Item::Open
            | Item::Converter { .. }
            | Item::Close
            | Item::Rule { .. }
            | Item::Finish
            | Item::Run { .. }
            | Item::Dump => Class::Call,
        }
    }
}

impl Place {
    /// Before the first line.
    pub const START: Place = Place {
        called: false,
        host: None,
    };

    /// The place behind the line, if it may stand here.
    pub fn after(self, item: Item) -> Result<Place, Malformed>
        ensures { result ≡ next self (class_of item) }
    {
        match Class::from(item) {
            Class::Environment if self.called => Err(Malformed::AfterCall),
            Class::Environment => Ok(self),
            Class::Host(kind) => Ok(Place {
                host: Some(kind),
                ..self
            }),
            Class::Row(kind) if self.host == Some(kind) => Ok(self),
            Class::Sign if self.host.is_some() => Ok(self),
            Class::Row(_) | Class::Sign => Err(Malformed::NoHost),
            Class::Call => Ok(Place {
                called: true,
                host: None,
            }),
        }
    }
}
