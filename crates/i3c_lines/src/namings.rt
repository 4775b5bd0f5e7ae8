ghost use Rattle.std.specs.Prelude.{◌≡◌};
ghost use Rattle.i3c_lines.specs.Namings.{name_given, names_meant};

use crate::command::Command;
use crate::names::Name;
use std::slice;

impl Command {
    /// The name that its line gives to a device or a legacy target, if it gives one.
    pub fn name_given(&self) -> Option<Name>
        ensures { result ≡ name_given self.now }
    {
        match self {
            Command::Legacy { name, .. } => Some(*name),
            Command::Main { name, .. } => Some(*name),
            Command::Attach { name, .. } => Some(*name),
            _ => None,
        }
    }

    /// The names by which its line means devices.
    pub fn names_meant(&self) -> &[Name]
        ensures { result.now ≡ names_meant self.now }
    {
        match self {
            Command::DropOff { name } => slice::from_ref(name),
            Command::Raise { name, .. } => slice::from_ref(name),
            Command::AskJoin { name } => slice::from_ref(name),
            Command::AskRole { name } => slice::from_ref(name),
            Command::Cut { name, .. } => slice::from_ref(name),
            Command::As { name, .. } => slice::from_ref(name),
            Command::PolicyBut { but, .. } => but.as_slice(),
            _ => &[],
        }
    }
}
