use refusal::{Refusal, SheetFault};
use std::io;

/// Why printing a ticket stopped: the message is refused, or the output is.
#[derive(Drop)]
pub(crate) enum Failure {
    Refused(SheetFault),
    Output(io::Error),
}

impl From<SheetFault> for Failure {
    fn from(fault: SheetFault) -> Failure {
        Failure::Refused(fault)
    }
}

impl From<io::Error> for Failure {
    fn from(error: io::Error) -> Failure {
        Failure::Output(error)
    }
}

impl Failure {
    /// Prints a refusal on a line of its own; a failure of the output is passed on.
    pub(crate) fn print(self, rt: &HostRuntime) -> io::Result<()> {
        match self {
            Failure::Refused(fault) => rt.println(Refusal::from(fault)),
            Failure::Output(error) => Err(error),
        }
    }
}
