//! What is to be said of an image, how the run then ends, and how a line is said.
ghost use Rattle.std.specs.Prelude.{◌≡◌, ◌≢◌};
ghost use Rattle.qx_outside.specs.Calls.{LeavesDevice};
ghost use Rattle.qx_top.specs.Lines.{refused};
ghost use Rattle.qx_top.specs.Says.{HasConsoleCause, Says, code_of};

use crate::Status;
use crate::lines::Line;
use qx_outside::Host;

/// What is to be said of an image, and how the run then ends.
#[derive(Clone, Copy, Debug, PartialEq, Eq)]
pub struct Report {
    pub line: Line,
    pub status: Status,
}

impl Report {
    /// This line, and how the run ends with it.
    pub fn new(line: Line, status: Status) -> Report
        ensures line { result.line ≡ line }
        ensures status { result.status ≡ status }
    {
        Report { line, status }
    }

    /// The line for an image that can't be used.
    pub fn refused(line: Line) -> Report
        ensures { result ≡ refused line }
    {
        Report::new(line, Status::BadImage)
    }
}

/// Gives a line by one call, and answers the status that is owed, or that the console failed.
pub fn say<H: Host>(host: &mut H, line: Line, owed: Status) -> Status
    requires { code_of owed ≢ 4 }
    ensures says { Says line (code_of owed) (code_of result) (H.outside host.old) (H.outside host.new) }
    ensures others { LeavesDevice (H.outside host.old) (H.outside host.new) }
    ensures console { HasConsoleCause (code_of result) (H.outside host.old) (H.outside host.new) }
{
    match host.put(line.text().as_bytes()) {
        Ok(()) => owed,
        Err(_) => Status::ConsoleFault,
    }
}
