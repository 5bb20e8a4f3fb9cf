// How a call ended.
ghost use Rattle.std.specs.Prelude.{◌≡◌};
ghost use Rattle.life_cli.specs.Status.{code_of};

/// How a command ended.
#[derive(Clone, Copy, Debug, PartialEq, Eq)]
pub enum Status {
    /// The file was accepted.
    Done,
    /// The profile's rules diagnose something in the file.
    Diagnosed,
    /// The file is no text of the subset.
    Syntax,
    /// The file breaks a rule of the language, or has a form that is not built, or no run of it may begin
    /// with the function that was named.
    Ill,
    /// A count passed its limit.
    Limit,
    /// The run was stopped by a trap.
    Trap,
    /// The run used something null or dangling.
    Fault,
    /// The run was still going on after its steps.
    Steps,
    /// The words are no job.
    Usage,
    /// The input of the run is refused, or has too few numbers for the function with which it begins.
    Input,
    /// There is no file of the name.
    NoFile,
    /// Memory was wanted and not had.
    NoMemory,
    /// A call of the files failed, and their count of faults rose.
    ReadFault,
    /// A write to out or to err failed, and its count of faults rose.
    WriteFault,
}

impl Status {
    /// The exit status of the program.
    pub fn code(self) -> u8
        ensures { result ≡ code_of self }
    {
        match self {
            Status::Done => 0,
            Status::Diagnosed => 1,
            Status::Syntax => 2,
            Status::Ill => 3,
            Status::Limit => 4,
            Status::Trap => 5,
            Status::Fault => 6,
            Status::Steps => 7,
            Status::Usage => 64,
            Status::Input => 65,
            Status::NoFile => 66,
            Status::NoMemory => 71,
            Status::ReadFault | Status::WriteFault => 74,
        }
    }
}
