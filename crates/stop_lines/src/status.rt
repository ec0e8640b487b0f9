ghost use Rattle.std.specs.Prelude.{◌≡◌};

/// How a run ended.
#[derive(Clone, Copy, Debug, PartialEq, Eq)]
pub enum Status {
    Ok,
    Refused,
    BadWords,
    ReadFault,
    WriteFault,
    OutOfMemory,
    ListTooLarge,
    BadVertex,
    CountTooLarge,
    BalanceTooLarge,
    GrowTooLarge,
}

impl Status {
    ghost use Rattle.std.specs.Prelude.{◌≡◌};
    ghost use Rattle.stop_lines.specs.Statuses.{code_of};

    /// The number with which the process ends.
    pub fn code(&self) -> u8
        ensures { result ≡ code_of self.now }
    {
        match self {
            Status::Ok => 0,
            Status::Refused => 1,
            Status::BadWords => 2,
            Status::ReadFault => 3,
            Status::WriteFault => 4,
            Status::OutOfMemory => 5,
            Status::ListTooLarge => 6,
            Status::BadVertex => 7,
            Status::CountTooLarge => 8,
            Status::BalanceTooLarge => 9,
            Status::GrowTooLarge => 10,
        }
    }
}
