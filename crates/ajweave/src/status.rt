use aj_outside::Name;
use class_format::ClassFault;
use class_world::WorldFault;

/// The one thing that is wrong with the input. A file is named without the folder IN.
#[derive(Debug, Drop)]
pub enum Refusal {
    /// More than 65,536 files are listed.
    ManyFiles,
    /// This file is the first that is longer than 16,777,216 bytes. The file of a script comes behind those
    /// of classes, and is named as it was given.
    BigFile(Name),
    /// There is no file of this name, which was given as that of a script.
    NoScript(Name),
    /// This line of the file of a script, from 1 on, is the first that is no answer.
    Script(Name, u64),
    /// This class file is the first that is none, with the first fault in it.
    Class(Name, ClassFault),
    /// The classes have this first fault as a world.
    World(WorldFault),
    /// This file is the first that is not of a form that is built.
    NotBuilt(Name),
    /// No method takes the entry, which is named as it was given.
    NoEntry(Name),
}

/// What a call of the program answers. Each answer has a number, with which the process ends.
#[derive(Debug, Drop)]
pub enum Status {
    /// 0: the weaving is written.
    Done,
    /// 0: the method that was run returned.
    Returned,
    /// 1: the input is refused, and its one line is printed.
    Refused(Refusal),
    /// 2: the words are no command, and the usage line is printed.
    Usage,
    /// 3: the shelf failed to list or to read.
    ReadFault,
    /// 4: the shelf failed to write.
    WriteFault,
    /// 5: the sink failed.
    PrintFault,
    /// 7: memory ran out.
    OutOfMemory,
    /// 10: an exception left the method that was run.
    Uncaught,
    /// 11: an exception left an initialiser, in a run.
    InitFailed,
    /// 12: the run called `System.exit`.
    Exit,
    /// 13: the run came to an instruction that computes with floating-point numbers.
    Unmodelled,
    /// 14: the run came to a class or a member that isn't there.
    Unresolved,
    /// 15: the run came to code that does what no verified code does.
    Broken,
    /// 16: the steps were spent before the run ended.
    StepsSpent,
    /// 17: a native call found no answer that fits it.
    ScriptEnds,
}

impl Status {
    ghost use Rattle.std.specs.Prelude.{◌≡◌};
    ghost use Rattle.ajweave.specs.Answers.{code_of};

    /// The status with which the process ends.
    pub fn code(&self) -> u8
        ensures { result ≡ code_of self.now }
    {
        match self {
            Status::Done | Status::Returned => 0,
            Status::Refused(_) => 1,
            Status::Usage => 2,
            Status::ReadFault => 3,
            Status::WriteFault => 4,
            Status::PrintFault => 5,
            Status::OutOfMemory => 7,
            Status::Uncaught => 10,
            Status::InitFailed => 11,
            Status::Exit => 12,
            Status::Unmodelled => 13,
            Status::Unresolved => 14,
            Status::Broken => 15,
            Status::StepsSpent => 16,
            Status::ScriptEnds => 17,
        }
    }
}
