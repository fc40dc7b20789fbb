//! Why a trace wasn't written whole.
ghost use Rattle.std.specs.Prelude.{◌≡◌};

use aps_io::WriteRefusal;
use aps_model::NoMemory;

/// Why a trace wasn't written whole: the sink met a fault, or there was no memory.
#[derive(Clone, Copy, Debug, PartialEq, Eq)]
pub enum TraceFault {
    WriteFault,
    NoMemory,
}

impl From<NoMemory> for TraceFault {
    ghost use Rattle.view_texts.specs.declared.fault.TraceFault.TheVariants.{NoMemory};

    ghost from_gives = { λ _ e. e ≡ NoMemory };

    fn from(_lack: NoMemory) -> TraceFault {
        TraceFault::NoMemory
    }
}

impl From<WriteRefusal> for TraceFault {
    ghost use Rattle.view_texts.specs.Faults.{trace_fault_of};

    ghost from_gives = { λ refusal e. e ≡ trace_fault_of refusal };

    fn from(refusal: WriteRefusal) -> TraceFault {
        match refusal {
            WriteRefusal::WriteFault => TraceFault::WriteFault,
            WriteRefusal::NoMemory => TraceFault::NoMemory,
        }
    }
}
