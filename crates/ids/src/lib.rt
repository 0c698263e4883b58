// Names of tasks. A slot is used by one tenant after another, and the epoch says which of them is meant: a wake for
// a task that has ended must not reach the next tenant of its slot.
#![tactic(auto)]

ghost use Rattle.std.specs.Prelude.{◌≡◌};
ghost use Rattle.ids.specs.Id.{packed, unpacked, same_id};

// The structs of the product are laid out as C lays them out, so that firmware can pass them.
#[repr(C)]
#[derive(Clone, Copy, Debug, PartialEq, Eq, Hash)]
pub struct TaskId {
    pub slot: u16,
    pub epoch: u16,
}

// A packed task id, as it travels through the wake queue.
#[repr(C)]
#[derive(Clone, Copy, Debug, PartialEq, Eq, Hash)]
pub struct Token(pub u32);

impl TaskId {
    // The idle task of CPU 0.
    pub const IDLE: TaskId = TaskId { slot: 0, epoch: 0 };

    pub fn new(slot: u16, epoch: u16) -> Self
        ensures { result ≡ record { slot = slot; epoch = epoch } }
    {
        Self { slot, epoch }
    }

    pub fn slot(self) -> usize
        ensures { result ≡ self.slot }
    {
        self.slot as usize
    }

    pub fn epoch(self) -> u16
        ensures { result ≡ self.epoch }
    {
        self.epoch
    }

    pub fn to_raw(self) -> Token
        ensures { result.0 ≡ packed self }
    {
        Token((self.epoch as u32) * 65536 + (self.slot as u32))
    }

    pub fn from_raw(token: Token) -> Self
        ensures { result ≡ unpacked token.0 }
    {
        let raw = token.0;
        Self {
            slot: (raw % 65536) as u16,
            epoch: (raw / 65536) as u16,
        }
    }

    // Whether both name the same tenant of the same slot.
    pub fn same(self, other: TaskId) -> bool
        ensures { result ≡ same_id self other }
    {
        self == other
    }
}
