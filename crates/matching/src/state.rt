// What stands beside a record while links enter it. All are given by value but the state, which commit alone is lent.
ghost use Rattle.std.specs.Prelude.{◌≡◌};
ghost use Rattle.matching.specs.Enter.{link_on};

// The small running state: how many links the record has, and the number of its last change.
#[repr(C)]
#[derive(Clone, Copy)]
pub struct State {
    pub links: u32,
    pub change: u32,
}

// A link that is to enter.
#[repr(C)]
#[derive(Clone, Copy)]
pub struct Link {
    pub from: u32,
    pub to: u32,
    pub kind: u32,
}

// The link that was asked about, and the change number of the state it was asked by.
#[repr(C)]
#[derive(Clone, Copy)]
pub struct Slip {
    pub from: u32,
    pub to: u32,
    pub kind: u32,
    pub change: u32,
}

impl From<Slip> for Link {
    ghost from_gives = { λ s l. l ≡ link_on s };

    fn from(s: Slip) -> Link {
        Link {
            from: s.from,
            to: s.to,
            kind: s.kind,
        }
    }
}
