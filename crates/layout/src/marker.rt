// The two pads of a frame, and its marker.
ghost use Rattle.std.specs.Prelude.{◌≡◌, true, false};
ghost use Rattle.layout.specs.Layout.{other};

// The two pads of a frame: the live one counts, the idle one is written next.
#[derive(Clone, Copy, PartialEq, Eq, Debug)]
pub enum Pad {
    Zero,
    One,
}

impl Pad {
    pub fn other(self) -> Pad
        ensures { result ≡ other self }
    {
        match self {
            Pad::Zero => Pad::One,
            Pad::One => Pad::Zero,
        }
    }
}

// What a frame's last byte says: which pad is live, and whether the stack ends here.
#[derive(Clone, Copy, PartialEq, Eq, Debug)]
pub struct Marker {
    pub live: Pad,
    pub last: bool,
}

impl Marker {
    // After a call: the stack goes on behind this frame.
    pub fn called(self) -> Marker
        ensures { result ≡ record { live = self.live; last = false } }
    {
        Marker {
            last: false,
            ..self
        }
    }

    // After a note: the other pad is live.
    pub fn noted(self) -> Marker
        ensures { result ≡ record { live = other self.live; last = self.last } }
    {
        Marker {
            live: self.live.other(),
            ..self
        }
    }

    // After a give, in the frame below the one removed: the other pad is live, and the stack ends here.
    pub fn given(self) -> Marker
        ensures { result ≡ record { live = other self.live; last = true } }
    {
        Marker {
            last: true,
            ..self.noted()
        }
    }
}

// Its byte: bit 0 is set where the stack ends; bit 1 is the number of the live pad.
impl From<Marker> for u8 {
    ghost use Rattle.layout.specs.Markers.{IsByte};

    ghost from_gives = { IsByte };

    fn from(marker: Marker) -> u8 {
        match (marker.live, marker.last) {
            (Pad::Zero, false) => 0,
            (Pad::Zero, true) => 1,
            (Pad::One, false) => 2,
            (Pad::One, true) => 3,
        }
    }
}

// A byte that no marker has: another bit than 0 and 1 is set.
#[derive(Clone, Copy, PartialEq, Eq, Debug)]
pub struct NoMarker;

impl TryFrom<u8> for Marker {
    ghost use Rattle.layout.specs.Markers.{IsMarker};

    type Error = NoMarker;

    ghost try_from_gives = { IsMarker };

    fn try_from(byte: u8) -> Result<Marker, NoMarker> {
        let (live, last) = match byte {
            0 => (Pad::Zero, false),
            1 => (Pad::Zero, true),
            2 => (Pad::One, false),
            3 => (Pad::One, true),
            _ => return Err(NoMarker),
        };
        Ok(Marker { live, last })
    }
}
