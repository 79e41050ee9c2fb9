// Which streams a payload carries: 0 both, 1 luma only, 2 chroma only. No kind has the number 3, nor any above.
ghost use Rattle.std.specs.Prelude.{◌≡◌, not, eqb};
ghost use Rattle.wire_fields.specs.Kinds.{number_of, Decodes};

// Which streams a payload carries.
#[derive(Clone, Copy, Debug, PartialEq, Eq)]
pub enum Kind {
    Both,
    Luma,
    Chroma,
}

// A number that no kind has.
#[derive(Clone, Copy, Debug, PartialEq, Eq)]
pub struct UnknownKind(pub u32);

impl TryFrom<u32> for Kind {
    type Error = UnknownKind;

    ghost try_from_gives = { Decodes };

    fn try_from(number: u32) -> Result<Self, UnknownKind> {
        match number {
            0 => Ok(Kind::Both),
            1 => Ok(Kind::Luma),
            2 => Ok(Kind::Chroma),
            _ => Err(UnknownKind(number)),
        }
    }
}

impl Kind {
    // The number that stands for it in a payload.
    pub fn number(self) -> u32
        ensures { result ≡ number_of self }
    {
        match self {
            Kind::Both => 0,
            Kind::Luma => 1,
            Kind::Chroma => 2,
        }
    }

    pub fn has_luma(self) -> bool
        ensures { result ≡ not (eqb (number_of self) 2) }
    {
        self != Kind::Chroma
    }

    pub fn has_chroma(self) -> bool
        ensures { result ≡ not (eqb (number_of self) 1) }
    {
        self != Kind::Luma
    }
}
