// The source of a contract's energy.
ghost use Rattle.std.specs.Prelude.{◌≡◌};
ghost use Rattle.entry.specs.Sources.{IsSourceOf, source_number};

// The sources by their numbers, which an offer names them by.
#[derive(Clone, Copy, PartialEq, Eq, Debug)]
pub enum Source {
    Conventional = 0,
    Incentivised = 1,
}

// A number that no source has.
#[derive(Clone, Copy, PartialEq, Eq, Debug)]
pub struct UnknownSource(pub u16);

impl TryFrom<u16> for Source {
    type Error = UnknownSource;

    ghost try_from_gives = { IsSourceOf };

    fn try_from(number: u16) -> Result<Source, UnknownSource> {
        match number {
            0 => Ok(Source::Conventional),
            1 => Ok(Source::Incentivised),
            _ => Err(UnknownSource(number)),
        }
    }
}

impl From<Source> for u16 {
    ghost from_gives = { λ source number. number ≡ source_number source };

    fn from(source: Source) -> u16 {
        source as u16
    }
}
