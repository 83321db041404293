// The range of an open's fields.
ghost use Rattle.script.specs.Openings.{Ranged, Settled};

use crate::record::Opening;
use crate::settings::Settings;
use replies::Refused;

// A field of 1 to `most`, or the refusal of the field that stands at `place`.
fn from_1_to(most: u32, value: i32, place: usize) -> Result<u32, Refused>
    ensures { Ranged most value place result }
{
    match u32::try_from(value) {
        Ok(n) if (1..=most).contains(&n) => Ok(n),
        _ => Err(Refused::OutOfTurn { place }),
    }
}

impl Opening {
    // The settings that the fields give, or the refusal of the first field that is out of its range. It is called by this
    // name, so it is no TryFrom.
    pub fn settings(self) -> Result<Settings, Refused>
        ensures { Settled self result }
    {
        Ok(Settings {
            width: from_1_to(64, self.width, 1)?,
            height: from_1_to(64, self.height, 2)?,
            base: u8::try_from(self.base).map_err(|_| Refused::OutOfTurn { place: 3 })?,
            buffers: from_1_to(4, self.chain, 4)?,
        })
    }
}
