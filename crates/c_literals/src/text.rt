// The units of a string literal (ISO C11 6.4.5p6), as far as they have been read.
ghost use Rattle.std.specs.Prelude.{◌≡◌, ◌++◌, ℕ, List, [], ◌∷◌, OnOk, Some};
ghost use Rattle.c_literals.specs.Kept;
ghost use Rattle.c_literals.specs.Strings;
ghost use Rattle.c_literals.specs.Texts.{kept};
ghost use Rattle.c_literals.specs.Units;

use crate::prefix::Prefix;
use crate::seen::limit;
use std::alloc::{AllocError, Global};

/// The units that were read, and whether something that has no unit was among them.
#[derive(Drop)]
pub(crate) struct Text {
    pub units: Vec<u32>,
    pub faulty: bool,
}

impl Text {
    pub(crate) fn new(alloc: Global) -> Text
        ensures { kept result ≡ Strings.Units [] }
    {
        Text {
            units: Vec::new(alloc),
            faulty: false,
        }
    }

    fn push(&mut self, unit: u32) -> Result<(), AllocError>
        ensures { OnOk result (kept self.new ≡ Strings.followed (kept self.old) (Strings.Units (unit ∷ []))) }
    {
        self.units.push(unit)?;
        Ok(())
    }

    fn add_bytes(&mut self, bytes: &[u8]) -> Result<(), AllocError>
        ensures { OnOk result (kept self.new ≡ Strings.followed (kept self.old) (Strings.Units bytes.now)) }
    {
        let mut rest = bytes;
        while let Some((byte, behind)) = rest.split_first() {
            rest = behind;
            self.push(*byte as u32)?;
        }
        Ok(())
    }

    #[tactic(auto, unfolding(crate::specs::Units::utf_16))]
    fn add_utf_16(&mut self, c: char) -> Result<(), AllocError>
        ensures { OnOk result (kept self.new ≡ Strings.followed (kept self.old) (Strings.Units (Units.utf_16 c))) }
    {
        let c = c as u32;
        if c < 0x1_0000 {
            return self.push(c);
        }
        let past = c - 0x1_0000;
        self.push(0xD800 + past / 0x400)?;
        self.push(0xDC00 + past % 0x400)
    }

    /// The units of one code point.
    pub(crate) fn add_char(&mut self, prefix: Prefix, c: char) -> Result<(), AllocError>
        ensures { OnOk result (kept self.new ≡ Strings.followed (kept self.old) (Strings.Units (Units.encoded prefix c))) }
    {
        match prefix {
            Prefix::Narrow | Prefix::Utf8 => {
                let mut buffer = [0u8; 4];
                self.add_bytes(c.encode_utf8(&mut buffer).as_bytes())
            }
            Prefix::Char16 => self.add_utf_16(c),
            Prefix::Char32 => self.push(c as u32),
            Prefix::Wide => self.push(c as u32),
        }
    }

    fn fail(&mut self)
        ensures { kept self.new ≡ Strings.followed (kept self.old) Strings.Faulty }
    {
        self.faulty = true;
    }

    /// The unit of an escape with this value; without one it is no escape.
    #[tactic(auto, unfolding(crate::specs::Units::one_unit))]
    pub(crate) fn add_escape(
        &mut self,
        prefix: Prefix,
        value: Option<u64>,
    ) -> Result<(), AllocError>
        ensures { OnOk result (kept self.new ≡ Strings.followed (kept self.old) (Strings.of_units (Kept.units_at prefix value))) }
    {
        let Some(value) = value else {
            self.fail();
            return Ok(());
        };
        if value < limit(prefix) {
            return self.push(value as u32);
        }
        self.fail();
        Ok(())
    }
}
